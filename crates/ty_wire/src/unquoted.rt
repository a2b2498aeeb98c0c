// A text between quotes at the front of bytes, read back from the escapes that a message has. What
// has no escape is copied 16 bytes at a time.
ghost use Rattle.std.specs.Prelude.{◌≡◌, ◌+◌, ◌<◌, ◌≤◌, ◌++◌, length, take, get_or, IfOk, IfSome};
ghost use Rattle.json.specs.Print.{escape_letter, escape_byte, escape, quoted};
ghost use Rattle.ty_wire.specs.steps.Placed.{ReadsPart};

use crate::place::{lengthen, place};
use crate::quoted::{LANES, hex, letter, place_plain};
use std::alloc::Global;
use ty_base::{NoMemory, Text, TextFault};

// A text, and what is behind its closing quote.
#[derive(Drop)]
pub(crate) struct QuotedText<'a> {
    pub text: Text,
    pub rest: &'a [u8],
}

// Where what was read back ends in a buffer, and the bytes behind it.
#[derive(Clone, Copy)]
struct Part<'a> {
    end: usize,
    rest: &'a [u8],
}

// What is behind these bytes, where they stand at the front.
#[inline(always)]
pub(crate) fn behind<'a>(bytes: &'a [u8], front: &[u8]) -> Option<&'a [u8]>
    ensures { IfSome result (λ rest. bytes.now ≡ front.now ++ rest.now) }
{
    if bytes.len() < front.len() {
        return None;
    }
    let (head, rest) = bytes.split_at(front.len());
    if head == front { Some(rest) } else { None }
}

// The text at the front, where it is UTF-8 and stands there in its one spelling. The bytes between
// the quotes go through `scratch`.
pub(crate) fn unquoted<'a>(
    alloc: Global,
    scratch: &mut Vec<u8>,
    bytes: &'a [u8],
) -> Result<Option<QuotedText<'a>>, NoMemory>
    ensures { IfOk result (λ o. IfSome o (λ u. bytes.now ≡ quoted u.text ++ u.rest.now)) }
{
    let Some(inside) = behind(bytes, b"\"") else {
        return Ok(None);
    };
    make_room(scratch, inside.len())?;
    let part = unescape(scratch.as_mut_slice(), inside);
    let Some(rest) = behind(part.rest, b"\"") else {
        return Ok(None);
    };
    match Text::read(alloc, &scratch.as_slice()[..part.end]) {
        Ok(text) => Ok(Some(QuotedText { text, rest })),
        Err(TextFault::NotUtf8) => Ok(None),
        Err(TextFault::NoMemory) => Err(NoMemory),
    }
}

// Makes a buffer long enough for so many bytes to be read back.
fn make_room(scratch: &mut Vec<u8>, len: usize) -> Result<(), NoMemory>
    ensures { IfOk result (λ _. len + LANES ≤ length scratch.new.items) }
{
    let wanted = len.checked_add(LANES).ok_or(NoMemory)?;
    let now = scratch.as_slice().len();
    if now < wanted {
        scratch.reserve(wanted - now)?;
        lengthen(scratch, wanted);
    }
    Ok(())
}

// Reads back what is before the first quote, or before the first byte that stands in no text.
fn unescape<'a>(buf: &mut [u8], bytes: &'a [u8]) -> Part<'a>
    requires { length bytes.now + LANES ≤ length buf.old }
    ensures within { result.end ≤ length buf.new }
    ensures read { bytes.now ≡ escape (take result.end buf.new) ++ result.rest.now }
{
    let mut end = 0;
    let mut rest = bytes;
    while !rest.is_empty() {
        let part = unescape_part(buf, end, rest);
        if part.rest.len() == rest.len() {
            return part;
        }
        end = part.end;
        rest = part.rest;
    }
    Part { end, rest }
}

// Reads back the bytes up to the first escape, and that. Where a quote is at the front, nothing.
#[inline(always)]
fn unescape_part<'a>(buf: &mut [u8], at: usize, bytes: &'a [u8]) -> Part<'a>
    requires { at + length bytes.now + LANES ≤ length buf.old }
    ensures { ReadsPart buf.old buf.new at bytes.now result.rest.now result.end }
{
    let count = place_plain(buf, at, bytes);
    let rest = &bytes[count..];
    match byte_at(rest) {
        Some((byte, rest)) => Part {
            end: place(buf, at + count, &[byte]),
            rest,
        },
        None => Part {
            end: at + count,
            rest,
        },
    }
}

// The byte of a text that stands at the front, and what is behind it.
#[inline(always)]
fn byte_at(bytes: &[u8]) -> Option<(u8, &[u8])>
    ensures { IfSome result (λ found. bytes.now ≡ escape_byte found.0 ++ found.1.now) }
{
    if bytes.is_empty() {
        return None;
    }
    let byte = bytes[0];
    if byte == b'\\' {
        return escaped_at(bytes);
    }
    if byte < 0x20 {
        return None;
    }
    if letter(byte) > 0 {
        return None;
    }
    Some((byte, &bytes[1..]))
}

// The byte whose escape stands at the front, which is a backslash.
#[inline(always)]
fn escaped_at(bytes: &[u8]) -> Option<(u8, &[u8])>
    requires { get_or bytes.now 0 0 ≡ 92 }
    ensures { IfSome result (λ found. bytes.now ≡ escape_byte found.0 ++ found.1.now) }
{
    if bytes.len() < 2 {
        return None;
    }
    match lettered(bytes[1]) {
        Some(byte) => Some((byte, &bytes[2..])),
        None => control_at(bytes),
    }
}

// The byte whose short escape has this letter.
#[inline(always)]
fn lettered(letter: u8) -> Option<u8>
    ensures some { IfSome result (λ _. 0 < letter) }
    ensures letter { IfSome result (λ byte. letter ≡ escape_letter byte) }
{
    match letter {
        b'"' => Some(b'"'),
        b'\\' => Some(b'\\'),
        b'b' => Some(0x08),
        b'f' => Some(0x0C),
        b'n' => Some(b'\n'),
        b'r' => Some(b'\r'),
        b't' => Some(b'\t'),
        _ => None,
    }
}

// The control character whose escape of six bytes stands at the front.
fn control_at(bytes: &[u8]) -> Option<(u8, &[u8])>
    ensures { IfSome result (λ found. bytes.now ≡ escape_byte found.0 ++ found.1.now) }
{
    if bytes.len() < 6 {
        return None;
    }
    let byte = seeming(bytes[4], bytes[5]);
    if letter(byte) > 0 || byte >= 0x20 {
        return None;
    }
    let rest = behind(
        bytes,
        &[b'\\', b'u', b'0', b'0', hex(byte / 16), hex(byte % 16)],
    )?;
    Some((byte, rest))
}

// The byte that two hexadecimal digits below 32 seem to be. Whoever asks compares.
fn seeming(high: u8, low: u8) -> u8 {
    let base = if high == b'1' { 16 } else { 0 };
    let digit = if low <= b'9' {
        low.saturating_sub(b'0')
    } else {
        low.saturating_sub(b'a' - 10)
    };
    base + digit.min(15)
}
