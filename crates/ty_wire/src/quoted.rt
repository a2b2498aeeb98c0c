// A text between quotes, as JSON writes it (RFC 8259, section 7), with the shortest escapes: how
// long it is, and its bytes in a buffer. What needs no escape is put 16 bytes at a time.
ghost use Rattle.std.specs.Prelude.{◌≡◌, ◌+◌, ◌*◌, ◌<◌, ◌≤◌, ◌++◌, length, take, drop, map};
ghost use Rattle.std.specs.Char.{digit_char};
ghost use Rattle.std.specs.Simd.Lanes.{mask_l};
ghost use Rattle.json.specs.Filled.{Placed};
ghost use Rattle.json.specs.Print.{escape_letter, escape_byte, escape, quoted};
ghost use Rattle.std.specs.List.{prefix_len};
ghost use Rattle.json.specs.Run.{is_stop, is_plain};
ghost use Rattle.ty_wire.specs.steps.Placed.{PlacesPart};

use crate::place::place;
use std::simd::prelude::*;
use ty_base::BODY_BYTES;

// The bytes that are put at once, and the room that is wanted behind a text for them.
pub(crate) const LANES: usize = 16;

// How many bytes at the front of a text, and how many bytes they are as they stand in a string.
#[derive(Clone, Copy)]
pub(crate) struct Part {
    pub text: usize,
    pub escaped: usize,
}

// How many bytes a text has between its quotes.
pub(crate) fn escaped_len(text: &[u8]) -> usize
    requires { length text.now ≤ BODY_BYTES }
    ensures value { result ≡ length (escape text.now) }
    ensures bound { result ≤ 6 * length text.now }
{
    let mut from = 0;
    let mut len = 0;
    while from < text.len() {
        let part = escaped_part(&text[from..]);
        from += part.text;
        len += part.escaped;
    }
    len
}

// The bytes up to the first escape, and that.
#[inline(always)]
fn escaped_part(text: &[u8]) -> Part
    requires { 0 < length text.now }
    ensures some { 0 < result.text }
    ensures within { result.text ≤ length text.now }
    ensures short { result.escaped ≤ LANES + 6 }
    ensures len { length (escape text.now)
        ≡ result.escaped + length (escape (drop result.text text.now)) }
{
    let count = plain_len(text);
    if count >= text.len() {
        return Part {
            text: count,
            escaped: count,
        };
    }
    Part {
        text: count + 1,
        escaped: count + escaped_byte_len(text[count]),
    }
}

#[inline(always)]
fn escaped_byte_len(byte: u8) -> usize
    ensures len { result ≡ length (escape_byte byte) }
    ensures bound { result ≤ 6 }
{
    if letter(byte) > 0 {
        2
    } else if byte < 0x20 {
        6
    } else {
        1
    }
}

// Puts a text with its quotes.
pub(crate) fn place_quoted(buf: &mut [u8], at: usize, text: &[u8]) -> usize
    requires { at + length (quoted text.now) + LANES ≤ length buf.old }
    ensures { Placed buf.old buf.new at (quoted text.now) result }
{
    let at = place(buf, at, b"\"");
    let at = place_escaped(buf, at, text);
    place(buf, at, b"\"")
}

fn place_escaped(buf: &mut [u8], at: usize, text: &[u8]) -> usize
    requires { at + length (escape text.now) + LANES ≤ length buf.old }
    ensures { Placed buf.old buf.new at (escape text.now) result }
{
    let mut from = 0;
    let mut end = at;
    while from < text.len() {
        let part = place_part(buf, end, &text[from..]);
        from += part.text;
        end += part.escaped;
    }
    end
}

// Puts the bytes up to the first escape, and that.
#[inline(always)]
fn place_part(buf: &mut [u8], at: usize, text: &[u8]) -> Part
    requires some { 0 < length text.now }
    requires room { at + length (escape text.now) + LANES ≤ length buf.old }
    ensures some { 0 < result.text }
    ensures within { result.text ≤ length text.now }
    ensures placed { PlacesPart buf.old buf.new at text.now result.text (at + result.escaped) }
{
    let count = place_plain(buf, at, text);
    if count >= text.len() {
        return Part {
            text: count,
            escaped: count,
        };
    }
    let end = place_byte(buf, at + count, text[count]);
    Part {
        text: count + 1,
        escaped: end - at,
    }
}

// Puts those of the next 16 bytes that come before the first escape. It gives their number.
#[inline(always)]
pub(crate) fn place_plain(buf: &mut [u8], at: usize, text: &[u8]) -> usize
    requires { at + LANES ≤ length buf.old }
    ensures within { result ≤ length text.now }
    ensures plain { result ≤ prefix_len is_plain text.now }
    ensures placed { Placed buf.old buf.new at (take result text.now) (at + result) }
{
    let count = plain_len(text);
    if text.len() >= LANES {
        place_lanes(buf, at, text);
    }
    count
}

// Puts the first 16 bytes.
#[inline(always)]
fn place_lanes(buf: &mut [u8], at: usize, text: &[u8])
    requires text { LANES ≤ length text.now }
    requires room { at + LANES ≤ length buf.old }
    ensures { Placed buf.old buf.new at (take LANES text.now) (at + LANES) }
{
    u8x16::from_slice(text).copy_to_slice(&mut buf[at..]);
}

// How many of the first 16 bytes come before the first escape, or none where there are fewer.
#[inline(always)]
fn plain_len(text: &[u8]) -> usize
    ensures within { result ≤ length text.now }
    ensures few { result ≤ LANES }
    ensures none { length text.now < LANES → result ≡ 0 }
    ensures plain { result ≤ prefix_len is_plain text.now }
{
    if text.len() < LANES {
        return 0;
    }
    let found = stops(u8x16::from_slice(text));
    if found == 0 {
        return LANES;
    }
    found.trailing_zeros() as usize
}

// The bytes that need an escape, a bit for each.
#[inline(always)]
fn stops(lanes: u8x16) -> u64
    ensures { result ≡ mask_l (map is_stop lanes) }
{
    (lanes.simd_eq(u8x16::splat(b'"'))
        | lanes.simd_eq(u8x16::splat(b'\\'))
        | lanes.simd_lt(u8x16::splat(0x20))).to_bitmask()
}

// Puts a byte as it stands in a string.
#[inline(always)]
fn place_byte(buf: &mut [u8], at: usize, byte: u8) -> usize
    requires { at + length (escape_byte byte) ≤ length buf.old }
    ensures { Placed buf.old buf.new at (escape_byte byte) result }
{
    let letter = letter(byte);
    if letter > 0 {
        place(buf, at, &[b'\\', letter])
    } else if byte < 0x20 {
        place(
            buf,
            at,
            &[b'\\', b'u', b'0', b'0', hex(byte / 16), hex(byte % 16)],
        )
    } else {
        place(buf, at, &[byte])
    }
}

// The letter of a byte's short escape, or 0 where it has none.
#[inline(always)]
pub(crate) fn letter(byte: u8) -> u8
    ensures { result ≡ escape_letter byte }
{
    match byte {
        b'"' | b'\\' => byte,
        0x08 => b'b',
        0x0C => b'f',
        b'\n' => b'n',
        b'\r' => b'r',
        b'\t' => b't',
        _ => 0,
    }
}

pub(crate) fn hex(digit: u8) -> u8
    requires { digit < 16 }
    ensures { result ≡ digit_char digit }
{
    if digit < 10 {
        b'0' + digit
    } else {
        b'a' - 10 + digit
    }
}
