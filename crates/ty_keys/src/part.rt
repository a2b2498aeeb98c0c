// Reading the parts of a key.
ghost use Rattle.std.specs.Prelude.{◌≡◌, ◌<◌, ◌≤◌, length, IfOk};
ghost use Rattle.ty_keys.specs.Grammar.{is_plain};
ghost use Rattle.ty_keys.specs.Forms.{Gives, part_at};
ghost use Rattle.ty_keys.specs.steps.Units.{unit_at, escape_at};
ghost use Rattle.ty_keys.specs.steps.Segments.{segment};

use crate::key::KeyFault;
use crate::span::Span;
use std::alloc::Global;
use ty_base::Text;

/// The part that a segment writes.
pub fn part(alloc: Global, written: Span<'_>) -> Result<Text, KeyFault>
    ensures { Gives (λ t. t) result (part_at (segment written.entry)) }
{
    if written.bytes.is_empty() {
        return Err(KeyFault::EmptyPart { at: written.at });
    }
    let mut text = String::with_capacity(alloc, written.bytes.len())?;
    let mut rest = written;
    while !rest.bytes.is_empty() {
        let (byte, after) = unit(rest)?;
        text.push(char::from(byte))?;
        rest = after;
    }
    Ok(Text::from_string(text))
}

// The first byte that is written, and what follows it.
fn unit(rest: Span<'_>) -> Result<(u8, Span<'_>), KeyFault>
    ensures unit { Gives (λ x. (x.0, segment x.1)) result (unit_at (segment rest.entry)) }
    ensures ascii { IfOk result (λ x. x.0 < 128) }
    ensures shorter { IfOk result (λ x. length x.1.bytes.now < length rest.entry.bytes.now) }
{
    let at = rest.at;
    match rest.bytes {
        [] => Err(KeyFault::EmptyPart { at }),
        [b'%', bytes @ ..] => escape(at, Span { at: at + 1, bytes }),
        [byte, bytes @ ..] => {
            if is_plain(*byte) {
                Ok((*byte, Span { at: at + 1, bytes }))
            } else {
                Err(KeyFault::BadByte { at })
            }
        }
    }
}

// Whether a byte stands for itself.
fn is_plain(byte: u8) -> bool
    ensures { result ≡ is_plain byte }
{
    byte >= 0x21 && byte <= 0x7e && byte != b'%' && byte != b'/'
}

// The byte that an escape stands for, of which the rest stands behind its `%`.
fn escape(percent: usize, rest: Span<'_>) -> Result<(u8, Span<'_>), KeyFault>
    ensures unit { Gives (λ x. (x.0, segment x.1)) result (escape_at percent (segment rest.entry)) }
    ensures ascii { IfOk result (λ x. x.0 < 128) }
    ensures shorter { IfOk result (λ x. length x.1.bytes.now ≤ length rest.entry.bytes.now) }
{
    let at = rest.at;
    match rest.bytes {
        [b'2', b'5', bytes @ ..] => Ok((b'%', Span { at: at + 2, bytes })),
        [b'2', b'f', bytes @ ..] => Ok((b'/', Span { at: at + 2, bytes })),
        _ => Err(KeyFault::BadEscape { at: percent }),
    }
}
