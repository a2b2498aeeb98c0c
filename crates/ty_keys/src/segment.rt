// The segments of a text: what stands between its slashes.
ghost use Rattle.std.specs.Prelude.{◌≡◌, position, not};
ghost use Rattle.std.specs.List.{position_or_len};
ghost use Rattle.std.specs.Str.{bytes_eq};
ghost use Rattle.ty_keys.specs.Faults.{is_slash};
ghost use Rattle.ty_keys.specs.Forms.{Gives, next_segment, last_segment, is_end};
ghost use Rattle.ty_keys.specs.steps.Segments.{segment, segments_in, begins};

use crate::key::KeyFault;
use crate::span::Span;

/// Whether a segment is this word.
pub fn is_word(segment: Span<'_>, word: &[u8]) -> bool
    ensures { result ≡ bytes_eq segment.entry.bytes.now word.now }
{
    segment.bytes == word
}

/// The next segment, and what follows it.
pub fn next(rest: Span<'_>) -> Result<(Span<'_>, Span<'_>), KeyFault>
    ensures { Gives (λ x. (segment x.0, segments_in x.1)) result (next_segment (segments_in rest.entry)) }
{
    if !begins_segment(rest.bytes) {
        return Err(KeyFault::NoForm);
    }
    let bytes = &rest.bytes[1..];
    let len = segment_len(bytes);
    let (segment, after) = bytes.split_at(len);
    let at = rest.at + 1;
    Ok((
        Span { at, bytes: segment },
        Span {
            at: at + len,
            bytes: after,
        },
    ))
}

/// The last segment.
pub fn last(rest: Span<'_>) -> Result<Span<'_>, KeyFault>
    ensures { Gives (λ x. segment x) result (last_segment (segments_in rest.entry)) }
{
    let (segment, rest) = next(rest)?;
    if !is_end(rest) {
        return Err(KeyFault::NoForm);
    }
    Ok(segment)
}

/// Whether there is no further segment.
pub fn is_end(rest: Span<'_>) -> bool
    ensures { result ≡ is_end (segments_in rest.entry) }
{
    !begins_segment(rest.bytes)
}

// Whether a segment begins here, with its slash.
fn begins_segment(bytes: &[u8]) -> bool
    ensures { result ≡ begins bytes.now }
{
    match bytes {
        [first, ..] => *first == b'/',
        [] => false,
    }
}

// How many bytes stand before the first slash.
fn segment_len(bytes: &[u8]) -> usize
    ensures { result ≡ position_or_len is_slash bytes.now }
{
    match first_slash(bytes) {
        Some(place) => place,
        None => bytes.len(),
    }
}

// Where the first slash stands.
fn first_slash(bytes: &[u8]) -> Option<usize>
    ensures { result ≡ position is_slash bytes.now }
{
    bytes.iter().position(|b| *b == b'/')
}
