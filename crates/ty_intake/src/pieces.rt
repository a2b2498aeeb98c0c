// The pieces of a feed: the lines that end in one, and what is unfinished behind them.
ghost use Rattle.std.specs.Prelude.{◌≡◌, ◌<◌, ◌+◌, ◌++◌, [], IfOk, IfSome, IfNone, length};
ghost use Rattle.ty_base.specs.declared.limits.TheConstants.{INPUT_BYTES};
ghost use Rattle.ty_intake.specs.Lines.{cut_lines};
ghost use Rattle.ty_intake.specs.steps.Progress.{IsSoundProgress, IsCutRead, IsEnded, IsKept, behind, line_then, only};

use crate::intake::IntakeFault;
use crate::progress::{Progress, add_line, close_last};
use memchr::memchr;
use std::alloc::Global;
use ty_base::{LINE_BYTES, NoMemory, PIECE_BYTES};

/// Takes a piece behind the unfinished line. Lines that lie whole in the piece are read there, without a copy.
pub(crate) fn read_piece(
    alloc: Global,
    rest: &mut Vec<u8>,
    progress: &mut Progress,
    piece: &[u8],
) -> Result<Option<IntakeFault>, NoMemory>
    requires sound { IsSoundProgress progress.old }
    requires few { progress.old.lines + length piece.now < INPUT_BYTES }
    ensures { IfOk result (λ fault. IsCutRead (behind rest.old.items (cut_lines piece.now).lines (cut_lines piece.now).rest)
        rest.new.items progress.old progress.new fault) }
{
    if rest.is_empty() {
        return read_lines(alloc, rest, progress, piece);
    }
    let Some((line, more)) = split_line(piece) else {
        return keep(alloc, rest, piece, progress.lines);
    };
    rest.extend_from_slice(line)?;
    let fault = add_line(alloc, progress, rest)?;
    empty(alloc, rest);
    match fault {
        Some(fault) => Ok(Some(fault)),
        None => read_lines(alloc, rest, progress, more),
    }
}

// The first line that ends in a piece, and what follows its line feed.
fn split_line(piece: &[u8]) -> Option<(&[u8], &[u8])>
    ensures line { IfSome result (λ p. cut_lines piece.now
        ≡ line_then p.0.now (cut_lines p.1.now)) }
    ensures shorter { IfSome result (λ p. length p.1.now < length piece.now) }
    ensures rest { IfNone result (cut_lines piece.now ≡ only piece.now) }
{
    match memchr(b'\n', piece) {
        Some(end) => Some((&piece[..end], &piece[end + 1..])),
        None => None,
    }
}

// Reads the lines of a piece, and keeps what is unfinished.
fn read_lines(
    alloc: Global,
    rest: &mut Vec<u8>,
    progress: &mut Progress,
    piece: &[u8],
) -> Result<Option<IntakeFault>, NoMemory>
    requires empty { rest.old.items ≡ [] }
    requires sound { IsSoundProgress progress.old }
    requires few { progress.old.lines + length piece.now < INPUT_BYTES }
    ensures { IfOk result (λ fault. IsCutRead (cut_lines piece.now) rest.new.items progress.old progress.new fault) }
{
    let mut left = piece;
    while let Some((line, more)) = split_line(left) {
        if let Some(fault) = add_line(alloc, progress, line)? {
            return Ok(Some(fault));
        }
        left = more;
    }
    keep(alloc, rest, left, progress.lines)
}

// Keeps bytes of an unfinished line behind `lines` others, unless it is too long already.
fn keep(
    alloc: Global,
    rest: &mut Vec<u8>,
    bytes: &[u8],
    lines: u64,
) -> Result<Option<IntakeFault>, NoMemory>
    requires { lines < INPUT_BYTES }
    ensures { IfOk result (λ fault. IsKept lines (rest.old.items ++ bytes.now) rest.new.items fault) }
{
    if rest.len() + bytes.len() > LINE_BYTES {
        empty(alloc, rest);
        return Ok(Some(IntakeFault::LongLine { line: lines + 1 }));
    }
    rest.extend_from_slice(bytes)?;
    Ok(None)
}

// Empties a buffer, and lets go of its room where that is more than a piece.
fn empty(alloc: Global, rest: &mut Vec<u8>)
    ensures { rest.new.items ≡ [] }
{
    if rest.capacity() > PIECE_BYTES {
        *rest = Vec::new(alloc);
    } else {
        rest.clear();
    }
}

/// The feed ends behind an unfinished line, which is its last one unless it is empty.
pub(crate) fn read_end(
    alloc: Global,
    rest: &[u8],
    progress: &mut Progress,
) -> Result<Option<IntakeFault>, NoMemory>
    requires sound { IsSoundProgress progress.old }
    requires few { progress.old.lines < INPUT_BYTES }
    ensures { IfOk result (λ fault. IsEnded rest.now progress.old progress.new fault) }
{
    if rest.is_empty() {
        close_last(alloc, progress)?;
        return Ok(None);
    }
    if let Some(fault) = add_line(alloc, progress, rest)? {
        return Ok(Some(fault));
    }
    close_last(alloc, progress)?;
    Ok(None)
}
