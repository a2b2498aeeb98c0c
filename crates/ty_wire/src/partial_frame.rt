// The unfinished frame of a connection, and the piece that comes behind it.
ghost use Rattle.std.specs.Prelude.{◌≡◌, ◌≤◌, ◌<◌, ◌+◌, ◌++◌, ◌⊎◌, [], length, take, IfOk, OnOk};
ghost use Rattle.std.specs.List.{AllByRecursion};
ghost use Rattle.ty_wire.specs.Wire.{IsWire, frames};
ghost use Rattle.ty_wire.specs.Stream.{IsPart, told_len};
ghost use Rattle.ty_wire.specs.steps.Frames.{IsMoved};

use crate::fault::WireFault;
use crate::frame::{Found, HEAD_BYTES, Next, len_at, next_frame, read_frames};
use crate::message::Msgs;
use bytes::BytesMut;
use std::alloc::Global;
use ty_base::{BODY_BYTES, INPUT_BYTES, NoMemory, PIECE_BYTES};

// The messages that a piece brings, and why no more follow if that is known.
#[derive(Drop)]
pub(crate) struct Moved {
    pub msgs: Msgs,
    pub fault: Option<WireFault>,
}

// Takes a piece behind the unfinished frame, where `count` frames came before. Frames that lie
// whole in the piece are read there, without a copy.
pub(crate) fn advance(
    alloc: Global,
    rest: &mut BytesMut,
    piece: &[u8],
    count: u64,
) -> Result<Moved, NoMemory>
    requires part { IsPart rest.old.items }
    requires few { count + length rest.old.items + length piece.now < INPUT_BYTES }
    ensures { IfOk result (λ m. IsMoved count (rest.old.items ++ piece.now) rest.new.items m) }
{
    if rest.is_empty() {
        return read_piece(alloc, rest, Msgs::new(alloc), piece, count);
    }
    let used = complete(rest, piece)?;
    match next_frame(alloc, rest.as_slice(), count + 1)? {
        Next::Part => Ok(Moved {
            msgs: Msgs::new(alloc),
            fault: None,
        }),
        Next::Fault(fault) => {
            empty(alloc, rest);
            Ok(Moved {
                msgs: Msgs::new(alloc),
                fault: Some(fault),
            })
        }
        Next::Message { msg, .. } => {
            empty(alloc, rest);
            let mut msgs = Msgs::new(alloc);
            msgs.push(msg)?;
            read_piece(alloc, rest, msgs, &piece[used..], count)
        }
    }
}

// Reads the frames of a piece where it lies, behind those of `msgs`, and keeps what is unfinished.
fn read_piece(
    alloc: Global,
    rest: &mut BytesMut,
    msgs: Msgs,
    piece: &[u8],
    count: u64,
) -> Result<Moved, NoMemory>
    requires empty { rest.old.items ≡ [] }
    requires each { AllByRecursion IsWire msgs }
    requires few { count + length msgs + length piece.now < INPUT_BYTES }
    ensures { IfOk result (λ m. IsMoved count (frames msgs ++ piece.now) rest.new.items m) }
{
    let found = read_frames(alloc, msgs, piece, count)?;
    let Found { msgs, fault, used } = found;
    match fault {
        None => {
            rest.extend_from_slice(&piece[used..])?;
            Ok(Moved { msgs, fault: None })
        }
        Some(fault) => Ok(Moved {
            msgs,
            fault: Some(fault),
        }),
    }
}

// Appends bytes of the piece, as many as the unfinished frame lacks. It gives their number.
fn complete(rest: &mut BytesMut, piece: &[u8]) -> Result<usize, NoMemory>
    requires { IsPart rest.old.items }
    ensures within { IfOk result (λ n. n ≤ length piece.now) }
    ensures items { IfOk result (λ n. rest.new.items ≡ rest.old.items ++ take n piece.now) }
    ensures full { IfOk result (λ n. IsPart rest.new.items → n ≡ length piece.now) }
    ensures one { OnOk result (HEAD_BYTES ≤ length rest.new.items → told_len rest.new.items ≤ BODY_BYTES
        → length rest.new.items ≤ HEAD_BYTES + told_len rest.new.items) }
{
    let head = fill(rest, piece, HEAD_BYTES)?;
    if rest.len() < HEAD_BYTES {
        return Ok(head);
    }
    let len = len_at(rest.as_slice()) as usize;
    if len > BODY_BYTES {
        return Ok(head);
    }
    let body = fill(rest, &piece[head..], HEAD_BYTES + len)?;
    Ok(head + body)
}

// Appends bytes of the piece until there are `wanted`. It gives their number.
fn fill(rest: &mut BytesMut, piece: &[u8], wanted: usize) -> Result<usize, NoMemory>
    ensures within { IfOk result (λ n. n ≤ length piece.now) }
    ensures items { IfOk result (λ n. rest.new.items ≡ rest.old.items ++ take n piece.now) }
    ensures full { IfOk result (λ n. wanted ≤ length rest.new.items ⊎ n ≡ length piece.now) }
    ensures most { OnOk result (length rest.new.items ≤ wanted ⊎ length rest.new.items
        ≡ length rest.old.items) }
{
    let len = piece.len().min(wanted.saturating_sub(rest.len()));
    rest.extend_from_slice(&piece[..len])?;
    Ok(len)
}

// Empties it, and keeps room for a piece at most.
fn empty(alloc: Global, rest: &mut BytesMut)
    ensures { rest.new.items ≡ [] }
{
    if rest.capacity() > PIECE_BYTES {
        *rest = BytesMut::new(alloc);
    } else {
        rest.clear();
    }
}
