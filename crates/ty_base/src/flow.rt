// All of a source into memory, and all of some bytes into a sink.
ghost use Rattle.std.specs.Prelude.{◌≡◌, ◌≢◌, ◌++◌, take, Err, ◌<◌, ◌≤◌, ◌^◌, List, ℕ, length, IfOk, OnOk, OnErr, IsErrOf};
ghost use Rattle.std.specs.Io.KnownBytes.{Appends, Consumes, IsAtEnd, Keeps};
ghost use Rattle.ty_base.specs.Causes.{HasCause, Rose};
ghost use Rattle.ty_base.specs.Fronts.{AppendsFront, ConsumesFewer};
ghost use Rattle.ty_base.specs.declared.flow.ReadFault.TheVariants.{Memory};

use crate::limits::{INPUT_BYTES, PIECE_BYTES};
use crate::outside::{Failed, Sink, Source};
use std::alloc::{AllocError, Global};

/// Why a source isn't read to its end.
#[derive(Clone, Copy, Debug, PartialEq, Eq)]
pub enum ReadFault {
    /// Memory ran out.
    Memory,
    /// The source failed.
    Failed,
    /// Byte number `INPUT_BYTES` was taken.
    TooMuch,
}

impl From<AllocError> for ReadFault {
    ghost from_gives = { λ _ e. e ≡ Memory };

    fn from(_: AllocError) -> Self {
        ReadFault::Memory
    }
}

/// Reads a source to its end, at most `PIECE_BYTES` at a time.
pub fn read_all<S: Source>(alloc: Global, source: &mut S) -> Result<Vec<u8>, ReadFault>
    ensures all { IfOk result (λ bytes. Consumes (S.seen source.old).left (S.seen source.new).left bytes.items
        × IsAtEnd (S.seen source.new).left) }
    ensures short { IfOk result (λ bytes. length bytes.items < INPUT_BYTES) }
    ensures read { IsErrOf result ReadFault.Failed
        → Rose (S.seen source.old).faults (S.seen source.new).faults }
    ensures read_few { IsErrOf result ReadFault.Failed → ConsumesFewer (S.seen source.old).left (S.seen source.new).left INPUT_BYTES }
    ensures too_much { IsErrOf result ReadFault.TooMuch
        → (bytes : List ℕ) × Consumes (S.seen source.old).left (S.seen source.new).left bytes × (length bytes ≡ INPUT_BYTES) }
    ensures later { (S.seen source.old).faults ≤ (S.seen source.new).faults }
{
    let mut all = Vec::new(alloc);
    let mut piece = Vec::new(alloc);
    piece.resize(PIECE_BYTES, 0u8)?;
    while all.len() < INPUT_BYTES {
        let room = PIECE_BYTES.min(INPUT_BYTES - all.len());
        if read_piece(source, &mut piece[..room], &mut all)? == 0 {
            return Ok(all);
        }
    }
    Err(ReadFault::TooMuch)
}

// One take, whose bytes go to the end of `all`.
fn read_piece<S: Source>(
    source: &mut S,
    piece: &mut [u8],
    all: &mut Vec<u8>,
) -> Result<usize, ReadFault>
    requires { 0 < length piece.old }
    ensures count { IfOk result (λ n. n ≤ length piece.old) }
    ensures items { IfOk result (λ n. all.new.items ≡ all.old.items ++ take n piece.new) }
    ensures taken { IfOk result (λ n. Consumes (S.seen source.old).left (S.seen source.new).left (take n piece.new)) }
    ensures ended { IfOk result (λ n. n ≡ 0 → IsAtEnd (S.seen source.new).left) }
    ensures read { IsErrOf result ReadFault.Failed
        → Rose (S.seen source.old).faults (S.seen source.new).faults }
    ensures kept { IsErrOf result ReadFault.Failed → Keeps (S.seen source.old).left (S.seen source.new).left }
    ensures too_much { result ≢ Err ReadFault.TooMuch }
    ensures later { (S.seen source.old).faults ≤ (S.seen source.new).faults }
{
    let Ok(count) = source.take(piece) else {
        return Err(ReadFault::Failed);
    };
    all.extend_from_slice(&piece[..count])?;
    Ok(count)
}

/// Gives all the bytes, at most 65,536 at a time. After a fault a front of them was given.
pub fn give_all<K: Sink>(sink: &mut K, bytes: &[u8]) -> Result<(), Failed>
    ensures ok { OnOk result (Appends (K.seen sink.old).held (K.seen sink.new).held bytes.now) }
    ensures err { OnErr result (AppendsFront (K.seen sink.old).held (K.seen sink.new).held bytes.now) }
    ensures cause { HasCause (K.seen sink.old).faults (K.seen sink.new).faults result }
{
    let mut at = 0;
    while at < bytes.len() {
        let end = bytes.len().min(at + PIECE_BYTES);
        let Ok(count) = sink.give(&bytes[at..end]) else {
            return Err(Failed);
        };
        at += count;
    }
    Ok(())
}
