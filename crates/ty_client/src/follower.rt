// A connection's bytes from a source, and the text of what they rebuild to a sink.
ghost use Rattle.std.specs.Prelude.{◌≡◌, ◌≤◌, List, ℕ, [], length, None, Some, IfErr, OnOk};
ghost use Rattle.std.specs.List.{AllByRecursion};
ghost use Rattle.ty_wire.specs.Wire.{IsWire};
ghost use Rattle.ty_wire.specs.Stream.{FramesStand, Reads};
ghost use Rattle.ty_wire.specs.declared.message.Msg.{Msg as Message};
ghost use Rattle.ty_client.specs.Heard.{Hears};
ghost use Rattle.ty_client.specs.Rebuild.{staged, IsGoodSoFar};
ghost use Rattle.ty_client.specs.Text.{rebuilt_text};
ghost use Rattle.ty_client.specs.declared.fault.StreamFault.{StreamFault as Fault};
ghost use Rattle.ty_base.specs.Devices.{seen};
ghost use Rattle.ty_client.specs.Followed.{Ended, StoppedBy};
ghost use Rattle.ty_client.specs.steps.Given.{Wrote};
ghost use Rattle.ty_client.specs.steps.Pieces.{IsJudgedAndTold, IsPieceHeard, EndsAt, fault_by};
ghost use Rattle.ty_client.specs.steps.Stage.{next_stage, stage_ats};

use crate::at::Ats;
use crate::fault::StreamFault;
use crate::rebuild::first_fault;
use crate::stage::Stage;
use crate::text::{Unwritten, give_ats};
use std::alloc::Global;
use ty_base::{INPUT_BYTES, PIECE_BYTES, Sink, Source};
use ty_wire::{Frames, Msg};

/// Why a connection was followed no further.
#[derive(Clone, Copy, Debug, PartialEq, Eq)]
pub enum FollowFault {
    /// The bytes have this fault.
    Stream(StreamFault),
    /// The end came inside a frame, of which there are `left` bytes.
    Cut { left: u64 },
    /// The source failed.
    Read,
    /// The sink failed.
    Write,
    /// The link failed. A source is no link, so `follow` never answers it.
    Link,
    /// Memory ran out.
    NoMemory,
}

// Why a piece is the last.
#[derive(Clone, Copy, Debug, PartialEq, Eq)]
pub(crate) enum Stop {
    Fault(StreamFault),
    Sink,
    Memory,
}

/// Reads a connection's bytes from a source, at most `PIECE_BYTES` at a time, and writes the text
/// of what they rebuild at each crumb end as soon as it has come: `at`, its number, status and
/// count of pairs, and unless `brief` a line for each pair. At `Read`, `Stream` and `Cut` the text
/// of all crumb ends before was written; at `Write` and `NoMemory` a front of it.
pub fn follow<S: Source, K: Sink>(
    alloc: Global,
    brief: bool,
    source: &mut S,
    sink: &mut K,
) -> Result<(), FollowFault>
    ensures ok { OnOk result (Ended brief (seen (S.seen source.old) (K.seen sink.old)) (seen (S.seen source.new) (K.seen sink.new)) []) }
    ensures fault { IfErr result (λ e. StoppedBy brief (seen (S.seen source.old) (K.seen sink.old))
        (seen (S.seen source.new) (K.seen sink.new)) e) }
    ensures reads { (S.seen source.old).faults ≤ (S.seen source.new).faults }
    ensures writes { (K.seen sink.old).faults ≤ (K.seen sink.new).faults }
{
    let mut unread = Frames::new(alloc);
    let mut stage = Stage::new();
    let mut piece = Vec::new(alloc);
    let Ok(()) = piece.resize(PIECE_BYTES, 0u8) else {
        return Err(FollowFault::NoMemory);
    };
    let mut taken = 0;
    while taken < INPUT_BYTES {
        let Ok(count) = source.take(&mut piece) else {
            return Err(FollowFault::Read);
        };
        if count == 0 {
            return ended(&unread);
        }
        match hear_piece(alloc, brief, &mut unread, &mut stage, &piece[..count], sink) {
            Ok(()) => taken += count,
            Err(stop) => return Err(follow_fault(stop)),
        }
    }
    unreachable!()
}

// Hears a piece and gives the text of what it rebuilds. No map is kept but the stage's.
fn hear_piece<K: Sink>(
    alloc: Global,
    brief: bool,
    unread: &mut Frames,
    stage: &mut Stage,
    piece: &[u8],
    sink: &mut K,
) -> Result<(), Stop>
    requires { (bytes : List ℕ) × (ms : List Message) × IsGoodSoFar unread.old stage.old bytes ms }
    ensures heard { (bytes : List ℕ) (ms : List Message) → Hears bytes ms None → IsGoodSoFar unread.old stage.old bytes ms
        → IsPieceHeard brief result unread.new stage.new bytes piece.now ms (K.seen sink.old) (K.seen sink.new) }
    ensures later { (K.seen sink.old).faults ≤ (K.seen sink.new).faults }
{
    let Ok(got) = unread.feed(alloc, piece) else {
        return Err(Stop::Memory);
    };
    match give_all_heard(alloc, brief, stage, got.msgs.as_slice(), sink) {
        Ok(fault) => go_on(first_fault(fault, got.fault)),
        Err(Unwritten::Sink) => Err(Stop::Sink),
        Err(Unwritten::Memory) => Err(Stop::Memory),
    }
}

// Takes in the messages before the first that isn't in its place, whose fault it answers. The text of each crumb end is given
// before the next message, so that the map is the stage's alone when it changes.
fn give_all_heard<K: Sink>(
    alloc: Global,
    brief: bool,
    stage: &mut Stage,
    msgs: &[Msg],
    sink: &mut K,
) -> Result<Option<StreamFault>, Unwritten>
    requires { AllByRecursion IsWire msgs.now }
    ensures { (before : List Message) → stage.old ≡ staged before
        → IsJudgedAndTold brief result before msgs.now stage.new (K.seen sink.old) (K.seen sink.new) }
{
    for msg in msgs {
        if let Some(fault) = stage.fault_of(msg) {
            return Ok(Some(fault));
        }
        match give_heard(alloc, brief, stage, msg, sink) {
            Ok(()) => {}
            Err(e) => return Err(e),
        }
    }
    Ok(None)
}

// Takes in a message that is in its place, and gives the text of what it rebuilds.
fn give_heard<K: Sink>(
    alloc: Global,
    brief: bool,
    stage: &mut Stage,
    msg: &Msg,
    sink: &mut K,
) -> Result<(), Unwritten>
    requires { IsWire msg.now }
    ensures stage { OnOk result (stage.new ≡ next_stage stage.old msg.now) }
    ensures text { Wrote result (K.seen sink.old).held (K.seen sink.new).held (K.seen sink.old).faults (K.seen sink.new).faults
        (rebuilt_text brief (stage_ats stage.old msg.now)) }
{
    let mut ats = Ats::new(alloc);
    // A source has no way back, so pongs go nowhere.
    let mut up = Vec::new(alloc);
    let Ok(()) = stage.hear(alloc, msg, &mut ats, &mut up) else {
        return Err(Unwritten::Memory);
    };
    give_ats(alloc, brief, ats.as_slice(), sink)
}

fn go_on(fault: Option<StreamFault>) -> Result<(), Stop>
    ensures ok { OnOk result (fault ≡ None) }
    ensures err { IfErr result (λ e. (f : Fault) × (fault ≡ Some f) × (e ≡ Stop.Fault f)) }
{
    match fault {
        None => Ok(()),
        Some(fault) => Err(Stop::Fault(fault)),
    }
}

fn follow_fault(stop: Stop) -> FollowFault
    ensures { result ≡ fault_by stop }
{
    match stop {
        Stop::Fault(fault) => FollowFault::Stream(fault),
        Stop::Sink => FollowFault::Write,
        Stop::Memory => FollowFault::NoMemory,
    }
}

// The source has ended.
fn ended(unread: &Frames) -> Result<(), FollowFault>
    requires { unread.now.fault ≡ None }
    ensures { (bytes rest : List ℕ) (ms : List Message) → FramesStand unread.now bytes ms
        → Reads bytes ms rest
        → EndsAt result (length rest) }
{
    let left = unread.left();
    if left == 0 {
        Ok(())
    } else {
        Err(FollowFault::Cut { left })
    }
}
