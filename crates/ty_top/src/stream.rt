// The mode `stream`.
ghost use Rattle.std.specs.Prelude.{◌≡◌, ◌≤◌, ◌<◌, ◌^◌, List, ℕ, length};
ghost use Rattle.ty_intake.specs.Lines.{Feed as FeedSoFar, fed_with, ended_now};
ghost use Rattle.ty_base.specs.Devices.{seen};
ghost use Rattle.ty_top.specs.Endings.{Streams};
ghost use Rattle.ty_top.specs.steps.Stream.{IsReadTo, IsPieceRead, IsEndRead, end_by, end_at};

use crate::ending::StreamEnd;
use crate::publisher::{Stop, Unwritten, give_opening, publish_fed};
use std::alloc::Global;
use ty_base::{INPUT_BYTES, PIECE_BYTES, Sink, Source};
use ty_crumb::Crumb;
use ty_intake::Intake;

/// Reads a feed from a source, at most `PIECE_BYTES` at a time, and gives the talk over its book from breadcrumb
/// `from` on, each breadcrumb as soon as it is published.
pub(crate) fn stream_source<S: Source, K: Sink>(
    alloc: Global,
    from: u64,
    source: &mut S,
    sink: &mut K,
) -> StreamEnd
    ensures streams { Streams from result (seen (S.seen source.old) (K.seen sink.old)) (seen (S.seen source.new) (K.seen sink.new)) }
    ensures reads { (S.seen source.old).faults ≤ (S.seen source.new).faults }
    ensures writes { (K.seen sink.old).faults ≤ (K.seen sink.new).faults }
{
    let mut crumb = Crumb::first(alloc, 0);
    match give_opening(alloc, from, &crumb, sink) {
        Ok(()) => {}
        Err(Unwritten::Sink) => return StreamEnd::Write,
        Err(Unwritten::Memory) => return StreamEnd::Memory,
    }
    let mut intake = Intake::new(alloc);
    let mut piece = Vec::new(alloc);
    let Ok(()) = piece.resize(PIECE_BYTES, 0u8) else {
        return StreamEnd::Memory;
    };
    let mut out = Vec::new(alloc);
    let mut taken = 0;
    while taken < INPUT_BYTES {
        let Ok(count) = source.take(&mut piece) else {
            return StreamEnd::Read;
        };
        if count == 0 {
            return ended_by(finish(alloc, from, &mut intake, &mut crumb, &mut out, sink));
        }
        let front = &piece[..count];
        match read_piece(alloc, from, &mut intake, &mut crumb, front, &mut out, sink) {
            Ok(()) => taken += count,
            Err(stop) => return stream_end(stop),
        }
    }
    unreachable!()
}

// Reads a piece, and gives the breadcrumbs that its batches make.
fn read_piece<K: Sink>(
    alloc: Global,
    from: u64,
    intake: &mut Intake,
    crumb: &mut Crumb,
    piece: &[u8],
    out: &mut Vec<u8>,
    sink: &mut K,
) -> Result<(), Stop>
    requires { (feed : FeedSoFar) × IsReadTo intake.old crumb.old feed }
    ensures read { (feed : FeedSoFar) → IsReadTo intake.old crumb.old feed
        → IsPieceRead from result intake.new crumb.new feed (fed_with feed piece.now) (K.seen sink.old) (K.seen sink.new) }
    ensures later { (K.seen sink.old).faults ≤ (K.seen sink.new).faults }
{
    let Ok(fed) = intake.feed(alloc, piece) else {
        return Err(Stop::Memory);
    };
    publish_fed(alloc, from, fed, crumb, out, sink)
}

// The feed has ended: gives the breadcrumbs that its last batches make.
fn finish<K: Sink>(
    alloc: Global,
    from: u64,
    intake: &mut Intake,
    crumb: &mut Crumb,
    out: &mut Vec<u8>,
    sink: &mut K,
) -> Result<(), Stop>
    requires { (feed : FeedSoFar) × IsReadTo intake.old crumb.old feed }
    ensures read { (feed : FeedSoFar) → IsReadTo intake.old crumb.old feed
        → IsEndRead from result feed (K.seen sink.old) (K.seen sink.new) }
    ensures later { (K.seen sink.old).faults ≤ (K.seen sink.new).faults }
{
    let Ok(fed) = intake.end(alloc) else {
        return Err(Stop::Memory);
    };
    publish_fed(alloc, from, fed, crumb, out, sink)
}

// How a run ends whose last piece, or end, came to this.
fn ended_by(read: Result<(), Stop>) -> StreamEnd
    ensures { result ≡ end_by read }
{
    match read {
        Ok(()) => StreamEnd::Done,
        Err(stop) => stream_end(stop),
    }
}

fn stream_end(stop: Stop) -> StreamEnd
    ensures { result ≡ end_at stop }
{
    match stop {
        Stop::Fault(fault) => StreamEnd::Fault(fault),
        Stop::Sink => StreamEnd::Write,
        Stop::Memory => StreamEnd::Memory,
    }
}
