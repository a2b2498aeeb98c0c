// A feed is read from a source, and each batch is published as it closes.
ghost use Rattle.std.specs.Prelude.{◌≡◌, ◌<◌, ◌≤◌, ◌+◌, ◌++◌, [], true, List, length, OnErr, OnOk};
ghost use Rattle.ty_base.specs.Batches.{IsBatch, IsClosed, IsNextBatch};
ghost use Rattle.ty_base.specs.declared.item.Item.{Item as AnItem};
ghost use Rattle.ty_base.specs.declared.limits.TheConstants.{INPUT_BYTES};
ghost use Rattle.ty_intake.specs.Lines.{Feed, fed_with, no_feed};
ghost use Rattle.ty_intake.specs.Batches.{joined};
ghost use Rattle.ty_feed.specs.Publishing.{Publishes};
ghost use Rattle.ty_feed.specs.steps.Reading.{AreDue, HavePublished, HasReadTo, IsBookOf, HasReadEnd, HasReadPiece, ending_by, going_on};

use crate::ending::FeedEnd;
use std::alloc::Global;
use std::sync::Wait;
use ty_account::Named;
use ty_base::{Clock, INPUT_BYTES, NoMemory, PIECE_BYTES, Source};
use ty_chain::{Front, Lobby, Publisher};
use ty_intake::{Closed, Intake, IntakeFault};

/// Reads a feed from a source to its end, at most `PIECE_BYTES` at a time, and publishes each batch as it closes, at the
/// clock's time in milliseconds. Each is posted in the lobby, so that those who enter later enter at it. However the feed
/// ends, the chain is closed then. It waits for locks.
pub fn publish_all<R: Wait, N: Named, S: Source, C: Clock>(
    rt: &R,
    alloc: Global,
    source: &mut S,
    lobby: &Lobby<N>,
    publisher: Publisher<N>,
    clock: &C,
) -> (FeedEnd, Front)
    requires nothing_yet { publisher.known.entries ≡ [] }
    requires no_items { publisher.cut ≡ 0 }
    ensures account { result.1.account ≡ N.account }
    ensures closed { result.1.closed ≡ true }
    ensures published { Publishes result.0 (S.seen source.old) (S.seen source.new) result.1.entries }
    ensures faults { (S.seen source.old).faults ≤ (S.seen source.new).faults }
{
    let mut publisher = publisher;
    let end = publish_source(rt, alloc, source, lobby, &mut publisher, clock);
    (end, publisher.close())
}

// The same without closing the chain.
fn publish_source<R: Wait, N: Named, S: Source, C: Clock>(
    rt: &R,
    alloc: Global,
    source: &mut S,
    lobby: &Lobby<N>,
    publisher: &mut Publisher<N>,
    clock: &C,
) -> FeedEnd
    requires nothing_yet { publisher.old.known.entries ≡ [] }
    requires no_items { publisher.old.cut ≡ 0 }
    ensures published { Publishes result (S.seen source.old) (S.seen source.new) publisher.new.known.entries }
    ensures faults { (S.seen source.old).faults ≤ (S.seen source.new).faults }
{
    let mut intake = Intake::new(alloc);
    let mut piece = Vec::new(alloc);
    let Ok(()) = piece.resize(PIECE_BYTES, 0u8) else {
        return FeedEnd::NoMemory;
    };
    let mut taken = 0;
    while taken < INPUT_BYTES {
        let Ok(count) = source.take(&mut piece) else {
            return FeedEnd::Read;
        };
        if count == 0 {
            return finish(rt, alloc, lobby, publisher, &mut intake, clock);
        }
        match publish_piece(
            rt,
            alloc,
            lobby,
            publisher,
            &mut intake,
            &piece[..count],
            clock,
        ) {
            Ok(()) => taken += count,
            Err(end) => return end,
        }
    }
    unreachable!()
}

// Reads a piece, and publishes the batches that it closes.
fn publish_piece<R: Wait, N: Named, C: Clock>(
    rt: &R,
    alloc: Global,
    lobby: &Lobby<N>,
    publisher: &mut Publisher<N>,
    intake: &mut Intake,
    piece: &[u8],
    clock: &C,
) -> Result<(), FeedEnd>
    requires { (feed : Feed) × HasReadTo intake.old publisher.old feed }
    ensures { (feed : Feed) → HasReadTo intake.old publisher.old feed
        → HasReadPiece result intake.new publisher.new (fed_with feed piece.now) }
{
    let Ok(fed) = intake.feed(alloc, piece) else {
        return Err(FeedEnd::NoMemory);
    };
    let Ok(()) = publish_batches(rt, alloc, lobby, publisher, fed.closed.as_slice(), clock) else {
        return Err(FeedEnd::NoMemory);
    };
    goes_on(fed.fault)
}

fn goes_on(fault: Option<IntakeFault>) -> Result<(), FeedEnd>
    ensures { result ≡ going_on fault }
{
    match fault {
        None => Ok(()),
        Some(fault) => Err(FeedEnd::Fault(fault)),
    }
}

// The feed has ended: publishes its last batches.
fn finish<R: Wait, N: Named, C: Clock>(
    rt: &R,
    alloc: Global,
    lobby: &Lobby<N>,
    publisher: &mut Publisher<N>,
    intake: &mut Intake,
    clock: &C,
) -> FeedEnd
    requires { (feed : Feed) × HasReadTo intake.old publisher.old feed }
    ensures { (feed : Feed) → HasReadTo intake.old publisher.old feed → HasReadEnd result publisher.new feed }
{
    let Ok(fed) = intake.end(alloc) else {
        return FeedEnd::NoMemory;
    };
    let Ok(()) = publish_batches(rt, alloc, lobby, publisher, fed.closed.as_slice(), clock) else {
        return FeedEnd::NoMemory;
    };
    ends_by(fed.fault)
}

fn ends_by(fault: Option<IntakeFault>) -> FeedEnd
    ensures { result ≡ ending_by fault }
{
    match fault {
        None => FeedEnd::Done,
        Some(fault) => FeedEnd::Fault(fault),
    }
}

// Publishes batches, one after another.
fn publish_batches<R: Wait, N: Named, C: Clock>(
    rt: &R,
    alloc: Global,
    lobby: &Lobby<N>,
    publisher: &mut Publisher<N>,
    closed: &[Closed],
    clock: &C,
) -> Result<(), NoMemory>
    requires { AreDue publisher.old closed.now }
    ensures { (o : AreDue publisher.old closed.now)
        → HavePublished result publisher.new (joined (o.done ++ closed.now)) }
{
    for batch in closed {
        match publish_batch(rt, alloc, lobby, publisher, batch, clock) {
            Ok(()) => {}
            Err(e) => return Err(e),
        }
    }
    Ok(())
}

// Publishes a batch, and posts it.
fn publish_batch<R: Wait, N: Named, C: Clock>(
    rt: &R,
    alloc: Global,
    lobby: &Lobby<N>,
    publisher: &mut Publisher<N>,
    batch: &Closed,
    clock: &C,
) -> Result<(), NoMemory>
    requires batch { IsBatch batch.now.items }
    requires few { publisher.old.cut + length batch.now.items < INPUT_BYTES }
    ensures published { OnOk result ((before : List AnItem) → IsClosed before → IsNextBatch true before batch.now.items
        → IsBookOf publisher.old before → IsBookOf publisher.new (before ++ batch.now.items)) }
    ensures same { OnErr result (publisher.new ≡ publisher.old) }
{
    match publisher.publish(alloc, batch.items.as_slice(), clock.now()) {
        Ok(_) => {
            lobby.post(rt, publisher);
            Ok(())
        }
        Err(e) => Err(e),
    }
}
