// The breadcrumbs that batches make, on their way to a sink.
ghost use Rattle.std.specs.Prelude.{◌≡◌, ◌≤◌, ◌<◌, ◌^◌, ◌+◌, ◌++◌, [], true, List, ℕ, length, OnOk, IfOk};
ghost use Rattle.ty_base.specs.declared.item.Item.{Item as AnItem};
ghost use Rattle.ty_base.specs.declared.limits.TheConstants.{INPUT_BYTES};
ghost use Rattle.ty_wire.specs.Wire.{frames};
ghost use Rattle.ty_wire.specs.Talk.{opening as opening_of, status_change};
ghost use Rattle.ty_base.specs.Batches.{IsBatch, IsClosed, IsNextBatch};
ghost use Rattle.ty_top.specs.Streamed.{streamed};
ghost use Rattle.ty_intake.specs.Batches.{joined};
ghost use Rattle.ty_top.specs.steps.Publisher.{Gave, CrumbOf, crumb_messages, Owed, AreGiven, AreGivenAndTold, gone_on};

use std::alloc::Global;
use std::mem;
use ty_base::{NoMemory, Sink, Status, give_all, same_status};
use ty_crumb::{Crumb, Followed, next_crumb_in, snapshot};
use ty_intake::{Closed, Fed, IntakeFault};
use ty_wire::{Msg, write, write_group};

// Why bytes weren't given whole.
#[derive(Clone, Copy, Debug, PartialEq, Eq)]
pub(crate) enum Unwritten {
    Sink,
    Memory,
}

// Why a piece of a feed is the last.
#[derive(Clone, Copy, Debug, PartialEq, Eq)]
pub(crate) enum Stop {
    Fault(IntakeFault),
    Sink,
    Memory,
}

// Gives the server hello, and where `from` is 0 the group of breadcrumb 0.
pub(crate) fn give_opening<K: Sink>(
    alloc: Global,
    from: u64,
    crumb: &Crumb,
    sink: &mut K,
) -> Result<(), Unwritten>
    requires { CrumbOf crumb.now [] }
    ensures { Gave result (K.seen sink.old) (K.seen sink.new) (streamed [] from) }
{
    let Ok(bytes) = opening(alloc, from, crumb) else {
        return Err(Unwritten::Memory);
    };
    give(&bytes, sink)
}

fn opening(alloc: Global, from: u64, crumb: &Crumb) -> Result<Vec<u8>, NoMemory>
    requires { CrumbOf crumb.now [] }
    ensures { IfOk result (λ bytes. bytes.items ≡ streamed [] from) }
{
    let mut out = Vec::new(alloc);
    write(alloc, &Msg::ServerHello { version: 1 }, &mut out)?;
    append_crumb(alloc, from, Status::Wait, crumb, &mut out)?;
    Ok(out)
}

// Gives the breadcrumbs that these batches make, and then tells of the fault. The bytes of each lie in `out`.
pub(crate) fn publish_fed<K: Sink>(
    alloc: Global,
    from: u64,
    fed: Fed,
    crumb: &mut Crumb,
    out: &mut Vec<u8>,
    sink: &mut K,
) -> Result<(), Stop>
    requires { Owed crumb.old fed.closed }
    ensures published { (o : Owed crumb.old fed.closed)
        → AreGivenAndTold from result fed.fault crumb.new (joined o.done) (joined (o.done ++ fed.closed)) (K.seen sink.old) (K.seen sink.new) }
    ensures later { (K.seen sink.old).faults ≤ (K.seen sink.new).faults }
{
    let Fed { closed, fault } = fed;
    match publish_all(alloc, from, closed.into_vec(), crumb, out, sink) {
        Ok(()) => go_on(fault),
        Err(Unwritten::Sink) => Err(Stop::Sink),
        Err(Unwritten::Memory) => Err(Stop::Memory),
    }
}

fn go_on(fault: Option<IntakeFault>) -> Result<(), Stop>
    ensures { result ≡ gone_on fault }
{
    match fault {
        None => Ok(()),
        Some(fault) => Err(Stop::Fault(fault)),
    }
}

// Gives the breadcrumbs that these batches make, one after another.
fn publish_all<K: Sink>(
    alloc: Global,
    from: u64,
    closed: Vec<Closed>,
    crumb: &mut Crumb,
    out: &mut Vec<u8>,
    sink: &mut K,
) -> Result<(), Unwritten>
    requires { Owed crumb.old closed.items }
    ensures { (o : Owed crumb.old closed.items)
        → AreGiven from result crumb.new (joined o.done) (joined (o.done ++ closed.items)) (K.seen sink.old) (K.seen sink.new) }
{
    for batch in closed {
        match publish(alloc, from, batch, crumb, out, sink) {
            Ok(()) => {}
            Err(e) => return Err(e),
        }
    }
    Ok(())
}

// Gives the breadcrumb that a batch makes, if it makes one.
fn publish<K: Sink>(
    alloc: Global,
    from: u64,
    batch: Closed,
    crumb: &mut Crumb,
    out: &mut Vec<u8>,
    sink: &mut K,
) -> Result<(), Unwritten>
    requires batch { IsBatch batch.items }
    requires later { crumb.old.cut ≤ batch.cut }
    requires few { crumb.old.number < INPUT_BYTES }
    ensures { (before : List AnItem) → IsClosed before → IsNextBatch true before batch.items
        → batch.cut ≡ length before + length batch.items → CrumbOf crumb.old before
        → AreGiven from result crumb.new before (before ++ batch.items) (K.seen sink.old) (K.seen sink.new) }
{
    let Closed { items, cut } = batch;
    let before = crumb.status;
    // The last breadcrumb is given up, so that its map changes in place.
    let last = mem::replace(crumb, Crumb::first(alloc, 0));
    match next_crumb_in(alloc, last, items.into_vec(), cut, 0) {
        Ok(Followed::Unchanged(last)) => {
            *crumb = last;
            Ok(())
        }
        Ok(Followed::Next(next)) => {
            *crumb = next;
            give_crumb(alloc, from, before, crumb, out, sink)
        }
        Err(_) => Err(Unwritten::Memory),
    }
}

// Gives what is said of a breadcrumb behind one with this status. `out` is filled anew.
fn give_crumb<K: Sink>(
    alloc: Global,
    from: u64,
    before: Status,
    crumb: &Crumb,
    out: &mut Vec<u8>,
    sink: &mut K,
) -> Result<(), Unwritten>
    ensures { Gave result (K.seen sink.old) (K.seen sink.new) (frames (crumb_messages from before crumb.now)) }
{
    out.clear();
    let Ok(()) = append_crumb(alloc, from, before, crumb, out) else {
        return Err(Unwritten::Memory);
    };
    give(out, sink)
}

fn give<K: Sink>(bytes: &[u8], sink: &mut K) -> Result<(), Unwritten>
    ensures { Gave result (K.seen sink.old) (K.seen sink.new) bytes.now }
{
    match give_all(sink, bytes) {
        Ok(()) => Ok(()),
        Err(_) => Err(Unwritten::Sink),
    }
}

// Appends what is said of a breadcrumb behind one with this status: nothing below `from`, its snapshot at it, and its
// deltas above it.
fn append_crumb(
    alloc: Global,
    from: u64,
    before: Status,
    crumb: &Crumb,
    out: &mut Vec<u8>,
) -> Result<(), NoMemory>
    ensures { OnOk result (out.new.items ≡ out.old.items ++ frames (crumb_messages from before crumb.now)) }
{
    if crumb.number < from {
        return Ok(());
    }
    if crumb.number == from {
        let pairs = snapshot(alloc, crumb)?;
        return write_group(alloc, &pairs, Some(crumb.status), crumb.number, out);
    }
    let change = change(before, crumb.status);
    write_group(alloc, &crumb.deltas, change, crumb.number, out)
}

// The second status, where it isn't the first.
pub(crate) fn change(from: Status, to: Status) -> Option<Status>
    ensures { result ≡ status_change from to }
{
    if same_status(from, to) {
        None
    } else {
        Some(to)
    }
}
