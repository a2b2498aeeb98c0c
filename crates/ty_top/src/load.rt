// The mode `load`.
ghost use Rattle.std.specs.Prelude.{◌≤◌};
ghost use Rattle.ty_base.specs.Devices.{Input, seen};
ghost use Rattle.ty_top.specs.Endings.{Loads};

use crate::ending::LoadEnd;
use std::alloc::Global;
use ty_base::{Sink, give_all};

// Writes the summary of the load that is made from a number.
pub(crate) fn give_summary<K: Sink>(alloc: Global, number: u64, sink: &mut K) -> LoadEnd
    ensures loads { (source : Input) → Loads number result (seen source (K.seen sink.old)) (seen source (K.seen sink.new)) }
    ensures writes { (K.seen sink.old).faults ≤ (K.seen sink.new).faults }
{
    let Ok(summary) = ty_load::load(alloc, number) else {
        return LoadEnd::Memory;
    };
    match give_all(sink, summary.bytes()) {
        Ok(()) => LoadEnd::Done,
        Err(_) => LoadEnd::Write,
    }
}
