// The mode `sim`.
ghost use Rattle.std.specs.Prelude.{◌≤◌};
ghost use Rattle.ty_base.specs.Devices.{seen};
ghost use Rattle.ty_top.specs.Endings.{Sims};

use crate::ending::SimEnd;
use std::alloc::Global;
use ty_base::{Sink, Source};
use ty_core::{SimFault, World, simulate};

// Writes the report of the script that is the source, run in a new world.
pub(crate) fn sim_source<S: Source, K: Sink>(alloc: Global, source: &mut S, sink: &mut K) -> SimEnd
    ensures sims { Sims result (seen (S.seen source.old) (K.seen sink.old)) (seen (S.seen source.new) (K.seen sink.new)) }
    ensures reads { (S.seen source.old).faults ≤ (S.seen source.new).faults }
    ensures writes { (K.seen sink.old).faults ≤ (K.seen sink.new).faults }
{
    let Ok(mut world) = World::new(alloc) else {
        return SimEnd::Stopped(SimFault::NoMemory);
    };
    match simulate(alloc, &mut world, source, sink) {
        Ok(()) => SimEnd::Done,
        Err(fault) => SimEnd::Stopped(fault),
    }
}
