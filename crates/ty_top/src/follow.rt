// The mode `follow`.
ghost use Rattle.std.specs.Prelude.{◌≤◌};
ghost use Rattle.ty_base.specs.Devices.{seen};
ghost use Rattle.ty_top.specs.Endings.{Follows};

use crate::ending::FollowEnd;
use std::alloc::Global;
use ty_base::{Sink, Source};
use ty_client::{FollowFault, follow};

// Writes the text of what a client rebuilds from the source's bytes.
pub(crate) fn follow_source<S: Source, K: Sink>(
    alloc: Global,
    brief: bool,
    source: &mut S,
    sink: &mut K,
) -> FollowEnd
    ensures follows { Follows brief result (seen (S.seen source.old) (K.seen sink.old)) (seen (S.seen source.new) (K.seen sink.new)) }
    ensures reads { (S.seen source.old).faults ≤ (S.seen source.new).faults }
    ensures writes { (K.seen sink.old).faults ≤ (K.seen sink.new).faults }
{
    match follow(alloc, brief, source, sink) {
        Ok(()) => FollowEnd::Done,
        Err(FollowFault::Stream(fault)) => FollowEnd::Fault(fault),
        Err(FollowFault::Cut { left }) => FollowEnd::Cut(left),
        Err(FollowFault::Read) => FollowEnd::Read,
        Err(FollowFault::Write) => FollowEnd::Write,
        Err(FollowFault::Link) => unreachable!(),
        Err(FollowFault::NoMemory) => FollowEnd::Memory,
    }
}
