// The mode `follow --at`.
ghost use Rattle.std.specs.Prelude.{◌≡◌, ◌≤◌, length};
ghost use Rattle.ty_base.specs.declared.limits.TheConstants.{HOST_BYTES};
ghost use Rattle.ty_top.specs.Dialling.{FollowsAt, dial_end};

use crate::link_ending::DialEnd;
use std::alloc::Global;
use std::sync::Wait;
use ty_base::{Door, Sink};
use ty_dial::{DialFault, follow_door};
use ty_words::FollowWords;

// Writes the text of what a client rebuilds from the dialler's connections.
pub(crate) fn follow_dialled<R: Wait, D: Door, K: Sink>(
    rt: &R,
    alloc: Global,
    words: &FollowWords,
    dial: &mut D,
    sink: &mut K,
) -> DialEnd
    requires { length words.now.host ≤ HOST_BYTES }
    ensures follows { FollowsAt D.gave D.got D.count D.sight D.Link.sight D.Link.count words.now result
        dial.old dial.new (K.seen sink.old) (K.seen sink.new) }
    ensures faults { D.count dial.old ≤ D.count dial.new }
    ensures writes { (K.seen sink.old).faults ≤ (K.seen sink.new).faults }
{
    let followed = follow_door(rt, alloc, &words.host, words.tries, words.brief, dial, sink);
    ended_by(followed)
}

fn ended_by(followed: Result<(), DialFault>) -> DialEnd
    ensures { result ≡ dial_end followed }
{
    match followed {
        Ok(()) => DialEnd::Done,
        Err(DialFault::Stream(fault)) => DialEnd::Fault(fault),
        Err(DialFault::Cut { left }) => DialEnd::Cut(left),
        Err(DialFault::Link) => DialEnd::Link,
        Err(DialFault::Door) => DialEnd::Door,
        Err(DialFault::Write) => DialEnd::Write,
        Err(DialFault::NoMemory) => DialEnd::Memory,
    }
}
