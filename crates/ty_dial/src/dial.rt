// One dialled link after another, each followed until it is lost.
ghost use Rattle.std.specs.Prelude.{◌≢◌, ◌≡◌, ◌≤◌, length};
ghost use Rattle.ty_base.specs.declared.limits.TheConstants.{HOST_BYTES};
ghost use Rattle.ty_dial.specs.Dialled.{Dials, dialler, is_lost as is_lost_of};
ghost use Rattle.ty_dial.specs.steps.Turns.{DialsTo, HadTurn, IsFaultOf};

use crate::fault::DialFault;
use std::alloc::Global;
use std::sync::Wait;
use ty_base::{Came, Door, Link, Sink, Text};
use ty_client::{FollowFault, Rebuild, follow_link};

// What one dialling came to.
#[derive(Clone, Copy, Debug, PartialEq, Eq)]
enum Dial {
    // A link was followed, with this answer, and went back.
    Followed(Result<(), DialFault>),
    // Nothing came yet.
    Quiet,
    // Nothing more will come.
    End,
}

/// Follows a server over dialled links, `tries` in all: after a lost link it dials again. A link is lost where its end
/// comes, inside a frame or not, and where it fails. The answer is that of the last link, and `Ok` where there was none.
/// It is over before the last try where the dialler answers `End`; at `Quiet` it is asked again. Any other fault ends
/// it at once. The text of what each link rebuilds is written as `follow_link` writes it: a front of the last one's at
/// `Write` and `NoMemory`, and all else. Each link goes back to the dialler. It waits for the dialler and for peers.
pub fn follow_door<R: Wait, D: Door, K: Sink>(
    rt: &R,
    alloc: Global,
    host: &Text,
    tries: u64,
    brief: bool,
    dial: &mut D,
    sink: &mut K,
) -> Result<(), DialFault>
    requires { length host.now ≤ HOST_BYTES }
    ensures dialled { Dials D.gave D.got D.count D.sight D.Link.sight D.Link.count host.now tries brief
        dial.old dial.new (K.seen sink.old) (K.seen sink.new) result }
    ensures faults { D.count dial.old ≤ D.count dial.new }
    ensures writes { (K.seen sink.old).faults ≤ (K.seen sink.new).faults }
{
    let mut rebuild = Rebuild::new(alloc);
    let mut last = Ok(());
    let mut count = 0;
    for _ in rt.forever() {
        if count == tries {
            return last;
        }
        match dial_next(rt, alloc, &mut rebuild, host, brief, dial, sink) {
            Ok(Dial::Followed(answer)) => {
                if !is_lost(answer) {
                    return answer;
                }
                last = answer;
                count += 1;
            }
            Ok(Dial::Quiet) => {}
            Ok(Dial::End) => return last,
            Err(fault) => return Err(fault),
        }
    }
    unreachable!()
}

// Whether this answer is that of a link that was lost.
fn is_lost(answer: Result<(), DialFault>) -> bool
    ensures { result ≡ is_lost_of answer }
{
    match answer {
        Ok(()) => true,
        Err(DialFault::Cut { .. }) => true,
        Err(DialFault::Link) => true,
        Err(_) => false,
    }
}

// Dials once. A link is followed and goes back.
fn dial_next<R: Wait, D: Door, K: Sink>(
    rt: &R,
    alloc: Global,
    rebuild: &mut Rebuild,
    host: &Text,
    brief: bool,
    dial: &mut D,
    sink: &mut K,
) -> Result<Dial, DialFault>
    requires { length host.now ≤ HOST_BYTES }
    ensures came { DialsTo D.Link.sight D.Link.count host.now brief
        (dialler (D.sight dial.old) (D.gave dial.old) (D.got dial.old) (D.count dial.old) (K.seen sink.old))
        (dialler (D.sight dial.new) (D.gave dial.new) (D.got dial.new) (D.count dial.new) (K.seen sink.new)) result }
    ensures faults { D.count dial.old ≤ D.count dial.new }
    ensures writes { (K.seen sink.old).faults ≤ (K.seen sink.new).faults }
{
    match dial.accept() {
        Ok(Came::Link(mut link)) => {
            let answer = follow_dialled(rt, alloc, rebuild, host, brief, &mut link, sink);
            dial.back(link);
            Ok(Dial::Followed(answer))
        }
        Ok(Came::Quiet) => Ok(Dial::Quiet),
        Ok(Came::End) => Ok(Dial::End),
        Err(_) => Err(DialFault::Door),
    }
}

// Follows one link.
fn follow_dialled<R: Wait, L: Link, K: Sink>(
    rt: &R,
    alloc: Global,
    rebuild: &mut Rebuild,
    host: &Text,
    brief: bool,
    link: &mut L,
    sink: &mut K,
) -> Result<(), DialFault>
    requires { length host.now ≤ HOST_BYTES }
    ensures { HadTurn host.now brief result (L.sight link.old) (L.sight link.new) (L.count link.old) (L.count link.new)
        (K.seen sink.old) (K.seen sink.new) }
{
    match follow_link(rt, alloc, rebuild, host, brief, link, sink) {
        Ok(()) => Ok(()),
        Err(fault) => Err(dial_fault(fault)),
    }
}

// A link has nothing to read but itself.
fn dial_fault(fault: FollowFault) -> DialFault
    requires { fault ≢ FollowFault.Read }
    ensures { IsFaultOf fault result }
{
    match fault {
        FollowFault::Stream(fault) => DialFault::Stream(fault),
        FollowFault::Cut { left } => DialFault::Cut { left },
        FollowFault::Read => unreachable!(),
        FollowFault::Write => DialFault::Write,
        FollowFault::Link => DialFault::Link,
        FollowFault::NoMemory => DialFault::NoMemory,
    }
}
