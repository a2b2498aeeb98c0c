// A client is served.
ghost use Rattle.std.specs.Prelude.{◌≡◌, ◌≤◌, IfOk};
ghost use Rattle.ty_account.specs.Known.{Known, KnowsMore};
ghost use Rattle.ty_base.specs.Told.{Told};
ghost use Rattle.ty_session.specs.Outcomes.{IfLeft};
ghost use Rattle.ty_server.specs.Exchanges.{link_seen};
ghost use Rattle.ty_server.specs.Served.{GivenFront, IsServedCause, HasEnded};
ghost use Rattle.ty_server.specs.steps.Service.{IsGreeted, IsSilent, IsReasonOf};

use crate::answers::{Greet, Turn};
use crate::greeting::greet;
use crate::turning::turn;
use std::alloc::Global;
use std::sync::Wait;
use ty_account::Named;
use ty_base::{Clock, Link, NoMemory};
use ty_chain::{Front, Lobby};
use ty_session::{Gone, Reason, Session};

/// Serves one client to its end: waits for its hello, enters at the breadcrumb that is posted in the lobby, and
/// takes turns. It tells why the connection is over. The front knows afterwards what the follower knew at last.
/// At every answer, want of memory too, the link was given the first bytes of a talk over what the front knows. It
/// waits for the peer, and for locks.
pub fn serve_client<R: Wait, N: Named, L: Link, C: Clock>(
    rt: &R,
    alloc: Global,
    lobby: &Lobby<N>,
    front: &mut Front,
    link: &mut L,
    clock: &C,
) -> Result<Reason, NoMemory>
    requires { front.old.account ≡ N.account }
    ensures knows_more { KnowsMore front.old front.new }
    ensures faults { L.count link.old ≤ L.count link.new }
    ensures given { Told (GivenFront front.new.entries) (L.sight link.old) (L.sight link.new) }
    ensures cause { IfOk result (IsServedCause (C.gives clock.now) front.new
        (link_seen (L.sight link.old) (L.count link.old)) (link_seen (L.sight link.new) (L.count link.new))) }
    ensures ended { IfOk result (λ _. HasEnded (C.gives clock.now) front.new
        (link_seen (L.sight link.old) (L.count link.old)) (link_seen (L.sight link.new) (L.count link.new))) }
{
    let mut session = match welcome(rt, alloc, link, clock) {
        Ok(session) => session,
        Err(gone) => return reason_of(gone),
    };
    let mut follower = lobby.enter(rt, front)?;
    session.join(alloc, follower.crumb(), clock.now())?;
    for _ in rt.forever() {
        let Ok(turn) = turn(alloc, &mut session, &mut follower, link, clock) else {
            lobby.meet(front, follower.front());
            return Err(NoMemory);
        };
        match turn {
            Turn::Sent => {}
            Turn::Idle => {}
            Turn::Over(reason) => {
                lobby.meet(front, follower.front());
                return Ok(reason);
            }
        }
    }
    unreachable!()
}

fn reason_of(gone: Gone) -> Result<Reason, NoMemory>
    ensures { IsReasonOf gone result }
{
    match gone {
        Gone::Left(reason) => Ok(reason),
        Gone::NoMemory => Err(NoMemory),
    }
}

// Greets until the client has said its hello.
fn welcome<R: Wait, L: Link, C: Clock>(
    rt: &R,
    alloc: Global,
    link: &mut L,
    clock: &C,
) -> Result<Session, Gone>
    ensures greeted { IfOk result (IsGreeted (C.gives clock.now)
        (link_seen (L.sight link.old) (L.count link.old)) (link_seen (L.sight link.new) (L.count link.new))) }
    ensures left { IfLeft result (λ r. (known : Known) → IsServedCause (C.gives clock.now) known
        (link_seen (L.sight link.old) (L.count link.old)) (link_seen (L.sight link.new) (L.count link.new)) r) }
    ensures silent { IsSilent (link_seen (L.sight link.old) (L.count link.old))
        (link_seen (L.sight link.new) (L.count link.new)) }
    ensures faults { L.count link.old ≤ L.count link.new }
{
    let mut session = Session::new(alloc, clock.now());
    for _ in rt.forever() {
        let Ok(greeting) = greet(&mut session, alloc, link, clock) else {
            return Err(Gone::NoMemory);
        };
        match greeting {
            Greet::Ready => return Ok(session),
            Greet::Waiting => {}
            Greet::Over(reason) => return Err(Gone::Left(reason)),
        }
    }
    unreachable!()
}
