// One turn.
ghost use Rattle.std.specs.Prelude.{◌≡◌, ℕ, [], true, OnOk};
ghost use Rattle.ty_chain.specs.Shown.{Shown};
ghost use Rattle.ty_chain.specs.Following.{Moves, StepDone};
ghost use Rattle.ty_chain.specs.declared.follower.Step.TheVariants.{Pending, Ended};
ghost use Rattle.ty_session.specs.Times.{is_look_due};
ghost use Rattle.ty_server.specs.Exchanges.{LinkSeen, link_seen, HasLess};
ghost use Rattle.ty_server.specs.Turning.{Turns, StandsAt, IfIdle};
ghost use Rattle.ty_server.specs.steps.Parts.{Part, SomePart, SomePartIn, WorksIn, InTime, HasJoined, HasSaidAll};
ghost use Rattle.ty_server.specs.steps.Steps.{Steps, OnIdle, IsAnswer};

use crate::answers::Turn;
use crate::giving::give_queued;
use crate::listening::{leave, listen, look, tick};
use std::alloc::Global;
use ty_account::Named;
use ty_base::{Clock, Link, NoMemory};
use ty_chain::{Follower, Step};
use ty_session::{Gone, Reason, Session};

/// One turn at a client that has joined the follower's breadcrumb. It looks for the client's bytes where that is
/// due, and gives all that is queued. Then the follower steps once: the next breadcrumb is offered, or where there
/// is none, all is given and the client's bytes are looked for. The clock is asked once, in milliseconds. Only the
/// session wants memory, and after its want what was given are the first bytes of the talk still.
pub fn turn<N: Named, L: Link, C: Clock>(
    alloc: Global,
    session: &mut Session,
    follower: &mut Follower<N>,
    link: &mut L,
    clock: &C,
) -> Result<Turn, NoMemory>
    requires { StandsAt session.old follower.old }
    ensures turns { Turns (C.gives clock.now) (link_seen (L.sight link.old) (L.count link.old))
        (link_seen (L.sight link.new) (L.count link.new)) follower.old follower.new
        session.old session.new result }
    ensures idle { IfIdle result (HasLess (link_seen (L.sight link.old) (L.count link.old))
        (link_seen (L.sight link.new) (L.count link.new))) }
    ensures due { ((t : ℕ) → C.gives clock.now t → is_look_due session.old.stance.looked t ≡ true)
        → HasLess (link_seen (L.sight link.old) (L.count link.old))
        (link_seen (L.sight link.new) (L.count link.new)) }
{
    let now = clock.now();
    match attend(alloc, session, link, now) {
        Ok(()) => answer(step(alloc, session, follower, link, now)),
        Err(gone) => answer(Err(gone)),
    }
}

fn answer(turn: Result<Turn, Gone>) -> Result<Turn, NoMemory>
    ensures { IsAnswer turn result }
{
    match turn {
        Ok(turn) => Ok(turn),
        Err(Gone::Left(reason)) => Ok(Turn::Over(reason)),
        Err(Gone::NoMemory) => Err(NoMemory),
    }
}

// A look where it is due, the time, and what is queued.
fn attend<L: Link>(alloc: Global, session: &mut Session, link: &mut L, now: u64) -> Result<(), Gone>
    ensures part { SomePart now (link_seen (L.sight link.old) (L.count link.old))
        (link_seen (L.sight link.new) (L.count link.new)) session.old session.new result }
    ensures in_time { OnOk result (InTime now session.old session.new) }
    ensures due { is_look_due session.old.stance.looked now ≡ true
        → HasLess (link_seen (L.sight link.old) (L.count link.old))
        (link_seen (L.sight link.new) (L.count link.new)) }
{
    match listen_if_due(alloc, session, link, now) {
        Ok(()) => give_queued(session, link),
        Err(gone) => Err(gone),
    }
}

fn listen_if_due<L: Link>(
    alloc: Global,
    session: &mut Session,
    link: &mut L,
    now: u64,
) -> Result<(), Gone>
    ensures part { Part now [] (link_seen (L.sight link.old) (L.count link.old))
        (link_seen (L.sight link.new) (L.count link.new)) session.old session.new result }
    ensures in_time { OnOk result (InTime now session.old session.new) }
    ensures due { is_look_due session.old.stance.looked now ≡ true
        → HasLess (link_seen (L.sight link.old) (L.count link.old))
        (link_seen (L.sight link.new) (L.count link.new)) }
{
    if session.due(now) {
        listen(alloc, session, link, now)
    } else {
        tick(alloc, session, now)
    }
}

fn step<N: Named, L: Link>(
    alloc: Global,
    session: &mut Session,
    follower: &mut Follower<N>,
    link: &mut L,
    now: u64,
) -> Result<Turn, Gone>
    ensures steps { Steps now (link_seen (L.sight link.old) (L.count link.old))
        (link_seen (L.sight link.new) (L.count link.new)) follower.old follower.new
        session.old session.new result }
    ensures idle { OnIdle result (HasLess (link_seen (L.sight link.old) (L.count link.old))
        (link_seen (L.sight link.new) (L.count link.new))) }
{
    match follower.step() {
        Step::Stepped => send(alloc, session, follower, now),
        Step::Pending => rest(alloc, session, link, now),
        Step::Ended => finish(alloc, session, link),
    }
}

// The breadcrumb that the follower came to is offered.
fn send<N: Named>(
    alloc: Global,
    session: &mut Session,
    follower: &Follower<N>,
    now: u64,
) -> Result<Turn, Gone>
    ensures steps { (a : LinkSeen) (f : Shown) → Moves f follower.now
        → Steps now a a f follower.now session.old session.new result }
    ensures idle { OnIdle result ⊥ }
{
    match session.offer_encoded(alloc, follower.crumb(), follower.encoded(), now) {
        Ok(()) => Ok(Turn::Sent),
        Err(gone) => Err(gone),
    }
}

// There is no later breadcrumb yet: all is given, and then the client's bytes are looked for.
fn rest<L: Link>(alloc: Global, session: &mut Session, link: &mut L, now: u64) -> Result<Turn, Gone>
    ensures steps { (f g : Shown) → StepDone f g Pending
        → Steps now (link_seen (L.sight link.old) (L.count link.old))
        (link_seen (L.sight link.new) (L.count link.new)) f g session.old session.new result }
    ensures idle { OnIdle result (HasLess (link_seen (L.sight link.old) (L.count link.old))
        (link_seen (L.sight link.new) (L.count link.new))) }
{
    match say_all(alloc, session, link) {
        Ok(()) => match look(alloc, session, link, now) {
            Ok(()) => Ok(Turn::Idle),
            Err(gone) => Err(gone),
        },
        Err(gone) => Err(gone),
    }
}

// There is no later breadcrumb any more: all is given, and the connection is over.
fn finish<L: Link>(alloc: Global, session: &mut Session, link: &mut L) -> Result<Turn, Gone>
    ensures steps { (now : ℕ) (f g : Shown) → StepDone f g Ended
        → Steps now (link_seen (L.sight link.old) (L.count link.old))
        (link_seen (L.sight link.new) (L.count link.new)) f g session.old session.new result }
    ensures idle { OnIdle result ⊥ }
{
    match say_all(alloc, session, link) {
        Ok(()) => Err(leave(session, Reason::Finished)),
        Err(gone) => Err(gone),
    }
}

// The held group is queued, and all that is queued is given.
fn say_all<L: Link>(alloc: Global, session: &mut Session, link: &mut L) -> Result<(), Gone>
    ensures part { (now : ℕ) → SomePartIn HasJoined now (link_seen (L.sight link.old) (L.count link.old))
        (link_seen (L.sight link.new) (L.count link.new)) session.old session.new result }
    ensures all { OnOk result (HasSaidAll session.new) }
{
    match close(alloc, session) {
        Ok(()) => give_queued(session, link),
        Err(gone) => Err(gone),
    }
}

fn close(alloc: Global, session: &mut Session) -> Result<(), Gone>
    ensures works { (now : ℕ) → WorksIn HasJoined now [] session.old session.new result }
    ensures ended { OnOk result (session.new.ended ≡ session.new.number) }
{
    match session.idle(alloc) {
        Ok(()) => Ok(()),
        Err(_) => Err(Gone::NoMemory),
    }
}
