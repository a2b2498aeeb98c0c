// One greeting.
ghost use Rattle.std.specs.Prelude.{◌≡◌};
ghost use Rattle.ty_session.specs.declared.phase.Phase.TheVariants.{Waiting};
ghost use Rattle.ty_server.specs.Exchanges.{link_seen, HasLess};
ghost use Rattle.ty_server.specs.Greeting.{Greets};
ghost use Rattle.ty_server.specs.steps.Parts.{greeting_in};

use crate::answers::Greet;
use crate::listening::listen;
use std::alloc::Global;
use ty_base::{Clock, Link, NoMemory};
use ty_session::{Gone, Phase, Session};

/// Looks once for the hello of a client, for which the session waits, and whether its time is up. The clock is
/// asked once, in milliseconds, and the link is given nothing. After want of memory the session is spent.
pub fn greet<L: Link, C: Clock>(
    session: &mut Session,
    alloc: Global,
    link: &mut L,
    clock: &C,
) -> Result<Greet, NoMemory>
    requires { session.old.stance.phase ≡ Waiting }
    ensures greets { Greets (C.gives clock.now) (link_seen (L.sight link.old) (L.count link.old))
        (link_seen (L.sight link.new) (L.count link.new)) session.old session.new result }
    ensures progress { HasLess (link_seen (L.sight link.old) (L.count link.old))
        (link_seen (L.sight link.new) (L.count link.new)) }
{
    let now = clock.now();
    match listen(alloc, session, link, now) {
        Ok(()) => Ok(greeted(session)),
        Err(Gone::Left(reason)) => Ok(Greet::Over(reason)),
        Err(Gone::NoMemory) => Err(NoMemory),
    }
}

fn greeted(session: &Session) -> Greet
    ensures { result ≡ greeting_in session.now.stance.phase }
{
    match session.phase() {
        Phase::Waiting => Greet::Waiting,
        _ => Greet::Ready,
    }
}
