// What the client says, and whether it says it in time.
ghost use Rattle.std.specs.Prelude.{◌≡◌, [], OnOk};
ghost use Rattle.ty_session.specs.Outcomes.{Carries, MayLeave};
ghost use Rattle.ty_session.specs.Story.{left_by};
ghost use Rattle.ty_session.specs.declared.reason.Gone.TheVariants.{Left};
ghost use Rattle.ty_server.specs.Exchanges.{link_seen, HasLess};
ghost use Rattle.ty_server.specs.steps.Parts.{Part, Works, InTime, KeepsTalk};

use std::alloc::Global;
use ty_base::{Link, Took};
use ty_session::{Gone, Reason, Session};

// The most bytes of one look at a client, whose messages are short.
const LOOK_BYTES: usize = 4_096;

// One look, and then time has passed.
pub(crate) fn listen<L: Link>(
    alloc: Global,
    session: &mut Session,
    link: &mut L,
    now: u64,
) -> Result<(), Gone>
    ensures part { Part now [] (link_seen (L.sight link.old) (L.count link.old))
        (link_seen (L.sight link.new) (L.count link.new)) session.old session.new result }
    ensures in_time { OnOk result (InTime now session.old session.new) }
    ensures progress { HasLess (link_seen (L.sight link.old) (L.count link.old))
        (link_seen (L.sight link.new) (L.count link.new)) }
{
    match look(alloc, session, link, now) {
        Ok(()) => tick(alloc, session, now),
        Err(gone) => Err(gone),
    }
}

// One take: the session hears its bytes, or that none came. It ends at a fault of the link, and where the peer
// has closed.
pub(crate) fn look<L: Link>(
    alloc: Global,
    session: &mut Session,
    link: &mut L,
    now: u64,
) -> Result<(), Gone>
    ensures part { Part now [] (link_seen (L.sight link.old) (L.count link.old))
        (link_seen (L.sight link.new) (L.count link.new)) session.old session.new result }
    ensures progress { HasLess (link_seen (L.sight link.old) (L.count link.old))
        (link_seen (L.sight link.new) (L.count link.new)) }
    ensures kept { OnOk result (KeepsTalk session.old session.new) }
{
    let mut piece = [0u8; LOOK_BYTES];
    match link.take(&mut piece) {
        Ok(Took::Bytes(count)) => hear(alloc, session, &piece[..count], now),
        Ok(Took::Quiet) => {
            session.quiet(now);
            Ok(())
        }
        Ok(Took::End) => Err(leave(session, Reason::PeerClosed)),
        Err(_) => Err(leave(session, Reason::LinkFault)),
    }
}

fn hear(alloc: Global, session: &mut Session, bytes: &[u8], now: u64) -> Result<(), Gone>
    ensures works { Works now bytes.now session.old session.new result }
    ensures kept { OnOk result (KeepsTalk session.old session.new) }
{
    match session.hear(alloc, bytes, now) {
        Ok(_) => Ok(()),
        Err(gone) => Err(gone),
    }
}

// Time has passed.
pub(crate) fn tick(alloc: Global, session: &mut Session, now: u64) -> Result<(), Gone>
    ensures works { Works now [] session.old session.new result }
    ensures in_time { OnOk result (InTime now session.old session.new) }
{
    session.tick(alloc, now)
}

// The connection is over.
pub(crate) fn leave(session: &mut Session, reason: Reason) -> Gone
    requires { MayLeave reason session.old }
    ensures leaves { Carries session.old session.new (left_by reason) }
    ensures gone { result ≡ Left reason }
{
    session.leave(reason);
    Gone::Left(reason)
}
