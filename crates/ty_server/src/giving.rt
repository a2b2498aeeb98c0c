// What is queued is given to the link.
ghost use Rattle.std.specs.Prelude.{◌≡◌, ◌<◌, ◌≤◌, ℕ, [], length, drop, OnOk};
ghost use Rattle.ty_server.specs.Exchanges.{link_seen};
ghost use Rattle.ty_server.specs.steps.Parts.{SomePart, IsShorter};

use crate::listening::leave;
use ty_base::{Link, PIECE_BYTES};
use ty_session::{Gone, Reason, Session};

// All that is queued, at most `PIECE_BYTES` at a time. It ends at a fault of the link.
pub(crate) fn give_queued<L: Link>(session: &mut Session, link: &mut L) -> Result<(), Gone>
    ensures part { (now : ℕ) → SomePart now (link_seen (L.sight link.old) (L.count link.old))
        (link_seen (L.sight link.new) (L.count link.new)) session.old session.new result }
    ensures same { OnOk result (session.new ≡ record session.old { out = [] }) }
{
    while !session.out().is_empty() {
        match give_piece(session, link) {
            Ok(()) => {}
            Err(gone) => return Err(gone),
        }
    }
    Ok(())
}

// One give of the first of them.
fn give_piece<L: Link>(session: &mut Session, link: &mut L) -> Result<(), Gone>
    requires { 0 < length session.old.out }
    ensures part { (now : ℕ) → SomePart now (link_seen (L.sight link.old) (L.count link.old))
        (link_seen (L.sight link.new) (L.count link.new)) session.old session.new result }
    ensures shorter { OnOk result (IsShorter session.old session.new) }
{
    let out = session.out();
    let end = out.len().min(PIECE_BYTES);
    match link.give(&out[..end]) {
        Ok(count) => {
            session.given(count);
            Ok(())
        }
        Err(_) => Err(leave(session, Reason::LinkFault)),
    }
}
