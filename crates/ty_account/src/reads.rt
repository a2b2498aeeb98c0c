// The update by which a look gains the right to read the nodes that are there. Its calls are proved by hand.
ghost use Rattle.std.specs.Prelude.{◌≡◌, ◌<◌, [], None, Some, length};
ghost use Rattle.ty_account.specs.steps.Rights.{life_of};
ghost use Rattle.ty_account.specs.steps.Histories.{no_mark, nodes_in, site_at};

use crate::history::{Law, Mark, Reply};
use crate::hoard::Known;
use crate::node::Place;
use crate::standing::Standing;
use logbook::{Gain, Gained, Offer, Seen};
use std::marker::PhantomData;

/// What a look gains: the right to read each node that the history then has.
pub(crate) struct Reading;

impl<T: Standing> Gain<Mark<T>, Reply<T>> for Reading {
    ghost use Rattle.ty_account.specs.steps.Rights.{reading};

    ghost after = { λ names about reply. reading T.row names reply };
}

/// The update of a look.
pub(crate) fn looking<T: Standing>(
    seen: &Seen<Mark<T>, Reply<T>, Law<T>>,
) -> Offer<Mark<T>, Reply<T>, Law<T>, Reading>
    ensures { (result.names ≡ seen.now.names) × (result.ask ≡ no_mark) × (result.about ≡ []) × (result.state ≡ None) }
{
    let _ = seen;
    Offer {
        marker: PhantomData,
    }
}

/// The right to read the node at this place, out of what a look gained.
pub(crate) fn pick<T: Standing>(
    gained: Gained<Mark<T>, Reply<T>, Reading>,
    place: u64,
) -> Known<Place<T>>
    requires { place < length (nodes_in gained.answer.all) }
    ensures { (result.life ≡ life_of gained.names)
        × (site_at (nodes_in gained.answer.all) place ≡ Some (result.at, result.value)) }
{
    let Gained { marker: _ } = gained;
    let _ = place;
    Known {
        marker: PhantomData,
    }
}
