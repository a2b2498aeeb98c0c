// The right of the last holder, who gives the nodes back. Its calls are proved by hand.
ghost use Rattle.std.specs.Prelude.{◌≡◌, ℕ, List, [], None};
ghost use Rattle.ty_account.specs.steps.Rights.{last_owns, life_of};
ghost use Rattle.ty_account.specs.steps.Histories.{no_mark, nodes_in};

use crate::history::{Law, Mark, Reply};
use crate::hoard::Deeds;
use crate::node::Place;
use crate::standing::Standing;
use logbook::{Gain, Gained, Offer, Seen};
use std::marker::{Model, PhantomData};

/// What a step gains that was made with the last right: the deeds to all nodes.
pub(crate) struct Taking;

impl<T: Standing> Gain<Mark<T>, Reply<T>> for Taking {
    ghost use Rattle.ty_account.specs.steps.Rights.{taking};

    ghost after = { λ names about reply. taking T.row names reply };
}

/// The right to take the deeds out of the book, once.
pub(crate) struct Last {
    pub(crate) marker: PhantomData<()>,
    pub ghost names: { List ℕ },
}

impl Model for Last {
    ghost also_owns = { λ l. last_owns l.names };
}

impl Last {
    /// The update of a step that takes the deeds.
    pub fn asking<T: Standing>(
        self,
        seen: &Seen<Mark<T>, Reply<T>, Law<T>>,
    ) -> Offer<Mark<T>, Reply<T>, Law<T>, Taking>
        requires { self.names ≡ seen.now.names }
        ensures { (result.names ≡ seen.now.names) × (result.ask ≡ no_mark) × (result.about ≡ []) × (result.state ≡ None) }
    {
        let Self { marker: _ } = self;
        let _ = seen;
        Offer {
            marker: PhantomData,
        }
    }

    /// The deeds, after the step.
    pub fn deeds<T: Standing>(gained: Gained<Mark<T>, Reply<T>, Taking>) -> Deeds<Place<T>>
        ensures { (result.life ≡ life_of gained.names) × (result.lots ≡ nodes_in gained.answer.all) }
    {
        let Gained { marker: _ } = gained;
        Deeds {
            marker: PhantomData,
        }
    }
}

impl Drop for Last {
    fn drop(self) {
        let Self { marker: _ } = self;
    }
}

unsafe impl Send for Last {}

unsafe impl Sync for Last {}
