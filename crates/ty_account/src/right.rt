// The right to enter: a resource that the pen holds, and that each entry trades. Its calls are proved by hand.
ghost use Rattle.std.specs.Prelude.{◌≡◌, ℕ, List, length, [], ◌∷◌, Option, None, Some};
ghost use Rattle.std.specs.Coded.{coded_option};
ghost use Rattle.ty_account.specs.steps.Rights.{right_owns, life_of};
ghost use Rattle.ty_account.specs.declared.history.Mark.TheVariants.{Opened, Entered, Closed};
ghost use base.Stored.{coded_ℕ};

use crate::history::{Law, Mark, Reply};
use crate::hoard::{Deeds, Known};
use crate::last::Last;
use crate::node::Place;
use crate::pen::AsEntry;
use crate::standing::Standing;
use logbook::{Gain, Gained, Offer, Seen, Start};
use std::marker::{Model, PhantomData};

/// What a step gains that was made with the right: the right, at the new length.
pub(crate) struct Entering;

impl<T: Standing> Gain<Mark<T>, Reply<T>> for Entering {
    ghost use Rattle.ty_account.specs.steps.Rights.{entering};

    ghost after = { λ names about reply. entering names about reply };
}

/// The right to enter. While it is held, `held` is the number of marks of the history, and nobody else adds one.
pub(crate) struct Right {
    marker: PhantomData<()>,
    pub ghost names: { List ℕ },
    pub ghost held: { Option ℕ } by { coded_option coded_ℕ },
}

impl Model for Right {
    ghost also_owns = { λ r. right_owns r.names r.held };
}

impl Right {
    /// The right over the history of an account whose first node was just lent, beside what the book keeps. The deed to
    /// that node goes to the book, and whoever holds the last right takes it out again.
    pub fn begin<T: Standing>(
        known: &Known<Place<T>>,
        deeds: Deeds<Place<T>>,
    ) -> (Start<Mark<T>, Reply<T>, Law<T>>, Right, Last)
        requires { (deeds.life ≡ known.now.life) × (deeds.lots ≡ (known.now.at, known.now.value) ∷ []) }
        ensures { (result.0.shown ≡ Opened known.now.at known.now.value ∷ []) × (life_of result.0.names ≡ known.now.life)
            × (result.1.names ≡ result.0.names) × (result.1.held ≡ Some 1) × (result.2.names ≡ result.0.names) }
    {
        let _ = known;
        let Deeds { marker: _ } = deeds;
        (
            Start {
                marker: PhantomData,
            },
            Right {
                marker: PhantomData,
            },
            Last {
                marker: PhantomData,
            },
        )
    }

    /// A right that isn't held.
    pub fn none() -> Right
        ensures { (result.names ≡ []) × (result.held ≡ None) }
    {
        Right {
            marker: PhantomData,
        }
    }

    /// The update of a step that enters what a value says, with a node that was lent.
    pub fn entering<T: Standing, E: AsEntry>(
        self,
        seen: &Seen<Mark<T>, Reply<T>, Law<T>>,
        value: &E,
        known: &Known<Place<T>>,
        deeds: Deeds<Place<T>>,
    ) -> Offer<Mark<T>, Reply<T>, Law<T>, Entering>
        requires { (self.names ≡ seen.now.names) × (self.held ≡ Some (length seen.now.log))
            × (known.now.life ≡ life_of seen.now.names) × (deeds.life ≡ known.now.life)
            × (deeds.lots ≡ (known.now.at, known.now.value) ∷ []) }
        ensures { (result.names ≡ seen.now.names) × (result.ask ≡ Entered (E.entry value.now) known.now.at known.now.value)
            × (result.about ≡ seen.now.log) × (result.state ≡ None) }
    {
        let Self { marker: _ } = self;
        let _ = seen;
        let _ = value;
        let _ = known;
        let Deeds { marker: _ } = deeds;
        Offer {
            marker: PhantomData,
        }
    }

    /// The update of a step that closes.
    pub fn closing<T: Standing>(
        self,
        seen: &Seen<Mark<T>, Reply<T>, Law<T>>,
    ) -> Offer<Mark<T>, Reply<T>, Law<T>, Entering>
        requires { (self.names ≡ seen.now.names) × (self.held ≡ Some (length seen.now.log)) }
        ensures { (result.names ≡ seen.now.names) × (result.ask ≡ Closed) × (result.about ≡ seen.now.log)
            × (result.state ≡ None) }
    {
        let Self { marker: _ } = self;
        let _ = seen;
        Offer {
            marker: PhantomData,
        }
    }

    /// The right, after the step.
    pub fn back<T: Standing>(gained: Gained<Mark<T>, Reply<T>, Entering>) -> Right
        ensures { (gained.answer.found ≡ length gained.about) × (result.names ≡ gained.names)
            × (result.held ≡ Some (length gained.answer.all)) }
    {
        let Gained { marker: _ } = gained;
        Right {
            marker: PhantomData,
        }
    }
}

impl Drop for Right {
    fn drop(self) {
        let Self { marker: _ } = self;
    }
}

unsafe impl Send for Right {}
