// A place in the chain.
ghost use Rattle.std.specs.Prelude.{◌≡◌, ◌≤◌, length, IfOk};
ghost use Rattle.std.specs.Arc.{arc_value};
ghost use mathlib.Core.List.{IsPrefix};
ghost use Rattle.ty_account.specs.Known.{KnowsMore};
ghost use Rattle.ty_crumb.specs.Crumbs.{CrumbStands};
ghost use Rattle.ty_chain.specs.Shown.{Within, shown_at};
ghost use Rattle.ty_chain.specs.Following.{StepDone};

use crate::follower::Step;
use crate::stop::{Front, Stop};
use std::marker::{Model, PhantomData};
use ty_account::{Account, Named, Spot, Walked, front_copy};
use ty_base::NoMemory;
use ty_crumb::Crumb;
use ty_group::Encoded;

/// The node of a breadcrumb beside a front that knows the entries for which it stands. Contracts see the breadcrumb and what
/// the front knows.
#[derive(Drop)]
pub(crate) struct Place<L: Named> {
    spot: Spot<Stop>,
    front: Front,
    of: PhantomData<L>,
}

impl<L: Named> Model for Place<L> {
    ghost use Rattle.std.specs.Prelude.{◌≡◌};
    ghost use Rattle.std.specs.Arc.{arc_value};
    ghost use mathlib.Core.List.{IsPrefix};
    ghost use Rattle.ty_crumb.specs.Crumbs.{CrumbStands};
    ghost use Rattle.ty_chain.specs.Shown.{Shown, shown_at};
    ghost use Rattle.std.specs.Coded.{codes};
    ghost use Rattle.ty_map.specs.steps.Code.{shape_code};

    ghost Value = { Shown };

    ghost coded = { Prim.hlevel (codes, shape_code) };

    ghost view = { λ p. shown_at (arc_value p.spot.item.parcel).crumb p.front };

    ghost invariant = { λ p. (p.spot.account ≡ L.account) × (p.front.account ≡ L.account)
        × IsPrefix p.spot.entries p.front.entries × CrumbStands (arc_value p.spot.item.parcel).crumb p.spot.entries };
}

impl<L: Named> Place<L> {
    /// The place of a spot, with a front that knows its entries.
    pub fn new(spot: Spot<Stop>, front: Front) -> Place<L>
        requires account { (spot.account ≡ L.account) × (front.account ≡ L.account) }
        requires begins { IsPrefix spot.entries front.entries }
        requires stands { CrumbStands (arc_value spot.item.parcel).crumb spot.entries }
        ensures { result ≡ shown_at (arc_value spot.item.parcel).crumb front }
    {
        Place {
            spot,
            front,
            of: PhantomData,
        }
    }

    /// The breadcrumb, which stands for a prefix of what the front knows.
    pub fn crumb(&self) -> &Crumb
        ensures crumb { result.now ≡ self.now.crumb }
        ensures stands { Within self.now.crumb self.now.known }
    {
        &self.spot.item().parcel.crumb
    }

    /// The breadcrumb's deltas as bytes.
    pub fn encoded(&self) -> &Encoded
        ensures { result.now ≡ self.now.crumb.deltas }
    {
        &self.spot.item().parcel.encoded
    }

    /// What is known of the account there.
    pub fn front(&self) -> &Front
        ensures front { result.now ≡ self.now.known }
        ensures account { self.now.known.account ≡ L.account }
    {
        &self.front
    }

    /// One step from a place to the next, with the look of the step.
    pub fn step(&mut self) -> Step
        ensures { StepDone self.old self.new result }
    {
        match self.spot.step(&mut self.front) {
            Walked::Next => Step::Stepped,
            Walked::Empty => Step::Pending,
            Walked::Closed => Step::Ended,
        }
    }

    /// Goes to the place of this spot, with a front that knows its entries.
    pub fn go_to(&mut self, spot: &Spot<Stop>, front: &Front)
        requires account { (spot.now.account ≡ L.account) × (front.now.account ≡ L.account) }
        requires begins { IsPrefix spot.now.entries front.now.entries }
        requires stands { CrumbStands (arc_value spot.now.item.parcel).crumb spot.now.entries }
        ensures { self.new ≡ shown_at (arc_value spot.now.item.parcel).crumb front.now }
    {
        self.spot.move_to(spot);
        self.front = front_copy(front);
    }

    /// Comes to know what another front knows.
    pub fn meet(&mut self, account: &Account<Stop>, front: &Front)
        requires account { account.now ≡ L.account }
        requires front { front.now.account ≡ L.account }
        ensures crumb { self.new.crumb ≡ self.old.crumb }
        ensures more { KnowsMore self.old.known self.new.known }
        ensures met { KnowsMore front.now self.new.known }
        ensures stands { Within self.new.crumb self.new.known }
    {
        account.meet(&mut self.front, front);
    }

    /// The same place.
    pub fn copy(&self) -> Result<Place<L>, NoMemory>
        ensures { IfOk result (λ p. p ≡ self.now) }
    {
        Ok(Place {
            spot: self.spot.copy()?,
            front: front_copy(&self.front),
            of: PhantomData,
        })
    }
}
