// Followers, which step along the chain.
ghost use Rattle.std.specs.Prelude.{◌≡◌, ◌≢◌, MatchBool};
ghost use Rattle.ty_account.specs.Known.{KnowsMore};
ghost use Rattle.ty_chain.specs.Shown.{Within};
ghost use Rattle.ty_chain.specs.Following.{Alike, StepDone};

use crate::place::Place;
use crate::stop::{Front, Stop};
use std::marker::Model;
use ty_account::{Account, Named};
use ty_crumb::Crumb;
use ty_group::Encoded;

/// What one step of a follower came to.
#[derive(Clone, Copy, Debug, PartialEq, Eq)]
pub enum Step {
    /// The follower stands at the breadcrumb of exactly the next entry.
    Stepped,
    /// The account had no later entry, and wasn't closed.
    Pending,
    /// The account had no later entry, and was closed.
    Ended,
}

/// A follower stands at a breadcrumb of the chain. Contracts see the breadcrumb, and what its front knows.
#[derive(Drop)]
pub struct Follower<L: Named> {
    account: Account<Stop>,
    place: Place<L>,
}

impl<L: Named> Model for Follower<L> {
    ghost use Rattle.std.specs.Prelude.{◌≡◌};
    ghost use Rattle.ty_chain.specs.Shown.{Shown};
    ghost use Rattle.std.specs.Coded.{codes};
    ghost use Rattle.ty_map.specs.steps.Code.{shape_code};

    ghost Value = { Shown };

    ghost coded = { Prim.hlevel (codes, shape_code) };

    ghost view = { λ f. f.place };

    ghost invariant = { λ f. f.account ≡ L.account };
}

impl<L: Named> Follower<L> {
    pub(crate) fn at(account: Account<Stop>, place: Place<L>) -> Follower<L>
        requires { account ≡ L.account }
        ensures { result ≡ place }
    {
        Follower { account, place }
    }

    /// The breadcrumb at which it stands, and which stands for a prefix of the account's list that its front knows.
    pub fn crumb(&self) -> &Crumb
        ensures crumb { result.now ≡ self.now.crumb }
        ensures stands { Within self.now.crumb self.now.known }
    {
        self.place.crumb()
    }

    /// The deltas of its breadcrumb as bytes, which were made once for all followers.
    pub fn encoded(&self) -> &Encoded
        ensures { result.now ≡ self.now.crumb.deltas }
    {
        self.place.encoded()
    }

    /// What it knows of the account.
    pub fn front(&self) -> &Front
        ensures front { result.now ≡ self.now.known }
        ensures account { self.now.known.account ≡ L.account }
    {
        self.place.front()
    }

    /// One step along one link, by one look at the account. It takes no lock and no memory, and waits for nobody.
    pub fn step(&mut self) -> Step
        ensures { StepDone self.old self.new result }
    {
        self.place.step()
    }

    fn meet(&mut self, front: &Front)
        requires { front.now.account ≡ L.account }
        ensures crumb { self.new.crumb ≡ self.old.crumb }
        ensures more { KnowsMore self.old.known self.new.known }
        ensures met { KnowsMore front.now self.new.known }
    {
        self.place.meet(&self.account, front);
    }
}

/// Lets the fronts of two followers of one chain meet, and says whether both stand at one number. Where they do,
/// their breadcrumbs say the same. The first front knows afterwards what the longer one knew.
pub fn agree<L: Named>(one: &mut Follower<L>, other: &Follower<L>) -> bool
    ensures crumb { one.new.crumb ≡ one.old.crumb }
    ensures this { KnowsMore one.old.known one.new.known }
    ensures that { KnowsMore other.now.known one.new.known }
    ensures same { MatchBool result (Alike one.new.crumb other.now.crumb) (one.new.crumb.number ≢ other.now.crumb.number) }
{
    one.meet(other.front());
    one.crumb().number == other.crumb().number
}
