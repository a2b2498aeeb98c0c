// The lobby of a chain.
ghost use Rattle.std.specs.Prelude.{◌≡◌, ◌⊎◌, length, IfOk};
ghost use mathlib.Core.List.{IsPrefix};
ghost use Rattle.ty_account.specs.Known.{KnowsMore};
ghost use Rattle.ty_chain.specs.Shown.{Within};

use crate::follower::Follower;
use crate::place::Place;
use crate::publisher::Publisher;
use crate::stop::{Front, Stop};
use std::alloc::Global;
use std::sync::{Arc, Mutex, Wait};
use ty_account::{Account, Look, Named};
use ty_base::NoMemory;

/// Where followers enter. Its lock is the only one of the chain.
#[derive(Drop)]
pub struct Lobby<L: Named> {
    posted: Arc<Mutex<Place<L>>, Global>,
    account: Account<Stop>,
    ghost same: { account ≡ L.account },
}

impl<L: Named> Lobby<L> {
    pub(crate) fn over(
        alloc: Global,
        first: Place<L>,
        account: Account<Stop>,
    ) -> Result<Lobby<L>, NoMemory>
        requires { account ≡ L.account }
    {
        Ok(Lobby {
            posted: Arc::new(alloc, Mutex::new(first))?,
            account,
        })
    }

    /// Posts the publisher's last breadcrumb, where those who enter from now on stand at first. It waits for a lock.
    pub fn post<R: Wait>(&self, rt: &R, publisher: &Publisher<L>) {
        publisher.post_at(&mut *self.posted.lock(rt));
    }

    /// A follower at the breadcrumb that is posted. Its front knows at least what this front knows. It waits for a
    /// lock.
    pub fn enter<R: Wait>(&self, rt: &R, front: &Front) -> Result<Follower<L>, NoMemory>
        requires { front.now.account ≡ L.account }
        ensures more { IfOk result (λ f. KnowsMore front.now f.known) }
        ensures stands { IfOk result (λ f. Within f.crumb f.known) }
    {
        let mut place = self.posted.lock(rt).copy()?;
        place.meet(&self.account, front);
        Ok(Follower::at(self.account.share()?, place))
    }

    /// The account's list at one step of this call, without the lock. The front knows it afterwards.
    pub fn look(&self, front: &mut Front) -> Look
        requires { front.old.account ≡ L.account }
        ensures more { KnowsMore front.old front.new }
        ensures count { result.count ≡ length front.new.entries }
        ensures closed { result.closed ≡ front.new.closed }
    {
        self.account.look(front)
    }

    /// Of two fronts one knows a prefix of what the other knows. The first one knows afterwards what the one that
    /// knew more did. It takes no lock.
    pub fn meet(&self, front: &mut Front, other: &Front)
        requires one { front.old.account ≡ L.account }
        requires two { other.now.account ≡ L.account }
        ensures this { KnowsMore front.old front.new }
        ensures that { KnowsMore other.now front.new }
        ensures longer { (front.new ≡ front.old) ⊎ (front.new ≡ other.now) }
        ensures prefix { IsPrefix front.old.entries other.now.entries
            ⊎ IsPrefix other.now.entries front.old.entries }
    {
        self.account.meet(front, other);
    }
}
