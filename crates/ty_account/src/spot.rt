// A place in an account's list, and how a reader goes on from there.
ghost use Rattle.std.specs.Prelude.{◌≡◌, [], IfOk, Some, true};
ghost use Rattle.std.specs.Arc.{arc_value};
ghost use Rattle.ty_account.specs.Known.{KnowsMore, HasWalked, at_rest, standpoint, name_of};
ghost use Rattle.ty_account.specs.steps.Histories.{HasItem, HasNode, HasNode-prop, nodes_in, site_at, is_legal, IsChain};
ghost use Rattle.ty_account.specs.steps.Holds.{IsOf};
ghost use Rattle.ty_account.specs.steps.Rights.{life_of};

use crate::front::Front;
use crate::history::{Law, Mark, Reply};
use crate::hoard::Known;
use crate::node::Place;
use crate::reads::pick;
use crate::shared::Shared;
use crate::standing::Standing;
use logbook::Seen;
use std::alloc::Global;
use std::marker::Model;
use std::sync::Arc;
use ty_base::NoMemory;

/// What a step found.
#[derive(Clone, Copy, Debug, PartialEq, Eq)]
pub enum Walked {
    /// There was a later entry, and the spot is at its node.
    Next,
    /// There was none yet.
    Empty,
    /// There was none, and none will come.
    Closed,
}

// What a step tells that found no later entry.
fn resting(closed: bool) -> Walked
    ensures { result ≡ at_rest closed }
{
    if closed {
        Walked::Closed
    } else {
        Walked::Empty
    }
}

/// A place in an account's list. Contracts see the entries up to there, and the item of its node, which stands for them.
#[derive(Drop)]
pub struct Spot<T: Standing> {
    shared: Arc<Shared<T>, Global>,
    seen: Seen<Mark<T>, Reply<T>, Law<T>>,
    known: Known<Place<T>>,
    // Where the node stands.
    at: *mut Place<T>,
    place: u64,
    ghost held: { HasNode known.value.node } by { HasNode-prop known.value.node },
}

impl<T: Standing> Model for Spot<T> {
    ghost use Rattle.std.specs.Prelude.{◌≡◌, Some, take, true};
    ghost use Rattle.std.specs.Arc.{arc_value};
    ghost use Rattle.ty_account.specs.Known.{Standpoint, standpoint, name_of};
    ghost use Rattle.ty_account.specs.steps.Histories.{entries_in, item_of, nodes_in, site_at, is_legal, IsChain};
    ghost use Rattle.ty_account.specs.steps.Holds.{IsOf};
    ghost use Rattle.ty_account.specs.steps.Rights.{life_of};

    ghost Value = { Standpoint T };

    ghost view = { λ s. standpoint (name_of s.seen.book s.seen.names) (take s.place (entries_in s.seen.log)) (item_of s.known.value.node s.held) };

    ghost invariant = { λ s. IsOf (arc_value s.shared) s.seen.book s.seen.names
        × (s.known.life ≡ life_of s.seen.names) × (s.known.at ≡ s.at)
        × (site_at (nodes_in s.seen.log) s.place ≡ Some (s.known.at, s.known.value))
        × (is_legal s.seen.log ≡ true) × IsChain T.stands s.seen.log };
}

impl<T: Standing> Spot<T> {
    // The spot at place 0 of an account that was just opened.
    pub(crate) fn begun(
        shared: Arc<Shared<T>, Global>,
        seen: Seen<Mark<T>, Reply<T>, Law<T>>,
        known: Known<Place<T>>,
        at: *mut Place<T>,
    ) -> Spot<T>
        requires shared { IsOf (arc_value shared) seen.book seen.names }
        requires known { (known.life ≡ life_of seen.names) × (known.at ≡ at) }
        requires first { site_at (nodes_in seen.log) 0 ≡ Some (known.at, known.value) }
        requires rule { (is_legal seen.log ≡ true) × IsChain T.stands seen.log }
        requires held { HasNode known.value.node }
        ensures { (item : T) → HasItem known.value.node item → result ≡ standpoint (name_of seen.book seen.names) [] item }
    {
        Spot {
            shared,
            seen,
            known,
            at,
            place: 0,
        }
    }

    /// The item of the node. It stands for the entries up to there.
    pub fn item(&self) -> &T
        ensures item { result.now ≡ self.now.item }
        ensures stands { T.stands self.now.item self.now.entries }
    {
        let place = self.shared.hoard.get(self.at, &self.known);
        match &place.node {
            Some(node) => &node.item,
            None => unreachable!(),
        }
    }

    /// Goes on by one entry, if there was one at this call's look. The item where the spot then is stands for the entries up
    /// to there. It is one load and one read: it takes no lock and no memory, and waits for nobody.
    pub fn step(&mut self, front: &mut Front<T>) -> Walked
        requires { self.old.account ≡ front.old.account }
        ensures front { KnowsMore front.old front.new }
        ensures walked { HasWalked result self.old self.new front.new }
        ensures stands { T.stands self.new.item self.new.entries }
    {
        let (offer, seen) = front.follow(&self.shared.head, &self.seen);
        let look = front.look();
        if look.count <= self.place {
            return resting(look.closed);
        }
        let known = pick(offer.into_gain(), self.place + 1);
        let here = self.shared.hoard.get(self.at, &self.known);
        match &here.node {
            Some(node) => {
                self.at = node.next;
                self.known = known;
                self.seen = seen;
                self.place += 1;
                Walked::Next
            }
            None => unreachable!(),
        }
    }

    /// A spot at the same place.
    pub fn copy(&self) -> Result<Spot<T>, NoMemory>
        ensures { IfOk result (λ s. s ≡ self.now) }
    {
        Ok(Spot {
            shared: Arc::try_clone(&self.shared)?,
            seen: self.seen.again(),
            known: self.known.again(),
            at: self.at,
            place: self.place,
        })
    }

    /// Goes to the other's place.
    pub fn move_to(&mut self, other: &Spot<T>)
        requires { other.now.account ≡ self.old.account }
        ensures { self.new ≡ other.now }
    {
        self.seen = other.seen.again();
        self.known = other.known.again();
        self.at = other.at;
        self.place = other.place;
    }
}

unsafe impl<T: Standing + Send + Sync> Send for Spot<T> {}
