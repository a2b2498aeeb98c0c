// The right to enter an account, with its calls.
ghost use Rattle.ty_base.specs.declared.limits.TheConstants.{INPUT_BYTES};
ghost use Rattle.std.specs.Prelude.{◌≡◌, ◌<◌, ◌≤◌, ◌*◌, ◌++◌, ◌∷◌, [], length, true, false, Some, None};
ghost use Rattle.std.specs.Arc.{arc_value};
ghost use Rattle.ty_account.specs.Known.{known};
ghost use Rattle.ty_account.specs.steps.Histories.{known_of, word_of, word_weight, is_legal, is_closed, Fits, Ends};
ghost use Rattle.ty_account.specs.steps.Holds.{IsOf};
ghost use Rattle.ty_account.specs.steps.Rules.{word_in};

use crate::block::Block;
use crate::fresh::Fresh;
use crate::front::Front;
use crate::history::{Law, Mark, Reply};
use crate::node::{Node, Place};
use crate::right::{Entering, Right};
use crate::shared::Shared;
use crate::standing::Standing;
use crate::step::{Adding, Head};
use logbook::{Offer, Seen};
use std::alloc::Global;
use std::marker::Model;
use std::mem::replace;
use std::sync::Arc;
use ty_base::Entry;

/// A value that says an entry. It has no calls, since the program keeps no entries.
pub trait AsEntry {
    ghost use Rattle.ty_base.specs.declared.entry.Entry.{Entry};

    ghost entry: { Self → Entry };
}

impl AsEntry for Entry {
    ghost entry = { λ entry. entry };
}

/// The one right to enter an account. Contracts see the whole list, which is open.
#[derive(Drop)]
pub struct Pen<T: Standing> {
    shared: Arc<Shared<T>, Global>,
    right: Right,
    seen: Seen<Mark<T>, Reply<T>, Law<T>>,
    front: Front<T>,
    // The place that the last node leads to. Nobody else reads it before a node is entered there.
    last: Block<Place<T>, Global>,
}

impl<T: Standing> Model for Pen<T> {
    ghost use Rattle.std.specs.Arc.{arc_value};
    ghost use Rattle.ty_account.specs.Known.{Known};
    ghost use Rattle.ty_account.specs.steps.Histories.{Ends};
    ghost use Rattle.ty_account.specs.steps.Holds.{IsOf, HoldsWhole};

    ghost Value = { Known };

    ghost view = { λ p. p.front };

    ghost invariant = { λ p. IsOf (arc_value p.shared) p.seen.book p.seen.names
        × HoldsWhole p.right.names p.right.held p.seen.book p.seen.names p.seen.log p.front
        × Ends p.seen.log p.last.at };
}

// Adds a mark to all that was seen, in one step, and gives the right back. `by` is what the mark adds to the word.
fn add<T: Standing>(
    head: &Head<T>,
    seen: &mut Seen<Mark<T>, Reply<T>, Law<T>>,
    mut offer: Offer<Mark<T>, Reply<T>, Law<T>, Entering>,
    word: u64,
    by: u64,
) -> Right
    requires head { head.now ≡ word_in seen.old.book }
    requires offer { (offer.names ≡ seen.old.names) × (offer.about ≡ seen.old.log) × (offer.state ≡ None) }
    requires legal { is_legal seen.old.log ≡ true }
    requires open { is_closed seen.old.log ≡ false }
    requires word { word ≡ word_of seen.old.log }
    requires by { by ≡ word_weight offer.ask }
    requires room { word ≤ 2 * INPUT_BYTES }
    requires fits { Fits T.stands seen.old.log offer.ask }
    ensures seen { (seen.new.book ≡ seen.old.book) × (seen.new.names ≡ seen.old.names)
        × (seen.new.log ≡ seen.old.log ++ offer.ask ∷ []) }
    ensures right { (result.names ≡ seen.old.names) × (result.held ≡ Some (length seen.new.log)) }
{
    let mut pen = seen.no_pen();
    let _found = head.compare_exchange::<Adding<T>, Entering>(
        word,
        word + by,
        seen,
        &mut offer,
        &mut pen,
    );
    Right::back(offer.into_gain())
}

impl<T: Standing> Pen<T> {
    // The pen of an account that was just opened.
    pub(crate) fn begun(
        shared: Arc<Shared<T>, Global>,
        right: Right,
        seen: Seen<Mark<T>, Reply<T>, Law<T>>,
        last: Block<Place<T>, Global>,
    ) -> Pen<T>
        requires shared { IsOf (arc_value shared) seen.book seen.names }
        requires right { (right.names ≡ seen.names) × (right.held ≡ Some (length seen.log)) }
        requires begun { (word_of seen.log ≡ 0) × (is_legal seen.log ≡ true) }
        requires ends { Ends seen.log last.at }
        ensures { result ≡ known_of seen.book seen.names seen.log }
    {
        let front = Front::of(0, seen.again());
        Pen {
            shared,
            right,
            seen,
            front,
            last,
        }
    }

    /// The front that knows the whole list.
    pub fn front(&self) -> &Front<T>
        ensures whole { result.now ≡ self.now }
        ensures open { self.now.closed ≡ false }
    {
        &self.front
    }
}

impl<T: Standing + Drop> Pen<T> {
    /// The list grows by this entry, in one step, and its node is the last one. The node's item has to stand for the list
    /// with this entry more.
    pub fn enter(&mut self, entry: &Entry, node: Fresh<T>)
        requires room { length self.old.entries < INPUT_BYTES }
        requires stands { T.stands node.item (self.old.entries ++ entry.now ∷ []) }
        ensures { self.new ≡ known self.old.account (self.old.entries ++ entry.now ∷ []) false }
    {
        self.enter_as(entry, node);
    }

    /// The list grows by the entry that a value says, in one step. So nobody has to make an `Entry` apart from what
    /// holds its parts.
    pub fn enter_as<E: AsEntry>(&mut self, value: &E, node: Fresh<T>)
        requires room { length self.old.entries < INPUT_BYTES }
        requires stands { T.stands node.item (self.old.entries ++ E.entry value.now ∷ []) }
        ensures { self.new ≡ known self.old.account (self.old.entries ++ E.entry value.now ∷ []) false }
    {
        let Fresh { item, after, next } = node;
        let last = replace(&mut self.last, after);
        let block = last.fill(Place {
            node: Some(Node { item, next }),
        });
        let (known, deeds) = block.lend(&self.shared.hoard);
        let right = replace(&mut self.right, Right::none());
        let offer = right.entering::<T, E>(&self.seen, value, &known, deeds);
        let word = self.front.word();
        self.right = add(&self.shared.head, &mut self.seen, offer, word, 2);
        self.front = Front::of(word + 2, self.seen.again());
    }

    /// Closes the account, in one step. The front knows the whole list, and that it is closed.
    pub fn close(self) -> Front<T>
        ensures { result ≡ known self.account self.entries true }
    {
        let Pen {
            shared,
            right,
            mut seen,
            front,
            last: _last,
        } = self;
        let word = front.word();
        let offer = right.closing(&seen);
        let _spent = add(&shared.head, &mut seen, offer, word, 1);
        Front::of(word + 1, seen)
    }
}

unsafe impl<T: Standing + Send + Sync> Send for Pen<T> {}
