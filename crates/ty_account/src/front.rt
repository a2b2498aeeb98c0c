// What a caller knows of an account.
ghost use Rattle.std.specs.Prelude.{◌≡◌, ◌⊎◌, length, true};
ghost use mathlib.Core.List.{IsPrefix};
ghost use Rattle.ty_account.specs.Known.{KnowsMore, name_of};
ghost use Rattle.ty_account.specs.steps.Histories.{known_of, word_of, word_for, is_legal, IsChain};
ghost use Rattle.ty_account.specs.steps.Rules.{word_in, Told};

use crate::history::{Law, Mark, Reply};
use crate::reads::{Reading, looking};
use crate::standing::Standing;
use crate::step::{Head, Looking};
use logbook::{Offer, Seen};
use std::marker::Model;

/// What one look found.
#[derive(Clone, Copy, Debug, PartialEq, Eq)]
pub struct Look {
    /// How many entries the list had.
    pub count: u64,
    /// Whether it was closed.
    pub closed: bool,
}

/// A caller's knowledge of an account: a prefix of its list, and perhaps that the list is closed there. It takes
/// 8 bytes, whatever it knows.
#[derive(Drop)]
pub struct Front<T: Standing> {
    // Twice the number of entries that are known, and one more where the list is known to be closed.
    word: u64,
    seen: Seen<Mark<T>, Reply<T>, Law<T>>,
}

impl<T: Standing> Model for Front<T> {
    ghost use Rattle.std.specs.Prelude.{◌≡◌, true};
    ghost use Rattle.ty_account.specs.Known.{Known};
    ghost use Rattle.ty_account.specs.steps.Histories.{known_of, word_of, is_legal};

    ghost Value = { Known };

    ghost view = { λ f. known_of f.seen.book f.seen.names f.seen.log };

    ghost invariant = { λ f. (f.word ≡ word_of f.seen.log) × (is_legal f.seen.log ≡ true) };
}

impl<T: Standing> Front<T> {
    // The front that knows what was seen.
    pub(crate) fn of(word: u64, seen: Seen<Mark<T>, Reply<T>, Law<T>>) -> Front<T>
        requires word { word ≡ word_of seen.log }
        requires legal { is_legal seen.log ≡ true }
        ensures { result ≡ known_of seen.book seen.names seen.log }
    {
        Front { word, seen }
    }

    // The word that says what is known.
    pub(crate) fn word(&self) -> u64
        ensures { result ≡ word_for self.now }
    {
        self.word
    }

    // What is known, as a look tells it.
    pub(crate) fn look(&self) -> Look
        ensures count { result.count ≡ length self.now.entries }
        ensures closed { result.closed ≡ self.now.closed }
    {
        Look {
            count: self.word / 2,
            closed: self.word % 2 == 1,
        }
    }

    // Looks at the word of its account, with what somebody else saw of it, and gains the right to read each node that is
    // there.
    pub(crate) fn follow(
        &mut self,
        head: &Head<T>,
        seen: &Seen<Mark<T>, Reply<T>, Law<T>>,
    ) -> (
        Offer<Mark<T>, Reply<T>, Law<T>, Reading>,
        Seen<Mark<T>, Reply<T>, Law<T>>,
    )
        requires head { head.now ≡ word_in seen.now.book }
        requires same { self.old.account ≡ name_of seen.now.book seen.now.names }
        ensures more { KnowsMore self.old self.new }
        ensures told { (result.0.names ≡ seen.now.names) × Told result.0.state result.1.log }
        ensures seen { (result.1.book ≡ seen.now.book) × (result.1.names ≡ seen.now.names)
            × IsPrefix seen.now.log result.1.log }
        ensures rule { (is_legal result.1.log ≡ true) × IsChain T.stands result.1.log }
        ensures new { self.new ≡ known_of seen.now.book seen.now.names result.1.log }
    {
        self.seen.learn(seen);
        let mut offer = looking(&self.seen);
        let found = head.load::<Looking<T>, Reading>(&mut self.seen, &mut offer);
        self.word = found;
        (offer, self.seen.again())
    }

    // The one of two fronts that knows more, and the other's knowledge begins it.
    pub(crate) fn longer(&self, other: &Front<T>) -> Front<T>
        requires { other.now.account ≡ self.now.account }
        ensures this { KnowsMore self.now result }
        ensures that { KnowsMore other.now result }
        ensures longer { (result ≡ self.now) ⊎ (result ≡ other.now) }
        ensures prefix { IsPrefix self.now.entries other.now.entries
            ⊎ IsPrefix other.now.entries self.now.entries }
    {
        let mut both = self.seen.again();
        both.learn(&other.seen);
        if self.word < other.word {
            front_copy(other)
        } else {
            front_copy(self)
        }
    }
}

/// A copy of what is known.
pub fn front_copy<T: Standing>(front: &Front<T>) -> Front<T>
    ensures { result ≡ front.now }
{
    Front {
        word: front.word,
        seen: front.seen.again(),
    }
}

/// How many entries are known.
pub fn front_count<T: Standing>(front: &Front<T>) -> u64
    ensures { result ≡ length front.now.entries }
{
    front.word / 2
}
