// What an account's word stands for: a history of marks, which only proofs see, and the rule between the two.
ghost use Rattle.std.specs.Prelude.{ℕ, Bool, List};
ghost use base.Stored.{coded_bool, coded_list};

use crate::node::Place;
use crate::standing::Standing;
use logbook::Rule;
use std::marker::{Model, PhantomData};
use ty_base::Entry;

/// A mark of the history. No value of it is ever made.
pub(crate) enum Mark<T> {
    /// The account was opened. Its first node stands at this address, in this place.
    Opened(*mut Place<T>, Place<T>),
    /// The list grew by this entry, whose node stands at this address, in this place.
    Entered(Entry, *mut Place<T>, Place<T>),
    /// The list was closed.
    Closed,
}

/// What a step that may add a mark tells. No value of it is ever made, and it has no bytes.
pub(crate) struct Report<M> {
    marker: PhantomData<M>,
    // How many marks it found.
    pub ghost found: { ℕ },
    // Whether it added its own.
    pub ghost added: { Bool } by { coded_bool },
    // The marks that there are afterwards.
    pub ghost all: { List M } by { coded_list M.code },
}

impl<M> Model for Report<M> {
    ghost use base.Fml.{ftrue};

    ghost also_owns = { λ r. ftrue };
}

/// What a step on an account's word tells.
pub(crate) type Reply<T> = Report<Mark<T>>;

/// The rule: the word is twice the number of entries, and one more where the list is closed; nothing follows a close;
/// and each node leads to the next one, and its item stands for the entries so far.
pub(crate) struct Law<T> {
    of: PhantomData<T>,
}

impl<T: Standing> Rule<Mark<T>, Reply<T>> for Law<T> {
    ghost use Rattle.std.specs.Prelude.{[]};
    ghost use Rattle.ty_account.specs.steps.Rules.{IsRuled, Moved};
    ghost use Rattle.ty_account.specs.steps.Rights.{kept};

    ghost holds = { λ cells history. IsRuled T.stands cells history };

    ghost first = { [] };

    ghost hinted = { λ n history. Unit {0} };

    ghost shows = { λ history. history };

    ghost keeps = { λ names history. kept T.row names history };

    ghost moves = { λ mark before after reply. Moved mark before after reply };
}
