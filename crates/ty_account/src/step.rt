// The steps on an account's word: what they ask for, and what they tell.
use crate::history::{Law, Mark, Reply};
use crate::standing::Standing;
use logbook::{Play, Word};
use std::marker::PhantomData;

/// An account's word.
pub(crate) type Head<T> = Word<Mark<T>, Reply<T>, Law<T>>;

/// A look, which adds no mark.
pub(crate) struct Looking<T> {
    of: PhantomData<T>,
}

impl<T: Standing> Play<Mark<T>, Reply<T>> for Looking<T> {
    ghost use Rattle.ty_account.specs.steps.Rules.{Looks};

    ghost then = { Looks T.stands };
}

/// A step that enters or closes.
pub(crate) struct Adding<T> {
    of: PhantomData<T>,
}

impl<T: Standing> Play<Mark<T>, Reply<T>> for Adding<T> {
    ghost use Rattle.ty_account.specs.steps.Rules.{Adds};

    ghost then = { Adds T.stands };
}
