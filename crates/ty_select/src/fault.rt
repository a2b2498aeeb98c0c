// Why a text is no selector.
ghost use Rattle.std.specs.Prelude.{◌≡◌};
ghost use Rattle.ty_select.specs.declared.fault.Stop.TheVariants.{Spent};

use std::alloc::{AllocError, AllocFailed};
use ty_base::NoMemory;

/// What could stand where a fault is.
#[derive(Clone, Copy, Debug, PartialEq, Eq)]
pub enum Wanted {
    /// A term: `!`, `(` or a word.
    Term,
    /// An operator, after a label.
    Operator,
    /// A quoted text.
    Quoted,
    /// A label, after `has(`.
    Label,
    /// `)`, after the label of `has`, the `(` of `all` and `global`, and an operand in parentheses.
    Close,
    /// `in`, after `not`.
    In,
    /// `with`, after `starts` and `ends`.
    With,
    /// `{`, after `in`.
    Brace,
    /// A quoted text or `}`, after `{`.
    QuotedOrBrace,
    /// `,` or `}`, after a quoted text in a set.
    CommaOrBrace,
    /// `&&`, `||` or the end, after an operand outside parentheses.
    Joint,
}

/// Why a text is no selector: the leftmost fault.
#[derive(Clone, Copy, Debug, PartialEq, Eq)]
pub enum SelectFault {
    /// What stands at this byte, counted from 0, can't follow there.
    Bad { at: usize, wanted: Wanted },
    /// A `(` or a `!` stands at this byte, in its place, where `MOST_OPEN` of them are open already.
    TooDeep { at: usize },
    /// Memory ran out.
    NoMemory,
}

// Why reading stopped, its place told by how many bytes are left there.
#[derive(Clone, Copy, Debug, PartialEq, Eq)]
pub(crate) enum Stop {
    Bad { left: usize, wanted: Wanted },
    TooDeep { left: usize },
    Spent,
}

impl From<NoMemory> for Stop {
    ghost from_gives = { λ _ e. e ≡ Spent };

    fn from(_: NoMemory) -> Stop {
        Stop::Spent
    }
}

impl From<AllocError> for Stop {
    ghost from_gives = { λ _ e. e ≡ Spent };

    fn from(_: AllocError) -> Stop {
        Stop::Spent
    }
}

impl<T: Drop> From<AllocFailed<T>> for Stop {
    ghost from_gives = { λ _ e. e ≡ Spent };

    fn from(_: AllocFailed<T>) -> Stop {
        Stop::Spent
    }
}
