// What changed at a key.
ghost use Rattle.std.specs.Prelude.{◌≡◌, true};
ghost use Rattle.ty_base.specs.Kinds.{tells};

use crate::list::List;
use crate::text::Text;

/// How a key changed.
#[derive(Clone, Copy, Debug, PartialEq, Eq)]
pub enum Kind {
    /// It had no value before.
    New,
    /// It had another value before.
    Updated,
    /// It has no value now.
    Deleted,
}

/// What changed at a key. The value is there exactly where the kind isn't `Deleted`.
#[derive(Drop)]
pub struct Delta {
    pub key: Text,
    pub kind: Kind,
    pub value: Option<Text>,
    pub ghost told: { tells kind value ≡ true },
}

/// A list of deltas.
pub type Deltas = List<Delta>;
