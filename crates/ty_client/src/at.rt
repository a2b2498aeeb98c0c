// What is rebuilt at a crumb end.
use std::marker::Model;
use ty_base::{List, NoMemory, Status};
use ty_map::Pairs;

/// What a client has rebuilt at a crumb end. Keys have at most `KEY_BYTES` and values at most
/// `VALUE_BYTES`.
#[derive(Drop)]
pub struct At {
    /// The breadcrumb's number.
    pub number: u64,
    pub status: Status,
    pub pairs: Pairs,
}

impl Model for At {
    ghost use Rattle.ty_client.specs.Rebuilt.{Rebuilt};
    ghost use Rattle.std.specs.Prelude.{◌≡◌, true};
    ghost use Rattle.ty_base.specs.Limits.{pairs_fit};
    ghost use Rattle.ty_map.specs.Shape.{pairs as pairs_of};

    ghost Value = { Rebuilt };

    ghost view = { λ a. record { number = a.number; status = a.status; pairs = pairs_of a.pairs } };

    ghost invariant = { λ a. pairs_fit (pairs_of a.pairs) ≡ true };
}

impl At {
    ghost use Rattle.std.specs.Prelude.{◌≡◌, IfOk};

    /// The same, with a map that shares what this one has.
    pub fn copy(&self) -> Result<At, NoMemory>
        ensures { IfOk result (λ a. a ≡ self.now) }
    {
        Ok(At {
            number: self.number,
            status: self.status,
            pairs: self.pairs.copy()?,
        })
    }
}

/// A list of what was rebuilt at crumb ends, in order.
pub type Ats = List<At>;
