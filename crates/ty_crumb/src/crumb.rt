// A breadcrumb.
ghost use Rattle.std.specs.Prelude.{◌≡◌, ◌&&◌, true};
ghost use Rattle.ty_map.specs.Ascending.{IsAscending};
ghost use Rattle.ty_map.specs.Shape.{pairs as pairs_of};
ghost use Rattle.ty_base.specs.Limits.{pairs_fit, deltas_fit};

use std::alloc::Global;
use ty_base::{Deltas, Status};
use ty_map::Pairs;

/// The whole map at one place of the feed, and what changed from the breadcrumb before. It never changes. Keys have
/// at most `KEY_BYTES` bytes and values at most `VALUE_BYTES`.
#[derive(Drop)]
pub struct Crumb {
    /// How many breadcrumbs came before.
    pub number: u64,
    pub status: Status,
    /// How many items of the feed it counts.
    pub cut: u64,
    /// When it was made, in milliseconds.
    pub at: u64,
    pub pairs: Pairs,
    /// What changed from the breadcrumb before.
    pub deltas: Deltas,
    pub ghost ascending: { IsAscending (pairs_of pairs) },
    pub ghost within: { (pairs_fit (pairs_of pairs) && deltas_fit deltas) ≡ true },
}

impl Crumb {
    ghost use Rattle.std.specs.Prelude.{◌≡◌, []};
    ghost use Rattle.ty_crumb.specs.Crumbs.{CrumbStands};

    /// Breadcrumb 0, which stands for no entries. It takes no memory.
    pub fn first(alloc: Global, at: u64) -> Crumb
        ensures stands { CrumbStands result [] }
        ensures at { result.at ≡ at }
    {
        Crumb {
            number: 0,
            status: Status::Wait,
            cut: 0,
            at,
            pairs: Pairs::empty(),
            deltas: Deltas::new(alloc),
        }
    }
}
