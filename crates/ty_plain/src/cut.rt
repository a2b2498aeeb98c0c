// Where crumbs are published.
ghost use Rattle.std.specs.Prelude.{◌≡◌, length, IfOk};
ghost use Rattle.ty_base.specs.Feed as feed;
ghost use Rattle.ty_plain.specs.steps.Scans.{NeverFall};

use crate::closing::closings;
use crate::world::same_worlds;
use std::alloc::Global;
use ty_base::{Item, NoMemory};

/// The positions at which breadcrumbs are published: each closing at which map or status differ from those at
/// the cut before.
pub fn cuts(alloc: Global, items: &[Item], ended: bool) -> Result<Vec<usize>, NoMemory>
    ensures { IfOk result (λ v. v.items ≡ feed.cuts ended items.now) }
{
    let closings = closings(alloc, items, ended)?;
    cuts_among(alloc, items, &closings)
}

/// The cuts among positions that never fall.
#[tactic(auto, unfolding(ty_base::specs::Feed::cuts_after))]
pub(crate) fn cuts_among(
    alloc: Global,
    items: &[Item],
    closings: &[usize],
) -> Result<Vec<usize>, NoMemory>
    requires { NeverFall 0 (length items.now) closings.now }
    ensures { IfOk result (λ v. v.items ≡ feed.cuts_after items.now 0 closings.now) }
{
    let mut cuts = Vec::new(alloc);
    let mut last: usize = 0;
    for p in closings {
        if !same_worlds(items, last, *p) {
            cuts.push(*p)?;
            last = *p;
        }
    }
    Ok(cuts)
}
