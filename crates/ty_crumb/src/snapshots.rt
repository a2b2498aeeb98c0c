// The snapshot of a breadcrumb.
ghost use Rattle.std.specs.Prelude.{◌≡◌, true, IfOk};
ghost use Rattle.ty_base.specs.Limits.{deltas_fit};
ghost use Rattle.ty_crumb.specs.Crumbs.{added, snapshot_of};
ghost use Rattle.ty_map.specs.Shape.{pairs};

use crate::crumb::Crumb;
use std::alloc::Global;
use ty_base::{Delta, Deltas, Kind, NoMemory, Text};

/// All pairs of a breadcrumb, each as `New`, in ascending order of the keys' bytes.
pub fn snapshot(alloc: Global, crumb: &Crumb) -> Result<Deltas, NoMemory>
    ensures pairs { IfOk result (λ ds. ds ≡ snapshot_of (pairs crumb.now.pairs)) }
    ensures within { IfOk result (λ ds. deltas_fit ds ≡ true) }
{
    let mut deltas = Deltas::new(alloc);
    for (key, value) in crumb.pairs.walk(alloc)? {
        deltas.push(new_delta(alloc, key, value)?)?;
    }
    Ok(deltas)
}

/// A pair of a breadcrumb's map as a delta of its snapshot.
pub fn new_delta(alloc: Global, key: &Text, value: &Text) -> Result<Delta, NoMemory>
    ensures { IfOk result (λ d. d ≡ added key.now value.now) }
{
    Ok(Delta {
        key: key.copy(alloc)?,
        kind: Kind::New,
        value: Some(value.copy(alloc)?),
    })
}
