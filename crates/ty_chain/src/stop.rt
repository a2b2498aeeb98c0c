// What the node of each breadcrumb holds.
ghost use Rattle.std.specs.Prelude.{◌≡◌, IfOk};
ghost use Rattle.std.specs.Arc.{arc_value};

use crate::parcel::Parcel;
use std::alloc::Global;
use std::sync::Arc;
use ty_account::Standing;
use ty_base::NoMemory;

/// The item of a node: a parcel, which the publisher holds beside it.
#[derive(Drop)]
pub struct Stop {
    pub(crate) parcel: Arc<Parcel, Global>,
}

/// It stands for the entries for which its breadcrumb does.
impl Standing for Stop {
    ghost use Rattle.std.specs.Arc.{arc_value};
    ghost use Rattle.ty_crumb.specs.Crumbs.{CrumbStands};

    ghost stands = { λ stop entries. CrumbStands (arc_value stop.parcel).crumb entries };
}

impl Stop {
    /// The stop of a parcel, which is held beside it.
    pub(crate) fn of(parcel: &Arc<Parcel, Global>) -> Result<Stop, NoMemory>
        ensures { IfOk result (λ s. arc_value s.parcel ≡ arc_value parcel.now) }
    {
        Ok(Stop {
            parcel: Arc::try_clone(parcel)?,
        })
    }
}

/// What a caller knows of a chain's account.
pub type Front = ty_account::Front<Stop>;
