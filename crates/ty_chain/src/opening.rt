// The opening of a chain.
ghost use Rattle.std.specs.Prelude.{◌≡◌, [], false, IfOk};
ghost use Rattle.ty_account.specs.Known.{known};

use crate::lobby::Lobby;
use crate::parcel::Parcel;
use crate::place::Place;
use crate::publisher::Publisher;
use crate::stop::{Front, Stop};
use std::alloc::Global;
use std::marker::Model;
use std::sync::Arc;
use ty_account::{Account, Named, Pen, Spot};
use ty_base::NoMemory;
use ty_crumb::Crumb;

/// A new account without entries, beside breadcrumb 0. Contracts see which account it is, and when it was made.
#[derive(Drop)]
pub struct Opening {
    account: Account<Stop>,
    pen: Pen<Stop>,
    front: Front,
    spot: Spot<Stop>,
    parcel: Arc<Parcel, Global>,
}

impl Model for Opening {
    ghost use Rattle.std.specs.Prelude.{◌≡◌, [], false};
    ghost use Rattle.std.specs.Arc.{arc_value};
    ghost use Rattle.ty_account.specs.Known.{known, standpoint};
    ghost use Rattle.ty_crumb.specs.Crumbs.{CrumbStands};
    ghost use Rattle.ty_chain.specs.Publishing.{Opened, opened};

    ghost Value = { Opened };

    ghost view = { λ o. opened o.account (arc_value o.parcel).crumb.at };

    ghost invariant = { λ o. (o.pen ≡ known o.account [] false) × (o.front ≡ known o.account [] false)
        × (o.spot.account ≡ o.account) × (o.spot.entries ≡ []) × (arc_value o.spot.item.parcel ≡ arc_value o.parcel)
        × CrumbStands (arc_value o.parcel).crumb [] };
}

impl Opening {
    /// A new account, and breadcrumb 0 at a time in milliseconds.
    pub fn new(alloc: Global, at: u64) -> Result<Opening, NoMemory>
        ensures { IfOk result (λ o. o.at ≡ at) }
    {
        let parcel = Arc::new(alloc, Parcel::new(alloc, Crumb::first(alloc, at))?)?;
        let (account, pen, front, spot) = Account::start(alloc, Stop::of(&parcel)?)?;
        Ok(Opening {
            account,
            pen,
            front,
            spot,
            parcel,
        })
    }

    /// The front that knows the empty list.
    pub fn front(&self) -> &Front
        ensures { result.now ≡ known self.now.account [] false }
    {
        &self.front
    }
}

/// Starts a chain over the account that `L` names. Breadcrumb 0 is posted, and nothing is published.
pub fn start<L: Named>(
    alloc: Global,
    opening: Opening,
) -> Result<(Lobby<L>, Publisher<L>), NoMemory>
    requires { opening.account ≡ L.account }
    ensures known { IfOk result (λ r. r.1.known ≡ known opening.account [] false) }
    ensures crumb { IfOk result (λ r. (r.1.crumb.number ≡ 0) × (r.1.crumb.at ≡ opening.at)) }
    ensures cut { IfOk result (λ r. r.1.cut ≡ 0) }
{
    let Opening {
        account,
        pen,
        front,
        spot,
        parcel,
    } = opening;
    let lobby = Lobby::over(alloc, Place::new(spot.copy()?, front), account)?;
    Ok((lobby, Publisher::new(pen, spot, parcel)))
}
