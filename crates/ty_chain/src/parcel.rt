// What lies at one place of the chain, made once, for everybody who comes there.
ghost use Rattle.std.specs.Prelude.{◌≡◌, IfOk};

use std::alloc::Global;
use ty_account::AsEntry;
use ty_base::NoMemory;
use ty_crumb::Crumb;
use ty_group::Encoded;

/// A breadcrumb, as the chain hands it out, and beside it its deltas as bytes.
#[derive(Drop)]
pub struct Parcel {
    pub crumb: Crumb,
    pub encoded: Encoded,
    ghost same: { encoded ≡ crumb.deltas },
}

/// It says the entry that its breadcrumb adds.
impl AsEntry for Parcel {
    ghost use Rattle.ty_chain.specs.Shown.{entry_by};

    ghost entry = { λ parcel. entry_by parcel.crumb };
}

impl Parcel {
    /// A breadcrumb that is handed over, whose deltas are encoded here.
    pub fn new(alloc: Global, crumb: Crumb) -> Result<Parcel, NoMemory>
        ensures { IfOk result (λ p. p.crumb ≡ crumb) }
    {
        let encoded = Encoded::of(alloc, &crumb.deltas)?;
        Ok(Parcel { crumb, encoded })
    }
}
