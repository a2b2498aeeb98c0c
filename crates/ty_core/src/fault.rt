// Why an event brings nothing.
use ty_base::NoMemory;
use ty_intake::IntakeFault;

/// Why an event brings nothing.
#[derive(Clone, Copy, Debug, PartialEq, Eq)]
pub enum WorldFault {
    /// The feed has this fault, or byte number `INPUT_BYTES` of a connection came. Each later call answers the same.
    Feed(IntakeFault),
    /// Memory ran out. Each later call answers the same.
    NoMemory,
}

impl From<NoMemory> for WorldFault {
    ghost use Rattle.std.specs.Prelude.{◌≡◌};
    ghost use Rattle.ty_core.specs.declared.fault.WorldFault.TheVariants.{NoMemory};

    ghost from_gives = { λ _ e. e ≡ NoMemory };

    fn from(_: NoMemory) -> WorldFault {
        WorldFault::NoMemory
    }
}
