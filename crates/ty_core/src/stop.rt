// Why no further line of a script is run.
use crate::simulation::SimFault;
use ty_base::NoMemory;

/// Why no further line of a script is run.
#[derive(Clone, Copy, Debug, PartialEq, Eq)]
pub(crate) enum Stop {
    Fault(SimFault),
    Sink,
    Memory,
}

impl From<NoMemory> for Stop {
    ghost use Rattle.std.specs.Prelude.{◌≡◌};
    ghost use Rattle.ty_core.specs.declared.stop.Stop.TheVariants.{Memory};

    ghost from_gives = { λ _ stop. stop ≡ Memory };

    fn from(_: NoMemory) -> Stop {
        Stop::Memory
    }
}

impl From<Stop> for SimFault {
    ghost use Rattle.std.specs.Prelude.{◌≡◌};
    ghost use Rattle.ty_core.specs.steps.Scripts.{fault_at_stop};

    ghost from_gives = { λ stop fault. fault ≡ fault_at_stop stop };

    fn from(stop: Stop) -> SimFault {
        match stop {
            Stop::Fault(fault) => fault,
            Stop::Sink => SimFault::Write,
            Stop::Memory => SimFault::NoMemory,
        }
    }
}
