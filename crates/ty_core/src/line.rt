// One line of a script.
ghost use Rattle.std.specs.Prelude.{◌≡◌, ◌<◌, ◌+◌, ◌++◌, ◌∷◌, [], List, ℕ, Option, Some, length, IfOk, IfErr, OnOk};
ghost use Rattle.ty_base.specs.declared.limits.TheConstants.{INPUT_BYTES};
ghost use Rattle.ty_client.specs.steps.Given.{Owes};
ghost use Rattle.ty_script.specs.Fits.{FitsScript};
ghost use Rattle.ty_core.specs.Script.{event_said, told_at_line};
ghost use Rattle.ty_core.specs.steps.Scripts.{AreRun, IsLineRun, SaysNone, report_in};

use crate::fault::WorldFault;
use crate::simulation::SimFault;
use crate::stop::Stop;
use crate::world::World;
use std::alloc::Global;
use ty_base::{LINE_BYTES, NoMemory};
use ty_intake::IntakeFault;
use ty_script::{Event, EventFault, read_event};

/// Runs line n in a world, and puts its part of the report behind what is owed.
pub(crate) fn run_line(
    alloc: Global,
    world: &mut World,
    n: u64,
    line: &[u8],
    owed: &mut Vec<u8>,
) -> Result<(), Stop>
    requires run { (ls : List (List ℕ)) × AreRun world.old ls × (n ≡ length ls + 1) }
    requires few { n < INPUT_BYTES }
    ensures { (ls : List (List ℕ)) (start held : Option (List ℕ)) → AreRun world.old ls → n ≡ length ls + 1
        → Owes start held owed.old.items (report_in ls)
        → IsLineRun result world.new start held owed.new.items (ls ++ line.now ∷ []) }
{
    let event = event_at(alloc, n, line)?;
    match world.event(alloc, &event) {
        Ok(out) => push(owed, out.text.bytes()),
        Err(WorldFault::Feed(fault)) => Err(Stop::Fault(told_at_line(n, fault))),
        Err(WorldFault::NoMemory) => Err(Stop::Memory),
    }
}

// What line n says.
fn event_at(alloc: Global, n: u64, line: &[u8]) -> Result<Event, Stop>
    ensures says { IfOk result (λ e. event_said line.now ≡ Some e) }
    ensures fits { IfOk result (λ e. FitsScript line.now e) }
    ensures none { IfErr result (λ stop. SaysNone stop n line.now) }
{
    if line.len() > LINE_BYTES {
        return Err(Stop::Fault(SimFault::LongLine { line: n }));
    }
    match read_event(alloc, line) {
        Ok(event) => Ok(event),
        Err(EventFault::Bad) => Err(Stop::Fault(SimFault::Event { line: n })),
        Err(EventFault::NotUtf8) => Err(Stop::Fault(SimFault::Feed {
            line: n,
            fault: IntakeFault::BadUtf8 { line: n },
        })),
        Err(EventFault::NoMemory) => Err(Stop::Memory),
    }
}

// A fault of the feed or of a connection, as it shows at line n.
fn told_at_line(n: u64, fault: IntakeFault) -> SimFault
    ensures { result ≡ told_at_line n fault }
{
    match fault {
        IntakeFault::LongLine { .. } => SimFault::LongLine { line: n },
        IntakeFault::BadUtf8 { .. } => SimFault::Feed {
            line: n,
            fault: IntakeFault::BadUtf8 { line: n },
        },
        IntakeFault::BadLine { .. } => SimFault::Feed {
            line: n,
            fault: IntakeFault::BadLine { line: n },
        },
        IntakeFault::TooMuch => SimFault::TooMuch,
    }
}

/// Puts bytes behind others.
pub(crate) fn push(out: &mut Vec<u8>, bytes: &[u8]) -> Result<(), Stop>
    ensures ok { OnOk result (out.new.items ≡ out.old.items ++ bytes.now) }
    ensures err { IfErr result (λ stop. stop ≡ Stop.Memory) }
{
    let Ok(()) = out.extend_from_slice(bytes) else {
        return Err(Stop::Memory);
    };
    Ok(())
}
