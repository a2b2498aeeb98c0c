// A script from a source, run in a world, and its report to a sink.
ghost use Rattle.std.specs.Prelude.{◌≤◌, [], IfErr, OnOk};
ghost use Rattle.ty_base.specs.Devices.{seen};
ghost use Rattle.ty_core.specs.Held.{WorldStands};
ghost use Rattle.ty_core.specs.Simulated.{Simulated, SimStopped};

use crate::script::{Script, end_script, run_piece};
use crate::world::World;
use std::alloc::Global;
use ty_base::{INPUT_BYTES, PIECE_BYTES, Sink, Source};
use ty_intake::IntakeFault;

/// Why a script was run no further. Lines are counted from 1.
#[derive(Clone, Copy, Debug, PartialEq, Eq)]
pub enum SimFault {
    /// The line says no event.
    Event { line: u64 },
    /// The line begins like a feed line, and the feed has this fault at it: it isn't UTF-8, or no line of a feed.
    Feed { line: u64, fault: IntakeFault },
    /// The line has more than `LINE_BYTES` bytes.
    LongLine { line: u64 },
    /// Byte number `INPUT_BYTES` of the script, of its feed, or of one direction of a connection came.
    TooMuch,
    /// The source failed.
    Read,
    /// The sink failed.
    Write,
    /// Memory ran out.
    NoMemory,
}

/// Reads a script from a source, at most `PIECE_BYTES` at a time, and runs it in a world, which has to be a new one. Each
/// line's part of the report is written at the end of its piece at the latest. At every fault but `Write` and `NoMemory`
/// the report of all lines before was written, and at those a front of it. After `NoMemory` the world is spent, or a part
/// of the report is lost.
pub fn simulate<S: Source, K: Sink>(
    alloc: Global,
    world: &mut World,
    source: &mut S,
    sink: &mut K,
) -> Result<(), SimFault>
    requires { WorldStands world.old [] }
    ensures ok { OnOk result (Simulated world.new (seen (S.seen source.old) (K.seen sink.old)) (seen (S.seen source.new) (K.seen sink.new))) }
    ensures fault { IfErr result (λ e. SimStopped world.new (seen (S.seen source.old) (K.seen sink.old)) (seen (S.seen source.new) (K.seen sink.new)) e) }
    ensures reads { (S.seen source.old).faults ≤ (S.seen source.new).faults }
    ensures writes { (K.seen sink.old).faults ≤ (K.seen sink.new).faults }
{
    let mut script = Script::new(alloc);
    let mut piece = Vec::new(alloc);
    let Ok(()) = piece.resize(PIECE_BYTES, 0u8) else {
        return Err(SimFault::NoMemory);
    };
    while script.seen < INPUT_BYTES {
        let Ok(count) = source.take(&mut piece) else {
            return Err(SimFault::Read);
        };
        if count == 0 {
            end_script(alloc, world, &mut script, sink)?;
            return Ok(());
        }
        run_piece(alloc, world, &mut script, &piece[..count], sink)?;
    }
    unreachable!()
}
