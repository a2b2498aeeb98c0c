// A script that comes in pieces: the lines that end in one are run, and what is unfinished behind them is kept.
ghost use Rattle.std.specs.Prelude.{◌≡◌, ◌<◌, ◌≤◌, ◌+◌, ◌++◌, [], List, ℕ, Option, Ok, length, IfSome, IfNone, OnOk};
ghost use Rattle.ty_base.specs.Devices.{Output};
ghost use Rattle.ty_base.specs.declared.limits.TheConstants.{INPUT_BYTES};
ghost use Rattle.ty_intake.specs.Lines.{Cut, cut_lines};
ghost use Rattle.ty_intake.specs.steps.Progress.{line_then, only};
ghost use Rattle.ty_core.specs.steps.Scripts.{IsScriptAt, IsLineKept, IsLineRun, IsScriptOpen, IsScriptRunTo, IsRun, IsTold, Settles, all_lines, followed, line_ended, still, finished_feed};

use crate::fault::WorldFault;
use crate::line::{push, run_line};
use crate::simulation::SimFault;
use crate::stop::Stop;
use crate::world::World;
use memchr::memchr;
use std::alloc::Global;
use ty_base::{INPUT_BYTES, LINE_BYTES, PIECE_BYTES, Sink, give_all};

/// How far a script was read: its unfinished line, how many lines ended before it, how many bytes came, and the lines of
/// the report that are owed to the sink.
#[derive(Drop)]
pub(crate) struct Script {
    pub(crate) rest: Vec<u8>,
    pub(crate) lines: u64,
    pub(crate) seen: usize,
    pub(crate) owed: Vec<u8>,
}

impl Script {
    /// Nothing was read.
    pub(crate) fn new(alloc: Global) -> Script
        ensures rest { result.rest.items ≡ [] }
        ensures counts { (result.lines ≡ 0) × (result.seen ≡ 0) }
        ensures owed { result.owed.items ≡ [] }
    {
        Script {
            rest: Vec::new(alloc),
            lines: 0,
            seen: 0,
            owed: Vec::new(alloc),
        }
    }
}

/// Runs the lines that end in a piece, and gives all that is owed.
pub(crate) fn run_piece<K: Sink>(
    alloc: Global,
    world: &mut World,
    script: &mut Script,
    piece: &[u8],
    sink: &mut K,
) -> Result<(), Stop>
    requires { (bytes : List ℕ) × (start : Option (List ℕ)) × IsScriptOpen world.old script.old start (K.seen sink.old).held bytes }
    ensures told { (bytes : List ℕ) (start : Option (List ℕ)) → IsScriptOpen world.old script.old start (K.seen sink.old).held bytes
        → IsTold result world.new start (K.seen sink.old) (K.seen sink.new) (still (bytes ++ piece.now)) }
    ensures goes_on { OnOk result ((bytes : List ℕ) (start : Option (List ℕ))
        → IsScriptOpen world.old script.old start (K.seen sink.old).held bytes
        → IsScriptOpen world.new script.new start (K.seen sink.new).held (bytes ++ piece.now)) }
    ensures settled { OnOk result (script.new.owed.items ≡ []) }
    ensures later { (K.seen sink.old).faults ≤ (K.seen sink.new).faults }
{
    let run = run_within_limit(alloc, world, script, piece, sink);
    settle(run, &mut script.owed, sink)
}

/// The script has ended: runs its last line, ends the feed, and gives all that is owed.
pub(crate) fn end_script<K: Sink>(
    alloc: Global,
    world: &mut World,
    script: &mut Script,
    sink: &mut K,
) -> Result<(), Stop>
    requires { (bytes : List ℕ) × (start : Option (List ℕ)) × IsScriptOpen world.old script.old start (K.seen sink.old).held bytes }
    ensures told { (bytes : List ℕ) (start : Option (List ℕ)) → IsScriptOpen world.old script.old start (K.seen sink.old).held bytes
        → IsTold result world.new start (K.seen sink.old) (K.seen sink.new) (finished_feed bytes) }
    ensures later { (K.seen sink.old).faults ≤ (K.seen sink.new).faults }
{
    let run = finish(alloc, world, script);
    settle(run, &mut script.owed, sink)
}

// Runs the piece up to the limit of bytes.
fn run_within_limit<K: Sink>(
    alloc: Global,
    world: &mut World,
    script: &mut Script,
    piece: &[u8],
    sink: &mut K,
) -> Result<(), Stop>
    requires { (bytes : List ℕ) × (start : Option (List ℕ)) × IsScriptOpen world.old script.old start (K.seen sink.old).held bytes }
    ensures run { (bytes : List ℕ) (start : Option (List ℕ)) → IsScriptOpen world.old script.old start (K.seen sink.old).held bytes
        → IsRun result world.new script.new.owed.items start (K.seen sink.old) (K.seen sink.new) (still (bytes ++ piece.now)) }
    ensures goes_on { OnOk result ((bytes : List ℕ) (start : Option (List ℕ))
        → IsScriptOpen world.old script.old start (K.seen sink.old).held bytes
        → IsScriptOpen world.new script.new start (K.seen sink.new).held (bytes ++ piece.now)) }
    ensures later { (K.seen sink.old).faults ≤ (K.seen sink.new).faults }
{
    let room = INPUT_BYTES - 1 - script.seen;
    let (front, back) = piece.split_at(piece.len().min(room));
    script.seen += front.len();
    run_lines(alloc, world, script, front, sink)?;
    if back.is_empty() {
        Ok(())
    } else {
        Err(Stop::Fault(SimFault::TooMuch))
    }
}

// Runs the lines that end in these bytes, and keeps what is unfinished.
fn run_lines<K: Sink>(
    alloc: Global,
    world: &mut World,
    script: &mut Script,
    bytes: &[u8],
    sink: &mut K,
) -> Result<(), Stop>
    requires at { (c : Cut) × (start : Option (List ℕ)) × IsScriptAt world.old script.old start (K.seen sink.old).held c }
    requires few { script.old.lines + length bytes.now < INPUT_BYTES }
    ensures read { (c : Cut) (start : Option (List ℕ)) → IsScriptAt world.old script.old start (K.seen sink.old).held c
        → IsScriptRunTo result world.new script.new start (K.seen sink.old) (K.seen sink.new) (followed c (cut_lines bytes.now)) }
    ensures seen { script.new.seen ≡ script.old.seen }
    ensures later { (K.seen sink.old).faults ≤ (K.seen sink.new).faults }
{
    let mut left = bytes;
    while let Some((line, more)) = split_line(left) {
        end_line(alloc, world, script, line, sink)?;
        left = more;
    }
    keep(&mut script.rest, left, script.lines)
}

// The first line that ends in some bytes, and what follows its line feed.
fn split_line(bytes: &[u8]) -> Option<(&[u8], &[u8])>
    ensures line { IfSome result (λ p. cut_lines bytes.now
        ≡ line_then p.0.now (cut_lines p.1.now)) }
    ensures shorter { IfSome result (λ p. length p.1.now < length bytes.now) }
    ensures rest { IfNone result (cut_lines bytes.now ≡ only bytes.now) }
{
    match memchr(b'\n', bytes) {
        Some(end) => Some((&bytes[..end], &bytes[end + 1..])),
        None => None,
    }
}

// The unfinished line ends with these bytes: runs it, and gives what is owed once there are `PIECE_BYTES`.
fn end_line<K: Sink>(
    alloc: Global,
    world: &mut World,
    script: &mut Script,
    bytes: &[u8],
    sink: &mut K,
) -> Result<(), Stop>
    requires at { (c : Cut) × (start : Option (List ℕ)) × IsScriptAt world.old script.old start (K.seen sink.old).held c }
    requires few { script.old.lines + 1 < INPUT_BYTES }
    ensures read { (c : Cut) (start : Option (List ℕ)) → IsScriptAt world.old script.old start (K.seen sink.old).held c
        → IsScriptRunTo result world.new script.new start (K.seen sink.old) (K.seen sink.new) (line_ended c bytes.now) }
    ensures count { OnOk result (script.new.lines ≡ script.old.lines + 1) }
    ensures seen { script.new.seen ≡ script.old.seen }
    ensures later { (K.seen sink.old).faults ≤ (K.seen sink.new).faults }
{
    push(&mut script.rest, bytes)?;
    script.lines += 1;
    run_line(alloc, world, script.lines, &script.rest, &mut script.owed)?;
    empty(alloc, &mut script.rest);
    if script.owed.len() < PIECE_BYTES {
        return Ok(());
    }
    give(&mut script.owed, sink)
}

// Keeps bytes of an unfinished line behind n others, unless it is too long already.
fn keep(rest: &mut Vec<u8>, bytes: &[u8], n: u64) -> Result<(), Stop>
    requires { n < INPUT_BYTES }
    ensures { IsLineKept result n (rest.old.items ++ bytes.now) rest.new.items }
{
    if rest.len() + bytes.len() > LINE_BYTES {
        return Err(Stop::Fault(SimFault::LongLine { line: n + 1 }));
    }
    push(rest, bytes)
}

// Empties a buffer, and lets go of its room where that is more than a piece.
fn empty(alloc: Global, rest: &mut Vec<u8>)
    ensures { rest.new.items ≡ [] }
{
    if rest.capacity() > PIECE_BYTES {
        *rest = Vec::new(alloc);
    } else {
        rest.clear();
    }
}

// Gives what is owed behind a run, unless the sink or memory failed before.
fn settle<K: Sink>(run: Result<(), Stop>, owed: &mut Vec<u8>, sink: &mut K) -> Result<(), Stop>
    ensures settles { Settles run result owed.old.items (K.seen sink.old) (K.seen sink.new) }
    ensures none { OnOk result (owed.new.items ≡ []) }
    ensures later { (K.seen sink.old).faults ≤ (K.seen sink.new).faults }
{
    match run {
        Ok(()) => give(owed, sink),
        Err(Stop::Fault(fault)) => {
            give(owed, sink)?;
            Err(Stop::Fault(fault))
        }
        Err(Stop::Sink) => Err(Stop::Sink),
        Err(Stop::Memory) => Err(Stop::Memory),
    }
}

// Gives all that is owed.
fn give<K: Sink>(owed: &mut Vec<u8>, sink: &mut K) -> Result<(), Stop>
    ensures gives { Settles (Ok tt) result owed.old.items (K.seen sink.old) (K.seen sink.new) }
    ensures none { OnOk result (owed.new.items ≡ []) }
    ensures later { (K.seen sink.old).faults ≤ (K.seen sink.new).faults }
{
    let Ok(()) = give_all(sink, owed) else {
        return Err(Stop::Sink);
    };
    owed.clear();
    Ok(())
}

// Runs the unfinished line, if there is one, and ends the feed.
fn finish(alloc: Global, world: &mut World, script: &mut Script) -> Result<(), Stop>
    requires { (bytes : List ℕ) × (start held : Option (List ℕ)) × IsScriptOpen world.old script.old start held bytes }
    ensures { (bytes : List ℕ) (start : Option (List ℕ)) (sink : Output) → IsScriptOpen world.old script.old start sink.held bytes
        → IsRun result world.new script.new.owed.items start sink sink (finished_feed bytes) }
{
    run_last(alloc, world, script)?;
    match world.finish(alloc) {
        Ok(out) => push(&mut script.owed, out.text.bytes()),
        Err(WorldFault::Feed(_)) => unreachable!(),
        Err(WorldFault::NoMemory) => Err(Stop::Memory),
    }
}

// Runs the unfinished line, if there is one.
fn run_last(alloc: Global, world: &mut World, script: &mut Script) -> Result<(), Stop>
    requires { (bytes : List ℕ) × (start held : Option (List ℕ)) × IsScriptOpen world.old script.old start held bytes }
    ensures { (bytes : List ℕ) (start held : Option (List ℕ)) → IsScriptOpen world.old script.old start held bytes
        → IsLineRun result world.new start held script.new.owed.items (all_lines (cut_lines bytes)) }
{
    if script.rest.is_empty() {
        return Ok(());
    }
    run_line(
        alloc,
        world,
        script.lines + 1,
        &script.rest,
        &mut script.owed,
    )
}
