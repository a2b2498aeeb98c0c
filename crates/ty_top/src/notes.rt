// What is told of an ending, in one line.
ghost use Rattle.std.specs.Prelude.{◌≡◌, ◌++◌, decimal, codes, OnOk, OnErr};
ghost use Rattle.std.specs.Io.KnownBytes.{Appends};
ghost use Rattle.ty_base.specs.Causes.{HasCause};
ghost use Rattle.ty_base.specs.Fronts.{AppendsFront};
ghost use Rattle.ty_client.specs.declared.fault.StreamFault.TheVariants.{Wire};
ghost use Rattle.ty_top.specs.Notes.{note_of, cut_note, stream_note, follow_note, sim_note, load_note, script_note, fault_note, feed_note, with_number, with_two_numbers, rising_note, IsNoted};

use crate::ending::{Ending, FollowEnd, LoadEnd, SimEnd, StreamEnd};
use itoa::Buffer;
use ty_base::{Failed, Sink, give_all};
use ty_client::StreamFault;
use ty_core::SimFault;
use ty_intake::IntakeFault;
use ty_wire::WireFault;

// Tells of the ending. A fault of the notes changes nothing else.
pub(crate) fn tell<E: Sink>(notes: &mut E, ending: Ending)
    ensures { IsNoted (E.seen notes.old) (E.seen notes.new) (note_of ending) }
{
    let _ = try_tell(notes, ending);
}

const USAGE: &[u8] =
    b"usage: typha stream|follow|sim|load|serve [--from N] [--brief] [--at ADDR] [--host NAME] [--tries N] [--number N] [--workers N]\n";

pub(crate) const READ: &[u8] = b"typha: read fault\n";

pub(crate) const WRITE: &[u8] = b"typha: write fault\n";

pub(crate) const MEMORY: &[u8] = b"typha: out of memory\n";

fn try_tell<E: Sink>(notes: &mut E, ending: Ending) -> Result<(), Failed>
    ensures ok { OnOk result (Appends (E.seen notes.old).held (E.seen notes.new).held (note_of ending)) }
    ensures err { OnErr result (AppendsFront (E.seen notes.old).held (E.seen notes.new).held (note_of ending)) }
    ensures cause { HasCause (E.seen notes.old).faults (E.seen notes.new).faults result }
{
    match ending {
        Ending::Usage => give_all(notes, USAGE),
        Ending::Memory => give_all(notes, MEMORY),
        Ending::Stream(end) => tell_stream(notes, end),
        Ending::Follow(end) => tell_follow(notes, end),
        Ending::Sim(end) => tell_sim(notes, end),
        Ending::Load(end) => tell_load(notes, end),
    }
}

fn tell_stream<E: Sink>(notes: &mut E, end: StreamEnd) -> Result<(), Failed>
    ensures ok { OnOk result (Appends (E.seen notes.old).held (E.seen notes.new).held (stream_note end)) }
    ensures err { OnErr result (AppendsFront (E.seen notes.old).held (E.seen notes.new).held (stream_note end)) }
    ensures cause { HasCause (E.seen notes.old).faults (E.seen notes.new).faults result }
{
    match end {
        StreamEnd::Done => give_all(notes, b""),
        StreamEnd::Fault(fault) => tell_feed(notes, fault),
        StreamEnd::Read => give_all(notes, READ),
        StreamEnd::Write => give_all(notes, WRITE),
        StreamEnd::Memory => give_all(notes, MEMORY),
    }
}

fn tell_follow<E: Sink>(notes: &mut E, end: FollowEnd) -> Result<(), Failed>
    ensures ok { OnOk result (Appends (E.seen notes.old).held (E.seen notes.new).held (follow_note end)) }
    ensures err { OnErr result (AppendsFront (E.seen notes.old).held (E.seen notes.new).held (follow_note end)) }
    ensures cause { HasCause (E.seen notes.old).faults (E.seen notes.new).faults result }
{
    match end {
        FollowEnd::Done => give_all(notes, b""),
        FollowEnd::Fault(fault) => tell_fault(notes, fault),
        FollowEnd::Cut(left) => tell_cut(notes, left),
        FollowEnd::Read => give_all(notes, READ),
        FollowEnd::Write => give_all(notes, WRITE),
        FollowEnd::Memory => give_all(notes, MEMORY),
    }
}

// The end came inside a frame, of which there are so many bytes.
pub(crate) fn tell_cut<E: Sink>(notes: &mut E, left: u64) -> Result<(), Failed>
    ensures ok { OnOk result (Appends (E.seen notes.old).held (E.seen notes.new).held (cut_note left)) }
    ensures err { OnErr result (AppendsFront (E.seen notes.old).held (E.seen notes.new).held (cut_note left)) }
    ensures cause { HasCause (E.seen notes.old).faults (E.seen notes.new).faults result }
{
    give_with_number(notes, b"typha: stream cut ", left, b"\n")
}

fn tell_sim<E: Sink>(notes: &mut E, end: SimEnd) -> Result<(), Failed>
    ensures ok { OnOk result (Appends (E.seen notes.old).held (E.seen notes.new).held (sim_note end)) }
    ensures err { OnErr result (AppendsFront (E.seen notes.old).held (E.seen notes.new).held (sim_note end)) }
    ensures cause { HasCause (E.seen notes.old).faults (E.seen notes.new).faults result }
{
    match end {
        SimEnd::Done => give_all(notes, b""),
        SimEnd::Stopped(fault) => tell_script(notes, fault),
    }
}

fn tell_load<E: Sink>(notes: &mut E, end: LoadEnd) -> Result<(), Failed>
    ensures ok { OnOk result (Appends (E.seen notes.old).held (E.seen notes.new).held (load_note end)) }
    ensures err { OnErr result (AppendsFront (E.seen notes.old).held (E.seen notes.new).held (load_note end)) }
    ensures cause { HasCause (E.seen notes.old).faults (E.seen notes.new).faults result }
{
    match end {
        LoadEnd::Done => give_all(notes, b""),
        LoadEnd::Write => give_all(notes, WRITE),
        LoadEnd::Memory => give_all(notes, MEMORY),
    }
}

fn tell_script<E: Sink>(notes: &mut E, fault: SimFault) -> Result<(), Failed>
    ensures ok { OnOk result (Appends (E.seen notes.old).held (E.seen notes.new).held (script_note fault)) }
    ensures err { OnErr result (AppendsFront (E.seen notes.old).held (E.seen notes.new).held (script_note fault)) }
    ensures cause { HasCause (E.seen notes.old).faults (E.seen notes.new).faults result }
{
    match fault {
        SimFault::Event { line } => give_with_number(
            notes,
            b"typha: line ",
            line,
            b": not an event\n",
        ),
        SimFault::Feed { fault, .. } => tell_feed(notes, fault),
        SimFault::LongLine { line } => tell_feed(notes, IntakeFault::LongLine { line }),
        SimFault::TooMuch => tell_feed(notes, IntakeFault::TooMuch),
        SimFault::Read => give_all(notes, READ),
        SimFault::Write => give_all(notes, WRITE),
        SimFault::NoMemory => give_all(notes, MEMORY),
    }
}

pub(crate) fn tell_feed<E: Sink>(notes: &mut E, fault: IntakeFault) -> Result<(), Failed>
    ensures ok { OnOk result (Appends (E.seen notes.old).held (E.seen notes.new).held (feed_note fault)) }
    ensures err { OnErr result (AppendsFront (E.seen notes.old).held (E.seen notes.new).held (feed_note fault)) }
    ensures cause { HasCause (E.seen notes.old).faults (E.seen notes.new).faults result }
{
    match fault {
        IntakeFault::LongLine { line } => give_with_number(
            notes,
            b"typha: line ",
            line,
            b": too long\n",
        ),
        IntakeFault::BadUtf8 { line } => give_with_number(
            notes,
            b"typha: line ",
            line,
            b": not UTF-8\n",
        ),
        IntakeFault::BadLine { line } => give_with_number(
            notes,
            b"typha: line ",
            line,
            b": not a feed line\n",
        ),
        IntakeFault::TooMuch => give_all(notes, b"typha: too much input\n"),
    }
}

pub(crate) fn tell_fault<E: Sink>(notes: &mut E, fault: StreamFault) -> Result<(), Failed>
    ensures ok { OnOk result (Appends (E.seen notes.old).held (E.seen notes.new).held (fault_note fault)) }
    ensures err { OnErr result (AppendsFront (E.seen notes.old).held (E.seen notes.new).held (fault_note fault)) }
    ensures cause { HasCause (E.seen notes.old).faults (E.seen notes.new).faults result }
{
    match fault {
        StreamFault::Wire(fault) => tell_wire(notes, fault),
        StreamFault::Version { found } => give_with_number(
            notes,
            b"typha: frame 1: version ",
            found,
            b"\n",
        ),
        StreamFault::Order { frame } => give_with_number(
            notes,
            b"typha: frame ",
            frame,
            b": out of order\n",
        ),
        StreamFault::NotRising { frame, had, found } => tell_not_rising(notes, frame, had, found),
    }
}

fn tell_wire<E: Sink>(notes: &mut E, fault: WireFault) -> Result<(), Failed>
    ensures ok { OnOk result (Appends (E.seen notes.old).held (E.seen notes.new).held (fault_note (Wire fault))) }
    ensures err { OnErr result (AppendsFront (E.seen notes.old).held (E.seen notes.new).held (fault_note (Wire fault))) }
    ensures cause { HasCause (E.seen notes.old).faults (E.seen notes.new).faults result }
{
    match fault {
        WireFault::TooLong { frame, len } => give_with_two_numbers(
            notes,
            b"typha: frame ",
            frame,
            b": too long ",
            len,
            b"\n",
        ),
        WireFault::NotJson { frame } => give_with_number(
            notes,
            b"typha: frame ",
            frame,
            b": not JSON\n",
        ),
        WireFault::Shape { frame } => give_with_number(
            notes,
            b"typha: frame ",
            frame,
            b": not a message\n",
        ),
        WireFault::TooMuch => give_all(notes, b"typha: too much input\n"),
    }
}

fn tell_not_rising<E: Sink>(notes: &mut E, frame: u64, had: u64, found: u64) -> Result<(), Failed>
    ensures ok { OnOk result (Appends (E.seen notes.old).held (E.seen notes.new).held (rising_note frame had found)) }
    ensures err { OnErr result (AppendsFront (E.seen notes.old).held (E.seen notes.new).held (rising_note frame had found)) }
    ensures cause { HasCause (E.seen notes.old).faults (E.seen notes.new).faults result }
{
    let Ok(()) = give_all(notes, b"typha: frame ") else {
        return Err(Failed);
    };
    let Ok(()) = give_number(notes, frame) else {
        return Err(Failed);
    };
    let Ok(()) = give_with_two_numbers(notes, b": crumb ", found, b" after ", had, b"\n") else {
        return Err(Failed);
    };
    Ok(())
}

// Gives a text that has two numbers in it.
fn give_with_two_numbers<E: Sink>(
    notes: &mut E,
    before: &[u8],
    number: u64,
    between: &[u8],
    other: u64,
    after: &[u8],
) -> Result<(), Failed>
    ensures ok { OnOk result (Appends (E.seen notes.old).held (E.seen notes.new).held (with_two_numbers before.now number between.now other after.now)) }
    ensures err { OnErr result (AppendsFront (E.seen notes.old).held (E.seen notes.new).held (with_two_numbers before.now number between.now other after.now)) }
    ensures cause { HasCause (E.seen notes.old).faults (E.seen notes.new).faults result }
{
    let Ok(()) = give_all(notes, before) else {
        return Err(Failed);
    };
    let Ok(()) = give_number(notes, number) else {
        return Err(Failed);
    };
    let Ok(()) = give_with_number(notes, between, other, after) else {
        return Err(Failed);
    };
    Ok(())
}

// Gives a text that has a number in it.
fn give_with_number<E: Sink>(
    notes: &mut E,
    before: &[u8],
    number: u64,
    after: &[u8],
) -> Result<(), Failed>
    ensures ok { OnOk result (Appends (E.seen notes.old).held (E.seen notes.new).held (with_number before.now number after.now)) }
    ensures err { OnErr result (AppendsFront (E.seen notes.old).held (E.seen notes.new).held (with_number before.now number after.now)) }
    ensures cause { HasCause (E.seen notes.old).faults (E.seen notes.new).faults result }
{
    let Ok(()) = give_all(notes, before) else {
        return Err(Failed);
    };
    let Ok(()) = give_number(notes, number) else {
        return Err(Failed);
    };
    let Ok(()) = give_all(notes, after) else {
        return Err(Failed);
    };
    Ok(())
}

fn give_number<E: Sink>(notes: &mut E, number: u64) -> Result<(), Failed>
    ensures ok { OnOk result (Appends (E.seen notes.old).held (E.seen notes.new).held (decimal number)) }
    ensures err { OnErr result (AppendsFront (E.seen notes.old).held (E.seen notes.new).held (decimal number)) }
    ensures cause { HasCause (E.seen notes.old).faults (E.seen notes.new).faults result }
{
    let mut buffer = Buffer::new();
    give_all(notes, buffer.format(number).as_bytes())
}
