// What is told of an ending of a mode with connections, in one line.
ghost use Rattle.std.specs.Prelude.{◌≡◌, OnOk, OnErr};
ghost use Rattle.std.specs.Io.KnownBytes.{Appends};
ghost use Rattle.ty_base.specs.Causes.{HasCause};
ghost use Rattle.ty_base.specs.Fronts.{AppendsFront};
ghost use Rattle.ty_top.specs.Notes.{IsNoted};
ghost use Rattle.ty_top.specs.LinkEndings.{dial_note, link_note, serve_note};

use crate::link_ending::{DialEnd, LinkEnding, ServeEnd};
use crate::notes::{MEMORY, READ, WRITE, tell_cut, tell_fault, tell_feed};
use ty_base::{Failed, Sink, give_all};

const DOOR: &[u8] = b"typha: door fault\n";

const LINK: &[u8] = b"typha: link fault\n";

// Tells of the ending. A fault of the notes changes nothing else.
pub(crate) fn tell_of_links<E: Sink>(notes: &mut E, ending: LinkEnding)
    ensures { IsNoted (E.seen notes.old) (E.seen notes.new) (link_note ending) }
{
    let _ = try_tell(notes, ending);
}

fn try_tell<E: Sink>(notes: &mut E, ending: LinkEnding) -> Result<(), Failed>
    ensures ok { OnOk result (Appends (E.seen notes.old).held (E.seen notes.new).held (link_note ending)) }
    ensures err { OnErr result (AppendsFront (E.seen notes.old).held (E.seen notes.new).held (link_note ending)) }
    ensures cause { HasCause (E.seen notes.old).faults (E.seen notes.new).faults result }
{
    match ending {
        LinkEnding::Serve(end) => tell_serve(notes, end),
        LinkEnding::Dial(end) => tell_dial(notes, end),
    }
}

fn tell_serve<E: Sink>(notes: &mut E, end: ServeEnd) -> Result<(), Failed>
    ensures ok { OnOk result (Appends (E.seen notes.old).held (E.seen notes.new).held (serve_note end)) }
    ensures err { OnErr result (AppendsFront (E.seen notes.old).held (E.seen notes.new).held (serve_note end)) }
    ensures cause { HasCause (E.seen notes.old).faults (E.seen notes.new).faults result }
{
    match end {
        ServeEnd::Done => give_all(notes, b""),
        ServeEnd::Fault(fault) => tell_feed(notes, fault),
        ServeEnd::Read => give_all(notes, READ),
        ServeEnd::Door => give_all(notes, DOOR),
        ServeEnd::Memory => give_all(notes, MEMORY),
    }
}

fn tell_dial<E: Sink>(notes: &mut E, end: DialEnd) -> Result<(), Failed>
    ensures ok { OnOk result (Appends (E.seen notes.old).held (E.seen notes.new).held (dial_note end)) }
    ensures err { OnErr result (AppendsFront (E.seen notes.old).held (E.seen notes.new).held (dial_note end)) }
    ensures cause { HasCause (E.seen notes.old).faults (E.seen notes.new).faults result }
{
    match end {
        DialEnd::Done => give_all(notes, b""),
        DialEnd::Fault(fault) => tell_fault(notes, fault),
        DialEnd::Cut(left) => tell_cut(notes, left),
        DialEnd::Link => give_all(notes, LINK),
        DialEnd::Door => give_all(notes, DOOR),
        DialEnd::Write => give_all(notes, WRITE),
        DialEnd::Memory => give_all(notes, MEMORY),
    }
}
