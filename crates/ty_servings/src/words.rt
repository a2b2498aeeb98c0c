// Words, the doors that they want, and what they come to where nobody is there.
use crate::frames::FEED;
use crate::tops::{Told, run_top, words_of};
use std::alloc::Global;
use std::sync::Wait;
use std::test::Fail;
use std::thread::Threads;
use ty_base::{MemDoor, MemSink, MemSource, NoMemory, SetClock};
use ty_top::{Needs, needs};

// The doors that the words of a line want, as a text.
fn wanted(alloc: Global, line: &str) -> Result<String, NoMemory> {
    let mut words = Vec::new(alloc);
    for word in line.split(' ') {
        words.push(word)?;
    }
    let words = words_of(alloc, &words)?;
    match needs(alloc, &words)? {
        Needs::Nothing => Ok(String::from_str(alloc, "nothing")?),
        Needs::Listen { at, workers } => Ok(format!(in alloc; "{workers} at {}", at.as_str())?),
        Needs::Dial { at } => Ok(format!(in alloc; "dial {}", at.as_str())?),
    }
}

const WANTED: [(&str, &str); 24] = [
    ("serve --at x", "8 at x"),
    ("serve --at=x --workers=1", "1 at x"),
    ("serve --at :5473 --workers 64", "64 at :5473"),
    ("--workers 2 --at 127.0.0.1:80 serve", "2 at 127.0.0.1:80"),
    ("follow --at x", "dial x"),
    ("follow --at y --tries 100 --host h --brief", "dial y"),
    ("--at=z follow", "dial z"),
    ("follow", "nothing"),
    ("follow --brief", "nothing"),
    ("stream", "nothing"),
    ("stream --from 1", "nothing"),
    ("sim", "nothing"),
    ("load --number 3", "nothing"),
    ("", "nothing"),
    ("bake", "nothing"),
    ("serve", "nothing"),
    ("serve --workers 2", "nothing"),
    ("serve --at x --workers 0", "nothing"),
    ("serve --at x --workers 65", "nothing"),
    ("serve --at x --at y", "nothing"),
    ("stream --at x", "nothing"),
    ("follow --tries 2", "nothing"),
    ("follow --at x --tries 0", "nothing"),
    ("follow --at x --from 1", "nothing"),
];

#[test]
fn words_want_their_doors(rt: HostRuntime) -> Result<(), Fail> {
    for (line, doors) in WANTED {
        assert_eq!(rt; wanted(rt.alloc(), line)?.as_str(), doors, "{line}");
    }
    Ok(())
}

// What the top call comes to over the feed of two lines, without a peer: the take of the source and the accepts of
// door and dialler that fail.
fn alone<R: Threads + Wait + Sync>(
    rt: &R,
    alloc: Global,
    words: &[&str],
    feed: &str,
    (read_fails, door_fails, dial_fails): (u64, u64, u64),
) -> Result<Told, NoMemory> {
    let mut pieces = Vec::new(alloc);
    pieces.push(feed.as_bytes().to_vec(alloc)?)?;
    let mut source = MemSource::new(alloc, pieces, vec![in alloc; read_fails]?)?;
    let mut sink = MemSink::new(alloc, 1000, Vec::new(alloc))?;
    let mut doors = Vec::new(alloc);
    doors.push(MemDoor::new(alloc, Vec::new(alloc), vec![in alloc; door_fails]?)?)?;
    doors.push(MemDoor::new(alloc, Vec::new(alloc), Vec::new(alloc))?)?;
    let mut dial = MemDoor::new(alloc, Vec::new(alloc), vec![in alloc; dial_fails]?)?;
    let clock = SetClock::new(0);
    run_top(
        rt,
        alloc,
        words,
        &mut source,
        &mut sink,
        &mut doors,
        &mut dial,
        &clock,
    )
}

const USAGE: &str =
    "usage: typha stream|follow|sim|load|serve [--from N] [--brief] [--at ADDR] [--host NAME] [--tries N] [--number N] [--workers N]\n";

const NONE: (u64, u64, u64) = (0, 0, 0);

const SERVE: &[&str] = &["serve", "--at", "x", "--workers", "2"];

const DIAL: &[&str] = &["follow", "--at", "x"];

const DOOR: &str = "typha: door fault\n";

// The words, what is read behind the feed's two lines, what fails, the status, how many bytes are written, and the note.
const ENDS: [(&[&str], &str, (u64, u64, u64), u8, usize, &str); 20] = [
    (SERVE, "", NONE, 0, 0, ""),
    (SERVE, "", (0, 1, 0), 7, 0, DOOR),
    (SERVE, "", (0, 2, 0), 0, 0, ""),
    (SERVE, "", (0, 0, 1), 0, 0, ""),
    (SERVE, "", (1, 0, 0), 3, 0, "typha: read fault\n"),
    (SERVE, "", (2, 0, 0), 3, 0, "typha: read fault\n"),
    (SERVE, "", (3, 0, 0), 0, 0, ""),
    (SERVE, "", (2, 1, 0), 3, 0, "typha: read fault\n"),
    (
        SERVE,
        "oops",
        NONE,
        2,
        0,
        "typha: line 3: not a feed line\n",
    ),
    (
        SERVE,
        "oops",
        (0, 1, 0),
        2,
        0,
        "typha: line 3: not a feed line\n",
    ),
    (SERVE, "oops", (1, 0, 0), 3, 0, "typha: read fault\n"),
    (DIAL, "oops", (1, 1, 0), 0, 0, ""),
    (DIAL, "", (0, 0, 1), 7, 0, DOOR),
    (DIAL, "", (0, 0, 2), 0, 0, ""),
    (&["stream"], "", (0, 1, 1), 0, 241, ""),
    (&["stream", "--from=1"], "", NONE, 0, 174, ""),
    (&["serve"], "", (1, 1, 1), 1, 0, USAGE),
    (&["bake"], "", (1, 1, 1), 1, 0, USAGE),
    (&["stream", "--from", "x"], "", (1, 1, 1), 1, 0, USAGE),
    (&["follow", "--from", "1"], "", (1, 1, 1), 1, 0, USAGE),
];

#[test]
fn nobody_is_served_and_nobody_dialled(rt: HostRuntime) -> Result<(), Fail> {
    let alloc = rt.alloc();
    for (words, more, fails, status, len, note) in ENDS {
        let feed = format!(in alloc; "{FEED}{more}")?;
        let ran = alone(&rt, alloc, words, feed.as_str(), fails)?;
        assert_eq!(rt; ran.status, status, "{more} {status} {len} {note}");
        assert_eq!(rt; ran.given.len(), len);
        assert_eq!(rt; ran.notes.as_slice(), note.as_bytes());
    }
    Ok(())
}
