// `follow --at` over a dialler in memory: one link after another, lost links, and devices that fail at each call.
use crate::frames::{CRUMB_0, CRUMB_1, HELLO, IN_SYNC, READY, WAIT, framed};
use crate::tops::{Told, run_top};
use std::alloc::Global;
use std::sync::Wait;
use std::test::Fail;
use std::thread::Threads;
use ty_base::{Came, MemDoor, MemLink, MemSink, MemSource, NoMemory, Piece, SetClock};

const TEXT: &str =
    "at 0 wait-for-ready 0\nat 1 in-sync 1\n{\"key\":\"/calico/v1/Ready\",\"value\":\"true\"}\n";

const FIRST: &str = "at 0 wait-for-ready 0\n";

// The client's hello, of 54 bytes.
const FOLLOWER: &[u8] =
    b"\x00\x00\x002{\"host\":\"follower\",\"m\":\"client_hello\",\"version\":1}";

// A stream of two breadcrumbs, of 241 bytes. The first 103 tell breadcrumb 0.
fn whole(alloc: Global) -> Result<Vec<u8>, NoMemory> {
    framed(alloc, &[HELLO, WAIT, CRUMB_0, READY, IN_SYNC, CRUMB_1])
}

// A link that brings the first bytes of the stream in one piece, and fails at one call.
fn link(alloc: Global, len: usize, room: usize, fails: u64) -> Result<MemLink, NoMemory> {
    let bytes = whole(alloc)?;
    let (front, _) = bytes.split_at(len.min(bytes.len()));
    let mut coming = Vec::new(alloc);
    coming.push(Piece::Bytes(front.to_vec(alloc)?))?;
    coming.push(Piece::Quiet)?;
    MemLink::new(alloc, coming, room, vec![in alloc; fails]?)
}

// What a run came to, and what each link was given that came back.
#[derive(Drop)]
struct Dialled {
    told: Told,
    links: Vec<Vec<u8>>,
}

// Runs over a dialler that gives these, and over a sink of which one call fails.
fn dial<R: Threads + Wait + Sync>(
    rt: &R,
    alloc: Global,
    words: &[&str],
    coming: Vec<Came<MemLink>>,
    (accept_fails, write_fails, room): (u64, u64, usize),
) -> Result<Dialled, NoMemory> {
    let mut source = MemSource::new(alloc, Vec::new(alloc), Vec::new(alloc))?;
    let mut sink = MemSink::new(alloc, room, vec![in alloc; write_fails]?)?;
    let mut doors = Vec::new(alloc);
    doors.push(MemDoor::new(alloc, Vec::new(alloc), Vec::new(alloc))?)?;
    let mut dial = MemDoor::new(alloc, coming, vec![in alloc; accept_fails]?)?;
    let clock = SetClock::new(0);
    let told = run_top(
        rt,
        alloc,
        words,
        &mut source,
        &mut sink,
        &mut doors,
        &mut dial,
        &clock,
    )?;
    let mut links = Vec::new(alloc);
    for link in dial.returned() {
        links.push(link.given().to_vec(alloc)?)?;
    }
    Ok(Dialled { told, links })
}

// Whether a run ended with this status, wrote these texts and left this note.
fn came(ran: &Told, status: u8, text: &[u8], note: &str) -> bool {
    ran.status == status && ran.given.as_slice() == text && ran.notes.as_slice() == note.as_bytes()
}

const GOOD: (u64, u64, usize) = (0, 0, 1000);

// What the dialler gives in turn: links with so many bytes of the stream, of which one call fails, or nothing yet.
const QUIET: (usize, u64) = (999, 0);

fn links_of(alloc: Global, turns: &[(usize, u64)]) -> Result<Vec<Came<MemLink>>, NoMemory> {
    let mut coming = Vec::new(alloc);
    for (len, fails) in turns {
        if *len == 999 {
            coming.push(Came::Quiet)?;
        } else {
            coming.push(Came::Link(link(alloc, *len, 1000, *fails)?))?;
        }
    }
    Ok(coming)
}

// The tries, what the dialler gives in turn, the status, the texts in order, the note, and how many links came back.
const TURNS: [(&str, &[(usize, u64)], u8, [&str; 2], &str, usize); 14] = [
    ("1", &[(241, 0)], 0, [TEXT, ""], "", 1),
    ("1", &[QUIET, QUIET, (241, 0)], 0, [TEXT, ""], "", 1),
    ("1", &[(241, 0), (241, 0)], 0, [TEXT, ""], "", 1),
    ("2", &[(241, 0), (241, 0)], 0, [TEXT, TEXT], "", 2),
    ("3", &[(241, 0), QUIET, (241, 0)], 0, [TEXT, TEXT], "", 2),
    (
        "1",
        &[(240, 0)],
        9,
        [FIRST, ""],
        "typha: stream cut 22\n",
        1,
    ),
    (
        "2",
        &[(240, 0)],
        9,
        [FIRST, ""],
        "typha: stream cut 22\n",
        1,
    ),
    ("2", &[(240, 0), (241, 0)], 0, [FIRST, TEXT], "", 2),
    (
        "2",
        &[(241, 0), (104, 0)],
        9,
        [TEXT, FIRST],
        "typha: stream cut 1\n",
        2,
    ),
    ("100", &[], 0, ["", ""], "", 0),
    ("100", &[QUIET, QUIET], 0, ["", ""], "", 0),
    ("1", &[(241, 1)], 10, ["", ""], "typha: link fault\n", 1),
    ("2", &[(241, 1), (241, 0)], 0, ["", TEXT], "", 2),
    (
        "2",
        &[(103, 0), (241, 3)],
        10,
        [FIRST, TEXT],
        "typha: link fault\n",
        2,
    ),
];

#[test]
fn one_link_after_another_is_followed(rt: HostRuntime) -> Result<(), Fail> {
    let alloc = rt.alloc();
    for (tries, turns, status, [first, second], note, count) in TURNS {
        let words = ["follow", "--at", "x", "--tries", tries];
        let ran = dial(&rt, alloc, &words, links_of(alloc, turns)?, GOOD)?;
        let text = format!(in alloc; "{first}{second}")?;
        assert!(rt;
            came(&ran.told, status, text.as_bytes(), note),
            "{tries} {status} {count}"
        );
        assert_eq!(rt; ran.links.len(), count);
    }
    Ok(())
}

// The call that fails, what was written by then, and how much the link was given. The fourth call brings the end.
const CALLS: [(u64, &str, usize); 4] = [(1, "", 0), (2, "", 54), (3, TEXT, 54), (4, TEXT, 54)];

#[test]
fn a_link_that_fails_at_each_call(rt: HostRuntime) -> Result<(), Fail> {
    let alloc = rt.alloc();
    for (fails, text, given) in CALLS {
        let words = ["follow", "--at", "x"];
        let ran = dial(&rt, alloc, &words, links_of(alloc, &[(241, fails)])?, GOOD)?;
        assert!(rt;
            came(&ran.told, 10, text.as_bytes(), "typha: link fault\n"),
            "{fails}"
        );
        let (front, _) = FOLLOWER.split_at(given.min(FOLLOWER.len()));
        assert_eq!(rt; ran.links.len(), 1);
        assert!(rt;
            ran.links.iter().all(|link| link.as_slice() == front),
            "{fails}"
        );
        let words = ["follow", "--at", "x", "--tries", "2"];
        let turns = [(241, fails), (241, 0)];
        let ran = dial(&rt, alloc, &words, links_of(alloc, &turns)?, GOOD)?;
        let text = format!(in alloc; "{text}{TEXT}")?;
        assert!(rt; came(&ran.told, 0, text.as_bytes(), ""), "{fails}");
        assert_eq!(rt; ran.links.len(), 2);
    }
    Ok(())
}

#[test]
fn a_link_with_less_room_has_a_front_of_the_hello(rt: HostRuntime) -> Result<(), Fail> {
    let alloc = rt.alloc();
    for room in 0..=54usize {
        let mut coming = Vec::new(alloc);
        coming.push(Came::Link(link(alloc, 241, room, 0)?))?;
        let ran = dial(&rt, alloc, &["follow", "--at", "x"], coming, GOOD)?;
        let (status, text, note) = if room == 54 {
            (0, TEXT, "")
        } else {
            (10, "", "typha: link fault\n")
        };
        assert!(rt; came(&ran.told, status, text.as_bytes(), note), "{room}");
        let (front, _) = FOLLOWER.split_at(room.min(FOLLOWER.len()));
        assert!(rt;
            ran.links.iter().all(|link| link.as_slice() == front),
            "{room}"
        );
    }
    Ok(())
}

// The accept that fails, and the give of the text; the room for it, the status, how many bytes were written, and the note.
const FAILS: [((u64, u64, usize), u8, usize, &str); 13] = [
    ((1, 0, 1000), 7, 0, "typha: door fault\n"),
    ((2, 0, 1000), 7, 79, "typha: door fault\n"),
    ((3, 0, 1000), 0, 158, ""),
    ((0, 1, 1000), 4, 0, "typha: write fault\n"),
    ((0, 0, 0), 4, 0, "typha: write fault\n"),
    ((0, 0, 50), 4, 50, "typha: write fault\n"),
    ((0, 2, 1000), 4, 22, "typha: write fault\n"),
    ((0, 3, 1000), 4, 79, "typha: write fault\n"),
    ((0, 4, 1000), 4, 101, "typha: write fault\n"),
    ((0, 5, 1000), 0, 158, ""),
    ((0, 0, 79), 4, 79, "typha: write fault\n"),
    ((0, 0, 157), 4, 157, "typha: write fault\n"),
    ((0, 0, 158), 0, 158, ""),
];

#[test]
fn a_dialler_and_a_sink_that_fail(rt: HostRuntime) -> Result<(), Fail> {
    let alloc = rt.alloc();
    let twice = format!(in alloc; "{TEXT}{TEXT}")?;
    for (devices, status, len, note) in FAILS {
        let words = ["follow", "--at", "x", "--tries", "2"];
        let coming = links_of(alloc, &[(241, 0), (241, 0)])?;
        let ran = dial(&rt, alloc, &words, coming, devices)?;
        let (front, _) = twice.as_bytes().split_at(len.min(twice.len()));
        assert!(rt; came(&ran.told, status, front, note), "{status} {len}");
    }
    Ok(())
}

// The bodies that a link brings behind the opening, and how the run ends.
const BODIES: [(&[&str], u8, &str); 6] = [
    (&["{\"m\":\"ping\",\"ts\":7}"], 0, ""),
    (&["oops"], 6, "typha: frame 4: not JSON\n"),
    (&["{}"], 6, "typha: frame 4: not a message\n"),
    (&[HELLO], 6, "typha: frame 4: out of order\n"),
    (&[CRUMB_0], 6, "typha: frame 4: crumb 0 after 0\n"),
    (
        &["{\"m\":\"ping\",\"ts\":7}", "oops"],
        6,
        "typha: frame 5: not JSON\n",
    ),
];

#[test]
fn a_fault_of_the_bytes_ends_all_tries(rt: HostRuntime) -> Result<(), Fail> {
    let alloc = rt.alloc();
    for (more, status, note) in BODIES {
        let mut bytes = framed(alloc, &[HELLO, WAIT, CRUMB_0])?;
        bytes.extend_from_slice(&framed(alloc, more)?)?;
        let mut pieces = Vec::new(alloc);
        pieces.push(Piece::Bytes(bytes))?;
        let mut coming = Vec::new(alloc);
        coming.push(Came::Link(MemLink::new(alloc, pieces, 1000, Vec::new(alloc))?))?;
        let words = ["follow", "--at", "x", "--tries", "9", "--brief"];
        let ran = dial(&rt, alloc, &words, coming, GOOD)?;
        assert!(rt; came(&ran.told, status, FIRST.as_bytes(), note), "{note}");
        let mut given = FOLLOWER.to_vec(alloc)?;
        if status == 0 {
            given.extend_from_slice(b"\x00\x00\x00\x13{\"m\":\"pong\",\"ts\":7}")?;
        }
        assert!(rt;
            ran.links
                .iter()
                .all(|link| link.as_slice() == given.as_slice()),
            "{note}"
        );
    }
    Ok(())
}
