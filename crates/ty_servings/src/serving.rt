// `serve` over doors in memory: clients that say too little or too late, and doors, links and sources that fail.
use crate::frames::{CRUMB_0, CRUMB_1, FEED, HELLO, IN_SYNC, READY, WAIT, framed};
use crate::stage::{Events, Manner, StageDoor, StageLink, StageSource};
use crate::tops::{Told, run_top};
use std::alloc::Global;
use std::rt::Clock;
use std::sync::Wait;
use std::test::Fail;
use std::thread::Threads;
use ty_base::{MemSink, MemSource, NoMemory, Source};

const CLIENT: &[u8] = b"\x00\x00\x00,{\"host\":\"n1\",\"m\":\"client_hello\",\"version\":1}";

const CLIENT_9: &[u8] = b"\x00\x00\x00,{\"host\":\"n1\",\"m\":\"client_hello\",\"version\":9}";

const PONG: &[u8] = b"\x00\x00\x00\x13{\"m\":\"pong\",\"ts\":1}";

const OOPS: &[u8] = b"\x00\x00\x00\x04oops";

// A client that says its hello and then nothing, for which no time passes.
const PATIENT: Manner = Manner {
    brings: &[CLIENT],
    lapse: 0,
    lasts: 0,
    fails: 0,
};

// Serves at these doors, and answers what came of it.
fn serve_at<'a, R: Threads + Wait + Sync + Clock, S: Source + Send>(
    rt: &'a R,
    alloc: Global,
    events: &'a Events,
    source: &mut S,
    doors: &mut Vec<StageDoor<'a, R>>,
) -> Result<Told, NoMemory> {
    let mut sink = MemSink::new(alloc, 0, Vec::new(alloc))?;
    let mut dial = StageDoor::new(alloc, events, Vec::new(alloc), 1);
    let clock = events.clock();
    let words = ["serve", "--at", "x", "--workers", "2"];
    run_top(
        rt, alloc, &words, source, &mut sink, doors, &mut dial, &clock,
    )
}

// A door with so many clients of one manner.
fn door<'a, R: Clock>(
    rt: &'a R,
    alloc: Global,
    events: &'a Events,
    manner: Manner,
    count: u64,
    fails: u64,
) -> Result<StageDoor<'a, R>, NoMemory> {
    let mut links = Vec::new(alloc);
    for _ in 0..count {
        links.push(StageLink::new(alloc, rt, events, manner))?;
    }
    Ok(StageDoor::new(alloc, events, links, fails))
}

// What a client does, whether there is a feed of two breadcrumbs, and the bodies that it is given.
const DROPPED: [(Manner, bool, &[&str]); 8] = [
    // No hello within 10,000 ms.
    (
        Manner {
            brings: &[],
            lapse: 1_000,
            ..PATIENT
        },
        false,
        &[],
    ),
    // Half a hello within 10,000 ms.
    (
        Manner {
            brings: &[b"\x00\x00\x00,{\"host\":\"n1\""],
            lapse: 1_000,
            ..PATIENT
        },
        false,
        &[],
    ),
    // No pong within 60,000 ms. Pings come 10,000 ms apart or more.
    (
        Manner {
            lapse: 5_000,
            ..PATIENT
        },
        false,
        &[
            HELLO,
            WAIT,
            CRUMB_0,
            "{\"m\":\"ping\",\"ts\":15000}",
            "{\"m\":\"ping\",\"ts\":25000}",
            "{\"m\":\"ping\",\"ts\":35000}",
            "{\"m\":\"ping\",\"ts\":45000}",
            "{\"m\":\"ping\",\"ts\":55000}",
        ],
    ),
    // The second breadcrumb is 400,000 ms old at the step that comes to it.
    (
        Manner {
            brings: &[CLIENT, PONG],
            lasts: 400_000,
            ..PATIENT
        },
        true,
        &[
            HELLO,
            WAIT,
            CRUMB_0,
            READY,
            CRUMB_1,
            "{\"m\":\"ping\",\"ts\":400000}",
        ],
    ),
    // The wrong version, no message, and a message out of order.
    (
        Manner {
            brings: &[CLIENT_9],
            ..PATIENT
        },
        false,
        &[],
    ),
    (
        Manner {
            brings: &[OOPS],
            ..PATIENT
        },
        false,
        &[],
    ),
    (
        Manner {
            brings: &[PONG],
            ..PATIENT
        },
        false,
        &[],
    ),
    // No message behind the hello, heard at the first look after the snapshot.
    (
        Manner {
            brings: &[CLIENT, OOPS],
            ..PATIENT
        },
        false,
        &[HELLO, WAIT, CRUMB_0],
    ),
];

// What a run came to at one door with one client, and what that client was given.
fn meet<R: Threads + Wait + Sync + Clock>(
    rt: &R,
    alloc: Global,
    manner: Manner,
    feeds: bool,
) -> Result<(Told, Vec<u8>), NoMemory> {
    let events = Events::new();
    meet_on(rt, alloc, &events, manner, feeds)
}

fn meet_on<'a, R: Threads + Wait + Sync + Clock>(
    rt: &'a R,
    alloc: Global,
    events: &'a Events,
    manner: Manner,
    feeds: bool,
) -> Result<(Told, Vec<u8>), NoMemory> {
    let mut source = StageSource::new(rt, events, feeds);
    let mut doors = Vec::new(alloc);
    doors.push(door(rt, alloc, events, manner, 1, 0)?)?;
    let told = serve_at(rt, alloc, events, &mut source, &mut doors)?;
    Ok((told, given(alloc, &doors)?))
}

// What the first link of the first door was given.
fn given<R>(alloc: Global, doors: &[StageDoor<'_, R>]) -> Result<Vec<u8>, NoMemory> {
    match doors.first() {
        Some(door) => Ok(door.given(0).unwrap_or(b"none").to_vec(alloc)?),
        None => Ok(Vec::new(alloc)),
    }
}

#[test]
fn clients_that_say_too_little_are_left(rt: HostRuntime) -> Result<(), Fail> {
    let alloc = rt.alloc();
    for (place, (manner, feeds, bodies)) in DROPPED.iter().enumerate() {
        let (told, given) = meet(&rt, alloc, *manner, *feeds)?;
        assert_eq!(rt; told.status, 0, "{place}");
        assert!(rt; told.notes.is_empty(), "{place}");
        assert!(rt;
            given.as_slice() == framed(alloc, bodies)?.as_slice(),
            "{place}"
        );
    }
    Ok(())
}

// The whole talks of the feed with a client that enters at breadcrumb 0, and with one that enters at 1.
const TALKS: [&[&str]; 2] = [
    &[HELLO, WAIT, CRUMB_0, READY, IN_SYNC, CRUMB_1],
    &[HELLO, READY, IN_SYNC, CRUMB_1],
];

// Whether these bytes are a whole talk of the feed, and whether they are a front of one.
fn talks(alloc: Global, given: &[u8]) -> Result<(bool, bool), NoMemory> {
    let (mut whole, mut front) = (false, false);
    for bodies in TALKS {
        let talk = framed(alloc, bodies)?;
        whole = whole || talk.as_slice() == given;
        front = front || talk.starts_with(given);
    }
    Ok((whole, front))
}

// A feed of two lines and more, of which one take fails; two doors with so many clients, of which one accept fails; and the
// call of each client's link that fails.
#[derive(Clone, Copy)]
struct Case {
    more: &'static str,
    read_fails: u64,
    first: (u64, u64),
    second: (u64, u64),
    link_fails: u64,
}

const CASE: Case = Case {
    more: "",
    read_fails: 0,
    first: (1, 0),
    second: (1, 0),
    link_fails: 0,
};

// What a run came to: how many links came back to each door, and how many of them were given a whole talk and a front of
// one.
#[derive(Drop)]
struct Served {
    told: Told,
    back: (usize, usize),
    whole: usize,
    front: usize,
}

fn feed_of(alloc: Global, case: Case) -> Result<MemSource, NoMemory> {
    let mut pieces = Vec::new(alloc);
    pieces.push(FEED.as_bytes().to_vec(alloc)?)?;
    pieces.push(case.more.as_bytes().to_vec(alloc)?)?;
    MemSource::new(alloc, pieces, vec![in alloc; case.read_fails]?)
}

// How many links of a door were given a whole talk, and a front of one.
fn counts<R>(alloc: Global, door: &StageDoor<'_, R>) -> Result<(usize, usize), NoMemory> {
    let (mut whole, mut front): (usize, usize) = (0, 0);
    for place in 0..door.count() {
        let (all, some) = talks(alloc, door.given(place).unwrap_or(b"none"))?;
        whole = whole.saturating_add(usize::from(all));
        front = front.saturating_add(usize::from(some));
    }
    Ok((whole, front))
}

fn summed<R>(alloc: Global, told: Told, doors: &[StageDoor<'_, R>]) -> Result<Served, NoMemory> {
    let mut sum = Served {
        told,
        back: (0, 0),
        whole: 0,
        front: 0,
    };
    for (place, door) in doors.iter().enumerate() {
        let (whole, front) = counts(alloc, door)?;
        sum.whole = sum.whole.saturating_add(whole);
        sum.front = sum.front.saturating_add(front);
        if place == 0 {
            sum.back.0 = door.count();
        } else {
            sum.back.1 = door.count();
        }
    }
    Ok(sum)
}

fn serve_case<R: Threads + Wait + Sync + Clock>(
    rt: &R,
    alloc: Global,
    case: Case,
) -> Result<Served, NoMemory> {
    let events = Events::new();
    serve_case_on(rt, alloc, &events, case)
}

fn serve_case_on<'a, R: Threads + Wait + Sync + Clock>(
    rt: &'a R,
    alloc: Global,
    events: &'a Events,
    case: Case,
) -> Result<Served, NoMemory> {
    let manner = Manner {
        fails: case.link_fails,
        ..PATIENT
    };
    let mut source = feed_of(alloc, case)?;
    let mut doors = Vec::new(alloc);
    doors.push(door(rt, alloc, events, manner, case.first.0, case.first.1)?)?;
    doors.push(door(rt, alloc, events, manner, case.second.0, case.second.1)?)?;
    let told = serve_at(rt, alloc, events, &mut source, &mut doors)?;
    summed(alloc, told, &doors)
}

const DOOR: &str = "typha: door fault\n";

const READ: &str = "typha: read fault\n";

const LINE: &str = "typha: line 3: not a feed line\n";

// What is served, the status, how many links come back to each door, and the note.
const CASES: [(Case, u8, (usize, usize), &str); 13] = [
    (CASE, 0, (1, 1), ""),
    (
        Case {
            first: (3, 0),
            second: (0, 0),
            ..CASE
        },
        0,
        (3, 0),
        "",
    ),
    (
        Case {
            first: (1, 2),
            ..CASE
        },
        7,
        (1, 1),
        DOOR,
    ),
    (
        Case {
            first: (2, 1),
            ..CASE
        },
        7,
        (0, 1),
        DOOR,
    ),
    (
        Case {
            first: (2, 2),
            ..CASE
        },
        7,
        (1, 1),
        DOOR,
    ),
    (
        Case {
            first: (2, 3),
            ..CASE
        },
        7,
        (2, 1),
        DOOR,
    ),
    (
        Case {
            first: (2, 4),
            ..CASE
        },
        0,
        (2, 1),
        "",
    ),
    (
        Case {
            second: (3, 2),
            ..CASE
        },
        7,
        (1, 1),
        DOOR,
    ),
    (
        Case {
            first: (1, 1),
            second: (1, 1),
            ..CASE
        },
        7,
        (0, 0),
        DOOR,
    ),
    (
        Case {
            more: "oops",
            ..CASE
        },
        2,
        (1, 1),
        LINE,
    ),
    (
        Case {
            more: "oops",
            first: (2, 2),
            ..CASE
        },
        2,
        (1, 1),
        LINE,
    ),
    (
        Case {
            read_fails: 2,
            ..CASE
        },
        3,
        (1, 1),
        READ,
    ),
    (
        Case {
            read_fails: 2,
            second: (2, 1),
            ..CASE
        },
        3,
        (1, 0),
        READ,
    ),
];

#[test]
fn links_are_served_to_the_end_whatever_fails_beside_them(rt: HostRuntime) -> Result<(), Fail> {
    let alloc = rt.alloc();
    for (place, (case, status, back, note)) in CASES.iter().enumerate() {
        let ran = serve_case(&rt, alloc, *case)?;
        assert_eq!(rt; ran.told.status, *status, "{place}");
        assert_eq!(rt; ran.told.notes.as_slice(), note.as_bytes());
        assert_eq!(rt; ran.back, *back, "{place}");
        assert_eq!(rt; ran.whole, back.0.saturating_add(back.1), "{place}");
    }
    Ok(())
}

#[test]
fn links_that_fail_at_each_call_have_a_front(rt: HostRuntime) -> Result<(), Fail> {
    let alloc = rt.alloc();
    for link_fails in 1..=8u64 {
        let ran = serve_case(&rt, alloc, Case { link_fails, ..CASE })?;
        assert_eq!(rt; ran.told.status, 0, "{link_fails}");
        assert_eq!(rt; (ran.back, ran.front), ((1, 1), 2), "{link_fails}");
    }
    Ok(())
}
