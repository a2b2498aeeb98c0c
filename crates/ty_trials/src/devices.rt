// Devices of which each call fails in turn, in each mode over source and sink: the front that is stated was written.
use crate::hostile::{LINES, frames_in, text_of};
use crate::realistic::{BODIES, LINES as FEED_LINES};
use crate::runs::{Devices, FEED, GOOD, came, framed, joined, run};
use std::alloc::Global;
use std::test::Fail;
use ty_base::NoMemory;

// Whether `follow` over these bytes in pieces of 64, of which the take behind so many fails, tells the lines of the
// breadcrumbs before.
fn tells_before(alloc: Global, bytes: &[u8], pieces: usize) -> Result<bool, NoMemory> {
    let devices = Devices {
        piece: 64,
        read_fails: (pieces as u64).saturating_add(1),
        ..GOOD
    };
    let read = bytes.len().min(pieces.saturating_mul(64));
    let (frames, _) = frames_in(&BODIES, read);
    let text = text_of(alloc, &LINES, frames)?;
    let ran = run(alloc, &["follow", "--brief"], bytes, devices)?;
    Ok(came(&ran, 3, &text, "typha: read fault\n"))
}

#[test]
fn a_source_that_fails_leaves_the_lines_before(rt: HostRuntime) -> Result<(), Fail> {
    let alloc = rt.alloc();
    let bytes = framed(alloc, &BODIES)?;
    let mut pieces: usize = 0;
    for _ in bytes.chunks(64) {
        assert!(rt; tells_before(alloc, &bytes, pieces)?, "{pieces}");
        pieces = pieces.saturating_add(1);
    }
    // The take that would bring the end.
    assert!(rt; tells_before(alloc, &bytes, pieces)?);
    Ok(())
}

// How many frames of the realistic stream were given by the gives before, of which each has those of one breadcrumb.
const GIVEN: [usize; 6] = [0, 3, 5, 8, 10, 12];

// How many breadcrumbs there were before a give that fails, and how the run ends.
fn ending(fails: usize) -> (u8, &'static str) {
    if fails < 5 {
        (4, "typha: write fault\n")
    } else {
        (0, "")
    }
}

#[test]
fn a_sink_that_fails_at_each_give_has_a_front(rt: HostRuntime) -> Result<(), Fail> {
    let alloc = rt.alloc();
    let feed = joined(alloc, &FEED_LINES)?;
    let bytes = framed(alloc, &BODIES)?;
    let mut write_fails: u64 = 1;
    for (place, frames) in GIVEN.iter().enumerate() {
        let devices = Devices {
            write_fails,
            ..GOOD
        };
        let (status, note) = ending(place);
        let (front, _) = BODIES.split_at((*frames).min(BODIES.len()));
        let ran = run(alloc, &["stream"], &feed, devices)?;
        assert!(rt;
            came(&ran, status, &framed(alloc, front)?, note),
            "stream {place}"
        );
        let text = text_of(alloc, &LINES, *frames)?;
        let ran = run(alloc, &["follow", "--brief"], &bytes, devices)?;
        assert!(rt; came(&ran, status, &text, note), "follow {place}");
        write_fails = write_fails.saturating_add(1);
    }
    Ok(())
}

// The words, what is read, the take and the give that fail, and the status, which the notes' fault leaves as it is.
const UNTOLD: [(&[&str], &str, (u64, u64), u8); 9] = [
    (&["stream"], "oops", (0, 0), 2),
    (&["stream"], FEED, (2, 0), 3),
    (&["stream"], FEED, (0, 2), 4),
    (&["stream"], FEED, (0, 0), 0),
    (&["follow"], "oops", (0, 0), 6),
    (&["follow"], "\0\0", (0, 0), 9),
    (&["sim"], "oops", (0, 0), 2),
    (&["sim"], FEED, (0, 1), 4),
    (&["bake"], FEED, (1, 1), 1),
];

#[test]
fn notes_that_fail_change_nothing_else(rt: HostRuntime) -> Result<(), Fail> {
    let alloc = rt.alloc();
    for (words, text, (read_fails, write_fails), status) in UNTOLD {
        let devices = Devices {
            read_fails,
            write_fails,
            ..GOOD
        };
        let told = run(alloc, words, text.as_bytes(), devices)?;
        let devices = Devices {
            notes_fails: 1,
            ..devices
        };
        let untold = run(alloc, words, text.as_bytes(), devices)?;
        assert_eq!(rt; told.status, status, "{text}");
        assert_eq!(rt; told.notes.is_empty(), status == 0, "{text}");
        assert!(rt; came(&untold, status, &told.given, ""), "{text}");
    }
    Ok(())
}

// Three breadcrumbs' events, a line each, and what each tells.
const EVENTS: [(&str, &str); 7] = [
    ("join 1\n", "client 1 open\n"),
    ("hear 1\n", "client 1 heard 1\nclient 1 joined 0\n"),
    ("step 1\n", "client 1 pending 0\n"),
    ("{\"status\":\"in-sync\"}\n", "crumb 1 in-sync 0\n"),
    ("step 1\n", "client 1 step 1\n"),
    ("cut 1\n", "client 1 cut\n"),
    ("cut 1\n", "client 1 absent\n"),
];

// The script of all events, and the report of so many of them.
fn script_and_report(alloc: Global, count: usize) -> Result<(Vec<u8>, Vec<u8>), NoMemory> {
    let mut script = Vec::new(alloc);
    let mut report = Vec::new(alloc);
    for (place, (line, told)) in EVENTS.iter().enumerate() {
        script.extend_from_slice(line.as_bytes())?;
        if place < count {
            report.extend_from_slice(told.as_bytes())?;
        }
    }
    Ok((script, report))
}

#[test]
fn a_report_is_a_front_where_its_sink_has_less_room(rt: HostRuntime) -> Result<(), Fail> {
    let alloc = rt.alloc();
    let (script, mut report) = script_and_report(alloc, 7)?;
    report.extend_from_slice(b"end 1\n")?;
    for room in 0..=report.len() {
        let ran = run(alloc, &["sim"], &script, Devices { room, ..GOOD })?;
        let (front, _) = report.split_at(room.min(report.len()));
        let (status, note) = if room == report.len() {
            (0, "")
        } else {
            (4, "typha: write fault\n")
        };
        assert!(rt; came(&ran, status, front, note), "{room}");
    }
    Ok(())
}

// How many events' lines end within so many bytes.
fn events_in(bytes: usize) -> usize {
    let mut events: usize = 0;
    let mut left = bytes;
    for (line, _) in EVENTS {
        if left < line.len() {
            return events;
        }
        left = left.saturating_sub(line.len());
        events = events.saturating_add(1);
    }
    events
}

#[test]
fn a_script_whose_source_fails_is_run_to_there(rt: HostRuntime) -> Result<(), Fail> {
    let alloc = rt.alloc();
    let (script, _) = script_and_report(alloc, 7)?;
    let mut read_fails: u64 = 1;
    for bytes in 0..=script.len() {
        let devices = Devices {
            piece: 1,
            read_fails,
            ..GOOD
        };
        let (_, report) = script_and_report(alloc, events_in(bytes))?;
        let ran = run(alloc, &["sim"], &script, devices)?;
        assert!(rt; came(&ran, 3, &report, "typha: read fault\n"), "{bytes}");
        read_fails = read_fails.saturating_add(1);
    }
    Ok(())
}
