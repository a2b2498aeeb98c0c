// Words that are refused, and faults of a feed.
use crate::runs::{
    CRUMB_0, CRUMB_1, FEED, GOOD, HELLO, IN_SYNC, IN_SYNC_LINE, READY, READY_LINE, WAIT, came,
    framed, run, streams,
};
use std::alloc::Global;
use std::test::Fail;

const USAGE: &str =
    "usage: typha stream|follow|sim|load|serve [--from N] [--brief] [--at ADDR] [--host NAME] [--tries N] [--number N] [--workers N]\n";

#[test]
fn words_that_are_refused_have_their_note(rt: HostRuntime) -> Result<(), Fail> {
    let none: [&str; 0] = [];
    for words in [
        none.as_slice(),
        &["bake"],
        &["stream", "--from", "1099511627777"],
        &["follow", "--brief", "--brief"],
        &["sim", "--from=1"],
        &["load", "--number", "18446744073709551616"],
    ] {
        let ran = run(rt.alloc(), words, FEED.as_bytes(), GOOD)?;
        assert!(rt; came(&ran, 1, b"", USAGE));
    }
    Ok(())
}

// Whether a feed with bytes behind its second line gives the breadcrumbs of the first two, and this note.
fn stops(alloc: Global, more: &[u8], status: u8, note: &str) -> Result<bool, Fail> {
    let mut feed = FEED.as_bytes().to_vec(alloc)?;
    feed.extend_from_slice(more)?;
    let wanted = framed(alloc, &[HELLO, WAIT, CRUMB_0, READY, IN_SYNC, CRUMB_1])?;
    let ran = run(alloc, &["stream"], &feed, GOOD)?;
    Ok(came(&ran, status, &wanted, note))
}

// What stands behind the second line, the status and the note. A key that doesn't read is passed over.
const STOPS: [(&[u8], u8, &str); 5] = [
    (b"oops\n", 2, "typha: line 3: not a feed line\n"),
    (b"oops", 2, "typha: line 3: not a feed line\n"),
    (b"\n{}\n", 2, "typha: line 4: not a feed line\n"),
    (b"\xff\n", 2, "typha: line 3: not UTF-8\n"),
    (b"{\"key\":\"/calico/v2/x\",\"value\":true}\n", 0, ""),
];

#[test]
fn a_bad_line_stops_behind_the_breadcrumbs_before(rt: HostRuntime) -> Result<(), Fail> {
    for (more, status, note) in STOPS {
        assert!(rt; stops(rt.alloc(), more, status, note)?, "{note}");
    }
    Ok(())
}

// The words, the feed, and the bodies of what is published.
const UNFINISHED: [(&[&str], &[&str], &[&str]); 2] = [
    (
        &["stream"],
        &[READY_LINE, "oops\n", IN_SYNC_LINE],
        &[HELLO, WAIT, CRUMB_0],
    ),
    (&["stream", "--from", "1"], &[READY_LINE, "oops"], &[HELLO]),
];

#[test]
fn an_unfinished_batch_is_not_published(rt: HostRuntime) -> Result<(), Fail> {
    let note = "typha: line 2: not a feed line\n";
    for (words, feed, bodies) in UNFINISHED {
        assert!(rt; streams(rt.alloc(), words, feed, 2, bodies, note)?);
    }
    Ok(())
}

// So many spaces behind the first two lines.
fn with_spaces(alloc: Global, count: usize) -> Result<Vec<u8>, Fail> {
    let mut more = Vec::new(alloc);
    more.resize(count, b' ')?;
    Ok(more)
}

// How many spaces stand there, the status and the note.
const LONG: [(usize, u8, &str); 2] = [
    (8_388_608, 0, ""),
    (8_388_609, 2, "typha: line 3: too long\n"),
];

#[test]
fn a_line_has_8_388_608_bytes_at_most(rt: HostRuntime) -> Result<(), Fail> {
    let alloc = rt.alloc();
    for (count, status, note) in LONG {
        let more = with_spaces(alloc, count)?;
        assert!(rt; stops(alloc, &more, status, note)?, "{count}");
    }
    Ok(())
}
