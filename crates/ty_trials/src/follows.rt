// What a client follows.
use crate::feeds::{A, A_TWO, B, BAD_ENDPOINT, ENDPOINT, NO_A, lines_up_to};
use crate::realistic::LINES;
use crate::runs::{
    CRUMB_0, CRUMB_1, Devices, FEED, GOOD, HELLO, IN_SYNC, READY, READY_LINE, WAIT, came, framed,
    joined, run,
};
use std::alloc::Global;
use std::test::Fail;
use ty_base::NoMemory;

// A run of `follow` over a connection's bytes: the words, the bytes, the text and the note.
fn follows(
    alloc: Global,
    words: &[&str],
    bytes: &[u8],
    status: u8,
    text: &str,
    note: &str,
) -> Result<bool, NoMemory> {
    let mut good = true;
    for piece in [1usize, 7, 1000] {
        let ran = run(alloc, words, bytes, Devices { piece, ..GOOD })?;
        good = good
            && ran.status == status
            && ran.given.as_slice() == text.as_bytes()
            && ran.notes.as_slice() == note.as_bytes();
    }
    Ok(good)
}

const TEXT: &str =
    "at 0 wait-for-ready 0\nat 1 in-sync 1\n{\"key\":\"/calico/v1/Ready\",\"value\":\"true\"}\n";

const BRIEF: &str = "at 0 wait-for-ready 0\nat 1 in-sync 1\n";

const FIRST: &str = "at 0 wait-for-ready 0\n";

const RESYNC: &str = "{\"m\":\"status\",\"status\":\"resync\"}";

const CRUMB_3: &str = "{\"m\":\"crumb\",\"n\":3}";

#[test]
fn connections_are_followed(rt: HostRuntime) -> Result<(), Fail> {
    let alloc = rt.alloc();
    let whole = framed(alloc, &[HELLO, WAIT, CRUMB_0, READY, IN_SYNC, CRUMB_1])?;
    let short = whole.split_at(whole.len().min(240)).0;
    assert!(rt; follows(alloc, &["follow"], &whole, 0, TEXT, "")?);
    assert!(rt; follows(alloc, &["follow", "--brief"], &whole, 0, BRIEF, "")?);
    assert!(rt;
        follows(
            alloc,
            &["follow"],
            short,
            9,
            FIRST,
            "typha: stream cut 22\n"
        )?
    );
    assert!(rt; follows(alloc, &["follow"], &[], 0, "", "")?);
    Ok(())
}

// Whether a client that follows the frames of these bodies writes this text, and then finds the fault of this note.
fn finds(alloc: Global, bodies: &[&str], text: &str, note: &str) -> Result<bool, NoMemory> {
    let bytes = framed(alloc, bodies)?;
    follows(alloc, &["follow"], &bytes, 6, text, note)
}

const OTHER_HELLO: &str = "{\"m\":\"server_hello\",\"version\":2}";

// The bodies of a connection, what is written before the fault, and its note.
const FOUND: [(&[&str], &str, &str); 5] = [
    (
        &[HELLO, RESYNC, CRUMB_3, CRUMB_3],
        "at 3 resync 0\n",
        "typha: frame 4: crumb 3 after 3\n",
    ),
    (&[HELLO, CRUMB_3], "", "typha: frame 2: out of order\n"),
    (&[OTHER_HELLO], "", "typha: frame 1: version 2\n"),
    (&[HELLO, "oops"], "", "typha: frame 2: not JSON\n"),
    (&["{}"], "", "typha: frame 1: not a message\n"),
];

#[test]
fn faults_of_a_connection_have_their_notes(rt: HostRuntime) -> Result<(), Fail> {
    let alloc = rt.alloc();
    for (bodies, text, note) in FOUND {
        assert!(rt; finds(alloc, bodies, text, note)?, "{note}");
    }
    let long = "typha: frame 1: too long 8388609\n";
    assert!(rt; follows(alloc, &["follow"], &[0, 128, 0, 1], 6, "", long)?);
    Ok(())
}

// Whether a client that follows what is streamed of a feed writes this text.
fn folds(alloc: Global, words: &[&str], feed: &[&str], text: &str) -> Result<bool, NoMemory> {
    let feed = joined(alloc, feed)?;
    let streamed = run(alloc, &["stream"], &feed, GOOD)?;
    let ran = run(alloc, words, &streamed.given, GOOD)?;
    Ok(streamed.status == 0 && came(&ran, 0, text.as_bytes(), ""))
}

// Feeds, and the text of what a client rebuilds of them. An invalid value is none.
const FOLDS: [(&[&str], &str); 7] = [
    (&[], FIRST),
    (&[FEED], TEXT),
    (
        &[READY_LINE, "\n", READY_LINE, "\n"],
        "at 0 wait-for-ready 0\nat 1 wait-for-ready 1\n{\"key\":\"/calico/v1/Ready\",\"value\":\"true\"}\n",
    ),
    (
        &[A, B, A_TWO],
        "at 0 wait-for-ready 0\nat 1 wait-for-ready 2\n{\"key\":\"/calico/v1/config/a\",\"value\":\"\\\"2\\\"\"}\n{\"key\":\"/calico/v1/config/b\",\"value\":\"\\\"1\\\"\"}\n",
    ),
    (
        &[A, NO_A, "\n", B, "\n"],
        "at 0 wait-for-ready 0\nat 1 wait-for-ready 1\n{\"key\":\"/calico/v1/config/b\",\"value\":\"\\\"1\\\"\"}\n",
    ),
    (
        &[ENDPOINT, "\n", BAD_ENDPOINT, "\n"],
        "at 0 wait-for-ready 0\nat 1 wait-for-ready 1\n{\"key\":\"/calico/v1/host/n1/workload/k8s/p1/endpoint/eth0\",\"value\":\"{\\\"ipv4_nets\\\":[\\\"10.0.0.1/32\\\"],\\\"name\\\":\\\"cali1\\\"}\"}\nat 2 wait-for-ready 0\n",
    ),
    (&[BAD_ENDPOINT, "\n"], FIRST),
];

#[test]
fn a_client_rebuilds_the_folds(rt: HostRuntime) -> Result<(), Fail> {
    for (feed, text) in FOLDS {
        assert!(rt; folds(rt.alloc(), &["follow"], feed, text)?, "{text}");
    }
    Ok(())
}

#[test]
fn a_client_rebuilds_larger_feeds(rt: HostRuntime) -> Result<(), Fail> {
    let alloc = rt.alloc();
    let many = lines_up_to(alloc, 101)?;
    let text = "at 0 wait-for-ready 0\nat 1 wait-for-ready 100\nat 2 wait-for-ready 101\n";
    let streamed = run(alloc, &["stream"], &many, GOOD)?;
    let ran = run(alloc, &["follow", "--brief"], &streamed.given, GOOD)?;
    assert!(rt; came(&ran, 0, text.as_bytes(), ""));
    let text =
        "at 0 wait-for-ready 0\nat 1 resync 0\nat 2 in-sync 8\nat 3 in-sync 8\nat 4 in-sync 7\n";
    assert!(rt; folds(alloc, &["follow", "--brief"], &LINES, text)?);
    Ok(())
}
