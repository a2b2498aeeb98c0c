// Feeds and their frames.
use crate::runs::{
    CRUMB_0, CRUMB_1, CRUMB_2, Devices, GOOD, HELLO, IN_SYNC, IN_SYNC_LINE, READY, READY_LINE,
    WAIT, came, framed, run, streams,
};
use std::alloc::Global;
use std::test::Fail;

pub(crate) const A: &str = "{\"key\":\"/calico/v1/config/a\",\"value\":\"1\"}\n";

pub(crate) const A_TWO: &str = "{\"key\":\"/calico/v1/config/a\",\"value\":\"2\"}\n";

pub(crate) const NO_A: &str = "{\"key\":\"/calico/v1/config/a\",\"value\":null}\n";

pub(crate) const B: &str = "{\"key\":\"/calico/v1/config/b\",\"value\":\"1\"}\n";

const NEW_B: &str =
    "{\"kvs\":[{\"key\":\"/calico/v1/config/b\",\"type\":\"new\",\"value\":\"\\\"1\\\"\"}],\"m\":\"kvs\"}";

pub(crate) const ENDPOINT: &str =
    "{\"key\":\"/calico/v1/host/n1/workload/k8s/p1/endpoint/eth0\",\"value\":{\"name\":\"cali1\",\"ipv4_nets\":[\"10.0.0.1/32\"]}}\n";

// A network has at most 32 bits.
pub(crate) const BAD_ENDPOINT: &str =
    "{\"key\":\"/calico/v1/host/n1/workload/k8s/p1/endpoint/eth0\",\"value\":{\"name\":\"cali1\",\"ipv4_nets\":[\"10.0.0.1/33\"]}}\n";

const NEW_A: &str =
    "{\"kvs\":[{\"key\":\"/calico/v1/config/a\",\"type\":\"new\",\"value\":\"\\\"1\\\"\"}],\"m\":\"kvs\"}";

const NEW_BOTH: &str =
    "{\"kvs\":[{\"key\":\"/calico/v1/config/a\",\"type\":\"new\",\"value\":\"\\\"2\\\"\"},{\"key\":\"/calico/v1/config/b\",\"type\":\"new\",\"value\":\"\\\"1\\\"\"}],\"m\":\"kvs\"}";

const UPDATED: &str =
    "{\"kvs\":[{\"key\":\"/calico/v1/config/a\",\"type\":\"updated\",\"value\":\"\\\"2\\\"\"},{\"key\":\"/calico/v1/config/b\",\"type\":\"new\",\"value\":\"\\\"1\\\"\"}],\"m\":\"kvs\"}";

const PUT: &str =
    "{\"kvs\":[{\"key\":\"/calico/v1/host/n1/workload/k8s/p1/endpoint/eth0\",\"type\":\"new\",\"value\":\"{\\\"ipv4_nets\\\":[\\\"10.0.0.1/32\\\"],\\\"name\\\":\\\"cali1\\\"}\"}],\"m\":\"kvs\"}";

const DELETED: &str =
    "{\"kvs\":[{\"key\":\"/calico/v1/host/n1/workload/k8s/p1/endpoint/eth0\",\"type\":\"deleted\"}],\"m\":\"kvs\"}";

// The words, the feed, and the bodies of its frames.
const STREAMED: [(&[&str], &[&str], &[&str]); 14] = [
    (&["stream"], &[], &[HELLO, WAIT, CRUMB_0]),
    (
        &["stream"],
        &[READY_LINE, IN_SYNC_LINE],
        &[HELLO, WAIT, CRUMB_0, READY, IN_SYNC, CRUMB_1],
    ),
    (
        &["stream"],
        &[READY_LINE, "\n", READY_LINE, " \r\t\n"],
        &[HELLO, WAIT, CRUMB_0, READY, CRUMB_1],
    ),
    // A breadcrumb has the changes of its batch.
    (
        &["stream"],
        &[A, B, A_TWO],
        &[HELLO, WAIT, CRUMB_0, NEW_BOTH, CRUMB_1],
    ),
    (
        &["stream"],
        &[A, NO_A, "\n", B, "\n"],
        &[HELLO, WAIT, CRUMB_0, NEW_B, CRUMB_1],
    ),
    // An invalid value is none.
    (
        &["stream"],
        &[ENDPOINT, "\n", BAD_ENDPOINT, "\n"],
        &[HELLO, WAIT, CRUMB_0, PUT, CRUMB_1, DELETED, CRUMB_2],
    ),
    (&["stream"], &[BAD_ENDPOINT, "\n"], &[HELLO, WAIT, CRUMB_0]),
    // The talk begins with the breadcrumb that is asked for.
    (
        &["stream", "--from", "0"],
        &[READY_LINE, IN_SYNC_LINE],
        &[HELLO, WAIT, CRUMB_0, READY, IN_SYNC, CRUMB_1],
    ),
    (
        &["stream", "--from", "1"],
        &[READY_LINE, IN_SYNC_LINE],
        &[HELLO, READY, IN_SYNC, CRUMB_1],
    ),
    (
        &["stream", "--from", "2"],
        &[READY_LINE, IN_SYNC_LINE],
        &[HELLO],
    ),
    (
        &["stream", "--from", "1099511627776"],
        &[READY_LINE, IN_SYNC_LINE],
        &[HELLO],
    ),
    // Later breadcrumbs follow as deltas.
    (
        &["stream", "--from", "1"],
        &[A, IN_SYNC_LINE, A_TWO, B, "\n"],
        &[HELLO, NEW_A, IN_SYNC, CRUMB_1, UPDATED, CRUMB_2],
    ),
    (
        &["stream", "--from", "2"],
        &[A, IN_SYNC_LINE, A_TWO, B, "\n"],
        &[HELLO, NEW_BOTH, IN_SYNC, CRUMB_2],
    ),
    (
        &["stream", "--from", "3"],
        &[A, IN_SYNC_LINE, A_TWO, B, "\n"],
        &[HELLO],
    ),
];

#[test]
fn a_feed_has_the_frames_of_its_breadcrumbs(rt: HostRuntime) -> Result<(), Fail> {
    let alloc = rt.alloc();
    for (place, (words, feed, bodies)) in STREAMED.iter().enumerate() {
        assert!(rt; streams(alloc, words, feed, 0, bodies, "")?, "{place}");
    }
    Ok(())
}

// Appends the line that puts k to key k.
fn append_line(alloc: Global, k: u32, out: &mut Vec<u8>) -> Result<(), Fail> {
    let line = format!(in alloc; "{{\"key\":\"/calico/v1/config/k{k:03}\",\"value\":\"{k}\"}}\n")?;
    out.extend_from_slice(line.as_bytes())?;
    Ok(())
}

// The lines that put 1 to key 1, 2 to key 2 and so on, up to a number.
pub(crate) fn lines_up_to(alloc: Global, most: u32) -> Result<Vec<u8>, Fail> {
    let mut out = Vec::new(alloc);
    for k in 1..=most {
        append_line(alloc, k, &mut out)?;
    }
    Ok(out)
}

// A message that has the keys from one number to another as new.
fn new_keys(alloc: Global, first: u32, last: u32) -> Result<String, Fail> {
    let mut body = String::from_str(alloc, "{\"kvs\":[")?;
    for k in first..=last {
        if k != first {
            body.push_str(",")?;
        }
        let delta = format!(in alloc;
            "{{\"key\":\"/calico/v1/config/k{k:03}\",\"type\":\"new\",\"value\":\"\\\"{k}\\\"\"}}"
        )?;
        body.push_str(delta.as_str())?;
    }
    body.push_str("],\"m\":\"kvs\"}")?;
    Ok(body)
}

#[test]
fn the_101st_update_makes_another_breadcrumb(rt: HostRuntime) -> Result<(), Fail> {
    let alloc = rt.alloc();
    let feed = lines_up_to(alloc, 101)?;
    let first = new_keys(alloc, 1, 100)?;
    let second = new_keys(alloc, 101, 101)?;
    let bodies = [
        HELLO,
        WAIT,
        CRUMB_0,
        first.as_str(),
        CRUMB_1,
        second.as_str(),
        CRUMB_2,
    ];
    let wanted = framed(alloc, &bodies)?;
    let ran = run(alloc, &["stream"], &feed, GOOD)?;
    assert!(rt; came(&ran, 0, &wanted, ""));
    Ok(())
}

#[test]
fn a_snapshot_has_100_deltas_in_a_message(rt: HostRuntime) -> Result<(), Fail> {
    let alloc = rt.alloc();
    let feed = lines_up_to(alloc, 250)?;
    let first = new_keys(alloc, 1, 100)?;
    let second = new_keys(alloc, 101, 200)?;
    let third = new_keys(alloc, 201, 250)?;
    let crumb = "{\"m\":\"crumb\",\"n\":3}";
    let bodies = [
        HELLO,
        first.as_str(),
        second.as_str(),
        third.as_str(),
        WAIT,
        crumb,
    ];
    let wanted = framed(alloc, &bodies)?;
    let ran = run(alloc, &["stream", "--from", "3"], &feed, GOOD)?;
    assert!(rt; came(&ran, 0, &wanted, ""));
    Ok(())
}

// A text of so many times the letter x between two others.
fn with_many(alloc: Global, before: &str, count: usize, after: &str) -> Result<String, Fail> {
    let mut text = String::from_str(alloc, before)?;
    for _ in 0..count {
        text.push_str("x")?;
    }
    text.push_str(after)?;
    Ok(text)
}

const ROOM: Devices = Devices {
    room: 3_000_000,
    ..GOOD
};

// A value of so many letters, and one more line.
fn with_value(alloc: Global, count: usize) -> Result<String, Fail> {
    with_many(
        alloc,
        "{\"key\":\"/calico/v1/config/a\",\"value\":\"",
        count,
        "\"}\n{\"key\":\"/calico/v1/config/b\",\"value\":\"1\"}\n",
    )
}

#[test]
fn the_largest_value_fills_a_message(rt: HostRuntime) -> Result<(), Fail> {
    let alloc = rt.alloc();
    let large = with_many(
        alloc,
        "{\"kvs\":[{\"key\":\"/calico/v1/config/a\",\"type\":\"new\",\"value\":\"\\\"",
        1_048_574,
        "\\\"\"}],\"m\":\"kvs\"}",
    )?;
    let most = [HELLO, WAIT, CRUMB_0, large.as_str(), NEW_B, CRUMB_1];
    let more = [HELLO, WAIT, CRUMB_0, NEW_B, CRUMB_1];
    for (count, bodies) in [(1_048_574usize, most.as_slice()), (1_048_575, &more)] {
        let feed = with_value(alloc, count)?;
        let ran = run(alloc, &["stream"], feed.as_bytes(), ROOM)?;
        assert!(rt; came(&ran, 0, &framed(alloc, bodies)?, ""), "{count}");
    }
    Ok(())
}
