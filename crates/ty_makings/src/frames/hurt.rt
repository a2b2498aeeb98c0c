// Frames that are no message's, each behind a good one, and lengths at the limit.
use super::framed;
use std::alloc::Global;
use std::test::Fail;
use ty_base::NoMemory;
use ty_wire::{Frames, WireFault};

const NOT_JSON: [&[u8]; 11] = [
    b"",
    b"oops",
    b"01",
    br#"{"m":"crumb","n":01}"#,
    b"{\"m\":\"\xff\"}",
    br#""\ud800""#,
    br#"{"m":"ping","ts":1}x"#,
    br#"{"m":"ping","ts":1"#,
    b"{\"kvs\":[{\"key\":\"k\",\"type\":\"new\",\"value\":\"\xff\"}],\"m\":\"kvs\"}",
    b"{\"kvs\":[{\"key\":\"k\x1f\",\"type\":\"new\",\"value\":\"\"}],\"m\":\"kvs\"}",
    br#"{"kvs":[{"key":"k","type":"new","value":"v\"}],"m":"kvs"}"#,
];

const SHAPE: [&[u8]; 28] = [
    b"{}",
    b"7",
    br#"{"n":1,"m":"crumb"}"#,
    br#"{"m":"crumb","n":1.0}"#,
    br#"{"m":"crumb","n":-1}"#,
    br#"{"m":"ping","ts":18446744073709551616}"#,
    br#"{"m":"ping","ts":1} "#,
    br#"{"m":"ping","m":"ping","ts":1}"#,
    br#"{"m":"ping","ts":1,"x":1}"#,
    br#"{"m":"status","status":"ready"}"#,
    br#"{"host":"\u0041","m":"client_hello","version":1}"#,
    br#"{"host":"\/","m":"client_hello","version":1}"#,
    br#"{"host":"\u001F","m":"client_hello","version":1}"#,
    br#"{"kvs":[],"m":"kvs"}"#,
    br#"{"kvs":[{"key":"k","type":"new"}],"m":"kvs"}"#,
    br#"{"kvs":[{"key":"k","type":"deleted","value":""}],"m":"kvs"}"#,
    br#"{"kvs":[{"key":"k","type":"old","value":""}],"m":"kvs"}"#,
    br#"{"kvs":[{"key":"\u0041","type":"new","value":""}],"m":"kvs"}"#,
    br#"{"kvs":[{"key":"\/","type":"new","value":""}],"m":"kvs"}"#,
    br#"{"kvs":[{"key":"k","type":"new","value":"\u001F"}],"m":"kvs"}"#,
    br#"{"kvs":[{"key":"k","type":"new","value":"a value of \u000a lines"}],"m":"kvs"}"#,
    br#"{"kvs":[{"key":"k","type":"new","value":"\u007f"}],"m":"kvs"}"#,
    br#"{"kvs":[{"key":"k","type":"n\u0065w","value":""}],"m":"kvs"}"#,
    br#"{"kvs":[{"key":"k","type":"new","value":""} ],"m":"kvs"}"#,
    br#"{"kvs":[{"key":"k","type":"new","value":""}],"m":"kvs"} "#,
    br#"{"kvs":[{"key":"k","key":"k","type":"new","value":""}],"m":"kvs"}"#,
    br#"{"kvs":[{"key":"k","type":"new","value":""}],"m":"kvs","m":"kvs"}"#,
    br#"{"m":"kvs","kvs":[{"key":"k","type":"new","value":""}]}"#,
];

// What a second frame with this body brings, behind a ping.
fn fault_of(alloc: Global, body: &[u8]) -> Result<(usize, Option<WireFault>), NoMemory> {
    let bytes = framed(alloc, &[br#"{"m":"ping","ts":1}"#.as_slice(), body])?;
    let mut frames = Frames::new(alloc);
    let mut count = 0usize;
    let mut fault = None;
    for piece in bytes.chunks(7) {
        let got = frames.feed(alloc, piece)?;
        count = count.saturating_add(got.msgs.len());
        fault = got.fault;
    }
    Ok((count, fault))
}

// The number of the first body that doesn't bring this fault.
fn first_other(
    alloc: Global,
    bodies: &[&[u8]],
    fault: WireFault,
) -> Result<Option<usize>, NoMemory> {
    for (i, body) in bodies.iter().enumerate() {
        if fault_of(alloc, body)? != (1, Some(fault)) {
            return Ok(Some(i));
        }
    }
    Ok(None)
}

fn nested(alloc: Global, depth: usize) -> Result<Vec<u8>, NoMemory> {
    let mut out = Vec::new(alloc);
    for _ in 0..depth {
        out.push(b'[')?;
    }
    for _ in 0..depth {
        out.push(b']')?;
    }
    Ok(out)
}

#[test]
fn bodies_that_are_no_json(rt: HostRuntime) -> Result<(), Fail> {
    let alloc = rt.alloc();
    let other = first_other(alloc, &NOT_JSON, WireFault::NotJson { frame: 2 })?;
    assert_eq!(rt; other, None);
    let deeper = nested(alloc, 128)?;
    let other = first_other(alloc, &[deeper.as_slice()], WireFault::NotJson { frame: 2 })?;
    assert_eq!(rt; other, None);
    Ok(())
}

#[test]
fn bodies_that_are_no_message(rt: HostRuntime) -> Result<(), Fail> {
    let alloc = rt.alloc();
    let other = first_other(alloc, &SHAPE, WireFault::Shape { frame: 2 })?;
    assert_eq!(rt; other, None);
    let deepest = nested(alloc, 127)?;
    let other = first_other(alloc, &[deepest.as_slice()], WireFault::Shape { frame: 2 })?;
    assert_eq!(rt; other, None);
    Ok(())
}

const LONG: Option<WireFault> = Some(WireFault::TooLong {
    frame: 1,
    len: 8_388_609,
});

// Pieces one after another, and what the last one brings: how many messages, a fault, and how many bytes wait.
const LENGTHS: [(&[&[u8]], (usize, Option<WireFault>, u64)); 4] = [
    (&[b"\x00\x80\x00"], (0, None, 3)),
    (&[b"\x00\x80\x00", b"\x01"], (0, LONG, 0)),
    (
        &[
            b"\x00\x80\x00\x01",
            b"\x00\x00\x00\x13{\"m\":\"crumb\",\"n\":1}",
        ],
        (0, LONG, 0),
    ),
    (&[b"\x00\x80\x00\x00"], (0, None, 4)),
];

// What the last piece brings.
fn brought(alloc: Global, pieces: &[&[u8]]) -> Result<(usize, Option<WireFault>, u64), NoMemory> {
    let mut frames = Frames::new(alloc);
    let mut last = (0, None);
    for piece in pieces {
        let got = frames.feed(alloc, piece)?;
        last = (got.msgs.len(), got.fault);
    }
    Ok((last.0, last.1, frames.left()))
}

#[test]
fn lengths_at_the_limit(rt: HostRuntime) -> Result<(), Fail> {
    let alloc = rt.alloc();
    for (pieces, wanted) in LENGTHS {
        assert_eq!(rt; brought(alloc, pieces)?, wanted);
    }
    Ok(())
}
