// Outside vectors, pieces, and sources and sinks that fail.
use std::alloc::Global;
use std::test::Fail;
use ty_base::{MemSink, MemSource, Text};
use ty_client::{FollowFault, Rebuild, StreamFault, follow};
use ty_wire::WireFault;

// A server hello, crumb 0 with `wait-for-ready`, and crumb 1 with one pair and `in-sync`.
const READY: &[u8] =
    b"\x00\x00\x00 {\"m\":\"server_hello\",\"version\":1}\x00\x00\x00({\"m\":\"status\",\"status\":\"wait-for-ready\"}\x00\x00\x00\x13{\"m\":\"crumb\",\"n\":0}\x00\x00\x00J{\"kvs\":[{\"key\":\"/calico/v1/Ready\",\"type\":\"new\",\"value\":\"true\"}],\"m\":\"kvs\"}\x00\x00\x00!{\"m\":\"status\",\"status\":\"in-sync\"}\x00\x00\x00\x13{\"m\":\"crumb\",\"n\":1}";

// Where its frames end.
const READY_ENDS: [usize; 7] = [0, 36, 80, 103, 181, 218, 241];

const HELLO: &str = r#"{"m":"server_hello","version":1}"#;

const RESYNC: &str = r#"{"m":"status","status":"resync"}"#;

const CRUMB_3: &str = r#"{"m":"crumb","n":3}"#;

const NEW_A: &str = r#"{"kvs":[{"key":"a","type":"new","value":"1"}],"m":"kvs"}"#;

const NEW_B: &str = r#"{"kvs":[{"key":"b","type":"new","value":"2"}],"m":"kvs"}"#;

const NO_A: &str = r#"{"kvs":[{"key":"a","type":"deleted"}],"m":"kvs"}"#;

// The frames of a realistic feed.
const REALISTIC: [&str; 12] = [
    r#"{"m":"server_hello","version":1}"#,
    r#"{"m":"status","status":"wait-for-ready"}"#,
    r#"{"m":"crumb","n":0}"#,
    r#"{"m":"status","status":"resync"}"#,
    r#"{"m":"crumb","n":1}"#,
    r#"{"kvs":[{"key":"/calico/v1/Ready","type":"new","value":"true"},{"key":"/calico/v1/config/LogSeverityScreen","type":"new","value":"\"Info\""},{"key":"/calico/v1/host/node-1/bird_ip","type":"new","value":"\"192.168.10.1\""},{"key":"/calico/v1/host/node-2/bird_ip","type":"new","value":"\"192.168.10.2\""},{"key":"/calico/v1/host/node-1/workload/k8s/default%2fweb-1/endpoint/eth0","type":"new","value":"{\"ipv4_nets\":[\"10.244.1.5/32\"],\"labels\":{\"app\":\"web\"},\"mac\":\"ee:ee:ee:ee:ee:ee\",\"name\":\"cali0a1b2c3d4e5\",\"profile_ids\":[\"kns.default\"],\"state\":\"active\"}"},{"key":"/calico/v1/policy/tier/default/policy/allow-web","type":"new","value":"{\"inbound_rules\":[{\"action\":\"allow\",\"dst_ports\":[80,\"8000:8080\"],\"protocol\":\"tcp\",\"src_selector\":\"role == 'client'\"}],\"order\":100,\"outbound_rules\":[{\"action\":\"allow\"}],\"selector\":\"app == 'web'\",\"types\":[\"ingress\",\"egress\"]}"},{"key":"/calico/v1/policy/profile/kns.default/labels","type":"new","value":"{\"pcns.name\":\"default\"}"},{"key":"/calico/v1/ipam/v4/pool/10.244.0.0-16","type":"new","value":"{\"cidr\":\"10.244.0.0/16\",\"masquerade\":true}"}],"m":"kvs"}"#,
    r#"{"m":"status","status":"in-sync"}"#,
    r#"{"m":"crumb","n":2}"#,
    r#"{"kvs":[{"key":"/calico/v1/host/node-1/workload/k8s/default%2fweb-1/endpoint/eth0","type":"deleted"},{"key":"/calico/v1/host/node-2/workload/k8s/default%2fweb-1/endpoint/eth0","type":"new","value":"{\"ipv4_nets\":[\"10.244.2.7/32\"],\"labels\":{\"app\":\"web\"},\"mac\":\"ee:ee:ee:ee:ee:ee\",\"name\":\"cali0a1b2c3d4e5\",\"profile_ids\":[\"kns.default\"],\"state\":\"active\"}"}],"m":"kvs"}"#,
    r#"{"m":"crumb","n":3}"#,
    r#"{"kvs":[{"key":"/calico/v1/host/node-2/workload/k8s/default%2fweb-1/endpoint/eth0","type":"deleted"}],"m":"kvs"}"#,
    r#"{"m":"crumb","n":4}"#,
];

fn framed(alloc: Global, bodies: &[&str]) -> Result<Vec<u8>, Fail> {
    let mut out = Vec::new(alloc);
    for body in bodies {
        out.extend_from_slice(&[
            0,
            0,
            (body.len() / 256 % 256) as u8,
            (body.len() % 256) as u8,
        ])?;
        out.extend_from_slice(body.as_bytes())?;
    }
    Ok(out)
}

// What follows from bytes in pieces of a size, where these calls of the source and the sink fail.
fn followed(
    alloc: Global,
    brief: bool,
    bytes: &[u8],
    size: usize,
    source_fails: Vec<u64>,
    sink_fails: Vec<u64>,
) -> Result<(Vec<u8>, Result<(), FollowFault>), Fail> {
    let mut pieces = Vec::new(alloc);
    for piece in bytes.chunks(size.max(1)) {
        pieces.push(piece.to_vec(alloc)?)?;
    }
    let mut source = MemSource::new(alloc, pieces, source_fails)?;
    let mut sink = MemSink::new(alloc, 65_536, sink_fails)?;
    let result = follow(alloc, brief, &mut source, &mut sink);
    Ok((sink.given().to_vec(alloc)?, result))
}

fn whole(
    alloc: Global,
    brief: bool,
    bytes: &[u8],
    size: usize,
) -> Result<(Vec<u8>, Result<(), FollowFault>), Fail> {
    followed(alloc, brief, bytes, size, Vec::new(alloc), Vec::new(alloc))
}

// Whether the bytes, in large and small pieces, bring this text and come to this.
fn comes_to(
    alloc: Global,
    brief: bool,
    bytes: &[u8],
    text: &str,
    wanted: Result<(), FollowFault>,
) -> Result<bool, Fail> {
    let mut good = true;
    for size in [1usize, 7, 65_536] {
        let (given, came) = whole(alloc, brief, bytes, size)?;
        good = good && given.as_slice() == text.as_bytes() && came == wanted;
    }
    Ok(good)
}

// The same, for the frames of bodies.
fn bodies_come_to(
    alloc: Global,
    bodies: &[&str],
    text: &str,
    wanted: Result<(), FollowFault>,
) -> Result<bool, Fail> {
    let bytes = framed(alloc, bodies)?;
    comes_to(alloc, false, &bytes, text, wanted)
}

#[test]
fn text_of_each_crumb_end(rt: HostRuntime) -> Result<(), Fail> {
    let alloc = rt.alloc();
    let both = "at 0 wait-for-ready 0\nat 1 in-sync 1\n";
    let pairs =
        "at 0 wait-for-ready 0\nat 1 in-sync 1\n{\"key\":\"/calico/v1/Ready\",\"value\":\"true\"}\n";
    assert!(rt; comes_to(alloc, false, READY, pairs, Ok(()))?);
    assert!(rt; comes_to(alloc, true, READY, both, Ok(()))?);
    assert!(rt; comes_to(alloc, false, b"", "", Ok(()))?);
    let changed = &[HELLO, NEW_A, NEW_B, NO_A, RESYNC, CRUMB_3];
    let text = "at 3 resync 1\n{\"key\":\"b\",\"value\":\"2\"}\n";
    assert!(rt; bodies_come_to(alloc, changed, text, Ok(()))?);
    Ok(())
}

#[test]
fn faults_of_the_wire(rt: HostRuntime) -> Result<(), Fail> {
    let alloc = rt.alloc();
    let cut = READY.split_at(READY.len().min(240)).0;
    let left = Err(FollowFault::Cut { left: 22 });
    assert!(rt; comes_to(alloc, false, cut, "at 0 wait-for-ready 0\n", left)?);
    let long = WireFault::TooLong {
        frame: 1,
        len: 8_388_609,
    };
    let fault = Err(FollowFault::Stream(StreamFault::Wire(long)));
    assert!(rt; comes_to(alloc, false, b"\x00\x80\x00\x01", "", fault)?);
    Ok(())
}

#[test]
fn messages_out_of_their_places(rt: HostRuntime) -> Result<(), Fail> {
    let alloc = rt.alloc();
    let again = Err(FollowFault::Stream(StreamFault::NotRising {
        frame: 4,
        had: 3,
        found: 3,
    }));
    let twice = &[HELLO, RESYNC, CRUMB_3, CRUMB_3];
    assert!(rt; bodies_come_to(alloc, twice, "at 3 resync 0\n", again)?);
    let second = Err(FollowFault::Stream(StreamFault::Order { frame: 2 }));
    assert!(rt; bodies_come_to(alloc, &[HELLO, CRUMB_3, CRUMB_3], "", second)?);
    let third = Err(FollowFault::Stream(StreamFault::Order { frame: 3 }));
    assert!(rt; bodies_come_to(alloc, &[HELLO, RESYNC, NEW_A], "", third)?);
    Ok(())
}

#[test]
fn a_realistic_stream_in_any_pieces(rt: HostRuntime) -> Result<(), Fail> {
    let alloc = rt.alloc();
    let bytes = framed(alloc, &REALISTIC)?;
    assert_eq!(rt; bytes.len(), 1941);
    let text =
        "at 0 wait-for-ready 0\nat 1 resync 0\nat 2 in-sync 8\nat 3 in-sync 8\nat 4 in-sync 7\n";
    for size in [1usize, 1000, 65_536] {
        let (given, came) = whole(alloc, true, &bytes, size)?;
        assert_eq!(rt; given.as_slice(), text.as_bytes());
        assert_eq!(rt; came, Ok(()));
    }
    let (one, _) = whole(alloc, false, &bytes, 1)?;
    let (all, _) = whole(alloc, false, &bytes, 65_536)?;
    assert_eq!(rt; one.as_slice(), all.as_slice());
    Ok(())
}

#[test]
fn an_end_inside_a_frame_is_cut(rt: HostRuntime) -> Result<(), Fail> {
    let alloc = rt.alloc();
    let mut frame_end = 0usize;
    for len in 0..READY.len() {
        if READY_ENDS.contains(&len) {
            frame_end = len;
        }
        let wanted = match len.saturating_sub(frame_end) {
            0 => Ok(()),
            left => Err(FollowFault::Cut { left: left as u64 }),
        };
        let (_, came) = whole(alloc, true, READY.split_at(len).0, 100)?;
        assert_eq!(rt; came, wanted);
    }
    Ok(())
}

#[test]
fn a_source_or_a_sink_fails_at_each_call(rt: HostRuntime) -> Result<(), Fail> {
    let alloc = rt.alloc();
    let (text, _) = whole(alloc, false, READY, 100)?;
    for call in 1..5u64 {
        let fails = vec![in alloc; call]?;
        let (given, came) = followed(alloc, false, READY, 100, fails, Vec::new(alloc))?;
        assert!(rt; text.starts_with(&given));
        assert_eq!(rt; came, Err(FollowFault::Read));
    }
    for call in 1..3u64 {
        let fails = vec![in alloc; call]?;
        let (given, came) = followed(alloc, false, READY, 100, Vec::new(alloc), fails)?;
        assert!(rt; text.starts_with(&given));
        assert_eq!(rt; came, Err(FollowFault::Write));
    }
    Ok(())
}

// Feeds the frames of bodies, and tells how many crumb ends they brought, and their fault.
fn fed(
    alloc: Global,
    rebuild: &mut Rebuild,
    bodies: &[&str],
) -> Result<(usize, Option<StreamFault>), Fail> {
    let bytes = framed(alloc, bodies)?;
    let heard = rebuild.feed(alloc, &bytes)?;
    Ok((heard.ats.len(), heard.fault))
}

// How many pairs are held.
fn held(rebuild: &Rebuild) -> Option<usize> {
    rebuild.held().map(|at| at.pairs.len())
}

#[test]
fn a_hello_and_a_pong_go_up(rt: HostRuntime) -> Result<(), Fail> {
    let alloc = rt.alloc();
    let mut rebuild = Rebuild::new(alloc);
    let host = Text::of(alloc, "n1")?;
    rebuild.hello(alloc, &host)?;
    let hello = framed(alloc, &[r#"{"host":"n1","m":"client_hello","version":1}"#])?;
    assert!(rt; rebuild.up() == hello.as_slice());
    rebuild.up_given(rebuild.up().len().min(3));
    assert_eq!(rt; rebuild.up().len(), 45);
    let ping = &[HELLO, RESYNC, CRUMB_3, r#"{"m":"ping","ts":7}"#];
    assert_eq!(rt; fed(alloc, &mut rebuild, ping)?, (1, None));
    let pong = framed(alloc, &[r#"{"m":"pong","ts":7}"#])?;
    assert!(rt; rebuild.up().ends_with(&pong));
    Ok(())
}

// A connection with deltas behind its crumb 3, and one that ends at it.
const FIRST: [&str; 5] = [HELLO, NEW_A, RESYNC, CRUMB_3, NEW_B];

const SECOND: [&str; 4] = [HELLO, NEW_B, RESYNC, CRUMB_3];

#[test]
fn what_is_held_outlasts_its_connection(rt: HostRuntime) -> Result<(), Fail> {
    let alloc = rt.alloc();
    let mut rebuild = Rebuild::new(alloc);
    assert_eq!(rt; held(&rebuild), None);
    assert_eq!(rt; fed(alloc, &mut rebuild, &FIRST)?, (1, None));
    rebuild.lost();
    assert_eq!(rt; held(&rebuild), Some(1));
    Ok(())
}

// What bodies bring, and how many pairs are held then.
fn fed_and_held(
    alloc: Global,
    rebuild: &mut Rebuild,
    bodies: &[&str],
) -> Result<(usize, Option<StreamFault>, Option<usize>), Fail> {
    let (ats, fault) = fed(alloc, rebuild, bodies)?;
    Ok((ats, fault, held(rebuild)))
}

#[test]
fn one_connection_after_another(rt: HostRuntime) -> Result<(), Fail> {
    let alloc = rt.alloc();
    let mut rebuild = Rebuild::new(alloc);
    fed(alloc, &mut rebuild, &FIRST)?;
    rebuild.feed(alloc, b"\x00\x00")?;
    assert_eq!(rt; rebuild.left(), 2);
    rebuild.lost();
    let fault = Some(StreamFault::Order { frame: 5 });
    for wanted in [(1, None, Some(1)), (0, fault, Some(1)), (0, fault, Some(1))] {
        assert_eq!(rt; fed_and_held(alloc, &mut rebuild, &SECOND)?, wanted);
    }
    Ok(())
}

// What is wrong with a frame.
#[derive(Clone, Copy)]
enum Hurt {
    // Its length is above the limit.
    TooLong,
    // Its body is no JSON.
    NotJson,
    // Its body has a space that no message's spelling has.
    Spaced,
    // Its message has no place at all.
    Misplaced,
}

const HURTS: [Hurt; 4] = [Hurt::TooLong, Hurt::NotJson, Hurt::Spaced, Hurt::Misplaced];

// The frame of a body with another beginning.
fn begun(alloc: Global, start: &str, body: &str) -> Result<Vec<u8>, Fail> {
    let mut text = String::new(alloc);
    text.push_str(start)?;
    text.push_str(body.strip_prefix("{").unwrap_or(body))?;
    framed(alloc, &[&text])
}

fn hurt_frame(alloc: Global, body: &str, hurt: Hurt) -> Result<Vec<u8>, Fail> {
    match hurt {
        Hurt::TooLong => Ok(b"\x00\x80\x00\x01".to_vec(alloc)?),
        Hurt::NotJson => begun(alloc, "}", body),
        Hurt::Spaced => begun(alloc, "{ ", body),
        Hurt::Misplaced => framed(alloc, &[r#"{"m":"pong","ts":1}"#]),
    }
}

fn fault_of(hurt: Hurt, frame: u64) -> StreamFault {
    match hurt {
        Hurt::TooLong => StreamFault::Wire(WireFault::TooLong {
            frame,
            len: 8_388_609,
        }),
        Hurt::NotJson => StreamFault::Wire(WireFault::NotJson { frame }),
        Hurt::Spaced => StreamFault::Wire(WireFault::Shape { frame }),
        Hurt::Misplaced => StreamFault::Order { frame },
    }
}

// Whether bytes with a hurt frame behind good ones bring the text of the good ones, and name the
// hurt one.
fn hurt_shows(
    alloc: Global,
    before: &[&str],
    body: &str,
    after: &[&str],
    hurt: Hurt,
) -> Result<bool, Fail> {
    let mut bytes = framed(alloc, before)?;
    let (text, _) = whole(alloc, false, &bytes, 65_536)?;
    bytes.extend_from_slice(&hurt_frame(alloc, body, hurt)?)?;
    bytes.extend_from_slice(&framed(alloc, after)?)?;
    let (given, came) = whole(alloc, false, &bytes, 1000)?;
    let fault = fault_of(hurt, (before.len() as u64).saturating_add(1));
    Ok(given == text && came == Err(FollowFault::Stream(fault)))
}

#[test]
fn each_hurt_frame_of_a_realistic_stream_is_named(rt: HostRuntime) -> Result<(), Fail> {
    let alloc = rt.alloc();
    for i in 0..REALISTIC.len() {
        let (before, rest) = REALISTIC.split_at(i);
        let Some((body, after)) = rest.split_first() else {
            continue;
        };
        for hurt in HURTS {
            assert!(rt; hurt_shows(alloc, before, body, after, hurt)?);
        }
    }
    Ok(())
}
