// Workers serve at the same time, and give deltas before the feed's end.
use crate::gates::{GateDoor, GateSource, Gates};
use crate::{FeedEnd, serve};
use once_cell::race::OnceBool;
use std::test::Fail;
use ty_base::{SetClock, Source};

// The whole talks of the feed with a client that enters at breadcrumb 0, and with one that enters at 1.
const FROM_0: &[u8] =
    b"\x00\x00\x00 {\"m\":\"server_hello\",\"version\":1}\x00\x00\x00({\"m\":\"status\",\"status\":\"wait-for-ready\"}\x00\x00\x00\x13{\"m\":\"crumb\",\"n\":0}\x00\x00\x00J{\"kvs\":[{\"key\":\"/calico/v1/Ready\",\"type\":\"new\",\"value\":\"true\"}],\"m\":\"kvs\"}\x00\x00\x00\x13{\"m\":\"crumb\",\"n\":1}\x00\x00\x00!{\"m\":\"status\",\"status\":\"in-sync\"}\x00\x00\x00\x13{\"m\":\"crumb\",\"n\":2}";

const FROM_1: &[u8] =
    b"\x00\x00\x00 {\"m\":\"server_hello\",\"version\":1}\x00\x00\x00J{\"kvs\":[{\"key\":\"/calico/v1/Ready\",\"type\":\"new\",\"value\":\"true\"}],\"m\":\"kvs\"}\x00\x00\x00({\"m\":\"status\",\"status\":\"wait-for-ready\"}\x00\x00\x00\x13{\"m\":\"crumb\",\"n\":1}\x00\x00\x00!{\"m\":\"status\",\"status\":\"in-sync\"}\x00\x00\x00\x13{\"m\":\"crumb\",\"n\":2}";

#[test]
fn two_clients_are_served_at_once_while_the_feed_goes_on(rt: HostRuntime) -> Result<(), Fail> {
    let alloc = rt.alloc();
    let (some, two) = (
        [OnceBool::new(), OnceBool::new()],
        [OnceBool::new(), OnceBool::new()],
    );
    let gates = Gates {
        rt: &rt,
        some: &some,
        two: &two,
    };
    let mut source = GateSource::new(&gates);
    let mut doors = Vec::new(alloc);
    doors.push(GateDoor::new(alloc, &gates, 0))?;
    doors.push(GateDoor::new(alloc, &gates, 1))?;
    let served = serve(&rt, alloc, &mut source, &mut doors, &SetClock::new(0))?;
    assert_eq!(rt;
        (served.feed, served.door, served.short),
        (FeedEnd::Done, None, 0)
    );
    assert_eq!(rt; source.faults(), 0);
    for door in &doors {
        let given = door.given();
        assert!(rt; given == Some(FROM_0) || given == Some(FROM_1));
    }
    Ok(())
}
