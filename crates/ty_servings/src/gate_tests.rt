// Two clients are served at the same time, and are given each breadcrumb before the feed goes on.
use crate::frames::{CRUMB_0, CRUMB_1, CRUMB_2, HELLO, IN_SYNC, READY, WAIT, framed};
use crate::gates::{GateDoor, GateSource, Gates};
use crate::tops::run_top;
use once_cell::race::OnceBool;
use std::test::Fail;
use ty_base::{MemSink, SetClock, Source};

#[test]
fn two_clients_are_served_at_once_while_the_feed_goes_on(rt: HostRuntime) -> Result<(), Fail> {
    let alloc = rt.alloc();
    let (some, two) = (
        [OnceBool::new(), OnceBool::new()],
        [OnceBool::new(), OnceBool::new()],
    );
    let gates = Gates {
        rt: &rt,
        some: &some,
        two: &two,
    };
    let mut source = GateSource::new(&gates);
    let mut sink = MemSink::new(alloc, 0, Vec::new(alloc))?;
    let mut doors = Vec::new(alloc);
    doors.push(GateDoor::new(alloc, &gates, 0))?;
    doors.push(GateDoor::new(alloc, &gates, 1))?;
    let mut dial = GateDoor::new(alloc, &gates, 2);
    let clock = SetClock::new(0);
    let words = ["serve", "--at", "x", "--workers", "2"];
    let told = run_top(
        &rt,
        alloc,
        &words,
        &mut source,
        &mut sink,
        &mut doors,
        &mut dial,
        &clock,
    )?;
    assert_eq!(rt; told.status, 0);
    assert!(rt; told.notes.is_empty());
    assert_eq!(rt; source.faults(), 0);
    let from_0 = framed(
        alloc,
        &[HELLO, WAIT, CRUMB_0, READY, CRUMB_1, IN_SYNC, CRUMB_2],
    )?;
    let from_1 = framed(alloc, &[HELLO, READY, WAIT, CRUMB_1, IN_SYNC, CRUMB_2])?;
    for door in &doors {
        let given = door.given().unwrap_or(b"none");
        assert!(rt; given == from_0.as_slice() || given == from_1.as_slice());
    }
    Ok(())
}
