// A feed that is served at doors in memory.
use crate::{FeedEnd, serve};
use std::alloc::Global;
use std::sync::Wait;
use std::test::Fail;
use std::thread::Threads;
use ty_account::front_count;
use ty_base::{MemDoor, MemSource, NoMemory, SetClock};

// How a feed ends that is served at one door without connections, whose accept number `fails` fails.
fn serve_nobody<R: Threads + Wait + Sync>(
    rt: &R,
    alloc: Global,
    fails: u64,
) -> Result<(FeedEnd, Option<u64>, u64), NoMemory> {
    let feed = "{\"key\":\"/calico/v1/Ready\",\"value\":true}\n{\"status\":\"in-sync\"}\n";
    let mut pieces = Vec::new(alloc);
    pieces.push(feed.as_bytes().to_vec(alloc)?)?;
    let mut source = MemSource::new(alloc, pieces, Vec::new(alloc))?;
    let mut failing = Vec::new(alloc);
    failing.push(fails)?;
    let mut doors = Vec::new(alloc);
    doors.push(MemDoor::new(alloc, Vec::new(alloc), failing)?)?;
    let served = serve(rt, alloc, &mut source, &mut doors, &SetClock::new(0))?;
    Ok((served.feed, served.door, front_count(&served.front)))
}

#[test]
fn a_feed_is_read_to_its_end_also_where_a_door_fails(rt: HostRuntime) -> Result<(), Fail> {
    assert_eq!(rt;
        serve_nobody(&rt, rt.alloc(), 9),
        Ok((FeedEnd::Done, None, 1))
    );
    assert_eq!(rt;
        serve_nobody(&rt, rt.alloc(), 1),
        Ok((FeedEnd::Done, Some(0), 1))
    );
    Ok(())
}
