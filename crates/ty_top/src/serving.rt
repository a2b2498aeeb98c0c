// The mode `serve`.
ghost use Rattle.std.specs.Prelude.{◌≡◌, ◌≤◌, ◌<◌, length};
ghost use Rattle.ty_top.specs.Serving.{Serves, feed_end as feed_end_of, serve_end};

use crate::link_ending::ServeEnd;
use std::alloc::Global;
use std::sync::Wait;
use std::thread::Threads;
use ty_base::{Clock, Door, Source};
use ty_feed::FeedEnd;
use ty_server::{Served, serve};

// Serves the source's feed at the doors.
pub(crate) fn serve_source<
    R: Threads + Wait + Sync,
    S: Source + Send,
    D: Door + Send + Drop,
    C: Clock + Sync,
>(rt: &R, alloc: Global, source: &mut S, doors: &mut Vec<D>, clock: &C) -> ServeEnd
    requires some { 0 < length doors.old.items }
    requires few { length doors.old.items ≤ 64 }
    ensures serves { Serves D.gave D.got D.count D.sight D.Link.sight D.Link.count (C.gives clock.now) result
        (S.seen source.old) (S.seen source.new) doors.old.items doors.new.items }
    ensures reads { (S.seen source.old).faults ≤ (S.seen source.new).faults }
{
    match serve(rt, alloc, source, doors, clock) {
        Ok(served) => ended_by(&served),
        Err(_) => ServeEnd::Memory,
    }
}

// Want of memory at a connection comes first.
fn ended_by(served: &Served) -> ServeEnd
    ensures { result ≡ serve_end served.now }
{
    if served.short > 0 {
        return ServeEnd::Memory;
    }
    feed_end(served.feed, served.door)
}

fn feed_end(feed: FeedEnd, door: Option<u64>) -> ServeEnd
    ensures { result ≡ feed_end_of feed door }
{
    match (feed, door) {
        (FeedEnd::Done, None) => ServeEnd::Done,
        (FeedEnd::Done, Some(_)) => ServeEnd::Door,
        (FeedEnd::Fault(fault), _) => ServeEnd::Fault(fault),
        (FeedEnd::Read, _) => ServeEnd::Read,
        (FeedEnd::NoMemory, _) => ServeEnd::Memory,
    }
}
