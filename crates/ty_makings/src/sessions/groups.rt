// Groups and snapshots whose deltas are cut into several messages.
use super::{HELLO, give_all, joined, made_of};
use std::alloc::Global;
use std::test::Fail;
use ty_base::{Item, NoMemory, Status, Text, print_u64, status_text};
use ty_crumb::Crumb;
use ty_session::Session;
use ty_wire::{Frames, Msg};

fn put(alloc: Global, key: &str, number: u64) -> Result<Item, NoMemory> {
    let mut name = Vec::from_slice(alloc, key.as_bytes())?;
    print_u64(number, &mut name)?;
    let Ok(key) = Text::read(alloc, &name) else {
        return Err(NoMemory);
    };
    Ok(Item::Put {
        key,
        value: Text::of(alloc, "true")?,
    })
}

// The breadcrumb of `count` new keys and a status.
fn grown(
    alloc: Global,
    last: &Crumb,
    key: &str,
    count: u64,
    status: Status,
) -> Result<Crumb, NoMemory> {
    let mut items = Vec::new(alloc);
    for number in 0..count {
        items.push(put(alloc, key, number)?)?;
    }
    items.push(Item::State(status))?;
    made_of(alloc, last, &items)
}

fn tell(word: &str, number: u64, out: &mut Vec<u8>) -> Result<(), NoMemory> {
    out.extend_from_slice(word.as_bytes())?;
    print_u64(number, out)?;
    out.push(b' ')?;
    Ok(())
}

fn tell_message(msg: &Msg, out: &mut Vec<u8>) -> Result<(), NoMemory> {
    match msg {
        Msg::ServerHello { version } => tell("hello ", *version, out),
        Msg::Kvs(deltas) => tell("kvs ", deltas.len() as u64, out),
        Msg::Status(status) => {
            out.extend_from_slice(status_text(*status).as_bytes())?;
            out.push(b' ')?;
            Ok(())
        }
        Msg::Crumb { n } => tell("crumb ", *n, out),
        Msg::Ping { ts } => tell("ping ", *ts, out),
        _ => Ok(()),
    }
}

// Tells the messages that are queued, in words, and gives their bytes.
fn tell_queued(alloc: Global, session: &mut Session, out: &mut Vec<u8>) -> Result<(), NoMemory> {
    let got = Frames::new(alloc).feed(alloc, session.out())?;
    for msg in got.msgs.as_slice() {
        tell_message(msg, out)?;
    }
    out.extend_from_slice(b"| ")?;
    give_all(session);
    Ok(())
}

// What is told of breadcrumbs that are offered at 100, and then where there is no next one.
fn told_of(alloc: Global, session: &mut Session, crumbs: &[Crumb]) -> Result<Vec<u8>, NoMemory> {
    let mut out = Vec::new(alloc);
    for crumb in crumbs {
        if session.offer(alloc, crumb, 100).is_err() {
            return Err(NoMemory);
        }
        tell_queued(alloc, session, &mut out)?;
    }
    session.idle(alloc)?;
    tell_queued(alloc, session, &mut out)?;
    Ok(out)
}

// Three breadcrumbs of 60, 60 and 99 new keys.
fn grown_crumbs(alloc: Global, first: &Crumb) -> Result<Vec<Crumb>, NoMemory> {
    let one = grown(alloc, first, "a", 60, Status::Resync)?;
    let two = grown(alloc, &one, "b", 60, Status::Resync)?;
    let three = grown(alloc, &two, "c", 99, Status::InSync)?;
    let mut crumbs = Vec::new(alloc);
    crumbs.reserve(3)?;
    crumbs.push(one)?;
    crumbs.push(two)?;
    crumbs.push(three)?;
    Ok(crumbs)
}

// Tells what a client that joins at a breadcrumb is told.
fn tell_snapshot(alloc: Global, crumb: &Crumb, out: &mut Vec<u8>) -> Result<(), NoMemory> {
    let mut session = Session::new(alloc, 0);
    if session.hear(alloc, HELLO, 0).is_err() {
        return Err(NoMemory);
    }
    session.join(alloc, crumb, 0)?;
    tell_queued(alloc, &mut session, out)
}

const GROUPS: &[u8] = b"| kvs 100 kvs 20 resync crumb 2 | | kvs 99 in-sync crumb 3 | ";

const SNAPSHOTS: &[u8] =
    b"hello 1 kvs 60 resync crumb 1 | hello 1 kvs 100 kvs 20 resync crumb 2 | hello 1 kvs 100 kvs 100 kvs 19 in-sync crumb 3 | ";

#[test]
fn groups_and_snapshots_are_cut_into_messages(rt: HostRuntime) -> Result<(), Fail> {
    let alloc = rt.alloc();
    let first = Crumb::first(alloc, 0);
    let crumbs = grown_crumbs(alloc, &first)?;
    let mut session = joined(alloc, &first)?;
    let told = told_of(alloc, &mut session, &crumbs)?;
    assert!(rt; told.as_slice() == GROUPS);
    assert_eq!(rt; session.number(), 3);
    let mut out = Vec::new(alloc);
    for crumb in &crumbs {
        tell_snapshot(alloc, crumb, &mut out)?;
    }
    assert!(rt; out.as_slice() == SNAPSHOTS);
    Ok(())
}
