// What no clause says: that a link and a door in memory go through their lists where there is memory.
use crate::{Came, Clock, Door, Failed, Link, MemDoor, MemLink, Piece, SetClock, Took};
use std::alloc::Global;
use std::test::Fail;

fn link(alloc: Global, room: usize, fails: &[u64]) -> Result<MemLink, Fail> {
    let mut coming = Vec::new(alloc);
    coming.push(Piece::Bytes(b"abc".as_slice().to_vec(alloc)?))?;
    coming.push(Piece::Bytes(Vec::new(alloc)))?;
    coming.push(Piece::Quiet)?;
    coming.push(Piece::Bytes(b"d".as_slice().to_vec(alloc)?))?;
    coming.push(Piece::End)?;
    Ok(MemLink::new(alloc, coming, room, fails.to_vec(alloc)?)?)
}

#[test]
fn a_link_brings_piece_by_piece_and_fails_when_told(rt: HostRuntime) -> Result<(), Fail> {
    let mut link = link(rt.alloc(), 3, &[2, 8])?;
    let mut buf = [0u8; 2];
    for (took, bytes) in [
        (Ok(Took::Bytes(2)), b"ab".as_slice()),
        (Err(Failed), b""),
        (Ok(Took::Bytes(1)), b"c"),
        (Ok(Took::Quiet), b""),
        (Ok(Took::Bytes(1)), b"d"),
        (Ok(Took::End), b""),
        (Ok(Took::End), b""),
        (Err(Failed), b""),
    ] {
        assert_eq!(rt; link.take(&mut buf), took);
        assert_eq!(rt; buf[..bytes.len()], *bytes);
    }
    assert_eq!(rt; link.give(b"uv"), Ok(2));
    assert_eq!(rt; link.give(b"wx"), Ok(1));
    assert_eq!(rt; link.give(b"y"), Err(Failed));
    assert_eq!(rt; link.given(), b"uvw".as_slice());
    assert_eq!(rt; link.faults(), 3);
    Ok(())
}

#[test]
fn a_door_gives_its_links_and_takes_them_back(rt: HostRuntime) -> Result<(), Fail> {
    let mut coming = Vec::new(rt.alloc());
    coming.push(Came::Quiet)?;
    coming.push(Came::Link(link(rt.alloc(), 2, &[])?))?;
    let mut door = MemDoor::new(rt.alloc(), coming, vec![in rt.alloc(); 2u64]?)?;
    assert!(rt; matches!(door.accept(), Ok(Came::Quiet)));
    assert!(rt; matches!(door.accept(), Err(Failed)));
    let Ok(Came::Link(mut link)) = door.accept() else {
        return Err("no link")?;
    };
    assert_eq!(rt; link.give(b"hello"), Ok(2));
    door.back(link);
    assert!(rt; matches!(door.accept(), Ok(Came::End)));
    assert_eq!(rt; door.faults(), 1);
    assert_eq!(rt; door.returned().len(), 1);
    assert_eq!(rt; door.returned()[0].given(), b"he".as_slice());
    Ok(())
}

#[test]
fn a_clock_stands_where_it_was_set(rt: HostRuntime) -> Result<(), Fail> {
    let mut clock = SetClock::new(7);
    assert_eq!(rt; clock.now(), 7);
    clock.set(5);
    assert_eq!(rt; clock.now(), 5);
    Ok(())
}
