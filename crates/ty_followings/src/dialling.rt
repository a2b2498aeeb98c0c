// What no clause says: that links in memory are dialled, followed and given back to the end.
use std::alloc::Global;
use std::test::Fail;
use ty_base::{Came, MemDoor, MemLink, MemSink, Piece, Text};
use ty_client::StreamFault;
use ty_dial::{DialFault, follow_door};

// A server hello, a status and crumb 3.
const DOWN: &[u8] =
    b"\x00\x00\x00 {\"m\":\"server_hello\",\"version\":1}\x00\x00\x00 {\"m\":\"status\",\"status\":\"resync\"}\x00\x00\x00\x13{\"m\":\"crumb\",\"n\":3}";

const UP: &[u8] = b"\x00\x00\x00,{\"host\":\"n1\",\"m\":\"client_hello\",\"version\":1}";

const TEXT: &[u8] = b"at 3 resync 0\n";

// One that brings these bytes, and of which the calls with these numbers fail.
fn link(alloc: Global, bytes: &[u8], fails: Vec<u64>) -> Result<Came<MemLink>, Fail> {
    let mut coming = Vec::new(alloc);
    coming.push(Piece::Bytes(bytes.to_vec(alloc)?))?;
    Ok(Came::Link(MemLink::new(alloc, coming, 100, fails)?))
}

// A link that brings all, one that is cut, one that fails, one with a fault, or none yet.
fn came(alloc: Global, kind: u8) -> Result<Came<MemLink>, Fail> {
    let mut fails = Vec::new(alloc);
    match kind {
        b'a' => link(alloc, DOWN, fails),
        b'c' => link(alloc, &DOWN[..DOWN.len() - 1], fails),
        b'f' => {
            fails.push(2)?;
            link(alloc, DOWN, fails)
        }
        b's' => link(alloc, &DOWN[36..], fails),
        _ => Ok(Came::Quiet),
    }
}

// The numbers of calls that fail: this one, and none at 0.
fn fails(alloc: Global, number: u64) -> Result<Vec<u64>, Fail> {
    let mut fails = Vec::new(alloc);
    fails.push(number)?;
    Ok(fails)
}

// What comes to the dialler, the number of its accept and of the sink's give that fail, and the tries; the answer, how
// many texts were written, and how many links came back.
#[test]
fn links_are_dialled_until_the_tries_end(rt: HostRuntime) -> Result<(), Fail> {
    let alloc = rt.alloc();
    let host = Text::of(alloc, "n1")?;
    let cases: [(&str, u64, u64, u64, Result<(), DialFault>, usize, usize); 14] = [
        ("", 0, 0, 3, Ok(()), 0, 0),
        ("a", 0, 0, 0, Ok(()), 0, 0),
        ("a", 0, 0, 1, Ok(()), 1, 1),
        ("aaa", 0, 0, 2, Ok(()), 2, 2),
        ("qaqqa", 0, 0, 9, Ok(()), 2, 2),
        ("c", 0, 0, 1, Err(DialFault::Cut { left: 22 }), 0, 1),
        ("ca", 0, 0, 2, Ok(()), 1, 2),
        ("af", 0, 0, 2, Err(DialFault::Link), 1, 2),
        ("fa", 0, 0, 2, Ok(()), 1, 2),
        ("fc", 0, 0, 9, Err(DialFault::Cut { left: 22 }), 0, 2),
        (
            "asa",
            0,
            0,
            9,
            Err(DialFault::Stream(StreamFault::Order { frame: 1 })),
            1,
            2,
        ),
        ("aa", 2, 0, 9, Err(DialFault::Door), 1, 1),
        ("a", 1, 0, 9, Err(DialFault::Door), 0, 0),
        ("aaa", 0, 2, 9, Err(DialFault::Write), 1, 2),
    ];
    for (kinds, door_fails, sink_fails, tries, wanted, texts, returned) in cases {
        let mut coming = Vec::new(alloc);
        for kind in kinds.as_bytes() {
            coming.push(came(alloc, *kind)?)?;
        }
        let mut door = MemDoor::new(alloc, coming, fails(alloc, door_fails)?)?;
        let mut sink = MemSink::new(alloc, 100, fails(alloc, sink_fails)?)?;
        let answer = follow_door(&rt, alloc, &host, tries, false, &mut door, &mut sink);
        assert_eq!(rt; answer, wanted);
        assert_eq!(rt; sink.given().len(), texts.wrapping_mul(TEXT.len()));
        assert_eq!(rt; door.returned().len(), returned);
        for link in door.returned() {
            assert_eq!(rt; link.given(), UP);
        }
    }
    Ok(())
}
