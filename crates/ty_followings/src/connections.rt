// What no clause says: that a connection over a link in memory goes to its end.
use std::alloc::Global;
use std::test::Fail;
use ty_base::{MemLink, MemSink, Piece, Text};
use ty_client::{Rebuild, follow_link};

// A server hello, a status, a ping and crumb 3.
const DOWN: &[u8] =
    b"\x00\x00\x00 {\"m\":\"server_hello\",\"version\":1}\x00\x00\x00 {\"m\":\"status\",\"status\":\"resync\"}\x00\x00\x00\x13{\"m\":\"ping\",\"ts\":7}\x00\x00\x00\x13{\"m\":\"crumb\",\"n\":3}";

const UP: &[u8] =
    b"\x00\x00\x00,{\"host\":\"n1\",\"m\":\"client_hello\",\"version\":1}\x00\x00\x00\x13{\"m\":\"pong\",\"ts\":7}";

// Bytes in pieces of this many, with a rest behind each.
fn link(alloc: Global, bytes: &[u8], size: usize) -> Result<MemLink, Fail> {
    let mut coming = Vec::new(alloc);
    for piece in bytes.chunks(size.max(1)) {
        coming.push(Piece::Bytes(piece.to_vec(alloc)?))?;
        coming.push(Piece::Quiet)?;
    }
    Ok(MemLink::new(alloc, coming, 100, Vec::new(alloc))?)
}

#[test]
fn a_connection_is_followed_to_its_end(rt: HostRuntime) -> Result<(), Fail> {
    let alloc = rt.alloc();
    let mut rebuild = Rebuild::new(alloc);
    let host = Text::of(alloc, "n1")?;
    for size in [5usize, 65_536] {
        let mut link = link(alloc, DOWN, size)?;
        let mut sink = MemSink::new(alloc, 100, Vec::new(alloc))?;
        let came = follow_link(&rt, alloc, &mut rebuild, &host, false, &mut link, &mut sink);
        assert_eq!(rt; came, Ok(()));
        assert_eq!(rt; sink.given(), b"at 3 resync 0\n".as_slice());
        assert_eq!(rt; link.given(), UP);
    }
    Ok(())
}
