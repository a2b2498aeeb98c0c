// What no clause says: that clients are served where there is memory, and a worker goes from one to the next.
ghost use Rattle.std.specs.Prelude.{◌≡◌};

use crate::{DoorFault, Worker, serve_client};
use std::alloc::Global;
use std::marker::Brand;
use std::sync::Wait;
use std::test::Fail;
use ty_account::{Named, front_copy};
use ty_base::{Came, MemDoor, MemLink, NoMemory, Piece, SetClock};
use ty_chain::{Opening, start};
use ty_session::Reason;

const HELLO: &[u8] = b"\x00\x00\x00,{\"host\":\"n1\",\"m\":\"client_hello\",\"version\":1}";

const HELLO_9: &[u8] = b"\x00\x00\x00,{\"host\":\"n1\",\"m\":\"client_hello\",\"version\":9}";

// The talk over a list without entries.
const OPENING: &[u8] =
    b"\x00\x00\x00 {\"m\":\"server_hello\",\"version\":1}\x00\x00\x00({\"m\":\"status\",\"status\":\"wait-for-ready\"}\x00\x00\x00\x13{\"m\":\"crumb\",\"n\":0}";

// A link that brings these bytes, a piece each and none for a rest, and then the end.
fn link(alloc: Global, pieces: &[&[u8]], fails: &[u64]) -> Result<MemLink, NoMemory> {
    let mut coming = Vec::new(alloc);
    for piece in pieces {
        if piece.is_empty() {
            coming.push(Piece::Quiet)?;
        } else {
            coming.push(Piece::Bytes(piece.to_vec(alloc)?))?;
        }
    }
    MemLink::new(alloc, coming, 1_000, fails.to_vec(alloc)?)
}

// Serves one client of a list that is open and stays without entries, and answers what its link was given.
fn serve_one<R: Wait, N: Named>(
    rt: &R,
    alloc: Global,
    opening: Opening,
    mut link: MemLink,
) -> Result<(Reason, Vec<u8>), NoMemory>
    requires { opening.account ≡ N.account }
{
    let (lobby, publisher) = start::<N>(alloc, opening)?;
    let mut front = front_copy(publisher.front());
    let clock = SetClock::new(0);
    let reason = serve_client(rt, alloc, &lobby, &mut front, &mut link, &clock)?;
    Ok((reason, link.given().to_vec(alloc)?))
}

#[test]
fn a_client_is_greeted_and_served_or_left(rt: HostRuntime) -> Result<(), Fail> {
    let alloc = rt.alloc();
    let none: &[u8] = b"";
    for (pieces, fails, reason, given) in [
        ([none, HELLO, none], 99, Reason::PeerClosed, OPENING),
        ([HELLO, none, none], 3, Reason::LinkFault, OPENING),
        ([HELLO, none, none], 2, Reason::LinkFault, none),
        (
            [HELLO_9, none, none],
            99,
            Reason::BadHello { version: 9 },
            none,
        ),
        ([none, none, none], 99, Reason::PeerClosed, none),
    ] {
        let opening = Opening::new(alloc, 0)?;
        let link = link(alloc, &pieces, &[fails])?;
        let (why, bytes) = serve_one::<_, Brand>(&rt, alloc, opening, link)?;
        assert_eq!(rt; why, reason);
        assert_eq!(rt; bytes.as_slice(), given);
    }
    Ok(())
}

// Runs a worker at this door over a list that is closed and without entries: how many it served, and how many it
// dropped.
fn run_once<R: Wait, N: Named>(
    rt: &R,
    alloc: Global,
    opening: Opening,
    door: &mut MemDoor,
) -> Result<(Result<u64, DoorFault>, u64), NoMemory>
    requires { opening.account ≡ N.account }
{
    let (lobby, publisher) = start::<N>(alloc, opening)?;
    let mut worker = Worker::new(1, publisher.close());
    let ran = worker.run(rt, alloc, &lobby, door, &SetClock::new(0));
    Ok((ran, worker.short()))
}

#[test]
fn a_worker_serves_one_client_after_another(rt: HostRuntime) -> Result<(), Fail> {
    let alloc = rt.alloc();
    let mut coming = Vec::new(alloc);
    for hello in [HELLO, HELLO_9, HELLO] {
        coming.push(Came::Link(link(alloc, &[b"", hello], &[])?))?;
    }
    coming.push(Came::Quiet)?;
    let mut door = MemDoor::new(alloc, coming, vec![in alloc; 5u64]?)?;
    for ran in [Ok(3), Err(DoorFault), Ok(0)] {
        let opening = Opening::new(alloc, 0)?;
        assert_eq!(rt;
            run_once::<_, Brand>(&rt, alloc, opening, &mut door),
            Ok((ran, 0))
        );
    }
    for (link, given) in door.returned().iter().zip([OPENING, b"", OPENING]) {
        assert_eq!(rt; link.given(), given);
    }
    assert_eq!(rt; door.returned().len(), 3);
    Ok(())
}
