// What a new account, a client's hello, and a server's greeting and turn come to, as bytes.
ghost use Rattle.std.specs.Prelude.{◌≡◌};

use std::alloc::Global;
use std::marker::Brand;
use std::sync::Wait;
use ty_account::{Account, Named, Standing, Walked};
use ty_base::{MemLink, NoMemory, Piece, SetClock, Text, print_u64};
use ty_chain::{Follower, Opening, start};
use ty_client::Rebuild;
use ty_server::{Greet, Turn, greet, turn};
use ty_session::{Phase, Session};

// A number, which stands for any list.
#[derive(Drop)]
struct Number {
    number: u64,
}

impl Standing for Number {
    ghost stands = { λ n entries. Unit {0} };
}

// What a look at a share of a new account finds.
pub(crate) fn looked(alloc: Global) -> Result<Vec<u8>, NoMemory> {
    let (account, _, mut front, _) = Account::start(alloc, Number { number: 0 })?;
    let look = account.share()?.look(&mut front);
    let mut out = Vec::new(alloc);
    print_u64(look.count, &mut out)?;
    if look.closed {
        out.extend_from_slice(b" entries, closed")?;
    } else {
        out.extend_from_slice(b" entries, open")?;
    }
    Ok(out)
}

// What a copy of a new account's spot finds at its step.
pub(crate) fn stepped(alloc: Global) -> Result<Vec<u8>, NoMemory> {
    let (_, _, mut front, spot) = Account::start(alloc, Number { number: 0 })?;
    let mut copy = spot.copy()?;
    let name = match copy.step(&mut front) {
        Walked::Next => b"Next".as_slice(),
        Walked::Empty => b"Empty".as_slice(),
        Walked::Closed => b"Closed".as_slice(),
    };
    Ok(name.to_vec(alloc)?)
}

// What a client has queued that has said its hello.
pub(crate) fn queued(alloc: Global) -> Result<Vec<u8>, NoMemory> {
    let mut rebuild = Rebuild::new(alloc);
    let host = Text::of(alloc, "n1")?;
    rebuild.hello(alloc, &host)?;
    Ok(rebuild.up().to_vec(alloc)?)
}

// A link that brings these bytes and then a rest.
fn link(alloc: Global, bytes: &[u8]) -> Result<MemLink, NoMemory> {
    let mut coming = Vec::new(alloc);
    coming.push(Piece::Bytes(bytes.to_vec(alloc)?))?;
    coming.push(Piece::Quiet)?;
    MemLink::new(alloc, coming, 1_000, Vec::new(alloc))
}

// Greets once at time 0, and tells what it came to.
fn greet_once(
    alloc: Global,
    session: &mut Session,
    link: &mut MemLink,
) -> Result<&'static [u8], NoMemory> {
    let Phase::Waiting = session.phase() else {
        return Ok(b"not waiting".as_slice());
    };
    match greet(session, alloc, link, &SetClock::new(0))? {
        Greet::Ready => Ok(b"Ready".as_slice()),
        Greet::Waiting => Ok(b"Waiting".as_slice()),
        Greet::Over(_) => Ok(b"Over".as_slice()),
    }
}

// Takes one turn at time 0, and tells what it came to.
fn turn_once<N: Named>(
    alloc: Global,
    session: &mut Session,
    follower: &mut Follower<N>,
    link: &mut MemLink,
) -> Result<&'static [u8], NoMemory> {
    let Phase::Joined = session.phase() else {
        return Ok(b"not joined".as_slice());
    };
    if session.number() != follower.crumb().number {
        return Ok(b"elsewhere".as_slice());
    }
    match turn(alloc, session, follower, link, &SetClock::new(0))? {
        Turn::Sent => Ok(b"Sent".as_slice()),
        Turn::Idle => Ok(b"Idle".as_slice()),
        Turn::Over(_) => Ok(b"Over".as_slice()),
    }
}

// Greets a client whose hello comes over its link, lets it join a list without entries, and takes a turn.
fn serve_once<R: Wait, N: Named>(
    rt: &R,
    alloc: Global,
    opening: Opening,
) -> Result<Vec<u8>, NoMemory>
    requires { opening.account ≡ N.account }
{
    let (lobby, publisher) = start::<N>(alloc, opening)?;
    let mut follower = lobby.enter(rt, publisher.front())?;
    let mut link = link(alloc, &queued(alloc)?)?;
    let mut session = Session::new(alloc, 0);
    let mut out = Vec::new(alloc);
    out.extend_from_slice(greet_once(alloc, &mut session, &mut link)?)?;
    session.join(alloc, follower.crumb(), 0)?;
    out.push(b' ')?;
    out.extend_from_slice(turn_once(alloc, &mut session, &mut follower, &mut link)?)?;
    Ok(out)
}

// What the greeting and the turn of a new chain's client come to.
pub(crate) fn greeted<R: Wait>(rt: &R, alloc: Global) -> Result<Vec<u8>, NoMemory> {
    let opening = Opening::new(alloc, 0)?;
    serve_once::<R, Brand>(rt, alloc, opening)
}
