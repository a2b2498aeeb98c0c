// A door over a listening socket, or one that dials.
ghost use Rattle.std.specs.Prelude.{◌≡◌, ◌≤◌, None};

use crate::link::OsLink;
use std::io::ErrorKind;
use std::net::{Net, TcpListener, TcpStream};
use std::rt::Clock;
use std::time::Duration;
use std::{io, thread};
use ty_base::{Came, Door, Failed};

/// How long a listening door rests where nothing came, in milliseconds.
const REST: u64 = 100;

/// After so many of them it looks whether something came.
const PAUSE: u64 = 10;

// Where the connections come from.
#[derive(Drop)]
enum Origin {
    // A listener that doesn't block.
    Listener(TcpListener),
    // An address that is dialled.
    Address(String),
    // An address that couldn't be bound.
    Nowhere,
}

/// A door over the system's sockets. It tells nothing of content. A link that comes back is closed.
#[derive(Drop)]
pub struct OsDoor<R> {
    rt: R,
    origin: Origin,
    gave: u64,
    got: u64,
    count: u64,
    ghost sound: { got ≤ gave },
}

impl<R> OsDoor<R> {
    fn new(rt: R, origin: Origin) -> OsDoor<R>
        ensures { (result.gave ≡ 0) × (result.got ≡ 0) × (result.count ≡ 0) }
    {
        OsDoor {
            rt,
            origin,
            gave: 0,
            got: 0,
            count: 0,
        }
    }

    /// A door that listens, and at an accept rests 100 ms where nothing comes in this time. Several doors
    /// may have one listener, each a clone of it, which from now on doesn't block. Where the system
    /// refuses that, it is a door to nowhere.
    pub fn listening(rt: R, listener: TcpListener) -> OsDoor<R>
        ensures { (result.gave ≡ 0) × (result.got ≡ 0) × (result.count ≡ 0) }
    {
        match listener.set_nonblocking(true) {
            Ok(()) => OsDoor::new(rt, Origin::Listener(listener)),
            Err(_) => OsDoor::new(rt, Origin::Nowhere),
        }
    }

    /// A door that dials an address, a host and a port, at each accept. It waits for the answer as long
    /// as the system does, and never ends.
    pub fn dialling(rt: R, at: String) -> OsDoor<R>
        ensures { (result.gave ≡ 0) × (result.got ≡ 0) × (result.count ≡ 0) }
    {
        OsDoor::new(rt, Origin::Address(at))
    }

    /// A door that fails at each accept, for an address that couldn't be bound.
    pub fn nowhere(rt: R) -> OsDoor<R>
        ensures { (result.gave ≡ 0) × (result.got ≡ 0) × (result.count ≡ 0) }
    {
        OsDoor::new(rt, Origin::Nowhere)
    }
}

// The next connection, if one came.
fn next<R: Net<Listener = TcpListener, Stream = TcpStream> + Clock>(
    rt: &R,
    origin: &Origin,
) -> io::Result<Option<OsLink>> {
    match origin {
        Origin::Listener(listener) => next_within_rest(rt, listener),
        Origin::Address(at) => Ok(Some(OsLink::new(TcpStream::connect(rt, at.as_str())?)?)),
        Origin::Nowhere => Err(io::Error::from(ErrorKind::AddrNotAvailable)),
    }
}

// The next connection, if one comes before the rest is over.
fn next_within_rest<R: Clock>(rt: &R, listener: &TcpListener) -> io::Result<Option<OsLink>> {
    for _ in 0..REST / PAUSE {
        match listener.accept() {
            Ok((stream, _)) => return Ok(Some(OsLink::new(stream)?)),
            Err(error) => match error.kind() {
                ErrorKind::WouldBlock | ErrorKind::Interrupted => {
                    thread::sleep(rt, Duration::from_millis(PAUSE));
                }
                _ => return Err(error),
            },
        }
    }
    Ok(None)
}

impl<R: Net<Listener = TcpListener, Stream = TcpStream> + Clock> Door for OsDoor<R> {
    type Link = OsLink;

    ghost sight = { λ _. None };

    ghost gave = { λ d. d.gave };

    ghost got = { λ d. d.got };

    ghost count = { λ d. d.count };

    // After 2^64 - 1 links it fails, since it can count no more.
    fn accept(&mut self) -> Result<Came<OsLink>, Failed> {
        if self.gave == u64::MAX {
            self.count = self.count.saturating_add(1);
            return Err(Failed);
        }
        match next(&self.rt, &self.origin) {
            Ok(Some(link)) => {
                self.gave += 1;
                Ok(Came::Link(link))
            }
            Ok(None) => Ok(Came::Quiet),
            Err(_) => {
                self.count = self.count.saturating_add(1);
                Err(Failed)
            }
        }
    }

    // The connection is closed where it is dropped.
    fn back(&mut self, _link: OsLink) {
        self.got += 1;
    }

    fn faults(&self) -> u64 {
        self.count
    }
}
