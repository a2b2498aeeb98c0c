// What no clause says: each device once, on loopback or a standard stream.
ghost use Rattle.std.specs.Prelude.{◌<◌, length, IfSome};

use crate::{OsClock, OsDoor, OsLink, OsSink, OsSource};
use std::net::{TcpListener, TcpStream};
use std::test::Fail;
use std::thread;
use std::time::Duration;
use ty_base::{Came, Clock, Door, Failed, Link, Sink, Source, Took, give_all};

#[test]
fn a_source_ends_with_standard_input(rt: HostRuntime) -> Result<(), Fail> {
    let mut source = OsSource::new(rt.stdin());
    let mut buf = [0u8; 16];
    for _ in 0..100 {
        if source.take(&mut buf) == Ok(0) {
            assert_eq!(rt; source.faults(), 0);
            return Ok(());
        }
    }
    Err("standard input has more than 1,600 bytes")?
}

#[test]
fn a_sink_hands_on_to_standard_output(rt: HostRuntime) -> Result<(), Fail> {
    let mut sink = OsSink::new(rt.stdout());
    assert_eq!(rt; give_all(&mut sink, b"given to standard output\n"), Ok(()));
    assert_eq!(rt; sink.faults(), 0);
    Ok(())
}

#[test]
fn a_clock_goes_on(rt: HostRuntime) -> Result<(), Fail> {
    let clock = OsClock::new(rt.clone()?);
    let before = clock.now();
    thread::sleep(&rt, Duration::from_millis(20));
    let after = clock.now();
    assert!(rt; before.saturating_add(20) <= after);
    Ok(())
}

// What comes within 100 takes of 100 ms.
fn taken<L: Link>(link: &mut L, buf: &mut [u8]) -> Result<Took, Failed>
    requires { 0 < length buf.old }
{
    for _ in 0..100 {
        match link.take(buf)? {
            Took::Quiet => {}
            took => return Ok(took),
        }
    }
    Ok(Took::Quiet)
}

// A connection that comes within 100 accepts.
fn accepted<D: Door>(door: &mut D) -> Option<D::Link>
    ensures { IfSome result (λ _. D.got door.new < D.gave door.new) }
{
    for _ in 0..100 {
        match door.accept() {
            Ok(Came::Link(link)) => return Some(link),
            Ok(Came::Quiet) => {}
            _ => return None,
        }
    }
    None
}

#[test]
fn a_link_brings_what_its_peer_gives(rt: HostRuntime) -> Result<(), Fail> {
    let listener = TcpListener::bind(&rt, "127.0.0.1:0")?;
    let mut out = OsLink::new(TcpStream::connect(&rt, listener.local_addr()?)?)?;
    let (stream, _) = listener.accept()?;
    let mut within = OsLink::new(stream)?;
    let mut buf = [0u8; 16];
    assert_eq!(rt; within.take(&mut buf), Ok(Took::Quiet));
    assert_eq!(rt; out.give(b"hello"), Ok(5));
    assert_eq!(rt; taken(&mut within, &mut buf), Ok(Took::Bytes(5)));
    assert_eq!(rt; buf[..5], *b"hello".as_slice());
    drop(within);
    assert_eq!(rt; taken(&mut out, &mut buf), Ok(Took::End));
    // The peer reads no more: an error, and not the end of this process.
    for _ in 0..100 {
        if out.give(b"lost").is_err() {
            assert_eq!(rt; out.faults(), 1);
            return Ok(());
        }
    }
    Err("a peer that is closed took 400 bytes")?
}

#[test]
fn doors_listen_and_dial(rt: HostRuntime) -> Result<(), Fail> {
    let listener = TcpListener::bind(&rt, "127.0.0.1:0")?;
    let at = format!(in rt.alloc(); "{}", listener.local_addr()?)?;
    let mut server = OsDoor::listening(rt.clone()?, listener);
    assert!(rt; matches!(server.accept(), Ok(Came::Quiet)));
    let mut client = OsDoor::dialling(rt.clone()?, at);
    let Some(mut out) = accepted(&mut client) else {
        return Err("no connection")?;
    };
    let Some(mut within) = accepted(&mut server) else {
        return Err("no client")?;
    };
    assert_eq!(rt; out.give(b"hello"), Ok(5));
    client.back(out);
    let mut buf = [0u8; 16];
    assert_eq!(rt; taken(&mut within, &mut buf), Ok(Took::Bytes(5)));
    assert_eq!(rt; taken(&mut within, &mut buf), Ok(Took::End));
    server.back(within);
    assert_eq!(rt; (server.faults(), client.faults()), (0, 0));
    let mut nowhere = OsDoor::nowhere(rt.clone()?);
    assert!(rt; matches!(nowhere.accept(), Err(Failed)));
    assert_eq!(rt; nowhere.faults(), 1);
    Ok(())
}
