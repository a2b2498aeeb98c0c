// One connection over a link: what it brings is heard, and what is queued is given.
ghost use Rattle.std.specs.Prelude.{◌≡◌, ◌<◌, ◌≤◌, ℕ, List, Bool, Option, [], length, None, IfErr, OnOk};
ghost use Rattle.ty_base.specs.Devices.{Output};
ghost use Rattle.ty_base.specs.Links.{Sight};
ghost use Rattle.ty_base.specs.Told.{Told};
ghost use Rattle.ty_wire.specs.Stream.{Reads};
ghost use Rattle.ty_wire.specs.declared.message.Msg.{Msg as Message};
ghost use Rattle.ty_client.specs.Rebuild.{ConnectionStands};
ghost use Rattle.ty_client.specs.Linked.{scene, LinkEnded, LinkStopped};
ghost use Rattle.ty_client.specs.steps.Links.{ExchangesUnended, GoesOnOrStops, TakesOn, Begins, by_fault};
ghost use Rattle.ty_client.specs.steps.Pieces.{EndsAt};

use crate::fault::StreamFault;
use crate::follower::FollowFault;
use crate::rebuild::Rebuild;
use crate::text::{Unwritten, give_ats};
use std::alloc::Global;
use std::sync::Wait;
use ty_base::{HOST_BYTES, Link, PIECE_BYTES, Sink, Text, Took};

// What a take came to.
#[derive(Clone, Copy, Debug, PartialEq, Eq)]
pub(crate) enum Taken {
    // More may come.
    More,
    // It was the link's end, outside a frame.
    Last,
}

/// Follows one connection. `rebuild` loses the one before; the client hello is given, and a pong for
/// each ping. The text of what is rebuilt at each crumb end is written as soon as it has come, as
/// `follow` writes it: all of it at `Ok`, `Stream`, `Cut` and `Link`, a front of it at `Write` and
/// `NoMemory`. At `Ok` and `Cut` the link's end was taken, and all was given. It never answers
/// `Read`. After `NoMemory` the rebuilding may be spent. It waits for the peer.
pub fn follow_link<R: Wait, L: Link, K: Sink>(
    rt: &R,
    alloc: Global,
    rebuild: &mut Rebuild,
    host: &Text,
    brief: bool,
    link: &mut L,
    sink: &mut K,
) -> Result<(), FollowFault>
    requires { length host.now ≤ HOST_BYTES }
    ensures ok { OnOk result (LinkEnded host.now brief
        (scene rebuild.old (L.sight link.old) (L.count link.old) (K.seen sink.old))
        (scene rebuild.new (L.sight link.new) (L.count link.new) (K.seen sink.new)) []) }
    ensures fault { IfErr result (LinkStopped host.now brief
        (scene rebuild.old (L.sight link.old) (L.count link.old) (K.seen sink.old))
        (scene rebuild.new (L.sight link.new) (L.count link.new) (K.seen sink.new))) }
    ensures faults { L.count link.old ≤ L.count link.new }
    ensures writes { (K.seen sink.old).faults ≤ (K.seen sink.new).faults }
{
    match begin(alloc, rebuild, host) {
        Ok(()) => {}
        Err(fault) => return Err(fault),
    }
    let mut piece = Vec::new(alloc);
    let Ok(()) = piece.resize(PIECE_BYTES, 0u8) else {
        return Err(FollowFault::NoMemory);
    };
    for _ in rt.forever() {
        match exchange(alloc, rebuild, brief, link, sink, &mut piece) {
            Ok(Taken::More) => {}
            Ok(Taken::Last) => return Ok(()),
            Err(fault) => return Err(fault),
        }
    }
    unreachable!()
}

// The connection before is gone, and the hello of this one is queued.
fn begin(alloc: Global, rebuild: &mut Rebuild, host: &Text) -> Result<(), FollowFault>
    requires { length host.now ≤ HOST_BYTES }
    ensures { Begins host.now rebuild.old rebuild.new result }
{
    rebuild.lost();
    match rebuild.hello(alloc, host) {
        Ok(()) => Ok(()),
        Err(_) => Err(FollowFault::NoMemory),
    }
}

// Gives all that is queued, and then takes once, so that nothing is queued where the end comes.
fn exchange<L: Link, K: Sink>(
    alloc: Global,
    rebuild: &mut Rebuild,
    brief: bool,
    link: &mut L,
    sink: &mut K,
    piece: &mut [u8],
) -> Result<Taken, FollowFault>
    requires { 0 < length piece.old }
    ensures came { TakesOn brief
        (scene rebuild.old (L.sight link.old) (L.count link.old) (K.seen sink.old))
        (scene rebuild.new (L.sight link.new) (L.count link.new) (K.seen sink.new)) result }
    ensures same { length piece.new ≡ length piece.old }
{
    match give_queued(rebuild, link) {
        Ok(()) => take_piece(alloc, rebuild, brief, link, sink, piece),
        Err(fault) => Err(fault),
    }
}

// All that is queued, at most `PIECE_BYTES` at a time.
fn give_queued<L: Link>(rebuild: &mut Rebuild, link: &mut L) -> Result<(), FollowFault>
    ensures came { (brief : Bool) (sink : Output) → GoesOnOrStops brief
        (scene rebuild.old (L.sight link.old) (L.count link.old) sink)
        (scene rebuild.new (L.sight link.new) (L.count link.new) sink) result }
    ensures all { OnOk result (rebuild.new.up ≡ []) }
{
    while !rebuild.up().is_empty() {
        match give_piece(rebuild, link) {
            Ok(()) => {}
            Err(fault) => return Err(fault),
        }
    }
    Ok(())
}

// One give of the first of them.
fn give_piece<L: Link>(rebuild: &mut Rebuild, link: &mut L) -> Result<(), FollowFault>
    requires { 0 < length rebuild.old.up }
    ensures came { (brief : Bool) (sink : Output) → GoesOnOrStops brief
        (scene rebuild.old (L.sight link.old) (L.count link.old) sink)
        (scene rebuild.new (L.sight link.new) (L.count link.new) sink) result }
    ensures shorter { OnOk result (length rebuild.new.up < length rebuild.old.up) }
{
    let up = rebuild.up();
    let end = up.len().min(PIECE_BYTES);
    match link.give(&up[..end]) {
        Ok(count) => {
            rebuild.up_given(count);
            Ok(())
        }
        Err(_) => Err(FollowFault::Link),
    }
}

// One take, whose bytes are heard. Nothing is queued before it.
fn take_piece<L: Link, K: Sink>(
    alloc: Global,
    rebuild: &mut Rebuild,
    brief: bool,
    link: &mut L,
    sink: &mut K,
    piece: &mut [u8],
) -> Result<Taken, FollowFault>
    requires { 0 < length piece.old }
    ensures came { rebuild.old.up ≡ [] → TakesOn brief
        (scene rebuild.old (L.sight link.old) (L.count link.old) (K.seen sink.old))
        (scene rebuild.new (L.sight link.new) (L.count link.new) (K.seen sink.new)) result }
    ensures same { length piece.new ≡ length piece.old }
{
    match link.take(piece) {
        Ok(Took::Bytes(count)) => match hear(alloc, rebuild, brief, &piece[..count], sink) {
            Ok(()) => Ok(Taken::More),
            Err(fault) => Err(fault),
        },
        Ok(Took::Quiet) => Ok(Taken::More),
        Ok(Took::End) => match ended(rebuild) {
            Ok(()) => Ok(Taken::Last),
            Err(fault) => Err(fault),
        },
        Err(_) => Err(FollowFault::Link),
    }
}

// Hears what a take brought, and gives the text of what it rebuilds.
fn hear<K: Sink>(
    alloc: Global,
    rebuild: &mut Rebuild,
    brief: bool,
    bytes: &[u8],
    sink: &mut K,
) -> Result<(), FollowFault>
    ensures { (x y : Option Sight) (n m : ℕ) → Told (ExchangesUnended [] bytes.now) x y → n ≤ m → GoesOnOrStops brief
        (scene rebuild.old x n (K.seen sink.old)) (scene rebuild.new y m (K.seen sink.new)) result }
{
    let Ok(heard) = rebuild.feed(alloc, bytes) else {
        return Err(FollowFault::NoMemory);
    };
    match give_ats(alloc, brief, heard.ats.as_slice(), sink) {
        Ok(()) => go_on(heard.fault),
        Err(Unwritten::Sink) => Err(FollowFault::Write),
        Err(Unwritten::Memory) => Err(FollowFault::NoMemory),
    }
}

fn go_on(fault: Option<StreamFault>) -> Result<(), FollowFault>
    ensures { result ≡ by_fault fault }
{
    match fault {
        None => Ok(()),
        Some(fault) => Err(FollowFault::Stream(fault)),
    }
}

// The link has ended.
fn ended(rebuild: &Rebuild) -> Result<(), FollowFault>
    ensures { (bytes rest : List ℕ) (ms : List Message) → ConnectionStands rebuild.now bytes ms
        → rebuild.now.fault ≡ None
        → Reads bytes ms rest
        → EndsAt result (length rest) }
{
    let left = rebuild.left();
    if left == 0 {
        Ok(())
    } else {
        Err(FollowFault::Cut { left })
    }
}
