// A client's rebuilding over connections, one after another, each in any pieces.
ghost use Rattle.std.specs.Prelude.{◌≡◌, ◌+◌, ◌≤◌, ◌++◌, ◌∷◌, List, ℕ, Option, [], length, drop, true, false, None, Some, option_map, IfOk, OnSome, OnOk, OnErr};
ghost use Rattle.std.specs.Option.{option_copied, option_or};
ghost use Rattle.ty_wire.specs.Wire.{frame};
ghost use Rattle.ty_wire.specs.Stream.{Reads};
ghost use Rattle.ty_wire.specs.declared.message.Msg.{Msg as Message};
ghost use Rattle.ty_wire.specs.declared.message.Msg.TheVariants.{ClientHello};
ghost use Rattle.ty_client.specs.Rebuilt.{last_held};
ghost use Rattle.ty_client.specs.Heard.{Holds};
ghost use Rattle.ty_client.specs.Rebuild.{HasHistory, ConnectionStands, RebuildStands, Brought, BroughtHere, IsGoodSoFar, unfinished};
ghost use Rattle.ty_client.specs.steps.Stage.{IsHeard};
ghost use Rattle.ty_client.specs.declared.fault.StreamFault.{StreamFault as Fault};

use crate::at::{At, Ats};
use crate::fault::StreamFault;
use crate::heard::{Heard, hear_all};
use crate::stage::Stage;
use std::alloc::Global;
use std::marker::Model;
use ty_base::{HOST_BYTES, NoMemory, Text};
use ty_wire::{Frames, Msg, WireFault, short_messages_fit, write};

/// What a client makes of the bytes of its connections. It keeps the map that it holds, the map of
/// the connection that is being rebuilt, the unfinished frame, and what is to be sent.
#[derive(Drop)]
pub struct Rebuild {
    alloc: Global,
    unread: Frames,
    stage: Stage,
    held: Option<At>,
    up: Vec<u8>,
    fault: Option<StreamFault>,
    spent: bool,
}

impl Model for Rebuild {
    ghost use Rattle.ty_client.specs.Rebuild.{HasHistory, RebuildHeld};

    ghost Value = { RebuildHeld };

    ghost view = { λ r. record { unread = r.unread; stage = r.stage; held = r.held; up = r.up.items; fault = r.fault; spent = r.spent } };

    ghost invariant = { λ r. HasHistory r.spent r.unread };
}

impl Rebuild {
    /// No connection so far, and no bytes of the first one.
    pub fn new(alloc: Global) -> Rebuild
        ensures stands { RebuildStands result [] [] [] }
        ensures fault { result.fault ≡ None }
        ensures up { result.up ≡ [] }
    {
        Rebuild {
            alloc,
            unread: Frames::new(alloc),
            stage: Stage::new(),
            held: None,
            up: Vec::new(alloc),
            fault: None,
            spent: false,
        }
    }

    /// Queues the client hello, with version 1. After want of memory each call but `lost` answers
    /// want of memory.
    pub fn hello(&mut self, alloc: Global, host: &Text) -> Result<(), NoMemory>
        requires { length host.now ≤ HOST_BYTES }
        ensures ok { OnOk result (self.new
            ≡ record self.old { up = self.old.up ++ frame (ClientHello 1 host.now) }) }
        ensures err { OnErr result (self.new ≡ record self.old { spent = true }) }
        ensures spent { self.old.spent ≡ true → OnOk result ⊥ }
    {
        if self.spent {
            return Err(NoMemory);
        }
        match append_hello(alloc, host, &mut self.up) {
            Ok(()) => Ok(()),
            Err(e) => {
                self.spent = true;
                Err(e)
            }
        }
    }

    /// The bytes that are to be sent: the client hello, and a pong for each ping.
    pub fn up(&self) -> &[u8]
        ensures { result.now ≡ self.now.up }
    {
        &self.up
    }

    /// Removes the first `n` bytes of those that are to be sent.
    pub fn up_given(&mut self, n: usize)
        requires { n ≤ length self.old.up }
        ensures { self.new ≡ record self.old { up = drop n self.old.up } }
    {
        let left = self.up.len() - n;
        self.up.rotate_left(n);
        self.up.truncate(left);
    }

    /// Takes the next bytes of the connection, in any pieces. It gives what is rebuilt at each
    /// crumb end that comes, and the first fault of all bytes of the connection so far. After a
    /// fault each call gives that fault and nothing else, and after want of memory each call
    /// answers want of memory, until `lost`. What is queued grows by no more bytes than the frames
    /// have that end in these: `left` and these bytes.
    pub fn feed(&mut self, alloc: Global, bytes: &[u8]) -> Result<Heard, NoMemory>
        ensures heard { IfOk result (λ h. (before : List (List ℕ)) (so_far : List ℕ) (ms : List Message)
            → RebuildStands self.old before so_far ms
            → Brought self.old self.new before so_far bytes.now ms h.ats) }
        ensures here { IfOk result (λ h. (so_far : List ℕ) (ms : List Message)
            → ConnectionStands self.old so_far ms
            → BroughtHere self.old self.new so_far bytes.now ms h.ats) }
        ensures up { OnOk result ((so_far : List ℕ) (ms : List Message)
            → ConnectionStands self.old so_far ms
            → length self.new.up ≤ length self.old.up + unfinished self.old + length bytes.now) }
        ensures held { IfOk result (λ h. self.new.held ≡ last_held self.old.held h.ats) }
        ensures fault { IfOk result (λ h. h.fault ≡ self.new.fault) }
        ensures stays { IfOk result (λ h. (f : Fault) → self.old.fault ≡ Some f
            → (h.fault ≡ Some f) × (h.ats ≡ [])) }
        ensures short { OnErr result (self.new.spent ≡ true) }
        ensures kept { OnErr result (self.new.held ≡ self.old.held) }
        ensures spent { self.old.spent ≡ true → OnOk result ⊥ }
    {
        if self.spent {
            return Err(NoMemory);
        }
        if self.fault.is_some() {
            return Ok(Heard {
                ats: Ats::new(alloc),
                fault: self.fault,
            });
        }
        match hear_and_keep(
            alloc,
            &mut self.unread,
            &mut self.stage,
            &mut self.up,
            &mut self.held,
            bytes,
        ) {
            Ok(heard) => {
                self.fault = heard.fault;
                Ok(heard)
            }
            Err(e) => {
                self.spent = true;
                Err(e)
            }
        }
    }

    /// The connection is gone, and the next one begins with its frame 1. What it left unfinished
    /// and what was queued is dropped, and what is held stays.
    pub fn lost(&mut self)
        ensures stands { (before : List (List ℕ)) (bytes : List ℕ) (ms : List Message)
            → RebuildStands self.old before bytes ms
            → RebuildStands self.new (before ++ bytes ∷ []) [] [] }
        ensures begins { (connections : List (List ℕ)) → Holds connections self.old.held
            → RebuildStands self.new connections [] [] }
        ensures here { ConnectionStands self.new [] [] }
        ensures fault { self.new.fault ≡ None }
        ensures unspent { self.new.spent ≡ false }
        ensures held { self.new.held ≡ self.old.held }
        ensures up { self.new.up ≡ [] }
    {
        self.unread = Frames::new(self.alloc);
        self.stage.restart();
        self.up.clear();
        self.fault = None;
        self.spent = false;
    }

    /// What was rebuilt at the last crumb end of the last connection that had one.
    pub fn held(&self) -> Option<&At>
        ensures value { option_copied result ≡ self.now.held }
        ensures holds { (before : List (List ℕ)) (bytes : List ℕ) (ms : List Message)
            → RebuildStands self.now before bytes ms
            → Holds (before ++ bytes ∷ []) self.now.held }
    {
        self.held.as_ref()
    }

    /// How many bytes the unfinished frame has so far. After a fault there are none.
    pub fn left(&self) -> u64
        ensures held { result ≡ unfinished self.now }
        ensures rest { (before : List (List ℕ)) (bytes rest : List ℕ) (ms : List Message)
            → RebuildStands self.now before bytes ms
            → self.now.fault ≡ None → Reads bytes ms rest → result ≡ length rest }
        ensures here { (bytes rest : List ℕ) (ms : List Message)
            → ConnectionStands self.now bytes ms
            → self.now.fault ≡ None → Reads bytes ms rest → result ≡ length rest }
        ensures fault { OnSome self.now.fault (result ≡ 0) }
    {
        match self.fault {
            None => self.unread.left(),
            Some(_) => 0,
        }
    }
}

fn append_hello(alloc: Global, host: &Text, up: &mut Vec<u8>) -> Result<(), NoMemory>
    requires { length host.now ≤ HOST_BYTES }
    ensures ok { OnOk result (up.new.items ≡ up.old.items ++ frame (ClientHello 1 host.now)) }
    ensures err { OnErr result (up.new.items ≡ up.old.items) }
{
    short_messages_fit();
    let hello = Msg::ClientHello {
        version: 1,
        host: host.copy(alloc)?,
    };
    write(alloc, &hello, up)
}

// Hears a piece, and holds what is rebuilt at its last crumb end.
fn hear_and_keep(
    alloc: Global,
    unread: &mut Frames,
    stage: &mut Stage,
    up: &mut Vec<u8>,
    held: &mut Option<At>,
    piece: &[u8],
) -> Result<Heard, NoMemory>
    requires { HasHistory false unread.old }
    ensures history { OnOk result (HasHistory false unread.new) }
    ensures heard { IfOk result (λ h. (bytes : List ℕ) (ms : List Message)
        → IsGoodSoFar unread.old stage.old bytes ms
        → IsHeard unread.new stage.new bytes piece.now ms h.ats h.fault up.old.items up.new.items) }
    ensures held { IfOk result (λ h. held.new ≡ last_held held.old h.ats) }
    ensures kept { OnErr result (held.new ≡ held.old) }
{
    let heard = hear(alloc, unread, stage, up, piece)?;
    keep_last(held, &heard.ats)?;
    Ok(heard)
}

fn hear(
    alloc: Global,
    unread: &mut Frames,
    stage: &mut Stage,
    up: &mut Vec<u8>,
    piece: &[u8],
) -> Result<Heard, NoMemory>
    requires { HasHistory false unread.old }
    ensures history { OnOk result (HasHistory false unread.new) }
    ensures heard { IfOk result (λ h. (bytes : List ℕ) (ms : List Message)
        → IsGoodSoFar unread.old stage.old bytes ms
        → IsHeard unread.new stage.new bytes piece.now ms h.ats h.fault up.old.items up.new.items) }
{
    let got = unread.feed(alloc, piece)?;
    let heard = hear_all(alloc, stage, got.msgs.as_slice(), up)?;
    Ok(Heard {
        ats: heard.ats,
        fault: first_fault(heard.fault, got.fault),
    })
}

// The wire's fault comes behind all messages.
pub(crate) fn first_fault(
    fault: Option<StreamFault>,
    wire: Option<WireFault>,
) -> Option<StreamFault>
    ensures { result ≡ option_or fault (option_map StreamFault.Wire wire) }
{
    fault.or(wire.map(StreamFault::Wire))
}

fn keep_last(held: &mut Option<At>, ats: &Ats) -> Result<(), NoMemory>
    ensures ok { OnOk result (held.new ≡ last_held held.old ats.now) }
    ensures err { OnErr result (held.new ≡ held.old) }
{
    let len = ats.len();
    if len == 0 {
        return Ok(());
    }
    let last = ats.at(len - 1).copy()?;
    *held = Some(last);
    Ok(())
}
