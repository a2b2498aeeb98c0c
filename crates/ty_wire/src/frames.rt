// Frames that come in pieces, one after another.
ghost use Rattle.std.specs.Prelude.{◌≡◌, ◌≤◌, ◌<◌, ◌+◌, ◌++◌, List, ℕ, [], length, IfOk, OnSome, OnOk, OnErr, None, Some, true};
ghost use Rattle.ty_wire.specs.steps.Frames.{IsTaken, IsFed, ended_by};
ghost use Rattle.ty_wire.specs.Stream.{FramesStand, Reads};
ghost use Rattle.ty_wire.specs.declared.message.Msg.{Msg};
ghost use Rattle.ty_wire.specs.declared.fault.WireFault.{WireFault as Fault};

use crate::fault::WireFault;
use crate::message::Msgs;
use crate::partial_frame::{Moved, advance};
use bytes::BytesMut;
use std::alloc::Global;
use std::marker::Model;
use ty_base::{BODY_BYTES, INPUT_BYTES, NoMemory};

/// What a piece brought.
#[derive(Drop)]
pub struct Got {
    /// The messages whose frames end in the piece, in order.
    pub msgs: Msgs,
    /// Why no more messages will follow, if that is known.
    pub fault: Option<WireFault>,
}

/// Reads the frames of a connection in any pieces. It keeps the bytes of the unfinished frame and
/// no others.
#[derive(Drop)]
pub struct Frames {
    rest: BytesMut,
    count: u64,
    seen: u64,
    fault: Option<WireFault>,
    spent: bool,
}

impl Model for Frames {
    ghost use Rattle.std.specs.Prelude.{◌≡◌, ◌≤◌, ◌<◌, ◌+◌, [], length, OnSome};
    ghost use Rattle.ty_base.specs.declared.limits.TheConstants.{INPUT_BYTES};
    ghost use Rattle.ty_wire.specs.Held.{FramesHeld};
    ghost use Rattle.ty_wire.specs.Stream.{IsPart};

    ghost Value = { FramesHeld };

    ghost view = { λ f. record { rest = f.rest.items; count = f.count; seen = f.seen; fault = f.fault; spent = f.spent } };

    ghost invariant = { λ f. (f.seen < INPUT_BYTES) × (f.count + length f.rest.items ≤ f.seen) × IsPart f.rest.items
        × OnSome f.fault (f.rest.items ≡ []) };
}

impl Frames {
    /// No bytes so far.
    pub fn new(alloc: Global) -> Frames
        ensures stands { FramesStand result [] [] }
        ensures fault { result.fault ≡ None }
    {
        Frames {
            rest: BytesMut::new(alloc),
            count: 0,
            seen: 0,
            fault: None,
            spent: false,
        }
    }

    /// Takes the next piece, and gives the messages that end in it and the first fault of all bytes
    /// so far. After a fault each call gives that fault and no message. After want of memory each
    /// call answers want of memory.
    pub fn feed(&mut self, alloc: Global, piece: &[u8]) -> Result<Got, NoMemory>
        ensures stands { IfOk result (λ got. (bytes : List ℕ) (ms : List Msg)
            → FramesStand self.old bytes ms
            → FramesStand self.new (bytes ++ piece.now) (ms ++ got.msgs)) }
        ensures fault { IfOk result (λ got. got.fault ≡ self.new.fault) }
        ensures stays { IfOk result (λ got. (w : Fault) → self.old.fault ≡ Some w
            → (self.new.fault ≡ Some w) × (got.msgs ≡ [])) }
        ensures short { OnErr result (self.new.spent ≡ true) }
        ensures spent { self.old.spent ≡ true → OnOk result ⊥ }
    {
        if self.spent {
            return Err(NoMemory);
        }
        if self.fault.is_some() {
            return Ok(Got {
                msgs: Msgs::new(alloc),
                fault: self.fault,
            });
        }
        match self.read_to_limit(alloc, piece) {
            Ok(msgs) => Ok(Got {
                msgs,
                fault: self.fault,
            }),
            Err(e) => {
                self.spent = true;
                Err(e)
            }
        }
    }

    /// How many bytes the unfinished frame has so far. After a fault there are none.
    pub fn left(&self) -> u64
        ensures held { result ≡ length self.now.rest }
        ensures rest { (bytes rest : List ℕ) (ms : List Msg) → self.now.fault ≡ None
            → FramesStand self.now bytes ms
            → Reads bytes ms rest → result ≡ length rest }
        ensures fault { OnSome self.now.fault (result ≡ 0) }
        ensures most { result ≤ BODY_BYTES + 3 }
    {
        self.rest.len() as u64
    }

    fn read_to_limit(&mut self, alloc: Global, piece: &[u8]) -> Result<Msgs, NoMemory>
        requires { self.old.fault ≡ None }
        ensures { IfOk result (λ msgs. IsFed self.old self.new piece.now msgs) }
    {
        let room = INPUT_BYTES - 1 - self.seen as usize;
        let (front, back) = piece.split_at(piece.len().min(room));
        let msgs = self.read_on(alloc, front)?;
        if back.is_empty() {
            return Ok(msgs);
        }
        self.end();
        Ok(msgs)
    }

    // There is more than can be read.
    fn end(&mut self)
        ensures { self.new ≡ record self.old { rest = []; fault = ended_by true self.old.fault } }
    {
        self.fault = ended(self.fault);
        self.rest.clear();
    }

    fn read_on(&mut self, alloc: Global, front: &[u8]) -> Result<Msgs, NoMemory>
        requires { self.old.seen + length front.now < INPUT_BYTES }
        ensures { IfOk result (λ msgs. IsTaken self.old self.new front.now msgs) }
    {
        match advance(alloc, &mut self.rest, front, self.count) {
            Ok(moved) => {
                let Moved { msgs, fault } = moved;
                self.seen += front.len() as u64;
                self.count += msgs.len() as u64;
                self.fault = fault;
                Ok(msgs)
            }
            Err(e) => {
                self.rest.clear();
                Err(e)
            }
        }
    }
}

// The fault, where there is more than can be read.
fn ended(fault: Option<WireFault>) -> Option<WireFault>
    ensures { result ≡ ended_by true fault }
{
    match fault {
        None => Some(WireFault::TooMuch),
        fault => fault,
    }
}
