// What is kept of the messages of a connection.
ghost use Rattle.std.specs.Prelude.{◌≡◌, ◌+◌, ◌<◌, ◌^◌, ◌++◌, [], true, false, IfOk, OnOk, None, unwrap_or};
ghost use Rattle.std.specs.Option.{option_or};
ghost use Rattle.std.specs.List.{fold};
ghost use Rattle.ty_base.specs.Feed.{changed as changed_by};
ghost use Rattle.ty_base.specs.Limits.{deltas_fit, pairs_fit};
ghost use Rattle.ty_map.specs.Shape.{pairs as pairs_of};
ghost use Rattle.ty_wire.specs.Wire.{IsWire, frames};
ghost use Rattle.ty_client.specs.Places.{later_fault as later, opening_fault as opening, crumb_fault as crumb_end_fault, told_status, told_number, is_status};
ghost use Rattle.ty_client.specs.Rebuilt.{deltas_in, pong_of};
ghost use Rattle.ty_client.specs.Rebuild.{Staged};
ghost use Rattle.ty_client.specs.steps.Stage.{stage_fault, next_stage, stage_ats};

use crate::at::{At, Ats};
use crate::fault::StreamFault;
use std::alloc::Global;
use std::marker::Model;
use std::mem;
use ty_base::{Delta, NoMemory, Status};
use ty_map::Pairs;
use ty_wire::{Msg, short_messages_fit, write};

// What the messages of one connection have come to so far.
#[derive(Drop)]
pub(crate) struct Stage {
    // The number of the next frame, from 1.
    frame: u64,
    // The last status, and whether it has come since the last crumb end.
    status: Option<Status>,
    fresh: bool,
    // The number of the last crumb end.
    number: Option<u64>,
    pairs: Pairs,
}

impl Model for Stage {
    ghost use Rattle.ty_client.specs.Rebuild.{Staged};
    ghost use Rattle.std.specs.Prelude.{◌≡◌, true};
    ghost use Rattle.ty_base.specs.Limits.{pairs_fit};
    ghost use Rattle.ty_map.specs.Shape.{pairs as pairs_of};

    ghost Value = { Staged };

    ghost view = { λ s. record { frame = s.frame; status = s.status; fresh = s.fresh; number = s.number; pairs = pairs_of s.pairs } };

    ghost invariant = { λ s. pairs_fit (pairs_of s.pairs) ≡ true };
}

impl Stage {
    // Before the first message.
    pub(crate) fn new() -> Stage
        ensures { result ≡ record { frame = 1; status = None; fresh = false; number = None; pairs = [] } }
    {
        Stage {
            frame: 1,
            status: None,
            fresh: false,
            number: None,
            pairs: Pairs::empty(),
        }
    }

    // Before the first message of another connection.
    pub(crate) fn restart(&mut self)
        ensures { self.new ≡ record { frame = 1; status = None; fresh = false; number = None; pairs = [] } }
    {
        self.frame = 1;
        self.status = None;
        self.fresh = false;
        self.number = None;
        self.pairs = Pairs::empty();
    }

    // The fault of a message that isn't in its place.
    pub(crate) fn fault_of(&self, msg: &Msg) -> Option<StreamFault>
        ensures { result ≡ stage_fault self.now msg.now }
    {
        if self.frame == 1 {
            opening_fault(msg)
        } else {
            later_fault(self.frame, self.status, self.fresh, self.number, msg)
        }
    }

    // Takes in a message that is in its place: what is rebuilt at a crumb end goes to `ats`, a
    // ping's answer to `up`.
    pub(crate) fn hear(
        &mut self,
        alloc: Global,
        msg: &Msg,
        ats: &mut Ats,
        up: &mut Vec<u8>,
    ) -> Result<(), NoMemory>
        requires { IsWire msg.now }
        ensures stage { OnOk result (self.new ≡ next_stage self.old msg.now) }
        ensures ats { OnOk result (ats.new ≡ ats.old ++ stage_ats self.old msg.now) }
        ensures up { OnOk result (up.new.items ≡ up.old.items ++ frames (pong_of msg.now)) }
    {
        let frame = frame_after(self.frame)?;
        self.rebuild(msg, ats)?;
        answer(alloc, msg, up)?;
        // The map is taken out, so that it changes in place where nobody shares it.
        let pairs = mem::replace(&mut self.pairs, Pairs::empty());
        let pairs = pairs_after(alloc, pairs, msg)?;
        *self = Stage {
            frame,
            status: status_after(self.status, msg),
            fresh: fresh_after(self.fresh, msg),
            number: number_after(self.number, msg),
            pairs,
        };
        Ok(())
    }

    fn rebuild(&self, msg: &Msg, ats: &mut Ats) -> Result<(), NoMemory>
        ensures { OnOk result (ats.new ≡ ats.old ++ stage_ats self.now msg.now) }
    {
        match msg {
            Msg::Crumb { n } => {
                let at = At {
                    number: *n,
                    status: self.status.unwrap_or(Status::Wait),
                    pairs: self.pairs.copy()?,
                };
                ats.push(at)
            }
            _ => Ok(()),
        }
    }
}

// Byte number 2^40 ends a connection long before its frames are too many to count.
fn frame_after(frame: u64) -> Result<u64, NoMemory>
    ensures { IfOk result (λ next. next ≡ frame + 1) }
{
    frame.checked_add(1).ok_or(NoMemory)
}

fn opening_fault(msg: &Msg) -> Option<StreamFault>
    ensures { result ≡ opening msg.now }
{
    match msg {
        Msg::ServerHello { version } => {
            if *version == 1 {
                None
            } else {
                Some(StreamFault::Version { found: *version })
            }
        }
        _ => Some(StreamFault::Order { frame: 1 }),
    }
}

fn later_fault(
    frame: u64,
    status: Option<Status>,
    fresh: bool,
    number: Option<u64>,
    msg: &Msg,
) -> Option<StreamFault>
    ensures { result ≡ later frame status fresh number msg.now }
{
    match msg {
        Msg::Ping { .. } => None,
        Msg::Kvs(_) | Msg::Status(_) => fresh.then_some(StreamFault::Order { frame }),
        Msg::Crumb { n } => crumb_fault(frame, status, number, *n),
        Msg::ServerHello { .. } | Msg::ClientHello { .. } | Msg::Pong { .. } => {
            Some(StreamFault::Order { frame })
        }
    }
}

fn crumb_fault(
    frame: u64,
    status: Option<Status>,
    number: Option<u64>,
    found: u64,
) -> Option<StreamFault>
    ensures { result ≡ crumb_end_fault frame status number found }
{
    match (status, number) {
        (None, _) => Some(StreamFault::Order { frame }),
        (Some(_), None) => None,
        (Some(_), Some(had)) => {
            if had < found {
                None
            } else {
                Some(StreamFault::NotRising { frame, had, found })
            }
        }
    }
}

fn status_after(status: Option<Status>, msg: &Msg) -> Option<Status>
    ensures { result ≡ option_or (told_status msg.now) status }
{
    match msg {
        Msg::Status(status) => Some(*status),
        _ => status,
    }
}

fn fresh_after(fresh: bool, msg: &Msg) -> bool
    ensures { result ≡ unwrap_or (is_status msg.now) fresh }
{
    match msg {
        Msg::Status(_) => true,
        Msg::Crumb { .. } => false,
        _ => fresh,
    }
}

fn number_after(number: Option<u64>, msg: &Msg) -> Option<u64>
    ensures { result ≡ option_or (told_number msg.now) number }
{
    match msg {
        Msg::Crumb { n } => Some(*n),
        _ => number,
    }
}

// Appends a pong for a ping.
fn answer(alloc: Global, msg: &Msg, up: &mut Vec<u8>) -> Result<(), NoMemory>
    ensures { OnOk result (up.new.items ≡ up.old.items ++ frames (pong_of msg.now)) }
{
    match msg {
        Msg::Ping { ts } => {
            short_messages_fit();
            write(alloc, &Msg::Pong { ts: *ts }, up)
        }
        _ => Ok(()),
    }
}

fn pairs_after(alloc: Global, pairs: Pairs, msg: &Msg) -> Result<Pairs, NoMemory>
    requires wire { IsWire msg.now }
    requires small { pairs_fit (pairs_of pairs) ≡ true }
    ensures pairs { IfOk result (λ p. pairs_of p ≡ fold changed_by (pairs_of pairs) (deltas_in msg.now)) }
    ensures small { IfOk result (λ p. pairs_fit (pairs_of p) ≡ true) }
{
    match msg {
        Msg::Kvs(deltas) => changed_all(alloc, pairs, deltas.as_slice()),
        _ => Ok(pairs),
    }
}

// The kinds of the deltas aren't checked against the map.
fn changed_all(alloc: Global, pairs: Pairs, deltas: &[Delta]) -> Result<Pairs, NoMemory>
    requires limits { deltas_fit deltas.now ≡ true }
    requires small { pairs_fit (pairs_of pairs) ≡ true }
    ensures pairs { IfOk result (λ p. pairs_of p ≡ fold changed_by (pairs_of pairs) deltas.now) }
    ensures small { IfOk result (λ p. pairs_fit (pairs_of p) ≡ true) }
{
    let mut staged = pairs;
    for delta in deltas {
        staged = changed(alloc, staged, delta)?;
    }
    Ok(staged)
}

fn changed(alloc: Global, pairs: Pairs, delta: &Delta) -> Result<Pairs, NoMemory>
    ensures { IfOk result (λ p. pairs_of p ≡ changed_by (pairs_of pairs) delta.now) }
{
    match &delta.value {
        Some(value) => Ok(pairs.put_in(alloc, &delta.key, value)?.0),
        None => Ok(pairs.remove_in(alloc, &delta.key)?.0),
    }
}
