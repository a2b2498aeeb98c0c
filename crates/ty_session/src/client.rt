// What a client may say, and what its bytes bring.
ghost use Rattle.std.specs.Prelude.{◌≡◌, ◌<◌, ◌+◌, ◌++◌, ◌^◌, List, ℕ, length, option_map, IfOk};
ghost use Rattle.std.specs.Option.{option_or};
ghost use Rattle.ty_wire.specs.Stream.{FramesStand};
ghost use Rattle.ty_wire.specs.declared.message.Msg.{Msg as Message};
ghost use Rattle.ty_session.specs.Client.{is_spoken as is_known, client_fault, first_client_fault};
ghost use Rattle.ty_session.specs.steps.Hearing.{MoreMessages};
ghost use Rattle.ty_session.specs.declared.reason.Reason.{Reason as Why};

use crate::reason::Reason;
use std::alloc::Global;
use ty_base::NoMemory;
use ty_wire::{Frames, Msg, WireFault};

// What bytes brought: how many messages, and the first fault.
#[derive(Drop)]
pub(crate) struct Listened {
    pub count: u64,
    pub fault: Option<Reason>,
}

// Takes bytes of which the first message has this frame.
pub(crate) fn listen(
    alloc: Global,
    unread: &mut Frames,
    frame: u64,
    bytes: &[u8],
) -> Result<Listened, NoMemory>
    ensures { IfOk result (λ l. (so_far : List ℕ) (ms : List Message)
        → FramesStand unread.old so_far ms → frame ≡ length ms + 1
        → MoreMessages unread.new (so_far ++ bytes.now) ms l.count l.fault) }
{
    let got = unread.feed(alloc, bytes)?;
    let count = got.msgs.len() as u64;
    let fault = first_bad(got.msgs.as_slice(), frame);
    Ok(Listened {
        count,
        fault: first_reason(fault, got.fault),
    })
}

// The wire's fault comes behind all messages.
fn first_reason(fault: Option<Reason>, wire: Option<WireFault>) -> Option<Reason>
    ensures { result ≡ option_or fault (option_map Why.BadBytes wire) }
{
    fault.or(wire.map(Reason::BadBytes))
}

// The first fault of messages, of which the first has this frame.
fn first_bad(msgs: &[Msg], frame: u64) -> Option<Reason>
    ensures { frame + length msgs.now < 2 ^ 64 → result ≡ first_client_fault frame msgs.now }
{
    let mut next = frame;
    for msg in msgs {
        let fault = bad_at(next, msg);
        if fault.is_some() {
            return fault;
        }
        next = next.saturating_add(1);
    }
    None
}

fn bad_at(frame: u64, msg: &Msg) -> Option<Reason>
    ensures { result ≡ client_fault frame msg.now }
{
    match msg {
        Msg::ClientHello { version, .. } if frame == 1 => {
            if is_spoken(*version) {
                return None;
            }
            Some(Reason::BadHello { version: *version })
        }
        Msg::Pong { .. } if frame != 1 => None,
        _ => Some(Reason::BadOrder { frame }),
    }
}

fn is_spoken(version: u64) -> bool
    ensures { result ≡ is_known version }
{
    version == 1
}
