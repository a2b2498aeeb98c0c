// The frames at the front of bytes.
ghost use Rattle.std.specs.List.{AllByRecursion};
ghost use Rattle.ty_wire.specs.Wire.{IsWire};
ghost use Rattle.std.specs.Prelude.{◌≡◌, ◌≤◌, ◌<◌, ◌+◌, length, IfOk};
ghost use Rattle.ty_wire.specs.Stream.{told_len};
ghost use Rattle.ty_wire.specs.steps.Frames.{IsNext, IsFound};

use crate::decode::{Body, read_body};
use crate::fault::WireFault;
use crate::message::{Msg, Msgs};
use std::alloc::Global;
use ty_base::{BODY_BYTES, INPUT_BYTES, NoMemory};

// The bytes at a frame's front, which tell the length of its body.
pub(crate) const HEAD_BYTES: usize = 4;

// Messages, why no more follow if that is known, and how many bytes their frames have.
#[derive(Drop)]
pub(crate) struct Found {
    pub msgs: Msgs,
    pub fault: Option<WireFault>,
    pub used: usize,
}

// What stands at the front of bytes: the beginning of a frame, a message in a frame of `len` bytes,
// or a fault.
#[derive(Drop)]
pub(crate) enum Next {
    Part,
    Message { msg: Msg, len: usize },
    Fault(WireFault),
}

// The frames at the front of bytes, behind those of `msgs`, where `count` came before them all.
pub(crate) fn read_frames(
    alloc: Global,
    msgs: Msgs,
    bytes: &[u8],
    count: u64,
) -> Result<Found, NoMemory>
    requires each { AllByRecursion IsWire msgs }
    requires few { count + length msgs + length bytes.now < INPUT_BYTES }
    ensures { IfOk result (λ f. IsFound count msgs bytes.now f) }
{
    let mut msgs = msgs;
    let mut number = count + msgs.len() as u64 + 1;
    let mut used = 0;
    loop {
        match next_frame(alloc, &bytes[used..], number)? {
            Next::Part => {
                return Ok(Found {
                    msgs,
                    fault: None,
                    used,
                });
            }
            Next::Fault(fault) => {
                return Ok(Found {
                    msgs,
                    fault: Some(fault),
                    used,
                });
            }
            Next::Message { msg, len } => {
                msgs.push(msg)?;
                used += len;
                number += 1;
            }
        }
    }
}

// What stands at the front of bytes, where the next frame has this number.
pub(crate) fn next_frame(alloc: Global, bytes: &[u8], number: u64) -> Result<Next, NoMemory>
    ensures { IfOk result (λ n. IsNext number bytes.now n) }
{
    if bytes.len() < HEAD_BYTES {
        return Ok(Next::Part);
    }
    let len = len_at(bytes) as usize;
    if len > BODY_BYTES {
        return Ok(Next::Fault(WireFault::TooLong {
            frame: number,
            len: len as u64,
        }));
    }
    let (_, after) = bytes.split_at(HEAD_BYTES);
    if after.len() < len {
        return Ok(Next::Part);
    }
    let (text, _) = after.split_at(len);
    match read_body(alloc, text)? {
        Body::Message(msg) => Ok(Next::Message {
            msg,
            len: HEAD_BYTES + len,
        }),
        Body::NotJson => Ok(Next::Fault(WireFault::NotJson { frame: number })),
        Body::Shape => Ok(Next::Fault(WireFault::Shape { frame: number })),
    }
}

// The length that four bytes tell, highest first.
pub(crate) fn len_at(bytes: &[u8]) -> u32
    requires { HEAD_BYTES ≤ length bytes.now }
    ensures { result ≡ told_len bytes.now }
{
    let (front, _) = bytes.split_at(HEAD_BYTES);
    u32::from_be_bytes([front[0], front[1], front[2], front[3]])
}
