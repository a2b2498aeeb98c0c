// The KVs messages of encoded deltas, written one after another.
ghost use Rattle.std.specs.Prelude.{◌≡◌, ◌≤◌, ◌<◌, ◌+◌, ◌++◌, ◌&&◌, [], List, length, drop, nat_lt, nat_le, IfOk, OnOk, OnErr};
ghost use Rattle.ty_base.specs.declared.limits.TheConstants.{BODY_BYTES};
ghost use Rattle.ty_wire.specs.Wire.{frames};
ghost use Rattle.ty_wire.specs.Talk.{kvs_messages};
ghost use Rattle.ty_group.specs.steps.Pieces.{kvs_body, told_in, AreEncoded};
ghost use Rattle.ty_group.specs.Written.{IsWritten, Keeps};
ghost use Rattle.ty_group.specs.steps.Written.{framed, IsFront};

use crate::mark::{Front, Mark};
use ty_base::{MESSAGE_DELTAS, NoMemory, VALUE_BYTES};

// Appends the frames of the messages into which the deltas are cut.
pub(crate) fn append_messages(
    text: &[u8],
    marks: &[Mark],
    out: &mut Vec<u8>,
) -> Result<(), NoMemory>
    requires { AreEncoded text.now marks.now }
    ensures ok { OnOk result (out.new.items
        ≡ out.old.items ++ frames (kvs_messages (told_in text.now marks.now))) }
    ensures err { OnErr result (Keeps out.old.items out.new.items) }
{
    let mut rest = text;
    let mut left = marks;
    while !left.is_empty() {
        let front = append_front(rest, left, out)?;
        rest = &rest[front.len..];
        left = marks_behind(left, front.count);
    }
    Ok(())
}

// All but the first ones.
fn marks_behind(marks: &[Mark], count: usize) -> &[Mark]
    requires { count ≤ length marks.now }
    ensures { result.now ≡ drop count marks.now }
{
    &marks[count..]
}

// The first message. It gives how much of the deltas that is.
fn append_front(text: &[u8], marks: &[Mark], out: &mut Vec<u8>) -> Result<Front, NoMemory>
    requires some { 0 < length marks.now }
    requires encoded { AreEncoded text.now marks.now }
    ensures some { IfOk result (λ f. 0 < f.count) }
    ensures count { IfOk result (λ f. f.count ≤ length marks.now) }
    ensures len { IfOk result (λ f. f.len ≤ length text.now) }
    ensures rest { IfOk result (λ f. AreEncoded (drop f.len text.now) (drop f.count marks.now)) }
    ensures written { IfOk result (λ f. IsWritten (told_in text.now marks.now)
        (told_in (drop f.len text.now) (drop f.count marks.now)) out.old.items out.new.items) }
    ensures kept { Keeps out.old.items out.new.items }
{
    let front = front_of(text, marks);
    append_kvs(&text[..front.len - 1], out)?;
    Ok(front)
}

// The deltas of the first message.
fn front_of(text: &[u8], marks: &[Mark]) -> Front
    requires some { 0 < length marks.now }
    requires encoded { AreEncoded text.now marks.now }
    ensures front { IsFront (told_in text.now marks.now) result }
    ensures within { result.len ≤ length text.now }
    ensures count { result.count ≤ length marks.now }
    ensures comma { 0 < result.len }
{
    let mut weight = marks[0].weight;
    let mut front = Front {
        count: 1,
        len: marks[0].len,
    };
    while front.count < marks.len() {
        let next = marks[front.count];
        if !is_taken(front.count, weight, next.weight) {
            return front;
        }
        weight += next.weight;
        front = Front {
            count: front.count + 1,
            len: front.len + next.len,
        };
    }
    front
}

// Whether a message of so many deltas, with so many bytes, takes the next one.
pub(crate) fn is_taken(count: usize, weight: usize, next: usize) -> bool
    ensures { result ≡ (nat_lt count MESSAGE_DELTAS && nat_le (weight + next) VALUE_BYTES) }
{
    count < MESSAGE_DELTAS && weight <= VALUE_BYTES && next <= VALUE_BYTES - weight
}

// The KVs message of the deltas with this text, commas between them.
fn append_kvs(text: &[u8], out: &mut Vec<u8>) -> Result<(), NoMemory>
    requires { length (kvs_body text.now) ≤ BODY_BYTES }
    ensures ok { OnOk result (out.new.items ≡ out.old.items ++ framed (kvs_body text.now)) }
    ensures err { OnErr result (out.new.items ≡ out.old.items) }
{
    let len = KVS_BEGIN.len() + text.len() + KVS_END.len();
    out.reserve(4 + len)?;
    out.extend_from_slice(&(len as u32).to_be_bytes()).unwrap();
    out.extend_from_slice(KVS_BEGIN.as_bytes()).unwrap();
    out.extend_from_slice(text).unwrap();
    out.extend_from_slice(KVS_END.as_bytes()).unwrap();
    Ok(())
}

const KVS_BEGIN: &str = "{\"kvs\":[";

const KVS_END: &str = "],\"m\":\"kvs\"}";
