// The body of a KVs message: how long it is, or how long at most, and its bytes in a buffer.
ghost use Rattle.std.specs.Prelude.{◌≡◌, ℕ, ◌+◌, ◌*◌, ◌<◌, ◌≤◌, ◌++◌, length, nat_le, vec_capacity, true};
ghost use Rattle.std.specs.List.{AllByRecursion, sum_by};
ghost use Rattle.json.specs.Filled.{Placed};
ghost use Rattle.ty_wire.specs.steps.Placed.{Continued};
ghost use Rattle.ty_base.specs.Passing.{delta_passes, option_passes};
ghost use Rattle.ty_base.specs.Limits.{key_fits, value_fits, deltas_fit};
ghost use Rattle.ty_wire.specs.Wire.{body, delta_text, value_text, kind_text as kind_word, DeltaHasUtf8, ValueHasUtf8};
ghost use Rattle.ty_wire.specs.Cut.{weight as weight_of_delta};
ghost use Rattle.ty_wire.specs.declared.message.Msg.TheVariants.{Kvs};

use crate::cut::weight_of;
use crate::place::{lengthen, place};
use crate::quoted::{LANES, escaped_len, place_quoted};
use ty_base::{BODY_BYTES, Delta, Kind, MESSAGE_DELTAS, Text};

// The most bytes of texts for which there is room without measuring them.
const LIGHT_BYTES: usize = 65_536;

// Room for the body: as if each byte of light texts had an escape of six bytes, and exactly as much
// as there must be where they are heavier.
pub(crate) fn room(deltas: &[Delta]) -> usize
    requires some { 0 < length deltas.now }
    requires most { length deltas.now ≤ MESSAGE_DELTAS }
    requires limits { deltas_fit deltas.now ≡ true }
    ensures enough { length (body (Kvs deltas.now)) ≤ result }
    ensures fits { nat_le result BODY_BYTES ≡ nat_le (length (body (Kvs deltas.now))) BODY_BYTES }
    ensures utf8 { AllByRecursion DeltaHasUtf8 deltas.now }
{
    let weight = weigh(deltas);
    if weight > LIGHT_BYTES {
        return kvs_len(deltas);
    }
    6 * weight + 39 * deltas.len() + 20
}

fn weigh(deltas: &[Delta]) -> usize
    requires most { length deltas.now ≤ MESSAGE_DELTAS }
    requires limits { deltas_fit deltas.now ≡ true }
    ensures weight { result ≡ sum_by weight_of_delta deltas.now }
    ensures utf8 { AllByRecursion DeltaHasUtf8 deltas.now }
{
    let mut weight = 0;
    for delta in deltas {
        weight += weight_of(delta);
    }
    weight
}

// The length of the body.
fn kvs_len(deltas: &[Delta]) -> usize
    requires some { 0 < length deltas.now }
    requires most { length deltas.now ≤ MESSAGE_DELTAS }
    requires limits { deltas_fit deltas.now ≡ true }
    ensures len { result ≡ length (body (Kvs deltas.now)) }
    ensures utf8 { AllByRecursion DeltaHasUtf8 deltas.now }
{
    let mut len = b"{\"kvs\":[".len() + b"\"m\":\"kvs\"}".len();
    for delta in deltas {
        len += delta_len(delta) + 1;
    }
    len + 1
}

fn delta_len(delta: &Delta) -> usize
    requires { delta_passes key_fits value_fits delta.now ≡ true }
    ensures len { result ≡ length (delta_text delta.now) }
    ensures bound { result ≤ 7000000 }
    ensures utf8 { DeltaHasUtf8 delta.now }
{
    let key = escaped_len(delta.key.bytes());
    let kind = kind_text(delta.kind).len();
    key + kind + value_text_len(&delta.value) + 20
}

fn value_text_len(value: &Option<Text>) -> usize
    requires { option_passes value_fits value.now ≡ true }
    ensures len { result ≡ length (value_text value.now) }
    ensures bound { result ≤ 6500000 }
    ensures utf8 { ValueHasUtf8 value.now }
{
    match value {
        Some(value) => escaped_len(value.bytes()) + 11,
        None => 0,
    }
}

// Puts the body at a place of a buffer with room up to `most`, and lengthens it as far as that goes.
pub(crate) fn append_kvs(out: &mut Vec<u8>, at: usize, deltas: &[Delta], most: usize) -> usize
    requires some { 0 < length deltas.now }
    requires within { at ≤ length out.old.items }
    requires room { at + length (body (Kvs deltas.now)) + LANES ≤ most }
    requires most { most ≤ vec_capacity out.old }
    ensures { Continued out.old.items out.new.items at (body (Kvs deltas.now)) result }
{
    let mut end = append_delta(out, at, b"{\"kvs\":[", &deltas[0], most);
    let mut count = 1;
    while count < deltas.len() {
        end = append_delta(out, end, b",", &deltas[count], most);
        count += 1;
    }
    append_text(out, end, b"],\"m\":\"kvs\"}")
}

fn append_text(out: &mut Vec<u8>, at: usize, text: &[u8]) -> usize
    requires within { at ≤ length out.old.items }
    requires room { at + length text.now ≤ vec_capacity out.old }
    ensures { Continued out.old.items out.new.items at text.now result }
{
    lengthen(out, at + text.len());
    place(out.as_mut_slice(), at, text)
}

// Puts what stands before a delta, and the delta.
fn append_delta(out: &mut Vec<u8>, at: usize, before: &[u8], delta: &Delta, most: usize) -> usize
    requires short { length before.now ≤ 8 }
    requires within { at ≤ length out.old.items }
    requires room { at + (length before.now + length (delta_text delta.now)) + LANES ≤ most }
    requires most { most ≤ vec_capacity out.old }
    ensures put { Continued out.old.items out.new.items at (before.now ++ delta_text delta.now) result }
    ensures capacity { vec_capacity out.old ≤ vec_capacity out.new }
{
    lengthen(out, delta_end(at, delta, most));
    place_behind(out.as_mut_slice(), at, before, delta)
}

fn place_behind(buf: &mut [u8], at: usize, before: &[u8], delta: &Delta) -> usize
    requires { at + (length before.now + length (delta_text delta.now)) + LANES ≤ length buf.old }
    ensures { Placed buf.old buf.new at (before.now ++ delta_text delta.now) result }
{
    let at = place(buf, at, before);
    place_delta(buf, at, delta)
}

// How far a buffer is lengthened for a delta behind up to 8 bytes: as if each byte of a light one
// had an escape of six bytes, and for a heavy one as far as there is room.
fn delta_end(at: usize, delta: &Delta, most: usize) -> usize
    requires { at ≤ most }
    ensures most { result ≤ most }
    ensures enough { (n : ℕ) → n ≤ most → n ≤ at + (8 + length (delta_text delta.now) + LANES)
        → n ≤ result }
{
    let weight = weight_of(delta);
    if weight > LIGHT_BYTES {
        return most;
    }
    at + (most - at).min(6 * weight + 63)
}

// Puts the text of one delta.
pub(crate) fn place_delta(buf: &mut [u8], at: usize, delta: &Delta) -> usize
    requires { at + length (delta_text delta.now) + LANES ≤ length buf.old }
    ensures { Placed buf.old buf.new at (delta_text delta.now) result }
{
    let at = place(buf, at, b"{\"key\":");
    let at = place_quoted(buf, at, delta.key.bytes());
    let at = place(buf, at, b",\"type\":\"");
    let at = place(buf, at, kind_text(delta.kind).as_bytes());
    let at = place(buf, at, b"\"");
    let at = place_value(buf, at, &delta.value);
    place(buf, at, b"}")
}

fn place_value(buf: &mut [u8], at: usize, value: &Option<Text>) -> usize
    requires { at + length (value_text value.now) + LANES ≤ length buf.old }
    ensures { Placed buf.old buf.new at (value_text value.now) result }
{
    match value {
        Some(value) => {
            let at = place(buf, at, b",\"value\":");
            place_quoted(buf, at, value.bytes())
        }
        None => at,
    }
}

pub(crate) fn kind_text(kind: Kind) -> &'static str
    ensures { result.now ≡ kind_word kind }
{
    match kind {
        Kind::New => "new",
        Kind::Updated => "updated",
        Kind::Deleted => "deleted",
    }
}
