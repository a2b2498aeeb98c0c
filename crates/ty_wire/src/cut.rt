// How deltas are cut into KVs messages.
ghost use Rattle.std.specs.Prelude.{◌≡◌, ◌≤◌, ◌<◌, ◌+◌, ◌∷◌, ◌&&◌, length, take, drop, flat_map, nat_lt, nat_le, true, IfOk};
ghost use Rattle.std.specs.List.{AllByRecursion};
ghost use Rattle.ty_base.specs.Limits.{deltas_fit};
ghost use Rattle.ty_wire.specs.Wire.{message_fits, DeltaHasUtf8};
ghost use Rattle.ty_wire.specs.Cut.{weight as weight_of_delta, cut_deltas};
ghost use Rattle.ty_wire.specs.declared.message.Msg.TheVariants.{Kvs};

use std::alloc::Global;
use ty_base::{Delta, Deltas, MESSAGE_DELTAS, NoMemory, Text, VALUE_BYTES};

/// The deltas cut into KVs messages, in order: a message takes its first delta, and the next one
/// where it has fewer than `MESSAGE_DELTAS` and their keys and values have at most `VALUE_BYTES`
/// together.
pub fn cut_kvs(alloc: Global, deltas: &Deltas) -> Result<Vec<Deltas>, NoMemory>
    ensures cut { IfOk result (λ v. v.items ≡ cut_deltas deltas.now) }
    ensures joined { IfOk result (λ v. flat_map (λ part. part) v.items ≡ deltas.now) }
    ensures fit { IfOk result (λ v. deltas_fit deltas.now ≡ true
        → AllByRecursion (λ part. message_fits (Kvs part) ≡ true) v.items) }
{
    let deltas = deltas.as_slice();
    let mut parts = Vec::new(alloc);
    let mut from = 0;
    while from < deltas.len() {
        let rest = &deltas[from..];
        let len = front_len(rest);
        let part = copy_deltas(alloc, &rest[..len])?;
        parts.push(part)?;
        from += len;
    }
    Ok(parts)
}

// How many deltas the first message has.
pub(crate) fn front_len(deltas: &[Delta]) -> usize
    requires { 0 < length deltas.now }
    ensures some { 0 < result }
    ensures within { result ≤ length deltas.now }
    ensures cut { cut_deltas deltas.now
        ≡ take result deltas.now ∷ cut_deltas (drop result deltas.now) }
{
    let mut weight = weight_of(&deltas[0]);
    let mut len = 1;
    while len < deltas.len() {
        let next = &deltas[len];
        if !is_taken(len, weight, next) {
            return len;
        }
        weight += weight_of(next);
        len += 1;
    }
    len
}

// Whether a message of so many deltas, with so many bytes, takes the next one.
fn is_taken(len: usize, weight: usize, next: &Delta) -> bool
    ensures { result ≡ (nat_lt len MESSAGE_DELTAS && nat_le (weight + weight_of_delta next.now) VALUE_BYTES) }
{
    len < MESSAGE_DELTAS && weight <= VALUE_BYTES && weight_of(next) <= VALUE_BYTES - weight
}

// How many bytes a delta's key and value have together.
pub(crate) fn weight_of(delta: &Delta) -> usize
    ensures value { result ≡ weight_of_delta delta.now }
    ensures utf8 { DeltaHasUtf8 delta.now }
{
    let key = delta.key.bytes();
    match &delta.value {
        Some(value) => key.len() + value.bytes().len(),
        None => key.len(),
    }
}

fn copy_deltas(alloc: Global, deltas: &[Delta]) -> Result<Deltas, NoMemory>
    ensures { IfOk result (λ ds. ds ≡ deltas.now) }
{
    let mut copies = Deltas::new(alloc);
    for delta in deltas {
        let copy = copy_delta(alloc, delta)?;
        copies.push(copy)?;
    }
    Ok(copies)
}

fn copy_delta(alloc: Global, delta: &Delta) -> Result<Delta, NoMemory>
    ensures { IfOk result (λ d. d ≡ delta.now) }
{
    let key = delta.key.copy(alloc)?;
    let value = copy_value(alloc, &delta.value)?;
    Ok(Delta {
        key,
        kind: delta.kind,
        value,
    })
}

fn copy_value(alloc: Global, value: &Option<Text>) -> Result<Option<Text>, NoMemory>
    ensures { IfOk result (λ v. v ≡ value.now) }
{
    match value {
        Some(value) => Ok(Some(value.copy(alloc)?)),
        None => Ok(None),
    }
}
