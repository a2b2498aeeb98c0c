// A KVs message from its body, read from left to right as the one spelling has it. What this way
// doesn't find is left to whoever asks.
ghost use Rattle.std.specs.Prelude.{◌≡◌, ◌≤◌, ◌++◌, codes, length, IfOk, IfSome, IsTrue};
ghost use Rattle.ty_wire.specs.Wire.{Spells, delta_text, kind_text};
ghost use Rattle.ty_wire.specs.steps.Spelled.{AreSpelled, IsWithValue};

use crate::encode::fits_delta;
use crate::message::Msg;
use crate::unquoted::{behind, unquoted};
use std::alloc::Global;
use ty_base::{BODY_BYTES, Delta, Deltas, Kind, MESSAGE_DELTAS, NoMemory, Text};

// A delta, and what is behind its text.
#[derive(Drop)]
struct Spelled<'a> {
    delta: Delta,
    rest: &'a [u8],
}

// The KVs message that these bytes spell.
pub(crate) fn spelled_kvs(alloc: Global, bytes: &[u8]) -> Result<Option<Msg>, NoMemory>
    requires { length bytes.now ≤ BODY_BYTES }
    ensures { IfOk result (λ o. IfSome o (λ m. Spells bytes.now m)) }
{
    let Some(rest) = behind(bytes, b"{\"kvs\":[") else {
        return Ok(None);
    };
    match spelled_deltas(alloc, rest)? {
        Some(deltas) => Ok(Some(Msg::Kvs(deltas))),
        None => Ok(None),
    }
}

// The deltas up to the body's end.
fn spelled_deltas(alloc: Global, bytes: &[u8]) -> Result<Option<Deltas>, NoMemory>
    ensures { IfOk result (λ o. IfSome o (λ ds. AreSpelled bytes.now ds)) }
{
    let mut scratch = Vec::new(alloc);
    let mut deltas = Deltas::new(alloc);
    let mut rest = bytes;
    while deltas.len() < MESSAGE_DELTAS {
        let Some(found) = spelled_delta(alloc, &mut scratch, rest)? else {
            return Ok(None);
        };
        let Spelled { delta, rest: after } = found;
        if !fits_delta(&delta) {
            return Ok(None);
        }
        deltas.push(delta)?;
        if is_end(after) {
            return Ok(Some(deltas));
        }
        let Some(next) = behind(after, b",") else {
            return Ok(None);
        };
        rest = next;
    }
    Ok(None)
}

// Whether these bytes are what ends a body.
fn is_end(bytes: &[u8]) -> bool
    ensures { IsTrue result → bytes.now ≡ codes "],\"m\":\"kvs\"}" }
{
    bytes == b"],\"m\":\"kvs\"}".as_slice()
}

// The delta at the front.
fn spelled_delta<'a>(
    alloc: Global,
    scratch: &mut Vec<u8>,
    bytes: &'a [u8],
) -> Result<Option<Spelled<'a>>, NoMemory>
    ensures { IfOk result (λ o. IfSome o (λ s. bytes.now ≡ delta_text s.delta ++ s.rest.now)) }
{
    let Some(rest) = behind(bytes, b"{\"key\":") else {
        return Ok(None);
    };
    let Some(key) = unquoted(alloc, scratch, rest)? else {
        return Ok(None);
    };
    let Some(rest) = behind(key.rest, b",\"type\":\"") else {
        return Ok(None);
    };
    let Some((kind, rest)) = spelled_kind(rest) else {
        return Ok(None);
    };
    with_value(alloc, scratch, key.text, kind, rest)
}

// The delta of this key and kind, whose value and closing bracket stand at the front.
fn with_value<'a>(
    alloc: Global,
    scratch: &mut Vec<u8>,
    key: Text,
    kind: Kind,
    bytes: &'a [u8],
) -> Result<Option<Spelled<'a>>, NoMemory>
    ensures { IfOk result (λ o. IfSome o (λ s. IsWithValue key kind bytes.now s.delta s.rest.now)) }
{
    match kind {
        Kind::Deleted => {
            let Some(rest) = behind(bytes, b"}") else {
                return Ok(None);
            };
            let delta = Delta {
                key,
                kind,
                value: None,
            };
            Ok(Some(Spelled { delta, rest }))
        }
        Kind::New | Kind::Updated => {
            let Some(rest) = behind(bytes, b",\"value\":") else {
                return Ok(None);
            };
            let Some(value) = unquoted(alloc, scratch, rest)? else {
                return Ok(None);
            };
            let Some(rest) = behind(value.rest, b"}") else {
                return Ok(None);
            };
            let delta = Delta {
                key,
                kind,
                value: Some(value.text),
            };
            Ok(Some(Spelled { delta, rest }))
        }
    }
}

// The kind at the front, with the quote behind it.
fn spelled_kind(bytes: &[u8]) -> Option<(Kind, &[u8])>
    ensures { IfSome result (λ s. bytes.now ≡ kind_text s.0 ++ (codes "\"" ++ s.1.now)) }
{
    if let Some(rest) = behind(bytes, b"updated\"") {
        Some((Kind::Updated, rest))
    } else if let Some(rest) = behind(bytes, b"new\"") {
        Some((Kind::New, rest))
    } else if let Some(rest) = behind(bytes, b"deleted\"") {
        Some((Kind::Deleted, rest))
    } else {
        None
    }
}
