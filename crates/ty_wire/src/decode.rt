// A message from its body.
ghost use Rattle.std.specs.Prelude.{◌≡◌, ◌≤◌, ◌&&◌, length, IfOk, IfSome, option_map};
ghost use Rattle.std.specs.Str.{IsUtf8, bytes_eq};
ghost use Rattle.serde_json.specs.Read.{read};
ghost use Rattle.serde_json.specs.View.{view, items_view};
ghost use Rattle.ty_wire.specs.Wire.{Spells, body, parts_fit as parts};
ghost use Rattle.ty_wire.specs.steps.Members.{text_at as text_of, number_at as number_of, read_kind as kind_of, read_name as name_of, named, kind_at, small_of, hello_of, kvs_of, delta_in, delta_with, deltas_of, msg_by, msg_of};
ghost use Rattle.ty_wire.specs.steps.Bodies.{IsBody};

use crate::decode_fast::spelled_kvs;
use crate::encode::{body_of, parts_fit};
use crate::message::Msg;
use serde_json::{Category, Value};
use std::alloc::Global;
use ty_base::{BODY_BYTES, Delta, Deltas, Kind, NoMemory, Text, read_status};

// What a body is.
#[derive(Drop)]
pub(crate) enum Body {
    Message(Msg),
    NotJson,
    Shape,
}

// What a body is. A KVs body is read as its one spelling first, which decides most.
pub(crate) fn read_body(alloc: Global, bytes: &[u8]) -> Result<Body, NoMemory>
    requires { length bytes.now ≤ BODY_BYTES }
    ensures { IfOk result (λ b. IsBody bytes.now b) }
{
    match spelled_kvs(alloc, bytes)? {
        Some(msg) => Ok(Body::Message(msg)),
        None => read_value(alloc, bytes),
    }
}

// What a body is, by the value that it is as JSON.
fn read_value(alloc: Global, bytes: &[u8]) -> Result<Body, NoMemory>
    requires { length bytes.now ≤ BODY_BYTES }
    ensures { IfOk result (λ b. IsBody bytes.now b) }
{
    match Value::from_slice(alloc, bytes) {
        Ok(value) => spelled_by(alloc, &value, bytes),
        Err(e) => match e.classify() {
            Category::Memory => Err(NoMemory),
            _ => Ok(Body::NotJson),
        },
    }
}

fn spelled_by(alloc: Global, value: &Value, bytes: &[u8]) -> Result<Body, NoMemory>
    requires utf8 { IsUtf8 bytes.now }
    requires value { read bytes.now ≡ Some (view value.now) }
    requires short { length bytes.now ≤ BODY_BYTES }
    ensures { IfOk result (λ b. IsBody bytes.now b) }
{
    match message_in(alloc, value)? {
        Some(msg) => {
            if is_spelled(alloc, &msg, bytes)? {
                Ok(Body::Message(msg))
            } else {
                Ok(Body::Shape)
            }
        }
        None => Ok(Body::Shape),
    }
}

// Whether these bytes are the message's spelling, if they are UTF-8 and within the limit of a body.
fn is_spelled(alloc: Global, msg: &Msg, bytes: &[u8]) -> Result<bool, NoMemory>
    ensures { IfOk result (λ b. b ≡ (parts msg.now && bytes_eq (body msg.now) bytes.now)) }
{
    if !parts_fit(msg) {
        return Ok(false);
    }
    let text = body_of(alloc, msg)?;
    Ok(text.as_slice() == bytes)
}

// The message that a JSON value tells, if it tells one.
fn message_in(alloc: Global, value: &Value) -> Result<Option<Msg>, NoMemory>
    ensures { IfOk result (λ m. m ≡ msg_of (view value.now)) }
{
    match name_in(value) {
        Some(name) => message_by(alloc, name, value),
        None => Ok(None),
    }
}

fn message_by(alloc: Global, name: Name, value: &Value) -> Result<Option<Msg>, NoMemory>
    ensures { IfOk result (λ m. m ≡ msg_by name (view value.now)) }
{
    match name {
        Name::Kvs => kvs_in(alloc, value),
        Name::ClientHello => hello_in(alloc, value),
        name => Ok(small_in(name, value)),
    }
}

#[derive(Clone, Copy)]
enum Name {
    ClientHello,
    ServerHello,
    Kvs,
    Status,
    Crumb,
    Ping,
    Pong,
}

fn name_in(value: &Value) -> Option<Name>
    ensures { result ≡ named (view value.now) }
{
    read_name(text_at(value, "m")?)
}

fn read_name(text: &str) -> Option<Name>
    ensures { result ≡ name_of text.now }
{
    if text == "kvs" {
        Some(Name::Kvs)
    } else if text == "crumb" {
        Some(Name::Crumb)
    } else if text == "status" {
        Some(Name::Status)
    } else if text == "ping" {
        Some(Name::Ping)
    } else if text == "pong" {
        Some(Name::Pong)
    } else if text == "client_hello" {
        Some(Name::ClientHello)
    } else if text == "server_hello" {
        Some(Name::ServerHello)
    } else {
        None
    }
}

fn small_in(name: Name, value: &Value) -> Option<Msg>
    ensures { result ≡ small_of name (view value.now) }
{
    match name {
        Name::ServerHello => Some(Msg::ServerHello {
            version: number_at(value, "version")?,
        }),
        Name::Status => Some(Msg::Status(read_status(text_at(value, "status")?.as_bytes())?)),
        Name::Crumb => Some(Msg::Crumb {
            n: number_at(value, "n")?,
        }),
        Name::Ping => Some(Msg::Ping {
            ts: number_at(value, "ts")?,
        }),
        Name::Pong => Some(Msg::Pong {
            ts: number_at(value, "ts")?,
        }),
        Name::Kvs | Name::ClientHello => None,
    }
}

fn hello_in(alloc: Global, value: &Value) -> Result<Option<Msg>, NoMemory>
    ensures { IfOk result (λ m. m ≡ hello_of (view value.now)) }
{
    match (number_at(value, "version"), text_at(value, "host")) {
        (Some(version), Some(host)) => {
            let host = Text::of(alloc, host)?;
            Ok(Some(Msg::ClientHello { version, host }))
        }
        _ => Ok(None),
    }
}

fn kvs_in(alloc: Global, value: &Value) -> Result<Option<Msg>, NoMemory>
    ensures { IfOk result (λ m. m ≡ kvs_of (view value.now)) }
{
    match value.get("kvs").and_then(Value::as_array) {
        Some(values) => {
            let deltas = deltas_in(alloc, values)?;
            Ok(deltas.map(Msg::Kvs))
        }
        None => Ok(None),
    }
}

fn deltas_in(alloc: Global, values: &[Value]) -> Result<Option<Deltas>, NoMemory>
    ensures { IfOk result (λ o. o ≡ deltas_of (items_view values.now)) }
{
    let mut deltas = Deltas::new(alloc);
    for value in values {
        match delta_in(alloc, value)? {
            Some(delta) => deltas.push(delta)?,
            None => return Ok(None),
        }
    }
    Ok(Some(deltas))
}

fn delta_in(alloc: Global, value: &Value) -> Result<Option<Delta>, NoMemory>
    ensures { IfOk result (λ o. o ≡ delta_in (view value.now)) }
{
    match (text_at(value, "key"), kind_in(value)) {
        (Some(key), Some(kind)) => delta_from(alloc, key, kind, text_at(value, "value")),
        _ => Ok(None),
    }
}

fn delta_from(
    alloc: Global,
    key: &str,
    kind: Kind,
    value: Option<&str>,
) -> Result<Option<Delta>, NoMemory>
    ensures { IfOk result (λ o. o ≡ delta_with key.now kind (option_map (λ s. s.now) value.entry)) }
{
    match (kind, value) {
        (Kind::Deleted, None) => {
            let key = Text::of(alloc, key)?;
            Ok(Some(Delta {
                key,
                kind,
                value: None,
            }))
        }
        (Kind::New | Kind::Updated, Some(value)) => {
            let key = Text::of(alloc, key)?;
            let value = Some(Text::of(alloc, value)?);
            Ok(Some(Delta { key, kind, value }))
        }
        _ => Ok(None),
    }
}

fn kind_in(value: &Value) -> Option<Kind>
    ensures { result ≡ kind_at (view value.now) }
{
    read_kind(text_at(value, "type")?)
}

fn read_kind(text: &str) -> Option<Kind>
    ensures { result ≡ kind_of text.now }
{
    if text == "new" {
        Some(Kind::New)
    } else if text == "updated" {
        Some(Kind::Updated)
    } else if text == "deleted" {
        Some(Kind::Deleted)
    } else {
        None
    }
}

fn text_at<'v>(value: &'v Value, key: &str) -> Option<&'v str>
    ensures { option_map (λ s. s.now) result ≡ text_of key.now (view value.now) }
{
    value.get(key).and_then(Value::as_str)
}

fn number_at(value: &Value, key: &str) -> Option<u64>
    ensures { result ≡ number_of key.now (view value.now) }
{
    value.get(key).and_then(Value::as_u64)
}
