// A message's frame. A KVs message is written where it will stand, the others by `json`'s writer.
ghost use Rattle.std.specs.Prelude.{◌≡◌, ◌+◌, ◌≤◌, ◌<◌, ◌++◌, length, drop, flat_map, nat_le, vec_len, vec_capacity, IfOk, OnOk, OnErr, true};
ghost use Rattle.std.specs.Int.{to_be_bytes, w32};
ghost use Rattle.std.specs.Str.{IsUtf8};
ghost use Rattle.json.specs.Filled.{Placed};
ghost use Rattle.ty_wire.specs.Wire.{IsWire, body, frame, message_fits, parts_fit as parts, DeltaHasUtf8, ValueHasUtf8};
ghost use Rattle.ty_base.specs.Passing.{delta_passes, option_passes};
ghost use Rattle.ty_base.specs.Limits.{key_fits, value_fits as short_value, deltas_fit};
ghost use Rattle.ty_wire.specs.steps.Tokens.{msg_tokens, kvs_tokens, delta_tokens, number_tokens, value_tokens};
ghost use Rattle.ty_wire.specs.declared.message.Msg.TheVariants.{ClientHello, Kvs, Status as StatusMsg};

use crate::frame::HEAD_BYTES;
use crate::kvs::{append_kvs, kind_text, room};
use crate::message::Msg;
use crate::place::lengthen;
use crate::quoted::LANES;
use json::Writer;
use std::alloc::Global;
use ty_base::{
    BODY_BYTES, Delta, KEY_BYTES, MESSAGE_DELTAS, NoMemory, Status, Text, VALUE_BYTES, status_text,
};

/// Whether a message has a frame. A KVs message has 1 to `MESSAGE_DELTAS` deltas with keys of at
/// most `KEY_BYTES` and values of at most `VALUE_BYTES`, and a body has at most `BODY_BYTES`.
pub fn fits(alloc: Global, msg: &Msg) -> Result<bool, NoMemory>
    ensures { IfOk result (λ b. b ≡ message_fits msg.now) }
{
    if !parts_fit(msg) {
        return Ok(false);
    }
    has_short_body(alloc, msg)
}

// Whether a body is within its limit. The room for a message of deltas is where the body is.
fn has_short_body(alloc: Global, msg: &Msg) -> Result<bool, NoMemory>
    requires { parts msg.now ≡ true }
    ensures { IfOk result (λ b. b ≡ nat_le (length (body msg.now)) BODY_BYTES) }
{
    match msg {
        Msg::Kvs(deltas) => Ok(room(deltas.as_slice()) <= BODY_BYTES),
        msg => {
            let text = body_of(alloc, msg)?;
            Ok(text.as_slice().len() <= BODY_BYTES)
        }
    }
}

/// Appends a message's frame. Want of memory leaves what was there.
pub fn write(alloc: Global, msg: &Msg, out: &mut Vec<u8>) -> Result<(), NoMemory>
    requires { message_fits msg.now ≡ true }
    ensures ok { OnOk result (out.new.items ≡ out.old.items ++ frame msg.now) }
    ensures wire { OnOk result (IsWire msg.now) }
    ensures err { OnErr result (out.new.items ≡ out.old.items) }
{
    match msg {
        Msg::Kvs(deltas) => write_deltas(deltas.as_slice(), out),
        msg => {
            let text = body_of(alloc, msg)?;
            append_framed(&text, out)
        }
    }
}

// The same for the KVs message of these deltas.
pub(crate) fn write_deltas(deltas: &[Delta], out: &mut Vec<u8>) -> Result<(), NoMemory>
    requires { message_fits (Kvs deltas.now) ≡ true }
    ensures ok { OnOk result (out.new.items ≡ out.old.items ++ frame (Kvs deltas.now)) }
    ensures wire { OnOk result (IsWire (Kvs deltas.now)) }
    ensures err { OnErr result (out.new.items ≡ out.old.items) }
{
    let at = out.as_slice().len();
    let room = HEAD_BYTES + room(deltas) + LANES;
    out.reserve(room)?;
    append_frame(out, deltas, at + room);
    Ok(())
}

// Appends the body, and puts its length in front of it. The buffer has room up to `most`.
fn append_frame(out: &mut Vec<u8>, deltas: &[Delta], most: usize)
    requires some { 0 < length deltas.now }
    requires short { length (body (Kvs deltas.now)) ≤ BODY_BYTES }
    requires room { vec_len out.old + (HEAD_BYTES + length (body (Kvs deltas.now)) + LANES) ≤ most }
    requires most { most ≤ vec_capacity out.old }
    ensures { out.new.items ≡ out.old.items ++ frame (Kvs deltas.now) }
{
    let at = out.len();
    lengthen(out, at + HEAD_BYTES);
    let end = append_kvs(out, at + HEAD_BYTES, deltas, most);
    put_len(out, at, end - at - HEAD_BYTES);
    out.truncate(end);
}

// Puts a length, and leaves what is behind it.
fn put_len(out: &mut Vec<u8>, at: usize, len: usize)
    requires short { len ≤ BODY_BYTES }
    requires room { at + HEAD_BYTES ≤ length out.old.items }
    ensures placed { Placed out.old.items out.new.items at (to_be_bytes w32 len) (at + HEAD_BYTES) }
    ensures behind { drop (at + HEAD_BYTES) out.new.items ≡ drop (at + HEAD_BYTES) out.old.items }
{
    place_len(out.as_mut_slice(), at, len);
}

fn place_len(buf: &mut [u8], at: usize, len: usize)
    requires short { len ≤ BODY_BYTES }
    requires room { at + HEAD_BYTES ≤ length buf.old }
    ensures placed { Placed buf.old buf.new at (to_be_bytes w32 len) (at + HEAD_BYTES) }
    ensures behind { drop (at + HEAD_BYTES) buf.new ≡ drop (at + HEAD_BYTES) buf.old }
{
    buf[at..at + HEAD_BYTES].copy_from_slice(&(len as u32).to_be_bytes());
}

// Appends a body behind its length.
fn append_framed(text: &[u8], out: &mut Vec<u8>) -> Result<(), NoMemory>
    requires { length text.now ≤ BODY_BYTES }
    ensures ok { OnOk result (out.new.items
        ≡ out.old.items ++ (to_be_bytes w32 (length text.now) ++ text.now)) }
    ensures err { OnErr result (out.new.items ≡ out.old.items) }
{
    let len = (text.len() as u32).to_be_bytes();
    out.reserve(HEAD_BYTES + text.len())?;
    out.extend_from_slice(&len).unwrap();
    out.extend_from_slice(text).unwrap();
    Ok(())
}

// The body of a message.
pub(crate) fn body_of(alloc: Global, msg: &Msg) -> Result<Vec<u8>, NoMemory>
    ensures body { IfOk result (λ v. v.items ≡ body msg.now) }
    ensures utf8 { IfOk result (λ _. IsUtf8 (body msg.now)) }
{
    let mut writer = Writer::new(Vec::new(alloc));
    put_msg(&mut writer, msg)?;
    Ok(writer.into_inner())
}

fn put_msg(writer: &mut Writer, msg: &Msg) -> Result<(), NoMemory>
    ensures tokens { OnOk result (writer.new.tokens ≡ writer.old.tokens ++ msg_tokens msg.now) }
    ensures before { OnOk result (writer.new.before ≡ writer.old.before) }
{
    match msg {
        Msg::ClientHello { version, host } => put_hello(writer, *version, host.as_str()),
        Msg::ServerHello { version } => put_number(writer, "server_hello", "version", *version),
        Msg::Kvs(deltas) => put_kvs(writer, deltas.as_slice()),
        Msg::Status(status) => put_status(writer, *status),
        Msg::Crumb { n } => put_number(writer, "crumb", "n", *n),
        Msg::Ping { ts } => put_number(writer, "ping", "ts", *ts),
        Msg::Pong { ts } => put_number(writer, "pong", "ts", *ts),
    }
}

fn put_hello(writer: &mut Writer, version: u64, host: &str) -> Result<(), NoMemory>
    ensures tokens { OnOk result (writer.new.tokens
        ≡ writer.old.tokens ++ msg_tokens (ClientHello version host.now)) }
    ensures before { OnOk result (writer.new.before ≡ writer.old.before) }
{
    writer.begin_object()?;
    writer.key("host")?;
    writer.string(host)?;
    writer.key("m")?;
    writer.string("client_hello")?;
    writer.key("version")?;
    writer.u64(version)?;
    writer.end_object()?;
    Ok(())
}

// A message of one number.
fn put_number(writer: &mut Writer, name: &str, field: &str, n: u64) -> Result<(), NoMemory>
    ensures tokens { OnOk result (writer.new.tokens
        ≡ writer.old.tokens ++ number_tokens name.now field.now n) }
    ensures before { OnOk result (writer.new.before ≡ writer.old.before) }
{
    writer.begin_object()?;
    writer.key("m")?;
    writer.string(name)?;
    writer.key(field)?;
    writer.u64(n)?;
    writer.end_object()?;
    Ok(())
}

fn put_status(writer: &mut Writer, status: Status) -> Result<(), NoMemory>
    ensures tokens { OnOk result (writer.new.tokens
        ≡ writer.old.tokens ++ msg_tokens (StatusMsg status)) }
    ensures before { OnOk result (writer.new.before ≡ writer.old.before) }
{
    writer.begin_object()?;
    writer.key("m")?;
    writer.string("status")?;
    writer.key("status")?;
    writer.string(status_text(status))?;
    writer.end_object()?;
    Ok(())
}

fn put_kvs(writer: &mut Writer, deltas: &[Delta]) -> Result<(), NoMemory>
    ensures tokens { OnOk result (writer.new.tokens
        ≡ writer.old.tokens ++ kvs_tokens (flat_map delta_tokens deltas.now)) }
    ensures before { OnOk result (writer.new.before ≡ writer.old.before) }
{
    writer.begin_object()?;
    writer.key("kvs")?;
    writer.begin_array()?;
    put_deltas(writer, deltas)?;
    writer.end_array()?;
    writer.key("m")?;
    writer.string("kvs")?;
    writer.end_object()?;
    Ok(())
}

fn put_deltas(writer: &mut Writer, deltas: &[Delta]) -> Result<(), NoMemory>
    ensures tokens { OnOk result (writer.new.tokens
        ≡ writer.old.tokens ++ flat_map delta_tokens deltas.now) }
    ensures before { OnOk result (writer.new.before ≡ writer.old.before) }
{
    for delta in deltas {
        put_delta(writer, delta)?;
    }
    Ok(())
}

fn put_delta(writer: &mut Writer, delta: &Delta) -> Result<(), NoMemory>
    ensures tokens { OnOk result (writer.new.tokens ≡ writer.old.tokens ++ delta_tokens delta.now) }
    ensures before { OnOk result (writer.new.before ≡ writer.old.before) }
{
    writer.begin_object()?;
    writer.key("key")?;
    writer.string(delta.key.as_str())?;
    writer.key("type")?;
    writer.string(kind_text(delta.kind))?;
    put_rest(writer, &delta.value)
}

// The value, where there is one, and the closing bracket.
fn put_rest(writer: &mut Writer, value: &Option<Text>) -> Result<(), NoMemory>
    ensures tokens { OnOk result (writer.new.tokens
        ≡ writer.old.tokens ++ value_tokens value.now) }
    ensures before { OnOk result (writer.new.before ≡ writer.old.before) }
{
    if let Some(value) = value {
        writer.key("value")?;
        writer.string(value.as_str())?;
    }
    writer.end_object()?;
    Ok(())
}

// Whether a message fits but for the length of its body. A number behind a reference is known to
// have 64 bits only once it is read, so each is.
pub(crate) fn parts_fit(msg: &Msg) -> bool
    ensures { result ≡ parts msg.now }
{
    match msg {
        Msg::Kvs(deltas) => {
            let deltas = deltas.as_slice();
            !deltas.is_empty() && deltas.len() <= MESSAGE_DELTAS && all_fit(deltas)
        }
        Msg::ClientHello { version, .. } | Msg::ServerHello { version } => {
            let _version = *version;
            true
        }
        Msg::Status(_) => true,
        Msg::Crumb { n } => {
            let _n = *n;
            true
        }
        Msg::Ping { ts } | Msg::Pong { ts } => {
            let _ts = *ts;
            true
        }
    }
}

fn all_fit(deltas: &[Delta]) -> bool
    ensures { result ≡ deltas_fit deltas.now }
{
    deltas.iter().all(|d| fits_delta(d))
}

pub(crate) fn fits_delta(delta: &Delta) -> bool
    ensures fits { result ≡ delta_passes key_fits short_value delta.now }
    ensures utf8 { DeltaHasUtf8 delta.now }
{
    let short = value_fits(&delta.value);
    delta.key.bytes().len() <= KEY_BYTES && short
}

fn value_fits(value: &Option<Text>) -> bool
    ensures fits { result ≡ option_passes short_value value.now }
    ensures utf8 { ValueHasUtf8 value.now }
{
    match value {
        Some(value) => value.bytes().len() <= VALUE_BYTES,
        None => true,
    }
}
