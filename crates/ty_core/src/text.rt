// The lines of a report.
ghost use Rattle.std.specs.Prelude.{◌≡◌, ◌++◌, string_bytes, codes, IfOk, OnOk};
ghost use Rattle.json.specs.Print.{quoted as as_string};
ghost use Rattle.ty_map.specs.Shape.{pairs as pairs_of};
ghost use Rattle.ty_client.specs.Text.{standing, pair_line, pair_lines};
ghost use Rattle.ty_core.specs.Text.{client_line, number_line, drop_line, map_lines, still_lines, lines, report_text as text_of};

use crate::told::Told;
use json::Writer;
use std::alloc::Global;
use ty_base::{NoMemory, Text, status_text};
use ty_client::At;
use ty_map::Pairs;

// The lines of all that was told.
pub(crate) fn report_text(alloc: Global, told: &[Told]) -> Result<Text, NoMemory>
    ensures { IfOk result (λ t. t ≡ text_of told.now) }
{
    let mut out = String::new(alloc);
    for one in told {
        push_lines(alloc, &mut out, one)?;
    }
    Ok(Text::from_string(out))
}

fn push_lines(alloc: Global, out: &mut String, told: &Told) -> Result<(), NoMemory>
    ensures { OnOk result (string_bytes out.new ≡ string_bytes out.old ++ lines told.now) }
{
    match told {
        Told::Published(at) => push_published(out, at),
        Told::Ended(n) => push_ended(out, *n),
        Told::Opened(c) => push_client(out, *c, "open"),
        Told::Present(c) => push_client(out, *c, "present"),
        Told::Heard(c, n) => push_number(out, *c, "heard", *n),
        Told::Joined(c, n) => push_number(out, *c, "joined", *n),
        Told::Stepped(c, n) => push_number(out, *c, "step", *n),
        Told::Pending(c, n) => push_number(out, *c, "pending", *n),
        Told::Waiting(c) => push_client(out, *c, "waiting"),
        Told::TooSlow(c, at, now) => push_drop(out, *c, "too-slow", *at, *now),
        Told::Rebuilt(c, at) => push_map(alloc, out, *c, "at", at),
        Told::Still(c, held) => push_still(alloc, out, *c, held),
        Told::Lost(c) => push_client(out, *c, "cut"),
        Told::NoHello(c, opened, now) => push_drop(out, *c, "no-hello", *opened, *now),
        Told::NoPong(c, heard, now) => push_drop(out, *c, "no-pong", *heard, *now),
        Told::Absent(c) => push_client(out, *c, "absent"),
    }
}

fn push_published(out: &mut String, at: &At) -> Result<(), NoMemory>
    ensures { OnOk result (string_bytes out.new ≡ string_bytes out.old ++ (codes "crumb " ++ standing at.now)) }
{
    out.push_str("crumb ")?;
    push_standing(out, at)
}

fn push_ended(out: &mut String, n: u64) -> Result<(), NoMemory>
    ensures { OnOk result (string_bytes out.new ≡ string_bytes out.old ++ lines (Told.Ended n)) }
{
    write!(out, "end {n}\n")?;
    Ok(())
}

fn push_client(out: &mut String, client: u64, what: &str) -> Result<(), NoMemory>
    ensures { OnOk result (string_bytes out.new ≡ string_bytes out.old ++ client_line client what.now) }
{
    write!(out, "client {client} {what}\n")?;
    Ok(())
}

fn push_number(out: &mut String, client: u64, what: &str, n: u64) -> Result<(), NoMemory>
    ensures { OnOk result (string_bytes out.new ≡ string_bytes out.old ++ number_line client what.now n) }
{
    write!(out, "client {client} {what} {n}\n")?;
    Ok(())
}

fn push_drop(out: &mut String, client: u64, why: &str, since: u64, now: u64) -> Result<(), NoMemory>
    ensures { OnOk result (string_bytes out.new ≡ string_bytes out.old ++ drop_line client why.now since now) }
{
    write!(out, "client {client} dropped {why} {since} {now}\n")?;
    Ok(())
}

fn push_still(
    alloc: Global,
    out: &mut String,
    client: u64,
    held: &Option<At>,
) -> Result<(), NoMemory>
    ensures { OnOk result (string_bytes out.new ≡ string_bytes out.old ++ still_lines client held.now) }
{
    match held {
        Some(at) => push_map(alloc, out, client, "still", at),
        None => push_client(out, client, "still none"),
    }
}

fn push_map(
    alloc: Global,
    out: &mut String,
    client: u64,
    what: &str,
    at: &At,
) -> Result<(), NoMemory>
    ensures { OnOk result (string_bytes out.new ≡ string_bytes out.old ++ map_lines client what.now at.now) }
{
    write!(out, "client {client} {what} ")?;
    push_standing(out, at)?;
    push_pairs(alloc, out, &at.pairs)
}

// Number, status and count of pairs.
fn push_standing(out: &mut String, at: &At) -> Result<(), NoMemory>
    ensures { OnOk result (string_bytes out.new ≡ string_bytes out.old ++ standing at.now) }
{
    let number = at.number;
    let status = status_text(at.status);
    let count = at.pairs.len();
    write!(out, "{number} {status} {count}\n")?;
    Ok(())
}

fn push_pairs(alloc: Global, out: &mut String, pairs: &Pairs) -> Result<(), NoMemory>
    ensures { OnOk result (string_bytes out.new ≡ string_bytes out.old ++ pair_lines (pairs_of pairs.now)) }
{
    let walk = pairs.walk(alloc)?;
    for (key, value) in walk {
        push_pair(alloc, out, key, value)?;
    }
    Ok(())
}

fn push_pair(alloc: Global, out: &mut String, key: &Text, value: &Text) -> Result<(), NoMemory>
    ensures { OnOk result (string_bytes out.new ≡ string_bytes out.old ++ pair_line (key.now, value.now)) }
{
    let key = quoted(alloc, key)?;
    let value = quoted(alloc, value)?;
    out.push_str("{\"key\":")?;
    out.push_str(key.as_str())?;
    out.push_str(",\"value\":")?;
    out.push_str(value.as_str())?;
    out.push_str("}\n")?;
    Ok(())
}

// A JSON string, with the shortest escapes (RFC 8259, section 7).
fn quoted(alloc: Global, text: &Text) -> Result<String, NoMemory>
    ensures { IfOk result (λ t. string_bytes t ≡ as_string text.now) }
{
    let mut writer = Writer::new(Vec::new(alloc));
    writer.string(text.as_str())?;
    let bytes = writer.into_inner();
    match String::from_utf8(bytes) {
        Ok(text) => Ok(text),
        Err(_) => unreachable!(),
    }
}
