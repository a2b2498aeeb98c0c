// The text of what was rebuilt, on its way to a sink.
ghost use Rattle.std.specs.Prelude.{◌≡◌, ◌≤◌, ◌++◌, codes, length, take, IfOk, OnOk, OnErr, IsErrOf};
ghost use Rattle.json.specs.Print.{quoted};
ghost use Rattle.ty_base.specs.Causes.{Rose};
ghost use Rattle.ty_base.specs.Fronts.{AppendsFront};
ghost use Rattle.ty_map.specs.Shape.{pairs as pairs_of};
ghost use Rattle.ty_client.specs.Text.{standing, pair_line, pair_lines, at_text, rebuilt_text};
ghost use Rattle.ty_client.specs.steps.Given.{Owes, Wrote};

use crate::at::At;
use json::Writer;
use std::alloc::Global;
use ty_base::{NoMemory, PIECE_BYTES, Sink, Text, give_all, print_u64, status_text};
use ty_map::Pairs;

// Why a text wasn't given whole.
#[derive(Clone, Copy, Debug, PartialEq, Eq)]
pub(crate) enum Unwritten {
    Sink,
    Memory,
}

// Gives the text of each, in parts of about `PIECE_BYTES`.
pub(crate) fn give_ats<K: Sink>(
    alloc: Global,
    brief: bool,
    ats: &[At],
    sink: &mut K,
) -> Result<(), Unwritten>
    ensures { Wrote result (K.seen sink.old).held (K.seen sink.new).held (K.seen sink.old).faults (K.seen sink.new).faults
        (rebuilt_text brief ats.now) }
{
    for at in ats {
        match give_at(alloc, brief, at, sink) {
            Ok(()) => {}
            Err(e) => return Err(e),
        }
    }
    Ok(())
}

fn give_at<K: Sink>(alloc: Global, brief: bool, at: &At, sink: &mut K) -> Result<(), Unwritten>
    ensures { Wrote result (K.seen sink.old).held (K.seen sink.new).held (K.seen sink.old).faults (K.seen sink.new).faults
        (at_text brief at.now) }
{
    let Ok(out) = heading(alloc, at) else {
        return Err(Unwritten::Memory);
    };
    if brief {
        return give(&out, sink);
    }
    give_pairs(alloc, out, &at.pairs, sink)
}

// Gives bytes and then the lines of the pairs.
fn give_pairs<K: Sink>(
    alloc: Global,
    bytes: Vec<u8>,
    pairs: &Pairs,
    sink: &mut K,
) -> Result<(), Unwritten>
    ensures { Wrote result (K.seen sink.old).held (K.seen sink.new).held (K.seen sink.old).faults (K.seen sink.new).faults
        (bytes.items ++ pair_lines (pairs_of pairs.now)) }
{
    let mut out = bytes;
    let Ok(walk) = pairs.walk(alloc) else {
        return Err(Unwritten::Memory);
    };
    for (key, value) in walk {
        match put_pair(out, key, value, sink) {
            Ok(next) => out = next,
            Err(e) => return Err(e),
        }
    }
    give(&out, sink)
}

// Puts a pair's line behind the bytes, and gives them once there are `PIECE_BYTES`. It gives back
// those that are left.
fn put_pair<K: Sink>(
    bytes: Vec<u8>,
    key: &Text,
    value: &Text,
    sink: &mut K,
) -> Result<Vec<u8>, Unwritten>
    ensures ok { IfOk result (λ left. Owes (K.seen sink.old).held (K.seen sink.new).held left.items
        (bytes.items ++ pair_line (key.now, value.now))) }
    ensures err { OnErr result (AppendsFront (K.seen sink.old).held (K.seen sink.new).held
        (bytes.items ++ pair_line (key.now, value.now))) }
    ensures cause { IsErrOf result Unwritten.Sink → Rose (K.seen sink.old).faults (K.seen sink.new).faults }
    ensures later { (K.seen sink.old).faults ≤ (K.seen sink.new).faults }
{
    let Ok(mut out) = with_pair(bytes, key, value) else {
        return Err(Unwritten::Memory);
    };
    if out.len() < PIECE_BYTES {
        return Ok(out);
    }
    let Ok(()) = give_all(sink, &out) else {
        return Err(Unwritten::Sink);
    };
    out.clear();
    Ok(out)
}

fn give<K: Sink>(bytes: &[u8], sink: &mut K) -> Result<(), Unwritten>
    ensures { Wrote result (K.seen sink.old).held (K.seen sink.new).held (K.seen sink.old).faults (K.seen sink.new).faults
        bytes.now }
{
    let Ok(()) = give_all(sink, bytes) else {
        return Err(Unwritten::Sink);
    };
    Ok(())
}

fn heading(alloc: Global, at: &At) -> Result<Vec<u8>, NoMemory>
    ensures { IfOk result (λ out. out.items ≡ codes "at " ++ standing at.now) }
{
    let mut out = Vec::new(alloc);
    out.extend_from_slice(b"at ")?;
    append_standing(at, &mut out)?;
    Ok(out)
}

/// Appends number, status and count of pairs, parted by spaces, and a line's end. Want of memory leaves what was there.
pub fn append_standing(at: &At, out: &mut Vec<u8>) -> Result<(), NoMemory>
    ensures ok { OnOk result (out.new.items ≡ out.old.items ++ standing at.now) }
    ensures err { OnErr result (out.new.items ≡ out.old.items) }
{
    let before = out.len();
    let written = write_standing(at, out);
    if written.is_err() {
        out.truncate(before);
    }
    written
}

// The same; want of memory leaves a part of it behind what was there.
fn write_standing(at: &At, out: &mut Vec<u8>) -> Result<(), NoMemory>
    ensures ok { OnOk result (out.new.items ≡ out.old.items ++ standing at.now) }
    ensures err { OnErr result (take (length out.old.items) out.new.items ≡ out.old.items) }
{
    print_u64(at.number, out)?;
    out.extend_from_slice(b" ")?;
    out.extend_from_slice(status_text(at.status).as_bytes())?;
    out.extend_from_slice(b" ")?;
    print_u64(at.pairs.len() as u64, out)?;
    out.extend_from_slice(b"\n")?;
    Ok(())
}

fn with_pair(bytes: Vec<u8>, key: &Text, value: &Text) -> Result<Vec<u8>, NoMemory>
    ensures { IfOk result (λ out. out.items ≡ bytes.items ++ pair_line (key.now, value.now)) }
{
    let mut out = bytes;
    out.extend_from_slice(b"{\"key\":")?;
    let mut out = with_quoted(out, key)?;
    out.extend_from_slice(b",\"value\":")?;
    let mut out = with_quoted(out, value)?;
    out.extend_from_slice(b"}\n")?;
    Ok(out)
}

// A JSON string, with the shortest escapes (RFC 8259, section 7).
fn with_quoted(bytes: Vec<u8>, text: &Text) -> Result<Vec<u8>, NoMemory>
    ensures { IfOk result (λ out. out.items ≡ bytes.items ++ quoted text.now) }
{
    let mut writer = Writer::new(bytes);
    writer.string(text.as_str())?;
    Ok(writer.into_inner())
}
