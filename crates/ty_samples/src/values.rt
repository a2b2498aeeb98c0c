// What texts, lists, keys, a buffer, a map, a breadcrumb and words come to, as bytes.
use std::alloc::Global;
use ty_base::{Delta, Deltas, Item, Kind, NoMemory, Text, print_u64, status_text};
use ty_crumb::{Crumb, snapshot};
use ty_dedupe::Buffer;
use ty_keys::Key;
use ty_map::Pairs;
use ty_top::{Needs, needs};
use ty_wire::cut_kvs;

// The bytes of a text that was made, read and copied.
pub(crate) fn copied(alloc: Global) -> Result<Vec<u8>, NoMemory> {
    let made = Text::of(alloc, "a")?;
    let Ok(read) = Text::read(alloc, made.bytes()) else {
        return Err(NoMemory);
    };
    let copy = read.copy(alloc)?;
    Ok(copy.bytes().to_vec(alloc)?)
}

pub(crate) fn numbered(alloc: Global) -> Result<Vec<u8>, NoMemory> {
    let mut out = Vec::new(alloc);
    print_u64(10, &mut out)?;
    Ok(out)
}

// How many deltas a list has to which one was added.
pub(crate) fn listed(alloc: Global) -> Result<Vec<u8>, NoMemory> {
    let mut deltas = Deltas::new(alloc);
    deltas.push(Delta {
        key: Text::of(alloc, "a")?,
        kind: Kind::Deleted,
        value: None,
    })?;
    let mut out = Vec::new(alloc);
    print_u64(deltas.len() as u64, &mut out)?;
    Ok(out)
}

pub(crate) fn printed(alloc: Global) -> Result<Vec<u8>, NoMemory> {
    let key = Key::HostIp {
        host: Text::of(alloc, "a/b")?,
    };
    let mut out = Vec::new(alloc);
    key.print(alloc, &mut out)?;
    Ok(out)
}

// Appends a pair, as `a=1 `.
fn append_pair(key: &Text, value: Option<&Text>, out: &mut Vec<u8>) -> Result<(), NoMemory> {
    out.extend_from_slice(key.bytes())?;
    if let Some(value) = value {
        out.push(b'=')?;
        out.extend_from_slice(value.bytes())?;
    }
    out.push(b' ')?;
    Ok(())
}

// What a buffer gives after two values of one key and one of another.
pub(crate) fn drained(alloc: Global) -> Result<Vec<u8>, NoMemory> {
    let mut buffer = Buffer::new(alloc);
    for (key, value) in [("a", "\"1\""), ("b", "\"1\""), ("a", "\"2\"")] {
        let item = Item::Put {
            key: Text::of(alloc, key)?,
            value: Text::of(alloc, value)?,
        };
        buffer.put(alloc, &item)?;
    }
    let drained = buffer.drain(alloc)?;
    let mut out = Vec::new(alloc);
    for (key, value) in drained.pairs.as_slice() {
        append_pair(key, value.as_ref(), &mut out)?;
    }
    match drained.status {
        Some(status) => out.extend_from_slice(status_text(status).as_bytes())?,
        None => out.extend_from_slice(b"no status")?,
    }
    Ok(out)
}

// The map with this key, which is its own value.
fn with(alloc: Global, map: &Pairs, key: &str) -> Result<Pairs, NoMemory> {
    let key = Text::of(alloc, key)?;
    map.put(alloc, &key, &key)
}

fn without(alloc: Global, map: &Pairs, key: &str) -> Result<Pairs, NoMemory> {
    map.remove(alloc, &Text::of(alloc, key)?)
}

// Appends a map's pairs in the order of their walk.
fn append_walk(alloc: Global, map: &Pairs, out: &mut Vec<u8>) -> Result<(), NoMemory> {
    for (key, value) in map.walk(alloc)? {
        append_pair(key, Some(value), out)?;
    }
    Ok(())
}

// The pairs of a map, and those of a copy of it without a key that isn't there.
pub(crate) fn mapped(alloc: Global) -> Result<Vec<u8>, NoMemory> {
    let one = with(alloc, &Pairs::empty(), "b")?;
    let map = with(alloc, &one, "a")?;
    let copy = without(alloc, &map, "c")?.copy()?;
    let mut out = Vec::new(alloc);
    append_walk(alloc, &map, &mut out)?;
    out.extend_from_slice(b"and copied ")?;
    append_walk(alloc, &copy, &mut out)?;
    Ok(out)
}

// How many deltas the snapshot of breadcrumb 0 has, and how many messages they make.
pub(crate) fn cut(alloc: Global) -> Result<Vec<u8>, NoMemory> {
    let deltas = snapshot(alloc, &Crumb::first(alloc, 0))?;
    let messages = cut_kvs(alloc, &deltas)?;
    let mut out = Vec::new(alloc);
    print_u64(deltas.len() as u64, &mut out)?;
    out.extend_from_slice(b" deltas in ")?;
    print_u64(messages.len() as u64, &mut out)?;
    out.extend_from_slice(b" messages")?;
    Ok(out)
}

// The doors that words want.
pub(crate) fn wanted_of(alloc: Global) -> Result<Vec<u8>, NoMemory> {
    let mut words = Vec::new(alloc);
    for word in ["serve", "--at", "x"] {
        words.push(Text::of(alloc, word)?)?;
    }
    let mut out = Vec::new(alloc);
    match needs(alloc, &words)? {
        Needs::Listen { at, workers } => {
            out.extend_from_slice(b"Listen at ")?;
            out.extend_from_slice(at.bytes())?;
            out.extend_from_slice(b" with ")?;
            print_u64(workers, &mut out)?;
        }
        Needs::Dial { .. } => out.extend_from_slice(b"Dial")?,
        Needs::Nothing => out.extend_from_slice(b"Nothing")?,
    }
    Ok(out)
}
