// Runs of the modes over source and sink.
use std::alloc::Global;
use ty_base::{MemSink, MemSource, NoMemory, Text};
use ty_top::{Local, local};

pub(crate) const HELLO: &str = "{\"m\":\"server_hello\",\"version\":1}";

pub(crate) const WAIT: &str = "{\"m\":\"status\",\"status\":\"wait-for-ready\"}";

pub(crate) const IN_SYNC: &str = "{\"m\":\"status\",\"status\":\"in-sync\"}";

pub(crate) const CRUMB_0: &str = "{\"m\":\"crumb\",\"n\":0}";

pub(crate) const CRUMB_1: &str = "{\"m\":\"crumb\",\"n\":1}";

pub(crate) const CRUMB_2: &str = "{\"m\":\"crumb\",\"n\":2}";

pub(crate) const READY: &str =
    "{\"kvs\":[{\"key\":\"/calico/v1/Ready\",\"type\":\"new\",\"value\":\"true\"}],\"m\":\"kvs\"}";

pub(crate) const READY_LINE: &str = "{\"key\":\"/calico/v1/Ready\",\"value\":true}\n";

pub(crate) const IN_SYNC_LINE: &str = "{\"status\":\"in-sync\"}\n";

pub(crate) const FEED: &str =
    "{\"key\":\"/calico/v1/Ready\",\"value\":true}\n{\"status\":\"in-sync\"}\n";

// What a run answered, gave and noted.
#[derive(Drop)]
pub(crate) struct Ran {
    pub(crate) status: u8,
    pub(crate) given: Vec<u8>,
    pub(crate) notes: Vec<u8>,
}

// A source of pieces, of which call `read_fails` fails, a sink with room, of which call
// `write_fails` fails, and notes of which call `notes_fails` fails. Calls count from 1.
#[derive(Clone, Copy)]
pub(crate) struct Devices {
    pub(crate) piece: usize,
    pub(crate) read_fails: u64,
    pub(crate) room: usize,
    pub(crate) write_fails: u64,
    pub(crate) notes_fails: u64,
}

pub(crate) const GOOD: Devices = Devices {
    piece: 1_000_000,
    read_fails: 0,
    room: 1_000_000,
    write_fails: 0,
    notes_fails: 0,
};

pub(crate) fn framed(alloc: Global, bodies: &[&str]) -> Result<Vec<u8>, NoMemory> {
    let mut out = Vec::new(alloc);
    for body in bodies {
        out.push(0)?;
        out.push((body.len() / 65_536 % 256) as u8)?;
        out.push((body.len() / 256 % 256) as u8)?;
        out.push((body.len() % 256) as u8)?;
        out.extend_from_slice(body.as_bytes())?;
    }
    Ok(out)
}

pub(crate) fn joined(alloc: Global, parts: &[&str]) -> Result<Vec<u8>, NoMemory> {
    let mut out = Vec::new(alloc);
    for part in parts {
        out.extend_from_slice(part.as_bytes())?;
    }
    Ok(out)
}

pub(crate) fn words_of(alloc: Global, words: &[&str]) -> Result<Vec<Text>, NoMemory> {
    let mut texts = Vec::new(alloc);
    for word in words {
        texts.push(Text::of(alloc, word)?)?;
    }
    Ok(texts)
}

pub(crate) fn run(
    alloc: Global,
    words: &[&str],
    feed: &[u8],
    devices: Devices,
) -> Result<Ran, NoMemory> {
    let words = words_of(alloc, words)?;
    let mut pieces = Vec::new(alloc);
    for piece in feed.chunks(devices.piece.max(1)) {
        pieces.push(piece.to_vec(alloc)?)?;
    }
    let mut source = MemSource::new(alloc, pieces, vec![in alloc; devices.read_fails]?)?;
    let mut sink = MemSink::new(alloc, devices.room, vec![in alloc; devices.write_fails]?)?;
    let mut notes = MemSink::new(alloc, 1000, vec![in alloc; devices.notes_fails]?)?;
    let status = match local(alloc, &words, &mut source, &mut sink, &mut notes) {
        Local::Done(status) => status,
        // The words are handed on, which is no exit status.
        Local::Serve(_) | Local::Follow(_) => u8::MAX,
    };
    Ok(Ran {
        status,
        given: sink.given().to_vec(alloc)?,
        notes: notes.given().to_vec(alloc)?,
    })
}

// Whether a run ended with this status, gave these bytes and left this note.
pub(crate) fn came(ran: &Ran, status: u8, given: &[u8], note: &str) -> bool {
    ran.status == status && ran.given.as_slice() == given && ran.notes.as_slice() == note.as_bytes()
}

// Whether a feed, in pieces of several sizes, ends with this status, the frames of these bodies and this note.
pub(crate) fn streams(
    alloc: Global,
    words: &[&str],
    feed: &[&str],
    status: u8,
    bodies: &[&str],
    note: &str,
) -> Result<bool, NoMemory> {
    let feed = joined(alloc, feed)?;
    let wanted = framed(alloc, bodies)?;
    let mut good = true;
    for piece in [1usize, 7, 64, 1_000_000] {
        let ran = run(alloc, words, &feed, Devices { piece, ..GOOD })?;
        good = good && came(&ran, status, &wanted, note);
    }
    Ok(good)
}
