// Runs of the top call over source, sink, notes, doors and dialler.
use std::alloc::Global;
use std::sync::Wait;
use std::thread::Threads;
use ty_base::{Clock, Door, MemSink, NoMemory, Source, Text};
use ty_top::top;

// What a run answered, gave and noted.
#[derive(Drop)]
pub(crate) struct Told {
    pub(crate) status: u8,
    pub(crate) given: Vec<u8>,
    pub(crate) notes: Vec<u8>,
}

pub(crate) fn words_of(alloc: Global, words: &[&str]) -> Result<Vec<Text>, NoMemory> {
    let mut texts = Vec::new(alloc);
    for word in words {
        texts.push(Text::of(alloc, word)?)?;
    }
    Ok(texts)
}

// The top call over 1 to 64 doors. Where there are fewer or more it isn't made, which is no exit status.
pub(crate) fn run_top<
    R: Threads + Wait + Sync,
    S: Source + Send,
    D: Door + Send + Drop,
    C: Clock + Sync,
>(
    rt: &R,
    alloc: Global,
    words: &[&str],
    source: &mut S,
    sink: &mut MemSink,
    doors: &mut Vec<D>,
    dial: &mut D,
    clock: &C,
) -> Result<Told, NoMemory> {
    let words = words_of(alloc, words)?;
    let mut notes = MemSink::new(alloc, 1000, Vec::new(alloc))?;
    let mut status = u8::MAX;
    if !doors.is_empty() && doors.len() <= 64 {
        status = top(
            rt, alloc, &words, source, sink, &mut notes, doors, dial, clock,
        );
    }
    Ok(Told {
        status,
        given: sink.given().to_vec(alloc)?,
        notes: notes.given().to_vec(alloc)?,
    })
}
