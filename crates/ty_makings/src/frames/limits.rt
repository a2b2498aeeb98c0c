// Messages at their limits, and groups that are cut at them.
use super::delta;
use std::alloc::Global;
use std::test::Fail;
use ty_base::{Deltas, Kind, NoMemory, Status};
use ty_wire::{Frames, Msg, Msgs, cut_kvs, fits, write, write_group};

fn repeated(alloc: Global, len: usize) -> Result<String, NoMemory> {
    let mut text = String::new(alloc);
    for _ in 0..len {
        text.push('x')?;
    }
    Ok(text)
}

// So many deltas with keys and values of so many bytes.
fn many(alloc: Global, count: usize, key: usize, value: usize) -> Result<Deltas, NoMemory> {
    let key = repeated(alloc, key)?;
    let value = repeated(alloc, value)?;
    let mut deltas = Deltas::new(alloc);
    for _ in 0..count {
        let change = delta(alloc, key.as_str(), Kind::New, value.as_str())?;
        deltas.push(change)?;
    }
    Ok(deltas)
}

// Whether the message fits, and comes back alone.
fn passes(alloc: Global, msg: &Msg) -> Result<bool, NoMemory> {
    if !fits(alloc, msg)? {
        return Ok(false);
    }
    let mut bytes = Vec::new(alloc);
    write(alloc, msg, &mut bytes)?;
    let mut frames = Frames::new(alloc);
    let got = frames.feed(alloc, bytes.as_slice())?;
    Ok(got.msgs.len() == 1 && got.fault == None)
}

// How many deltas, the bytes of each key and value, and whether a message of them fits.
const LIMITS: [(usize, usize, usize, bool); 7] = [
    (0, 1, 1, false),
    (1, 1_024, 1, true),
    (1, 1_025, 1, false),
    (1, 1_024, 1_048_576, true),
    (1, 1, 1_048_577, false),
    (100, 1, 1, true),
    (101, 1, 1, false),
];

#[test]
fn messages_at_their_limits(rt: HostRuntime) -> Result<(), Fail> {
    let alloc = rt.alloc();
    for (count, key, value, wanted) in LIMITS {
        let msg = Msg::Kvs(many(alloc, count, key, value)?);
        assert_eq!(rt; passes(alloc, &msg)?, wanted);
    }
    Ok(())
}

// How many deltas each part has.
fn part_sizes(alloc: Global, deltas: &Deltas) -> Result<Vec<usize>, NoMemory> {
    let mut sizes = Vec::new(alloc);
    for part in cut_kvs(alloc, deltas)? {
        sizes.push(part.len())?;
    }
    Ok(sizes)
}

// How many deltas, the bytes of each key and value, and the parts.
const CUTTINGS: [(usize, usize, usize, &[usize]); 5] = [
    (0, 1, 1, &[]),
    (250, 1, 1, &[100, 100, 50]),
    (2, 1_024, 1_048_576, &[1, 1]),
    (3, 24, 524_264, &[2, 1]),
    (3, 24, 524_265, &[1, 1, 1]),
];

#[test]
fn deltas_are_cut_at_the_limits(rt: HostRuntime) -> Result<(), Fail> {
    let alloc = rt.alloc();
    for (count, key, value, wanted) in CUTTINGS {
        let deltas = many(alloc, count, key, value)?;
        let sizes = part_sizes(alloc, &deltas)?;
        assert_eq!(rt; sizes.as_slice(), wanted);
    }
    Ok(())
}

// The group of a message's deltas, where it fits.
fn grouped(alloc: Global, message: &Msg, out: &mut Vec<u8>) -> Result<(), NoMemory> {
    if fits(alloc, message)? {
        match message {
            Msg::Kvs(deltas) => write_group(alloc, deltas, Some(Status::InSync), 7, out)?,
            _ => {}
        }
    }
    Ok(())
}

// A number for each message: how many deltas it has, or a thousand more than its breadcrumb.
fn numbers(alloc: Global, msgs: &Msgs) -> Result<Vec<u64>, NoMemory> {
    let mut numbers = Vec::new(alloc);
    for msg in msgs.as_slice() {
        numbers.push(match msg {
            Msg::Kvs(part) => part.len() as u64,
            Msg::Status(Status::InSync) => 1_000,
            Msg::Crumb { n } => n.saturating_add(1_000),
            _ => 0,
        })?;
    }
    Ok(numbers)
}

#[test]
fn a_group_in_order(rt: HostRuntime) -> Result<(), Fail> {
    let alloc = rt.alloc();
    let message = Msg::Kvs(many(alloc, 2, 1, 600_000)?);
    let mut out = Vec::new(alloc);
    grouped(alloc, &message, &mut out)?;
    write_group(alloc, &Deltas::new(alloc), None, 8, &mut out)?;
    let got = Frames::new(alloc).feed(alloc, out.as_slice())?;
    let numbers = numbers(alloc, &got.msgs)?;
    assert_eq!(rt; numbers.as_slice(), [1, 1, 1_000, 1_007, 1_008].as_slice());
    Ok(())
}
