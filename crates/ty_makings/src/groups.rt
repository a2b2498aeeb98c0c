// Frames against those of `write_group`.
ghost use Rattle.std.specs.Prelude.{◌≡◌};
ghost use Rattle.ty_base.specs.Limits.{key_fits, value_fits, deltas_fit};
ghost use Rattle.ty_base.specs.Passing.{delta_passes};
ghost use Rattle.ty_wire.specs.Cut.{value_len as len_of_value};

use std::alloc::Global;
use std::test::Fail;
use ty_base::{Delta, Deltas, KEY_BYTES, Kind, NoMemory, Status, Text, VALUE_BYTES};
use ty_group::{Encoded, Group, write_encoded};
use ty_wire::write_group;

fn repeated(alloc: Global, text: &str, count: usize) -> Result<Text, NoMemory> {
    let mut all = String::new(alloc);
    for _ in 0..count {
        all.push_str(text)?;
    }
    Ok(Text::from_string(all))
}

fn delta(i: usize, key: Text, value: Text) -> Delta {
    match i % 3 {
        0 => Delta {
            key,
            kind: Kind::Deleted,
            value: None,
        },
        1 => Delta {
            key,
            kind: Kind::New,
            value: Some(value),
        },
        _ => Delta {
            key,
            kind: Kind::Updated,
            value: Some(value),
        },
    }
}

// Deltas of each kind by turns, whose keys and values are a text so many times.
#[derive(Clone, Copy)]
struct Batch {
    text: &'static str,
    count: usize,
    key: usize,
    value: usize,
}

fn append(alloc: Global, row: &Batch, deltas: &mut Deltas) -> Result<(), NoMemory> {
    let key = repeated(alloc, row.text, row.key)?;
    let value = repeated(alloc, row.text, row.value)?;
    for i in 0..row.count {
        let change = delta(i, key.copy(alloc)?, value.copy(alloc)?);
        deltas.push(change)?;
    }
    Ok(())
}

fn all_of(alloc: Global, rows: &[Batch]) -> Result<Deltas, NoMemory> {
    let mut deltas = Deltas::new(alloc);
    for row in rows {
        append(alloc, row, &mut deltas)?;
    }
    Ok(deltas)
}

fn fit(deltas: &Deltas) -> bool
    ensures { result ≡ deltas_fit deltas.now }
{
    deltas.as_slice().iter().all(|d| fits_delta(d))
}

fn fits_delta(delta: &Delta) -> bool
    ensures { result ≡ (delta_passes key_fits value_fits) delta.now }
{
    delta.key.as_str().len() <= KEY_BYTES && value_len(&delta.value) <= VALUE_BYTES
}

fn value_len(value: &Option<Text>) -> usize
    ensures { result ≡ len_of_value value.now }
{
    match value {
        Some(value) => value.as_str().len(),
        None => 0,
    }
}

// Behind a first byte.
fn written(alloc: Global, deltas: &Deltas) -> Result<Vec<u8>, NoMemory> {
    let mut out = Vec::from_slice(alloc, b"x")?;
    if fit(deltas) {
        write_group(alloc, deltas, Some(Status::Resync), 7, &mut out)?;
    }
    Ok(out)
}

fn by_encoded(alloc: Global, deltas: &Deltas) -> Result<Vec<u8>, NoMemory> {
    let mut out = Vec::from_slice(alloc, b"x")?;
    if fit(deltas) {
        let encoded = Encoded::of(alloc, deltas)?;
        write_encoded(alloc, &encoded, Some(Status::Resync), 7, &mut out)?;
    }
    Ok(out)
}

// A row is a breadcrumb, every other one encoded before.
fn by_group(alloc: Global, rows: &[Batch]) -> Result<Vec<u8>, NoMemory> {
    let mut group = Group::new(alloc);
    for (i, row) in rows.iter().enumerate() {
        let mut deltas = Deltas::new(alloc);
        append(alloc, row, &mut deltas)?;
        push(alloc, &deltas, i % 2 == 0, &mut group)?;
    }
    let mut out = Vec::from_slice(alloc, b"x")?;
    group.close(alloc, Some(Status::Resync), 7, &mut out)?;
    Ok(out)
}

fn push(alloc: Global, deltas: &Deltas, before: bool, group: &mut Group) -> Result<(), NoMemory> {
    if !fit(deltas) {
        return Ok(());
    }
    if before {
        let encoded = Encoded::of(alloc, deltas)?;
        return group.push_encoded(alloc, &encoded);
    }
    group.push(alloc, deltas)
}

fn row(text: &'static str, count: usize, key: usize, value: usize) -> Batch {
    Batch {
        text,
        count,
        key,
        value,
    }
}

#[test]
fn the_bytes_of_write_group(rt: HostRuntime) -> Result<(), Fail> {
    let alloc = rt.alloc();
    for rows in [
        [row("a", 0, 1, 1), row("b", 0, 1, 1)],
        [row("a", 1, 1, 1), row("b", 0, 1, 1)],
        [row("a", 0, 1, 1), row("b", 2, 1, 1)],
        [row("a", 100, 1, 1), row("b", 1, 1, 1)],
        [row("a", 101, 1, 1), row("b", 99, 2, 0)],
        [row("a", 250, 9, 9), row("b", 250, 1, 1)],
        [row("a", 3, 1_024, 1_048_576), row("b", 3, 1, 1)],
        [row("a", 3, 24, 524_252), row("b", 3, 24, 524_253)],
        [row("\"\\\n\u{1}é/", 5, 3, 7), row("\u{7f}\t", 4, 2, 2)],
    ] {
        let deltas = all_of(alloc, &rows)?;
        let wanted = written(alloc, &deltas)?;
        let count = deltas.len();
        assert_eq!(rt;
            by_encoded(alloc, &deltas)?.as_slice() == wanted.as_slice(),
            true,
            "{count}"
        );
        assert_eq!(rt;
            by_group(alloc, &rows)?.as_slice() == wanted.as_slice(),
            true,
            "{count}"
        );
    }
    Ok(())
}

#[test]
fn a_closed_group_is_empty(rt: HostRuntime) -> Result<(), Fail> {
    let alloc = rt.alloc();
    let deltas = all_of(alloc, &[row("a", 7, 1, 1)])?;
    let mut group = Group::new(alloc);
    push(alloc, &deltas, true, &mut group)?;
    push(alloc, &deltas, false, &mut group)?;
    assert_eq!(rt; group.len(), 14);
    let mut out = Vec::new(alloc);
    group.close(alloc, None, 3, &mut out)?;
    assert_eq!(rt; group.len(), 0);
    out.clear();
    group.close(alloc, None, 4, &mut out)?;
    assert_eq!(rt;
        out.as_slice(),
        b"\x00\x00\x00\x13{\"m\":\"crumb\",\"n\":4}".as_slice()
    );
    Ok(())
}
