// The book of a list of items.
ghost use Rattle.std.specs.Prelude.{◌≡◌, ◌≤◌, length, IfOk};
ghost use Rattle.ty_base.specs.Feed as feed;
ghost use Rattle.ty_plain.specs.steps.Scans.{last_before, entry_between};

use crate::change::changes;
use crate::closing::closings;
use crate::cut::cuts_among;
use crate::world::status_of;
use std::alloc::Global;
use ty_base::{Deltas, Entry, Item, NoMemory};

/// The book of a list of items: for each cut its position, its status, and the deltas since the cut before.
pub fn book(alloc: Global, items: &[Item], ended: bool) -> Result<Vec<Entry>, NoMemory>
    ensures { IfOk result (λ v. v.items ≡ feed.book ended items.now) }
{
    let closings = closings(alloc, items, ended)?;
    let cuts = cuts_among(alloc, items, &closings)?;
    let mut book = Vec::new(alloc);
    let mut last: usize = 0;
    for c in &cuts {
        let next = entry(alloc, items, &closings, last, *c)?;
        book.push(next)?;
        last = *c;
    }
    Ok(book)
}

// The entry of a cut, by the cut before it.
fn entry(
    alloc: Global,
    items: &[Item],
    closings: &[usize],
    last: usize,
    c: usize,
) -> Result<Entry, NoMemory>
    requires last { last ≤ length items.now }
    requires here { c ≤ length items.now }
    ensures { IfOk result (λ e. e ≡ entry_between items.now closings.now last c) }
{
    let before = &items[..last];
    let after = &items[..c];
    let batch = &items[closing_before(closings, c)..c];
    let deltas = changes(alloc, before, after, batch)?;
    Ok(Entry {
        cut: c as u64,
        status: status_of(after),
        deltas: Deltas::from_vec(deltas),
    })
}

// The last closing before a position, or 0.
fn closing_before(closings: &[usize], c: usize) -> usize
    ensures is { result ≡ last_before closings.now c }
    ensures within { result ≤ c }
{
    let mut last: usize = 0;
    for p in closings {
        if *p < c {
            last = *p;
        }
    }
    last
}
