// The program that reads piece by piece against the one that folds the whole list.
ghost use Rattle.std.specs.Prelude.{◌≡◌};
ghost use Rattle.ty_base.specs.Passing.{item_passes};
ghost use Rattle.ty_base.specs.Limits.{key_fits, value_fits, items_fit};

use crate::feeds::{A, A_TWO, B, BAD_ENDPOINT, ENDPOINT, NO_A, lines_up_to};
use crate::realistic::LINES;
use crate::runs::{GOOD, IN_SYNC_LINE, READY_LINE, came, joined, run};
use std::alloc::Global;
use std::test::Fail;
use ty_base::{Item, NoMemory};
use ty_intake::{Fed, Intake};
use ty_top::plain_stream;

fn copy_item(alloc: Global, item: &Item) -> Result<Item, NoMemory> {
    Ok(match item {
        Item::Put { key, value } => Item::Put {
            key: key.copy(alloc)?,
            value: value.copy(alloc)?,
        },
        Item::Del { key } => Item::Del {
            key: key.copy(alloc)?,
        },
        Item::State(status) => Item::State(*status),
        Item::Mark => Item::Mark,
    })
}

// Appends the items of the batches that were closed.
fn append_items(alloc: Global, fed: &Fed, out: &mut Vec<Item>) -> Result<(), NoMemory> {
    for batch in fed.closed.as_slice() {
        for item in batch.items.as_slice() {
            out.push(copy_item(alloc, item)?)?;
        }
    }
    Ok(())
}

// All items of a feed.
fn items_of(alloc: Global, feed: &[u8]) -> Result<Vec<Item>, NoMemory> {
    let mut intake = Intake::new(alloc);
    let mut items = Vec::new(alloc);
    let fed = intake.feed(alloc, feed)?;
    append_items(alloc, &fed, &mut items)?;
    let fed = intake.end(alloc)?;
    append_items(alloc, &fed, &mut items)?;
    Ok(items)
}

fn is_small(item: &Item) -> bool
    ensures { result ≡ item_passes key_fits value_fits item.now }
{
    match item {
        Item::Put { key, value } => key.bytes().len() <= 1024 && value.bytes().len() <= 1_048_576,
        Item::Del { key } => key.bytes().len() <= 1024,
        Item::State(_) => true,
        Item::Mark => true,
    }
}

fn are_small(items: &[Item]) -> bool
    ensures { result ≡ items_fit items.now }
{
    items.iter().all(|item| is_small(item))
}

// Whether both programs give the same bytes for a feed.
fn agree(alloc: Global, feed: &[u8]) -> Result<bool, NoMemory> {
    let items = items_of(alloc, feed)?;
    if !are_small(&items) {
        return Ok(false);
    }
    let plain = plain_stream(alloc, &items)?;
    let ran = run(alloc, &["stream"], feed, GOOD)?;
    Ok(came(&ran, 0, &plain, ""))
}

fn parts_agree(alloc: Global, feed: &[&str]) -> Result<bool, NoMemory> {
    let feed = joined(alloc, feed)?;
    agree(alloc, &feed)
}

const FEEDS: [&[&str]; 8] = [
    &[],
    &[READY_LINE, IN_SYNC_LINE],
    &[READY_LINE, "\n", READY_LINE, "\n"],
    &[A, B, A_TWO],
    &[A, NO_A, "\n", B, "\n"],
    &[ENDPOINT, "\n", BAD_ENDPOINT, "\n"],
    &[BAD_ENDPOINT, "\n"],
    &LINES,
];

#[test]
fn both_programs_give_the_same_bytes(rt: HostRuntime) -> Result<(), Fail> {
    let alloc = rt.alloc();
    for (place, feed) in FEEDS.iter().enumerate() {
        assert!(rt; parts_agree(alloc, feed)?, "{place}");
    }
    for most in [101u32, 250] {
        assert!(rt; agree(alloc, &lines_up_to(alloc, most)?)?, "{most}");
    }
    Ok(())
}
