// What changes in a batch.
ghost use Rattle.std.specs.Prelude.{◌≡◌, ◌++◌, IfOk, OnOk};
ghost use Rattle.std.specs.Option.{option_copied};
ghost use Rattle.std.specs.List.{list_any, filter_map};
ghost use Rattle.ty_base.specs.Feed as feed;
ghost use Rattle.ty_base.specs.Readings.{is_about as speaks_of};
ghost use Rattle.ty_plain.specs.steps.Scans.{unseen_change, updated, deleted};
ghost use Rattle.ty_plain.specs.Rows.{added};

use crate::world::value_of;
use std::alloc::Global;
use ty_base::{Delta, Item, Kind, NoMemory, Text};

/// How two lists of items differ at the keys of a batch, each key once, where it stands first.
pub fn changes(
    alloc: Global,
    before: &[Item],
    after: &[Item],
    batch: &[Item],
) -> Result<Vec<Delta>, NoMemory>
    ensures { IfOk result (λ v. v.items
        ≡ feed.changes (feed.folded before.now).pairs (feed.folded after.now).pairs
        (feed.firsts (filter_map feed.key_of batch.now))) }
{
    let mut out = Vec::new(alloc);
    for (i, item) in batch.iter().enumerate() {
        if let Some(key) = key_of(item) {
            note_change(alloc, &mut out, before, after, &batch[..i], key)?;
        }
    }
    Ok(out)
}

// Adds how a key changed, where no earlier item of the batch speaks of it.
fn note_change(
    alloc: Global,
    out: &mut Vec<Delta>,
    before: &[Item],
    after: &[Item],
    earlier: &[Item],
    key: &Text,
) -> Result<(), NoMemory>
    ensures { OnOk result (out.new.items
        ≡ out.old.items
        ++ unseen_change (feed.folded before.now).pairs (feed.folded after.now).pairs earlier.now key.now) }
{
    if mentions(earlier, key) {
        return Ok(());
    }
    if let Some(delta) = change(alloc, key, value_of(before, key), value_of(after, key))? {
        out.push(delta)?;
    }
    Ok(())
}

// How a key changed, if it did.
fn change(
    alloc: Global,
    key: &Text,
    before: Option<&Text>,
    after: Option<&Text>,
) -> Result<Option<Delta>, NoMemory>
    ensures { IfOk result (λ d. d
        ≡ feed.change key.now (option_copied before.entry) (option_copied after.entry)) }
{
    match (before, after) {
        (None, None) => Ok(None),
        (None, Some(value)) => Ok(Some(added(alloc, key, value)?)),
        (Some(_), None) => Ok(Some(deleted(alloc, key)?)),
        (Some(old), Some(value)) => {
            if old.same(value) {
                return Ok(None);
            }
            Ok(Some(updated(alloc, key, value)?))
        }
    }
}

// The key has a value now.
fn added(alloc: Global, key: &Text, value: &Text) -> Result<Delta, NoMemory>
    ensures { IfOk result (λ d. d ≡ added key.now value.now) }
{
    Ok(Delta {
        key: key.copy(alloc)?,
        kind: Kind::New,
        value: Some(value.copy(alloc)?),
    })
}

// The key has another value now.
fn updated(alloc: Global, key: &Text, value: &Text) -> Result<Delta, NoMemory>
    ensures { IfOk result (λ d. d ≡ updated key.now value.now) }
{
    Ok(Delta {
        key: key.copy(alloc)?,
        kind: Kind::Updated,
        value: Some(value.copy(alloc)?),
    })
}

// The key has no value now.
fn deleted(alloc: Global, key: &Text) -> Result<Delta, NoMemory>
    ensures { IfOk result (λ d. d ≡ deleted key.now) }
{
    Ok(Delta {
        key: key.copy(alloc)?,
        kind: Kind::Deleted,
        value: None,
    })
}

// Whether an item speaks of a key.
fn mentions(items: &[Item], key: &Text) -> bool
    ensures { result ≡ list_any (speaks_of key.now) items.now }
{
    items.iter().any(|item| is_about(item, key))
}

fn is_about(item: &Item, key: &Text) -> bool
    ensures { result ≡ speaks_of key.now item.now }
{
    match item {
        Item::Put { key: k, .. } => key.same(k),
        Item::Del { key: k } => key.same(k),
        Item::State(_) | Item::Mark => false,
    }
}

fn key_of(item: &Item) -> Option<&Text>
    ensures { option_copied result ≡ feed.key_of item.now }
{
    match item {
        Item::Put { key, .. } => Some(key),
        Item::Del { key } => Some(key),
        Item::State(_) | Item::Mark => None,
    }
}
