// Whether items are a batch, which is what `next_crumb` takes.
ghost use Rattle.std.specs.Prelude.{◌≡◌, true, IfOk};
ghost use Rattle.std.specs.List.{list_all};
ghost use Rattle.ty_base.specs.Feed.{is_update as updates};
ghost use Rattle.ty_base.specs.Passing.{item_passes};
ghost use Rattle.ty_base.specs.Limits.{key_fits, value_fits, items_fit};
ghost use Rattle.ty_base.specs.Batches.{IsBatch};

use ty_base::{BATCH_UPDATES, Item, KEY_BYTES, VALUE_BYTES};

fn is_update(item: &Item) -> bool
    ensures { result ≡ updates item.now }
{
    match item {
        Item::Put { .. } => true,
        Item::Del { .. } => true,
        Item::State(_) => false,
        Item::Mark => false,
    }
}

fn fits(item: &Item) -> bool
    ensures { result ≡ item_passes key_fits value_fits item.now }
{
    match item {
        Item::Put { key, value } => key.bytes().len() <= KEY_BYTES
            && value.bytes().len() <= VALUE_BYTES,
        Item::Del { key } => key.bytes().len() <= KEY_BYTES,
        Item::State(_) => true,
        Item::Mark => true,
    }
}

fn all_fit(items: &[Item]) -> bool
    ensures { result ≡ items_fit items.now }
{
    items.iter().all(|item| fits(item))
}

fn all_update(items: &[Item]) -> bool
    ensures { result ≡ list_all updates items.now }
{
    items.iter().all(|item| is_update(item))
}

// A batch is what `next_crumb` takes. Those of the tests have at most as many items as close one.
pub(crate) fn is_batch(items: &[Item]) -> bool
    ensures { result ≡ true → IsBatch items.now }
{
    if items.len() > BATCH_UPDATES {
        return false;
    }
    let front = items.len().saturating_sub(1);
    all_update(&items[..front]) && all_fit(items)
}
