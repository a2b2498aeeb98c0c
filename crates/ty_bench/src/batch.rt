// Batches of puts, and the breadcrumbs that they make.
ghost use Rattle.std.specs.Prelude.{◌≡◌, true};
ghost use Rattle.std.specs.List.{list_all};
ghost use Rattle.ty_base.specs.Feed.{is_update as updates};
ghost use Rattle.ty_base.specs.Passing.{item_passes};
ghost use Rattle.ty_base.specs.Limits.{key_fits, value_fits, items_fit};
ghost use Rattle.ty_base.specs.Batches.{IsBatch};

use std::alloc::Global;
use ty_account::Named;
use ty_base::{BATCH_UPDATES, INPUT_BYTES, Item, KEY_BYTES, NoMemory, Text, VALUE_BYTES};
use ty_chain::Publisher;
use ty_crumb::{Crumb, Made, next_crumb};

const KEYS: u64 = 5_000;

// A put of a value of about 100 bytes, which is another one for each number.
fn put(alloc: Global, number: u64) -> Result<Item, NoMemory> {
    let key = number.wrapping_mul(7919) % KEYS;
    Ok(Item::Put {
        key: Text::from_string(format!(in alloc;
            "/calico/v1/host/node-1/workload/k8s/default%2fweb-{key}/endpoint/eth0"
        )?),
        value: Text::from_string(format!(in alloc;
            r#"{{"ipv4_nets":["10.244.2.7/32"],"mac":"ee:ee:ee:ee:ee:ee","name":"cali0a1b2c3d4e5","revision":{number}}}"#
        )?),
    })
}

fn is_update(item: &Item) -> bool
    ensures { result ≡ updates item.now }
{
    match item {
        Item::Put { .. } => true,
        Item::Del { .. } => true,
        Item::State(_) => false,
        Item::Mark => false,
    }
}

fn fits(item: &Item) -> bool
    ensures { result ≡ item_passes key_fits value_fits item.now }
{
    match item {
        Item::Put { key, value } => key.bytes().len() <= KEY_BYTES
            && value.bytes().len() <= VALUE_BYTES,
        Item::Del { key } => key.bytes().len() <= KEY_BYTES,
        Item::State(_) => true,
        Item::Mark => true,
    }
}

fn all_fit(items: &[Item]) -> bool
    ensures { result ≡ items_fit items.now }
{
    items.iter().all(|item| fits(item))
}

fn all_update(items: &[Item]) -> bool
    ensures { result ≡ list_all updates items.now }
{
    items.iter().all(|item| is_update(item))
}

// A batch is what `next_crumb` takes. Those that are measured have at most as many items as close
// one.
fn is_batch(items: &[Item]) -> bool
    ensures { result ≡ true → IsBatch items.now }
{
    if items.len() > BATCH_UPDATES {
        return false;
    }
    let front = items.len().saturating_sub(1);
    all_update(&items[..front]) && all_fit(items)
}

// So many puts, from this number on.
fn puts_from(alloc: Global, first: u64, puts: u64) -> Result<Vec<Item>, NoMemory> {
    let mut items = Vec::new(alloc);
    for i in 0..puts {
        items.push(put(alloc, first.wrapping_add(i))?)?;
    }
    Ok(items)
}

// The breadcrumb that so many puts make, a millisecond after the last one, where they are a batch
// and the last number isn't reached.
pub(crate) fn next(alloc: Global, last: &Crumb, puts: u64) -> Result<Option<Crumb>, NoMemory> {
    let items = puts_from(alloc, last.number.wrapping_mul(puts), puts)?;
    if !is_batch(&items) || last.number >= INPUT_BYTES as u64 {
        return Ok(None);
    }
    let at = last.at.saturating_add(1);
    match next_crumb(alloc, last, &items, last.cut, at)? {
        Made::Crumb(crumb) => Ok(Some(crumb)),
        Made::Unchanged => Ok(None),
    }
}

// Publishes so many puts, a millisecond after the last breadcrumb, where they are a batch and the
// chain has room for so many items. It tells whether they are.
pub(crate) fn publish<L: Named>(
    alloc: Global,
    publisher: &mut Publisher<L>,
    puts: u64,
) -> Result<bool, NoMemory> {
    let first = publisher.crumb().number.wrapping_mul(puts);
    let at = publisher.crumb().at.saturating_add(1);
    let items = puts_from(alloc, first, puts)?;
    let room = (INPUT_BYTES as u64).saturating_sub(publisher.cut());
    if !is_batch(&items) || items.len() as u64 >= room {
        return Ok(false);
    }
    publisher.publish(alloc, &items, at)?;
    Ok(true)
}
