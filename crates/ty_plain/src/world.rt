// What a list of items leaves: the value of a key, and the status.
ghost use Rattle.std.specs.Prelude.{◌≡◌, ◌≤◌, length};
ghost use Rattle.std.specs.Option.{option_copied};
ghost use Rattle.std.specs.List.{list_all};
ghost use Rattle.ty_base.specs.Feed as feed;
ghost use Rattle.ty_plain.specs.steps.Scans.{value_behind, same_option, agrees as agree_at};

use ty_base::{Item, Status, Text, same_status};

/// What a key has after all items: the value of its last item, if that puts one.
#[tactic(auto, using(crate::proofs::Steps::value_steps))]
pub fn value_of<'a>(items: &'a [Item], key: &Text) -> Option<&'a Text>
    ensures { option_copied result ≡ feed.get (feed.folded items.now).pairs key.now }
{
    let mut found = None;
    for item in items {
        found = heard(found, item, key);
    }
    found
}

// What a key has after one more item.
fn heard<'a>(found: Option<&'a Text>, item: &'a Item, key: &Text) -> Option<&'a Text>
    ensures { option_copied result ≡ value_behind key.now item.now (option_copied found.entry) }
{
    match item {
        Item::Put { key: k, value } => if key.same(k) { Some(value) } else { found },
        Item::Del { key: k } => if key.same(k) { None } else { found },
        Item::State(_) | Item::Mark => found,
    }
}

/// The status after all items.
pub fn status_of(items: &[Item]) -> Status
    ensures { result ≡ (feed.folded items.now).status }
{
    let mut status = Status::Wait;
    for item in items {
        if let Item::State(s) = item {
            status = *s;
        }
    }
    status
}

/// Whether the first `c` items and the first `p` leave the same map and status.
pub fn same_worlds(items: &[Item], c: usize, p: usize) -> bool
    requires ordered { c ≤ p }
    requires within { p ≤ length items.now }
    ensures { result ≡ feed.same_world (feed.world_at items.now c) (feed.world_at items.now p) }
{
    let before = &items[..c];
    let after = &items[..p];
    same_status(status_of(before), status_of(after)) && all_agree(before, after, &items[c..p])
}

// Whether two lists of items agree at each key of a batch.
fn all_agree(before: &[Item], after: &[Item], batch: &[Item]) -> bool
    ensures { result ≡ list_all (agree_at (feed.folded before.now) (feed.folded after.now)) batch.now }
{
    batch.iter().all(|item| agrees(before, after, item))
}

// Whether two lists of items agree at an item's key, if it has one.
fn agrees(before: &[Item], after: &[Item], item: &Item) -> bool
    ensures { result ≡ agree_at (feed.folded before.now) (feed.folded after.now) item.now }
{
    match item {
        Item::Put { key, .. } => same_at(before, after, key),
        Item::Del { key } => same_at(before, after, key),
        Item::State(_) | Item::Mark => true,
    }
}

fn same_at(before: &[Item], after: &[Item], key: &Text) -> bool
    ensures { result ≡ same_option (feed.get (feed.folded before.now).pairs key.now) (feed.get (feed.folded after.now).pairs key.now) }
{
    same_value(value_of(before, key), value_of(after, key))
}

fn same_value(a: Option<&Text>, b: Option<&Text>) -> bool
    ensures { result ≡ same_option (option_copied a.entry) (option_copied b.entry) }
{
    match (a, b) {
        (None, None) => true,
        (Some(x), Some(y)) => x.same(y),
        _ => false,
    }
}
