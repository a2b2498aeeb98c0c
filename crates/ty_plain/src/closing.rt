// Where batches close.
ghost use Rattle.std.specs.Prelude.{◌≡◌, take, IfOk};
ghost use Rattle.std.specs.List.{suffix_len};
ghost use Rattle.ty_base.specs.Feed as feed;

use std::alloc::Global;
use ty_base::{BATCH_UPDATES, Item, NoMemory};

/// The positions at which batches close, each the number of items up to and including the batch's last. A
/// batch closes after an item that is no update, after as many updates as make one, and where the feed has ended.
#[tactic(auto, using(crate::proofs::Steps::run_steps), unfolding(ty_base::specs::Feed::closings))]
pub fn closings(alloc: Global, items: &[Item], ended: bool) -> Result<Vec<usize>, NoMemory>
    ensures { IfOk result (λ v. v.items ≡ feed.closings ended items.now) }
{
    let mut positions = Vec::new(alloc);
    let mut run: usize = 0;
    for (i, item) in items.iter().enumerate() {
        run = if is_update(item) { run + 1 } else { 0 };
        if closes(items, run, i + 1, ended) {
            positions.push(i + 1)?;
        }
    }
    Ok(positions)
}

// Whether an item puts or removes a key.
fn is_update(item: &Item) -> bool
    ensures { result ≡ feed.is_update item.now }
{
    match item {
        Item::Put { .. } | Item::Del { .. } => true,
        Item::State(_) | Item::Mark => false,
    }
}

// Whether a batch closes at a position, before which this many updates stand in a row.
fn closes(items: &[Item], run: usize, at: usize, ended: bool) -> bool
    requires { run ≡ suffix_len feed.is_update (take at items.now) }
    ensures { result ≡ feed.is_closing ended items.now at }
{
    run % BATCH_UPDATES == 0 || (ended && at == items.len())
}
