// The lines of a feed, one after another: what is pending since the last closing, and the batches that are closed.
ghost use Rattle.std.specs.Prelude.{◌≡◌, ◌<◌, ◌≤◌, ◌+◌, ◌^◌, ◌++◌, ◌∷◌, ◌||◌, ◌==◌, [], List, true, not, IfOk, OnOk, length};
ghost use Rattle.std.specs.List.{list_all};
ghost use Rattle.ty_base.specs.declared.item.Item.{Item as AnItem};
ghost use Rattle.ty_base.specs.declared.limits.TheConstants.{INPUT_BYTES};
ghost use Rattle.ty_base.specs.Feed.{is_update as updates};
ghost use Rattle.ty_base.specs.Limits.{is_small};
ghost use Rattle.ty_intake.specs.Batches.{batches, batch_fits};
ghost use Rattle.ty_intake.specs.steps.Progress.{ProgressFollows, IsSoundProgress, AreLinesRead};
ghost use Rattle.ty_intake.specs.declared.batch.Closed.{Closed as AClosed};

use crate::batch::{Batches, Closed, Items};
use crate::intake::IntakeFault;
use crate::line::{Told, read_line};
use std::alloc::Global;
use std::mem;
use ty_base::{BATCH_UPDATES, Item, NoMemory};

/// How many lines are read, the items since the last closing, its position, and the batches that are closed.
#[derive(Drop)]
pub(crate) struct Progress {
    pub lines: u64,
    pub pending: Items,
    pub cut: u64,
    pub closed: Batches,
}

/// Reads the next line, and gives its fault if it has one.
pub(crate) fn add_line(
    alloc: Global,
    progress: &mut Progress,
    line: &[u8],
) -> Result<Option<IntakeFault>, NoMemory>
    requires sound { IsSoundProgress progress.old }
    requires few { progress.old.lines < INPUT_BYTES }
    ensures { IfOk result (λ fault. AreLinesRead (line.now ∷ []) progress.old progress.new fault) }
{
    match read_line(alloc, line, progress.lines + 1)? {
        Told::Fails(fault) => Ok(Some(fault)),
        Told::Gives(None) => {
            progress.lines += 1;
            Ok(None)
        }
        Told::Gives(Some(item)) => {
            add_item(alloc, progress, item)?;
            Ok(None)
        }
    }
}

// Takes a line's item, behind which a batch may close.
fn add_item(alloc: Global, progress: &mut Progress, item: Item) -> Result<(), NoMemory>
    requires sound { IsSoundProgress progress.old }
    requires few { progress.old.lines < INPUT_BYTES }
    requires fits { is_small item ≡ true }
    ensures follows { OnOk result ((earlier : List AClosed) (items : List AnItem)
        → ProgressFollows earlier items progress.old
        → ProgressFollows earlier (items ++ item ∷ []) progress.new) }
    ensures lines { OnOk result (progress.new.lines ≡ progress.old.lines + 1) }
    ensures sound { OnOk result (IsSoundProgress progress.new) }
{
    progress.lines += 1;
    let closes = closes_batch(&progress.pending, &item);
    progress.pending.push(item)?;
    if closes {
        close(alloc, progress)?;
    }
    Ok(())
}

// Whether a batch closes behind an item: behind the last update that it may have, and behind any other item.
fn closes_batch(pending: &Items, item: &Item) -> bool
    requires { length pending.now < BATCH_UPDATES }
    ensures { result ≡ (not (updates item.now) || (length pending.now + 1 == BATCH_UPDATES)) }
{
    !is_update(item) || pending.len() + 1 == BATCH_UPDATES
}

/// The feed has ended: closes the batch of what is pending, if anything is.
pub(crate) fn close_last(alloc: Global, progress: &mut Progress) -> Result<(), NoMemory>
    requires sound { IsSoundProgress progress.old }
    requires few { progress.old.lines ≤ INPUT_BYTES }
    ensures batched { OnOk result ((earlier : List AClosed) (items : List AnItem)
        → ProgressFollows earlier items progress.old
        → batches true items ≡ earlier ++ progress.new.closed) }
    ensures fits { OnOk result (list_all batch_fits progress.new.closed ≡ true) }
{
    if progress.pending.is_empty() {
        return Ok(());
    }
    close(alloc, progress)?;
    Ok(())
}

// Closes the batch of what is pending.
fn close(alloc: Global, progress: &mut Progress) -> Result<(), NoMemory>
    requires { progress.old.cut + length progress.old.pending < 2 ^ 64 }
    ensures closed { OnOk result (progress.new.closed ≡ progress.old.closed
        ++ record { items = progress.old.pending; cut = progress.old.cut + length progress.old.pending } ∷ []) }
    ensures cut { OnOk result (progress.new.cut ≡ progress.old.cut + length progress.old.pending) }
    ensures pending { OnOk result (progress.new.pending ≡ []) }
    ensures lines { OnOk result (progress.new.lines ≡ progress.old.lines) }
{
    progress.cut += progress.pending.len() as u64;
    let items = mem::replace(&mut progress.pending, Items::new(alloc));
    progress.closed.push(Closed {
        items,
        cut: progress.cut,
    })
}

fn is_update(item: &Item) -> bool
    ensures { result ≡ updates item.now }
{
    matches!(item, Item::Put { .. } | Item::Del { .. })
}
