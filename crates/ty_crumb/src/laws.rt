// Laws of the definitions.
ghost use Rattle.std.specs.Prelude.{◌≡◌, ◌++◌, ◌+◌, Bool, false, List, length};
ghost use Rattle.ty_base.specs.declared.item.Item.{Item};
ghost use Rattle.ty_base.specs.Feed.{book, folded};
ghost use Rattle.ty_base.specs.Batches.{IsClosed, IsNextBatch};
ghost use Rattle.ty_crumb.specs.Batches.{next_entries};

/// Behind items that end at a closing, the next batch adds the entry that it makes over their fold to the
/// book, or none where it leaves map and status equal.
pub fn the_book_grows_by_the_next_batch()
    ensures { (ended : Bool) (before batch : List Item) → IsClosed before
        → IsNextBatch ended before batch
        → book ended (before ++ batch)
        ≡ book false before ++ next_entries (length before + length batch) (folded before) batch }
{}
