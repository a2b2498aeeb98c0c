// Small lists of items, with the books that they have.
ghost use Rattle.std.specs.Prelude.{◌≡◌, true, false, [], ◌∷◌, take};
ghost use Rattle.ty_base.specs.Feed as feed;
ghost use Rattle.ty_plain.specs.Rows as it;

/// What the definitions give for a few small lists of items, computed.
pub fn rows()
    ensures nothing { feed.book true [] ≡ [] }
    ensures unfinished { feed.book false (take 1 it.ready_and_in_sync) ≡ [] }
    ensures ready { feed.book true it.ready_and_in_sync ≡ it.ready_and_in_sync_book }
    ensures held { feed.book true it.held_value ≡ it.held_value_book }
    ensures replaced { feed.book true it.replaced_key ≡ it.replaced_key_book }
    ensures deleted { feed.book true it.put_and_deleted ≡ it.put_and_deleted_book }
    ensures kinds { feed.book false it.each_kind ≡ it.each_kind_book }
    ensures many_closings { feed.closings true (it.updates 101) ≡ 100 ∷ 101 ∷ [] }
    ensures many_cuts { feed.cuts true (it.updates 101) ≡ 100 ∷ 101 ∷ [] }
    ensures many_deltas { it.sizes (feed.book true (it.updates 101)) ≡ 100 ∷ 1 ∷ [] }
{}
