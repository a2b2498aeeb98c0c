// Laws of the definitions, for every list of items.
ghost use Rattle.std.specs.Prelude.{◌≡◌, ◌++◌, ◌+◌, ◌-◌, ◌<◌, ◌≤◌, ◌==◌, ◌||◌, ◌^◌, ℕ, Bool, false, not, List, length, slice_index_or, take, decimal, Some, true, ◌&&◌};
ghost use Rattle.ty_base.specs.declared.item.Item.{Item};
ghost use Rattle.ty_base.specs.Feed.{replay, book, world, last, cut, deltas, folded, cuts, is_closing, is_update, closing_before, get};
ghost use Rattle.ty_base.specs.declared.limits.TheConstants.{BATCH_UPDATES};
ghost use Rattle.ty_base.specs.Readings.{last_put, last_state, AllNext};
ghost use Rattle.ty_base.specs.Numbers.{read_number};
ghost use Rattle.ty_base.specs.Passing.{item_passes, pair_passes, delta_passes};
ghost use Rattle.std.specs.List.{list_all};
ghost use Rattle.std.specs.Prelude.{T};
ghost use Rattle.std.specs.Ordering.{nat_cmp};
ghost use Rattle.std.specs.Cmp.Lexicographic.{slice_cmp};
ghost use Rattle.std.specs.FinMap.Entries.{is_sorted};
ghost use Rattle.ty_base.specs.declared.entry.Entry.{Entry};

/// Replay of the first n entries of the book is the world at the n-th cut.
pub fn replay_gives_the_worlds()
    ensures { (ended : Bool) (items : List Item) (n : ℕ) → n ≤ last ended items
        → replay (take n (book ended items)) ≡ world ended items n }
{}

/// More items change no cut, world or deltas that is there while the feed hasn't ended.
pub fn growth_changes_nothing_earlier()
    ensures last { (ended : Bool) (items more : List Item) → last false items ≤ last ended (items ++ more) }
    ensures cut { (ended : Bool) (items more : List Item) (n : ℕ) → n ≤ last false items
        → cut ended (items ++ more) n ≡ cut false items n }
    ensures world { (ended : Bool) (items more : List Item) (n : ℕ) → n ≤ last false items
        → world ended (items ++ more) n ≡ world false items n }
    ensures deltas { (ended : Bool) (items more : List Item) (n : ℕ) → n ≤ last false items
        → deltas ended (items ++ more) n ≡ deltas false items n }
{}

/// What the definitions come to. A key has the value of its last item, if that is a put, and the status is
/// that of the last status item. A position is a closing where its item is no update, or is the 100th since
/// the closing before, or where the feed has ended there. Each cut is the first closing after the one
/// before at which the fold differs, and after the last cut none does.
pub fn readings()
    ensures value { (items : List Item) (q : List ℕ) → get (folded items).pairs q ≡ last_put q items }
    ensures status { (items : List Item) → (folded items).status ≡ last_state items }
    ensures closings { (ended : Bool) (items : List Item) (j : ℕ) (x : Item) → j < length items → x ≡ slice_index_or items j x
        → is_closing ended items (j + 1) ≡ (not (is_update x)
        || (j + 1 - closing_before false items (j + 1) == BATCH_UPDATES) || (ended && (j + 1 == length items))) }
    ensures cuts { (ended : Bool) (items : List Item) → AllNext ended items 0 (cuts ended items) }
    ensures ascending { (items : List Item) → T (is_sorted (slice_cmp nat_cmp) (folded items).pairs) }
    ensures replayed { (entries : List Entry) → T (is_sorted (slice_cmp nat_cmp) (replay entries).pairs) }
    ensures one { (a b : List Item) → ((q : List ℕ) → get (folded a).pairs q ≡ get (folded b).pairs q)
        → (folded a).pairs ≡ (folded b).pairs }
{}

/// A test that all keys of the items pass, and another that all values pass, are passed by the pairs of
/// each world and by each delta.
pub fn keys_and_values_are_the_items_own()
    ensures pairs { (k v : List ℕ → Bool) (ended : Bool) (items : List Item) (n : ℕ)
        → list_all (item_passes k v) items ≡ true → list_all (pair_passes k v) (world ended items n).pairs ≡ true }
    ensures deltas { (k v : List ℕ → Bool) (ended : Bool) (items : List Item) (n : ℕ)
        → list_all (item_passes k v) items ≡ true → list_all (delta_passes k v) (deltas ended items n) ≡ true }
{}

/// A number's digits read back, and nothing else reads as it.
pub fn numbers_read_back()
    ensures back { (n : ℕ) → n < 2 ^ 64 → read_number (decimal n) ≡ Some n }
    ensures only { (text : List ℕ) (n : ℕ) → read_number text ≡ Some n → text ≡ decimal n }
{}
