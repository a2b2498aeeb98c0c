// What the definitions of a feed's lines, items and batches come to.
ghost use Rattle.std.specs.Prelude.{◌≡◌, ◌<◌, ◌≤◌, ◌+◌, ◌++◌, ◌∷◌, ◌==◌, ℕ, Bool, false, true, List, [], length, take, Some};
ghost use Rattle.std.specs.List.{list_any};
ghost use Rattle.ty_base.specs.Batches.{IsBatch, IsClosed, IsNextBatch};
ghost use Rattle.ty_base.specs.Limits.{items_fit, AreSmall};
ghost use Rattle.ty_base.specs.declared.item.Item.{Item};
ghost use Rattle.ty_base.specs.declared.limits.TheConstants.{INPUT_BYTES};
ghost use Rattle.ty_intake.specs.Lines.{Feed, no_feed, fed_with, ended_now, cut_lines};
ghost use Rattle.ty_intake.specs.Faults.{feed_fault};
ghost use Rattle.ty_intake.specs.Batches.{items_of, batches, batches_of, closed_items, is_whole, joined};
ghost use Rattle.ty_intake.specs.declared.batch.Closed.{Closed};
ghost use Rattle.ty_intake.specs.declared.intake.IntakeFault.{IntakeFault};

/// A feed begins with the line that its first line feed ends, and bytes without one are an unfinished line.
pub fn lines_are_cut()
    ensures ended { (line more : List ℕ) → list_any (λ b. b == 10) line ≡ false
        → cut_lines (line ++ 10 ∷ more)
        ≡ record { lines = line ∷ (cut_lines more).lines; rest = (cut_lines more).rest } }
    ensures rest { (line : List ℕ) → list_any (λ b. b == 10) line ≡ false
        → cut_lines line ≡ record { lines = []; rest = line } }
{}

/// A feed has fewer than `INPUT_BYTES` items. Its batches, joined, are the items up to the last closing, which are all of
/// them where it ended without a fault.
pub fn batches_join()
    ensures few { (feed : Feed) → length (items_of feed) < INPUT_BYTES }
    ensures joined { (feed : Feed) → joined (batches_of feed) ≡ closed_items feed }
    ensures whole { (feed : Feed) → is_whole feed ≡ true → closed_items feed ≡ items_of feed }
    ensures none { batches_of no_feed ≡ [] }
{}

/// Each batch of a list of items is the next one behind those before it: they end at a closing, it ends at the next one, and
/// its position counts the items of all of them. Where keys and values are within the limits, it is a batch.
pub fn batches_are_batches()
    ensures closed { (ended : Bool) (items : List Item) (bs cs : List Closed) (b : Closed)
        → batches ended items ≡ bs ++ b ∷ cs → IsClosed (joined bs) }
    ensures next { (ended : Bool) (items : List Item) (bs cs : List Closed) (b : Closed)
        → batches ended items ≡ bs ++ b ∷ cs → IsNextBatch ended (joined bs) b.items }
    ensures cut { (ended : Bool) (items : List Item) (bs cs : List Closed) (b : Closed)
        → batches ended items ≡ bs ++ b ∷ cs → b.cut ≡ length (joined bs) + length b.items }
    ensures front { (ended : Bool) (items : List Item) (bs cs : List Closed) (b : Closed)
        → batches ended items ≡ bs ++ b ∷ cs
        → (joined bs ++ b.items ≡ take b.cut items) × (b.cut ≤ length items) }
    ensures batch { (ended : Bool) (items : List Item) (bs cs : List Closed) (b : Closed)
        → batches ended items ≡ bs ++ b ∷ cs → items_fit items ≡ true → IsBatch b.items }
{}

/// The keys and values of a feed's items are within the limits, and UTF-8, as the feed's good lines are.
pub fn items_are_small()
    ensures { (feed : Feed) → AreSmall (items_of feed) }
{}

/// A fault of a feed stays the fault of each longer feed, with the same closed items: what comes behind it changes
/// nothing.
pub fn faults_stay()
    ensures fed { (feed : Feed) (piece : List ℕ) (f : IntakeFault) → feed_fault feed ≡ Some f
        → (feed_fault (fed_with feed piece) ≡ Some f) × (closed_items (fed_with feed piece) ≡ closed_items feed) }
    ensures ended { (feed : Feed) (f : IntakeFault) → feed_fault feed ≡ Some f
        → (feed_fault (ended_now feed) ≡ Some f) × (closed_items (ended_now feed) ≡ closed_items feed) }
{}
