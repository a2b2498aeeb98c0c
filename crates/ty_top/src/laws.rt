// Laws of the definitions.
ghost use Rattle.std.specs.Prelude.{◌≡◌, ◌≢◌, ◌⊎◌, ◌<◌, ◌++◌, List, ℕ, Bool, [], None, Some, true, length, take};
ghost use Rattle.std.specs.Io.KnownBytes.{Appends};
ghost use Rattle.ty_base.specs.declared.item.Item.{Item};
ghost use Rattle.ty_base.specs.declared.limits.TheConstants.{INPUT_BYTES};
ghost use Rattle.ty_base.specs.Devices.{Seen};
ghost use Rattle.ty_base.specs.Feed.{folded, last, world};
ghost use Rattle.ty_wire.specs.declared.fault.WireFault.{WireFault};
ghost use Rattle.ty_wire.specs.declared.message.Msg.{Msg};
ghost use Rattle.ty_client.specs.declared.fault.StreamFault.{StreamFault};
ghost use Rattle.ty_client.specs.declared.follower.FollowFault.TheVariants.{Stream, Cut};
ghost use Rattle.ty_client.specs.Followed.{Ended, StoppedBy};
ghost use Rattle.ty_client.specs.Heard.{Hears};
ghost use Rattle.ty_client.specs.Rebuilt.{ats};
ghost use Rattle.ty_client.specs.Text.{rebuilt_text};
ghost use Rattle.ty_intake.specs.Faults.{feed_fault};
ghost use Rattle.ty_intake.specs.Lines.{Feed};
ghost use Rattle.ty_intake.specs.Batches.{items_of, closed_items};
ghost use Rattle.ty_intake.specs.declared.intake.IntakeFault.{IntakeFault};
ghost use Rattle.ty_core.specs.Simulated.{Taken};
ghost use Rattle.ty_top.specs.Streamed.{streamed, worlds_from};
ghost use Rattle.ty_top.specs.Endings.{Streams, stated, exit_status, script_line, whole_feed};
ghost use Rattle.ty_top.specs.declared.ending.Ending.{Ending};
ghost use Rattle.ty_top.specs.declared.ending.StreamEnd.{StreamEnd};
ghost use Rattle.ty_top.specs.declared.ending.FollowEnd.{FollowEnd};
ghost use Rattle.ty_top.specs.declared.ending.SimEnd.{SimEnd};
ghost use Rattle.ty_top.specs.declared.ending.LoadEnd.{LoadEnd};
ghost use Rattle.ty_core.specs.declared.simulation.SimFault.{SimFault};

/// What each exit status tells of a run's ending, of which `local` says what was read, written and noted.
pub fn statuses_tell()
    ensures done { (e : Ending) → exit_status e ≡ 0 → (e ≡ Ending.Stream StreamEnd.Done) ⊎ ((e ≡ Ending.Follow FollowEnd.Done)
        ⊎ ((e ≡ Ending.Sim SimEnd.Done) ⊎ (e ≡ Ending.Load LoadEnd.Done))) }
    ensures usage { (e : Ending) → exit_status e ≡ 1 → e ≡ Ending.Usage }
    ensures line { (e : Ending) → exit_status e ≡ 2
        → ((fault : IntakeFault) × (fault ≢ IntakeFault.TooMuch) × (e ≡ Ending.Stream (StreamEnd.Fault fault)))
        ⊎ ((fault : SimFault) × (n : ℕ) × (script_line fault ≡ Some n) × (e ≡ Ending.Sim (SimEnd.Stopped fault))) }
    ensures read { (e : Ending) → exit_status e ≡ 3 → (e ≡ Ending.Stream StreamEnd.Read) ⊎ ((e ≡ Ending.Follow FollowEnd.Read)
        ⊎ (e ≡ Ending.Sim (SimEnd.Stopped SimFault.Read))) }
    ensures write { (e : Ending) → exit_status e ≡ 4 → (e ≡ Ending.Stream StreamEnd.Write) ⊎ ((e ≡ Ending.Follow FollowEnd.Write)
        ⊎ ((e ≡ Ending.Sim (SimEnd.Stopped SimFault.Write)) ⊎ (e ≡ Ending.Load LoadEnd.Write))) }
    ensures memory { (e : Ending) → exit_status e ≡ 5 → (e ≡ Ending.Memory) ⊎ ((e ≡ Ending.Stream StreamEnd.Memory) ⊎ ((e ≡ Ending.Follow FollowEnd.Memory)
        ⊎ ((e ≡ Ending.Sim (SimEnd.Stopped SimFault.NoMemory)) ⊎ (e ≡ Ending.Load LoadEnd.Memory)))) }
    ensures fault { (e : Ending) → exit_status e ≡ 6
        → (fault : StreamFault) × (fault ≢ StreamFault.Wire WireFault.TooMuch) × (e ≡ Ending.Follow (FollowEnd.Fault fault)) }
    ensures too_much { (e : Ending) → exit_status e ≡ 8 → (e ≡ Ending.Stream (StreamEnd.Fault IntakeFault.TooMuch))
        ⊎ ((e ≡ Ending.Follow (FollowEnd.Fault (StreamFault.Wire WireFault.TooMuch)))
        ⊎ (e ≡ Ending.Sim (SimEnd.Stopped SimFault.TooMuch))) }
    ensures cut { (e : Ending) → exit_status e ≡ 9 → (left : ℕ) × (e ≡ Ending.Follow (FollowEnd.Cut left)) }
{}

/// Each front of what `stream` writes of a feed from breadcrumb j on reads without a fault, and rebuilds the first of the
/// worlds from j on, each once and in order: at breadcrumb n the map and status of the world at n. `all` is about the talk
/// over all of the feed's items, `closed` about that over the items up to the last closing.
pub fn streams_rebuild_the_worlds()
    ensures all { (feed : Feed) (j : ℕ) (bytes more : List ℕ)
        → length bytes < INPUT_BYTES → bytes ++ more ≡ streamed (items_of feed) j
        → (ms : List Msg) × (k : ℕ) × Hears bytes ms None × (ats ms ≡ take k (worlds_from (items_of feed) j)) }
    ensures closed { (feed : Feed) (j : ℕ) (bytes more : List ℕ)
        → length bytes < INPUT_BYTES → bytes ++ more ≡ stated j feed
        → (ms : List Msg) × (k : ℕ) × Hears bytes ms None × (ats ms ≡ take k (worlds_from (closed_items feed) j)) }
{}

/// Whatever `stream` from breadcrumb j on has written at any of its endings, behind nothing: each front of it reads without a
/// fault, and rebuilds the first of the worlds of what was read, each once and in order.
pub fn whatever_was_written_rebuilds_worlds()
    ensures { (j : ℕ) (end : StreamEnd) (old new : Seen) (bytes front more : List ℕ)
        → Streams j end old new → old.sink.held ≡ Some [] → new.sink.held ≡ Some bytes
        → front ++ more ≡ bytes → length front < INPUT_BYTES
        → (read : Feed) × (ms : List Msg) × (k : ℕ) × Taken old new read × Hears front ms None
        × (ats ms ≡ take k (worlds_from (closed_items read) j)) }
{}

/// All that `stream` writes of a feed from breadcrumb j on rebuilds the worlds from j to the last, each once and in order, and
/// the last one is the fold of all items.
pub fn whole_streams_rebuild_every_world()
    ensures all { (feed : Feed) (j : ℕ) → length (streamed (items_of feed) j) < INPUT_BYTES
        → (ms : List Msg) × Hears (streamed (items_of feed) j) ms None × (ats ms ≡ worlds_from (items_of feed) j) }
    ensures closed { (feed : Feed) (j : ℕ) → length (stated j feed) < INPUT_BYTES
        → (ms : List Msg) × Hears (stated j feed) ms None × (ats ms ≡ worlds_from (closed_items feed) j) }
    ensures fold { (items : List Item) → world true items (last true items) ≡ folded items }
{}

/// `follow` over a source that has left what `stream` writes of a feed from breadcrumb j on: where it comes to the end, it has
/// written the text of the worlds from j to the last, each once and in order. It finds no fault, and the end is in no
/// frame.
pub fn followed_streams_tell_every_world()
    ensures told { (brief : Bool) (feed : Feed) (j : ℕ) (old new : Seen)
        → old.source.left ≡ Some (streamed (items_of feed) j) → Ended brief old new []
        → Appends old.sink.held new.sink.held (rebuilt_text brief (worlds_from (items_of feed) j)) }
    ensures good { (brief : Bool) (feed : Feed) (j : ℕ) (old new : Seen) (f : StreamFault)
        → length (streamed (items_of feed) j) < INPUT_BYTES
        → old.source.left ≡ Some (streamed (items_of feed) j) → ¬ (StoppedBy brief old new (Stream f)) }
    ensures uncut { (brief : Bool) (feed : Feed) (j : ℕ) (old new : Seen) (left : ℕ)
        → old.source.left ≡ Some (streamed (items_of feed) j) → ¬ (StoppedBy brief old new (Cut left)) }
    ensures closed_told { (brief : Bool) (feed : Feed) (j : ℕ) (old new : Seen)
        → old.source.left ≡ Some (stated j feed) → Ended brief old new []
        → Appends old.sink.held new.sink.held (rebuilt_text brief (worlds_from (closed_items feed) j)) }
    ensures closed_good { (brief : Bool) (feed : Feed) (j : ℕ) (old new : Seen) (f : StreamFault)
        → length (stated j feed) < INPUT_BYTES
        → old.source.left ≡ Some (stated j feed) → ¬ (StoppedBy brief old new (Stream f)) }
    ensures closed_uncut { (brief : Bool) (feed : Feed) (j : ℕ) (old new : Seen) (left : ℕ)
        → old.source.left ≡ Some (stated j feed) → ¬ (StoppedBy brief old new (Cut left)) }
{}

/// Where `stream` came to the end of a feed, and `follow` to the end of all that it wrote, the feed has no fault, and
/// what `follow` printed is the text of the feed's worlds from breadcrumb j to the last, each once and in order: at
/// breadcrumb n the fold from scratch of the feed's items up to cut n.
pub fn both_ends_agree()
    ensures { (j : ℕ) (brief : Bool) (server server_after client client_after : Seen) (feed bytes : List ℕ)
        → Streams j StreamEnd.Done server server_after → server.source.left ≡ Some feed
        → server.sink.held ≡ Some [] → server_after.sink.held ≡ Some bytes
        → Ended brief client client_after [] → client.source.left ≡ Some bytes → client.sink.held ≡ Some []
        → (feed_fault (whole_feed feed) ≡ None)
        × (client_after.sink.held ≡ Some (rebuilt_text brief (worlds_from (items_of (whole_feed feed)) j))) }
{}
