// Laws of the definitions.
ghost use Rattle.std.specs.Prelude.{◌≡◌, ◌<◌, ◌^◌, ◌++◌, ◌∷◌, List, ℕ, Bool, [], Option, None, true, length, take, map};
ghost use Rattle.std.specs.List.{AllByRecursion, list_all};
ghost use Rattle.ty_base.specs.declared.item.Item.{Item};
ghost use Rattle.ty_base.specs.declared.entry.Entry.{Entry};
ghost use Rattle.ty_base.specs.Feed.{book};
ghost use Rattle.ty_base.specs.Limits.{is_small_entry, AreSmall};
ghost use Rattle.ty_base.specs.declared.limits.TheConstants.{INPUT_BYTES};
ghost use Rattle.ty_wire.specs.Wire.{frame, frames};
ghost use Rattle.ty_wire.specs.Talk.{talk, ping_fits, Rise, IsTalk};
ghost use Rattle.ty_wire.specs.declared.message.Msg.{Msg};
ghost use Rattle.ty_wire.specs.declared.message.Msg.TheVariants.{ServerHello};
ghost use Rattle.ty_client.specs.declared.fault.StreamFault.{StreamFault};
ghost use Rattle.ty_client.specs.Rebuilt.{Rebuilt, ats};
ghost use Rattle.ty_client.specs.Heard.{Hears, Holds};
ghost use Rattle.ty_client.specs.Worlds.{rebuilt_after, rebuilt_world};

/// Bytes are heard in one way: they have one list of good messages, and one first fault or none.
/// What a front of them rebuilds is a front of what they rebuild. Where they have no fault, there
/// are fewer than `INPUT_BYTES` of them. So what a client holds after several connections is one
/// value or none.
pub fn one_hearing()
    ensures bytes { (bytes : List ℕ) (ms ns : List Msg) (f g : Option StreamFault)
        → Hears bytes ms f → Hears bytes ns g
        → (ms ≡ ns) × (f ≡ g) }
    ensures some { (bytes : List ℕ) → AllByRecursion (λ b. b < 256) bytes
        → (ms : List Msg) × (f : Option StreamFault) × Hears bytes ms f }
    ensures fronts { (bytes more : List ℕ) (ms ns : List Msg) (f g : Option StreamFault)
        → Hears bytes ms f
        → Hears (bytes ++ more) ns g → (later : List Rebuilt) × (ats ns ≡ ats ms ++ later) }
    ensures short { (bytes : List ℕ) (ms : List Msg) → Hears bytes ms None
        → length bytes < INPUT_BYTES }
    ensures connections { (connections : List (List ℕ)) (x y : Option Rebuilt) → Holds connections x
        → Holds connections y
        → x ≡ y }
{}

/// Each front of a talk over a list of entries reads without a fault, and rebuilds the first of the
/// worlds of its numbers: the world of n is the map and status that the first n entries leave. So
/// it is with pings, the whole talk rebuilds the world of each of its numbers, and a server hello
/// alone reads and rebuilds none.
pub fn talks_rebuild_worlds()
    ensures talk { (entries : List Entry) (e0 : ℕ) (numbers bytes more : List ℕ)
        → list_all is_small_entry entries ≡ true → length entries < 2 ^ 64
        → Rise e0 numbers (length entries)
        → length bytes < INPUT_BYTES → bytes ++ more ≡ frames (talk entries e0 numbers)
        → (ms : List Msg) × (k : ℕ) × Hears bytes ms None
        × (ats ms ≡ take k (map (rebuilt_after entries) (e0 ∷ numbers))) }
    ensures pings { (entries : List Entry) (e0 : ℕ) (numbers bytes more : List ℕ) (all : List Msg)
        → list_all is_small_entry entries ≡ true → length entries < 2 ^ 64
        → IsTalk entries e0 numbers all → list_all ping_fits all ≡ true
        → length bytes < INPUT_BYTES → bytes ++ more ≡ frames all
        → (ms : List Msg) × (k : ℕ) × Hears bytes ms None
        × (ats ms ≡ take k (map (rebuilt_after entries) (e0 ∷ numbers))) }
    ensures whole { (entries : List Entry) (e0 : ℕ) (numbers : List ℕ) (all : List Msg)
        → list_all is_small_entry entries ≡ true → length entries < 2 ^ 64
        → IsTalk entries e0 numbers all → list_all ping_fits all ≡ true
        → length (frames all) < INPUT_BYTES
        → Hears (frames all) all None × (ats all ≡ map (rebuilt_after entries) (e0 ∷ numbers)) }
    ensures hello { (bytes more : List ℕ) → length bytes < INPUT_BYTES
        → bytes ++ more ≡ frame (ServerHello 1)
        → (ms : List Msg) × Hears bytes ms None × (ats ms ≡ []) }
{}

/// Each front of a talk over the book of a list of items, with pings in it or without, reads
/// without a fault, and rebuilds the first of the worlds at the breadcrumbs of its numbers; the
/// whole talk rebuilds each of them. The keys and values of the items are UTF-8 and within the
/// limits.
pub fn talks_over_books_rebuild_the_worlds()
    ensures front { (ended : Bool) (items : List Item) (e0 : ℕ) (numbers bytes more : List ℕ) (all : List Msg)
        → AreSmall items → length items < 2 ^ 64
        → IsTalk (book ended items) e0 numbers all → list_all ping_fits all ≡ true
        → length bytes < INPUT_BYTES → bytes ++ more ≡ frames all
        → (ms : List Msg) × (k : ℕ) × Hears bytes ms None
        × (ats ms ≡ take k (map (rebuilt_world ended items) (e0 ∷ numbers))) }
    ensures whole { (ended : Bool) (items : List Item) (e0 : ℕ) (numbers : List ℕ) (all : List Msg)
        → AreSmall items → length items < 2 ^ 64
        → IsTalk (book ended items) e0 numbers all → list_all ping_fits all ≡ true
        → length (frames all) < INPUT_BYTES
        → Hears (frames all) all None × (ats all ≡ map (rebuilt_world ended items) (e0 ∷ numbers)) }
{}
