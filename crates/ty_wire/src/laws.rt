// Laws of the definitions.
ghost use Rattle.std.specs.Prelude.{◌≡◌, ◌≤◌, ◌<◌, ◌^◌, ◌++◌, List, ℕ, [], Option, true, length, take, flat_map};
ghost use Rattle.std.specs.List.{AllByRecursion, list_all};
ghost use Rattle.ty_base.specs.declared.status.Status.{Status};
ghost use Rattle.ty_base.specs.declared.entry.Entry.{Entry};
ghost use Rattle.ty_base.specs.declared.delta.Delta.{Delta};
ghost use Rattle.ty_base.specs.declared.limits.TheConstants.{VALUE_BYTES};
ghost use Rattle.ty_base.specs.Limits.{deltas_fit, is_small_entry};
ghost use Rattle.ty_wire.specs.Wire.{message_fits, frame, frames, Spells, IsJson, IsWire, HasUtf8, DeltaHasUtf8};
ghost use Rattle.ty_wire.specs.Cut.{cut_deltas};
ghost use Rattle.ty_wire.specs.Talk.{group_messages, talk, ping_fits, Rise, IsTalk};
ghost use Rattle.ty_wire.specs.Whole.{whole_in};
ghost use Rattle.ty_wire.specs.Stream.{Brings, Reads, FramesStand};
ghost use Rattle.ty_wire.specs.Held.{FramesHeld};
ghost use Rattle.ty_wire.specs.declared.message.Msg.{Msg};
ghost use Rattle.ty_wire.specs.declared.fault.WireFault.{WireFault};
ghost use Rattle.ty_wire.specs.declared.message.Msg.TheVariants.{ClientHello, ServerHello, Kvs, Status as StatusMsg, Crumb, Ping, Pong};

/// A message without deltas fits, a client hello where its host has at most `VALUE_BYTES`.
pub fn short_messages_fit()
    ensures client_hello { (version : ℕ) (host : List ℕ) → version < 2 ^ 64
        → length host ≤ VALUE_BYTES → message_fits (ClientHello version host) ≡ true }
    ensures server_hello { (version : ℕ) → version < 2 ^ 64
        → message_fits (ServerHello version) ≡ true }
    ensures status { (s : Status) → message_fits (StatusMsg s) ≡ true }
    ensures crumb { (n : ℕ) → n < 2 ^ 64 → message_fits (Crumb n) ≡ true }
    ensures ping { (ts : ℕ) → ts < 2 ^ 64 → message_fits (Ping ts) ≡ true }
    ensures pong { (ts : ℕ) → ts < 2 ^ 64 → message_fits (Pong ts) ≡ true }
{}

/// A message has one spelling and a spelling one message, and a spelling is a JSON text. A message
/// that fits, whose texts are UTF-8, has one.
pub fn one_spelling()
    ensures message { (bytes : List ℕ) (m n : Msg) → Spells bytes m → Spells bytes n → m ≡ n }
    ensures bytes { (x y : List ℕ) (m : Msg) → Spells x m → Spells y m → x ≡ y }
    ensures json { (bytes : List ℕ) (m : Msg) → Spells bytes m → IsJson bytes }
    ensures utf8 { (m : Msg) → HasUtf8 m → message_fits m ≡ true → IsWire m }
{}

/// No frame stands at the front of another, so bytes read as one list of messages and one rest.
/// Each list of bytes brings messages, and a fault or none, and no others. What a `Frames` stands
/// for, it has given.
pub fn one_reading()
    ensures prefix { (m n : Msg) (more : List ℕ) → IsWire m → IsWire n → frame m ++ more ≡ frame n
        → (m ≡ n) × (more ≡ []) }
    ensures reads { (bytes : List ℕ) (ms ns : List Msg) (x y : List ℕ) → Reads bytes ms x
        → Reads bytes ns y → (ms ≡ ns) × (x ≡ y) }
    ensures outcome { (bytes : List ℕ) (ms ns : List Msg) (f g : Option WireFault)
        → Brings bytes ms f → Brings bytes ns g → (ms ≡ ns) × (f ≡ g) }
    ensures some { (bytes : List ℕ) → AllByRecursion (λ b. b < 256) bytes
        → (ms : List Msg) × (f : Option WireFault) × Brings bytes ms f }
    ensures brings { (f : FramesHeld) (bytes : List ℕ) (ms : List Msg) → FramesStand f bytes ms
        → Brings bytes ms f.fault }
{}

/// Frames read back as their messages, and bytes at their front as those messages that end in it,
/// with no fault. What ends in a front stays when more messages follow, and in fewer bytes a front
/// of it ends.
pub fn frames_read_back()
    ensures whole { (ms : List Msg) → AllByRecursion IsWire ms → Reads (frames ms) ms [] }
    ensures front { (ms : List Msg) (n : ℕ) → AllByRecursion IsWire ms → n ≤ length (frames ms)
        → (rest : List ℕ) × Reads (take n (frames ms)) (whole_in n ms) rest }
    ensures more { (ms more : List Msg) (n : ℕ) → n ≤ length (frames ms)
        → whole_in n (ms ++ more) ≡ whole_in n ms }
    ensures all { (ms : List Msg) → whole_in (length (frames ms)) ms ≡ ms }
    ensures fewer { (ms : List Msg) (a b : ℕ) → a ≤ b
        → (more : List Msg) × (whole_in b ms ≡ whole_in a ms ++ more) }
{}

/// The parts of a cutting are the deltas, in order, and each fits a message. A group of deltas
/// within the limits, whose texts are UTF-8, has frames.
pub fn cutting_keeps_deltas()
    ensures joined { (ds : List Delta) → flat_map (λ part. part) (cut_deltas ds) ≡ ds }
    ensures fit { (ds : List Delta) → deltas_fit ds ≡ true
        → AllByRecursion (λ part. message_fits (Kvs part) ≡ true) (cut_deltas ds) }
    ensures group { (ds : List Delta) (status : Option Status) (n : ℕ) → deltas_fit ds ≡ true
        → AllByRecursion DeltaHasUtf8 ds → n < 2 ^ 64
        → AllByRecursion IsWire (group_messages ds status n) }
{}

/// The messages of a talk have frames, where the texts of its entries are UTF-8 and within the
/// limits. So the front of a talk's bytes reads without a fault.
pub fn talks_have_frames()
    ensures talk { (entries : List Entry) (e0 : ℕ) (numbers : List ℕ)
        → list_all is_small_entry entries ≡ true → length entries < 2 ^ 64
        → Rise e0 numbers (length entries) → AllByRecursion IsWire (talk entries e0 numbers) }
    ensures pings { (entries : List Entry) (e0 : ℕ) (numbers : List ℕ) (ms : List Msg)
        → list_all is_small_entry entries ≡ true → length entries < 2 ^ 64
        → IsTalk entries e0 numbers ms → list_all ping_fits ms ≡ true → AllByRecursion IsWire ms }
{}
