// Laws of the definitions.
ghost use Rattle.std.specs.Prelude.{◌≡◌, ◌<◌, [], List, ℕ, length};
ghost use Rattle.ty_marks.specs.Marks.{AreMarks, end_after, bytes_of};
ghost use Rattle.ty_session.specs.Story.{Story};
ghost use Rattle.ty_session.specs.Held.{IsQueued, IsTalkOf};

/// The bytes that were removed from a session and those that are queued are together the bytes of a
/// talk over its entries, or none before the joining. Where nothing is queued and no group held,
/// all of the talk was removed, and its last number is that of the last entry.
pub fn what_is_queued_is_a_talk()
    ensures none { (out : List ℕ) (s : Story) → IsQueued out s → s.marks ≡ []
        → (out ≡ []) × (s.removed ≡ 0) }
    ensures talk { (out : List ℕ) (s : Story) → IsQueued out s
        → AreMarks s.marks (length s.entries) → 0 < length s.marks → IsTalkOf out s }
    ensures whole { (s : Story) → IsQueued [] s → s.removed ≡ length (bytes_of s.entries s.marks) }
{}
