// Laws of the definitions.
ghost use Rattle.std.specs.Prelude.{◌≡◌, ◌≤◌, ◌++◌, ◌∷◌, [], List, ℕ, length, true};
ghost use Rattle.std.specs.List.{list_all};
ghost use Rattle.ty_base.specs.declared.entry.Entry.{Entry};
ghost use Rattle.ty_wire.specs.Wire.{frames};
ghost use Rattle.ty_wire.specs.Talk.{IsTalk, ping_fits};
ghost use Rattle.ty_wire.specs.declared.message.Msg.{Msg};
ghost use Rattle.ty_marks.specs.Marks.{Mark, start, Follow, AreMarks, group_numbers, end_after, messages_after, messages_of, bytes_of};

/// What marks say over a list of entries is a talk over it, from the start on with the groups'
/// numbers, and its pings' times have 64 bits.
pub fn marks_make_talks()
    ensures talk { (entries : List Entry) (e0 : ℕ) (marks : List Mark)
        → Follow e0 marks (length entries)
        → IsTalk entries e0 (group_numbers marks) (messages_of entries (start e0 ∷ marks)) }
    ensures pings { (entries : List Entry) (e0 : ℕ) (marks : List Mark)
        → Follow e0 marks (length entries)
        → list_all ping_fits (messages_of entries (start e0 ∷ marks)) ≡ true }
{}

/// More marks say more, and nothing else. More entries change nothing of what marks say that are
/// there.
pub fn marks_grow()
    ensures marks { (entries : List Entry) (marks more : List Mark)
        → messages_of entries (marks ++ more)
        ≡ messages_of entries marks ++ messages_after entries (end_after 0 marks) more }
    ensures bytes { (entries : List Entry) (marks more : List Mark)
        → bytes_of entries (marks ++ more)
        ≡ bytes_of entries marks ++ frames (messages_after entries (end_after 0 marks) more) }
    ensures entries { (entries more : List Entry) (marks : List Mark)
        → AreMarks marks (length entries)
        → messages_of (entries ++ more) marks ≡ messages_of entries marks }
{}
