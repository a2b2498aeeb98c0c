// How an item says what it stands for.

/// Says for which lists of entries an item stands. It has no calls, since the program keeps no entries.
pub trait Standing {
    ghost use Rattle.std.specs.Prelude.{List};
    ghost use Rattle.ty_base.specs.declared.entry.Entry.{Entry};

    ghost stands: { Self → List Entry → Type 0 };
}
