// What tells the time.
ghost use Rattle.std.specs.Prelude.{ℕ};

/// What tells the time.
pub trait Clock {
    /// The moments that it may give.
    ghost gives: { Self → ℕ → Type 0 };

    /// The time, in milliseconds.
    fn now(&self) -> u64
        ensures { gives self.now result };
}
