// A clock in memory.
ghost use Rattle.std.specs.Prelude.{◌≡◌};

use crate::clock::Clock;
use std::marker::Model;

/// A clock that stands at a set time, in milliseconds.
#[derive(Drop)]
pub struct SetClock {
    now: u64,
}

impl Model for SetClock {
    ghost use Rattle.std.specs.Prelude.{ℕ};

    ghost Value = { ℕ };

    ghost view = { λ c. c.now };
}

impl SetClock {
    /// A clock that stands at this time.
    pub fn new(now: u64) -> SetClock
        ensures { result ≡ now }
    {
        SetClock { now }
    }

    /// Sets the time, to any other.
    pub fn set(&mut self, now: u64)
        ensures { self.new ≡ now }
    {
        self.now = now;
    }
}

impl Clock for SetClock {
    ghost gives = { λ c t. t ≡ c };

    fn now(&self) -> u64 {
        self.now
    }
}
