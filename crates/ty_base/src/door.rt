// What connections come from, with a count of faults and what it tells.
ghost use Rattle.std.specs.Prelude.{◌≡◌, ◌+◌, ◌<◌, ◌≤◌, ℕ, Option};
ghost use Rattle.ty_base.specs.Causes.{HasCause};
ghost use Rattle.ty_base.specs.Doors.{DoorSight, Accepts, TakesBack, links_in};
ghost use Rattle.ty_base.specs.Told.{Told};

use crate::link::Link;
use crate::outside::Failed;

/// What came to a door.
#[derive(Debug, Drop)]
pub enum Came<L> {
    /// A connection.
    Link(L),
    /// Nothing yet.
    Quiet,
    /// Nothing more will come.
    End,
}

/// What connections come from, and to which they go back.
pub trait Door {
    /// It may go to another thread, without which no door of a type parameter could serve in one.
    type Link: Link + Send;

    /// Its last answer and the links that came back, where it tells.
    ghost sight: { Self → Option (DoorSight Self.Link) };

    /// How many links it gave.
    ghost gave: { Self → ℕ };

    /// How many links came back.
    ghost got: { Self → ℕ };

    /// How often it has failed.
    ghost count: { Self → ℕ };

    /// A connection, if one came. A client's door dials. No more links came back than it gave.
    fn accept(&mut self) -> Result<Came<Self::Link>, Failed>
        ensures told { Told (Accepts result) (sight self.old) (sight self.new) }
        ensures gave { gave self.new ≡ gave self.old + links_in result }
        ensures got { got self.new ≡ got self.old }
        ensures sound { got self.old ≤ gave self.old }
        ensures cause { HasCause (count self.old) (count self.new) result };

    /// Takes back a link that was used. Fewer links came back before than it gave.
    fn back(&mut self, link: Self::Link)
        requires { got self.old < gave self.old }
        ensures told { Told (TakesBack link) (sight self.old) (sight self.new) }
        ensures gave { gave self.new ≡ gave self.old }
        ensures got { got self.new ≡ got self.old + 1 }
        ensures count { count self.new ≡ count self.old };

    /// The count of faults, which never falls, and stays at 2^64 - 1 once it is there.
    fn faults(&self) -> u64
        ensures { result ≡ count self.now };
}
