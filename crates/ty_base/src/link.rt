// A connection, with a count of faults and what it tells.
ghost use Rattle.std.specs.Prelude.{◌≡◌, ◌<◌, ◌≤◌, ℕ, Option, length, IfOk, OnErr};
ghost use Rattle.std.specs.Io.{ReadsAtMost};
ghost use Rattle.ty_base.specs.Causes.{HasCause};
ghost use Rattle.ty_base.specs.Links.{Sight, Takes, FitsIn, IsGiven};
ghost use Rattle.ty_base.specs.Told.{Told, IsSame};

use crate::outside::Failed;

/// What a take of a link brought.
#[derive(Clone, Copy, Debug, PartialEq, Eq)]
pub enum Took {
    /// So many bytes, at least one.
    Bytes(usize),
    /// Nothing has come yet.
    Quiet,
    /// The peer has closed.
    End,
}

/// A connection.
pub trait Link {
    /// What it was given, brought and will bring, and whether its end was taken, where it tells.
    ghost sight: { Self → Option Sight };

    /// How often it has failed.
    ghost count: { Self → ℕ };

    /// What it put at the front of the buffer, which isn't empty: bytes of one piece, or none where
    /// nothing has come yet or the peer has closed. What was given is as before, and after a fault all
    /// that it tells.
    fn take(&mut self, buf: &mut [u8]) -> Result<Took, Failed>
        requires { 0 < length buf.old }
        ensures bound { IfOk result (λ t. FitsIn (length buf.new) t) }
        ensures taken { IfOk result (λ t. Told (Takes t buf.new) (sight self.old) (sight self.new)) }
        ensures kept { OnErr result (Told IsSame (sight self.old) (sight self.new)) }
        ensures cause { HasCause (count self.old) (count self.new) result };

    /// How many bytes of the front of a piece, which isn't empty, it took: at least one. What it brings
    /// is as before. After a fault it took none.
    fn give(&mut self, piece: &[u8]) -> Result<usize, Failed>
        requires { 0 < length piece.now }
        ensures some { IfOk result (λ n. 0 < n) }
        ensures bound { ReadsAtMost result piece.now }
        ensures given { IfOk result (λ n.
            Told (IsGiven n piece.now) (sight self.old) (sight self.new)) }
        ensures kept { OnErr result (Told IsSame (sight self.old) (sight self.new)) }
        ensures cause { HasCause (count self.old) (count self.new) result };

    /// The count of faults, which never falls, and stays at 2^64 - 1 once it is there.
    fn faults(&self) -> u64
        ensures { result ≡ count self.now };
}
