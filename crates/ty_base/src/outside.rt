// What bytes come from and where they go, with a count of faults.
ghost use Rattle.std.specs.Prelude.{◌≡◌, ◌<◌, ◌≤◌, List, ℕ, Option, length, IfOk};
ghost use Rattle.std.specs.Io.{ReadsAtMost};
ghost use Rattle.std.specs.Io.KnownBytes.{ReadConsumes, WriteAppends};
ghost use Rattle.ty_base.specs.Causes.{HasCause};
ghost use Rattle.ty_base.specs.Devices.{Input, Output};

/// The object has failed and has counted the fault: nothing was taken or given in that call.
#[derive(Clone, Copy, Debug, PartialEq, Eq)]
pub struct Failed;

/// What bytes come from.
pub trait Source {
    /// What it has left, where it tells, and how often it has failed.
    ghost seen: { Self → Input };

    /// How many bytes it put at the front of the buffer, which isn't empty. 0 is the end. After a fault
    /// what it has left is as before.
    fn take(&mut self, buf: &mut [u8]) -> Result<usize, Failed>
        requires { 0 < length buf.old }
        ensures bound { ReadsAtMost result buf.new }
        ensures bytes { ReadConsumes (seen self.old).left (seen self.new).left result buf.new }
        ensures cause { HasCause (seen self.old).faults (seen self.new).faults result };

    /// The count of faults, which never falls, and stays at 2^64 - 1 once it is there.
    fn faults(&self) -> u64
        ensures { result ≡ (seen self.now).faults };
}

/// Where bytes go.
pub trait Sink {
    /// What it holds, where it tells, and how often it has failed.
    ghost seen: { Self → Output };

    /// How many bytes of the front of a piece, which isn't empty, it took: at least one. After a fault
    /// it took none.
    fn give(&mut self, piece: &[u8]) -> Result<usize, Failed>
        requires { 0 < length piece.now }
        ensures some { IfOk result (λ n. 0 < n) }
        ensures bound { ReadsAtMost result piece.now }
        ensures bytes { WriteAppends (seen self.old).held (seen self.new).held result piece.now }
        ensures cause { HasCause (seen self.old).faults (seen self.new).faults result };

    /// The count of faults, which never falls, and stays at 2^64 - 1 once it is there.
    fn faults(&self) -> u64
        ensures { result ≡ (seen self.now).faults };
}
