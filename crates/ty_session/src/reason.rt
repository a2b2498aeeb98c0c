// Why a connection is over.
use ty_base::NoMemory;
use ty_wire::WireFault;

/// Why a connection is over. Times are in milliseconds, and the client's frames count from 1.
#[derive(Clone, Copy, Debug, PartialEq, Eq)]
pub enum Reason {
    /// No hello came within 10,000 milliseconds.
    NoHello { opened: u64, now: u64 },
    /// The hello is of a version that isn't spoken.
    BadHello { version: u64 },
    /// The client's bytes are no frames of messages.
    BadBytes(WireFault),
    /// The frame's message isn't allowed in its place.
    BadOrder { frame: u64 },
    /// The client wasn't heard for more than 60,000 milliseconds.
    NoPong { heard: u64, now: u64 },
    /// The client is too far behind: the breadcrumb that comes next was made at `at`.
    TooSlow { at: u64, now: u64 },
    /// The client has closed the connection.
    PeerClosed,
    /// The link answered with a fault.
    LinkFault,
    /// All was said and sent.
    Finished,
}

/// Why a call brought nothing.
#[derive(Clone, Copy, Debug, PartialEq, Eq)]
pub enum Gone {
    /// The connection is over.
    Left(Reason),
    /// Memory ran out. Each later call answers the same.
    NoMemory,
}

impl From<NoMemory> for Gone {
    ghost use Rattle.std.specs.Prelude.{◌≡◌};
    ghost use Rattle.ty_session.specs.declared.reason.Gone.TheVariants.{NoMemory};

    ghost from_gives = { λ _ e. e ≡ NoMemory };

    fn from(_: NoMemory) -> Gone {
        Gone::NoMemory
    }
}
