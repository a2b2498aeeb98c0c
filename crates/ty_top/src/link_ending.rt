// How a run of a mode with connections ends.
ghost use Rattle.std.specs.Prelude.{◌≡◌};
ghost use Rattle.ty_top.specs.LinkEndings.{dial_status, serve_status, link_status};

use crate::ending::{fault_status, feed_status};
use ty_client::StreamFault;
use ty_intake::IntakeFault;

/// How a run of `serve` ends.
#[derive(Clone, Copy, Debug, PartialEq, Eq)]
pub(crate) enum ServeEnd {
    /// The feed was read to its end, and no door failed.
    Done,
    /// The feed has this fault.
    Fault(IntakeFault),
    /// The source failed.
    Read,
    /// A door failed.
    Door,
    /// Memory ran out, at one connection at least.
    Memory,
}

/// How a run of `follow --at` ends.
#[derive(Clone, Copy, Debug, PartialEq, Eq)]
pub(crate) enum DialEnd {
    /// The last connection ended outside a frame.
    Done,
    /// A connection's bytes have this fault.
    Fault(StreamFault),
    /// The last connection's end came inside a frame, of which there are so many bytes.
    Cut(u64),
    /// The last link failed.
    Link,
    /// The dialler failed.
    Door,
    /// The sink failed.
    Write,
    /// Memory ran out.
    Memory,
}

/// How a run of a mode with connections ends.
#[derive(Clone, Copy, Debug, PartialEq, Eq)]
pub(crate) enum LinkEnding {
    Serve(ServeEnd),
    Dial(DialEnd),
}

impl LinkEnding {
    /// The exit status of a run that ends so.
    pub fn status(self) -> u8
        ensures { result ≡ link_status self }
    {
        match self {
            LinkEnding::Serve(end) => end.status(),
            LinkEnding::Dial(end) => end.status(),
        }
    }
}

impl ServeEnd {
    fn status(self) -> u8
        ensures { result ≡ serve_status self }
    {
        match self {
            ServeEnd::Done => 0,
            ServeEnd::Fault(fault) => feed_status(fault),
            ServeEnd::Read => 3,
            ServeEnd::Door => 7,
            ServeEnd::Memory => 5,
        }
    }
}

impl DialEnd {
    fn status(self) -> u8
        ensures { result ≡ dial_status self }
    {
        match self {
            DialEnd::Done => 0,
            DialEnd::Fault(fault) => fault_status(fault),
            DialEnd::Cut(_) => 9,
            DialEnd::Link => 10,
            DialEnd::Door => 7,
            DialEnd::Write => 4,
            DialEnd::Memory => 5,
        }
    }
}
