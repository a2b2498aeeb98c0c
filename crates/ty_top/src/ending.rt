// How a run ends.
ghost use Rattle.std.specs.Prelude.{◌≡◌, ◌⊎◌};
ghost use Rattle.ty_top.specs.Endings.{exit_status, stream_status, follow_status, sim_status, load_status, fault_status as fault_status_of, feed_status as feed_status_of, script_status as script_status_of};

use ty_client::StreamFault;
use ty_core::SimFault;
use ty_intake::IntakeFault;
use ty_wire::WireFault;
use ty_words::{FollowWords, ServeWords};

/// What comes of the words where there are no connections.
#[derive(Drop)]
pub enum Local {
    /// It is done, with this exit status.
    Done(u8),
    /// The feed is to be served.
    Serve(ServeWords),
    /// A server is to be followed.
    Follow(FollowWords),
}

/// The same before it is told of.
#[derive(Drop)]
pub(crate) enum Outcome {
    /// A run that has ended so.
    Ended(Ending),
    /// Words that are handed on.
    Serve(ServeWords),
    Follow(FollowWords),
}

/// How a run ends, by what the words ask for.
#[derive(Clone, Copy, Debug, PartialEq, Eq)]
pub(crate) enum Ending {
    /// The words are refused.
    Usage,
    /// Memory ran out before the words were read.
    Memory,
    Stream(StreamEnd),
    Follow(FollowEnd),
    Sim(SimEnd),
    Load(LoadEnd),
}

/// How a run of `stream` ends.
#[derive(Clone, Copy, Debug, PartialEq, Eq)]
pub(crate) enum StreamEnd {
    /// All was read and written.
    Done,
    /// The feed has this fault.
    Fault(IntakeFault),
    /// The source failed.
    Read,
    /// The sink failed.
    Write,
    /// Memory ran out.
    Memory,
}

/// How a run of `follow` ends.
#[derive(Clone, Copy, Debug, PartialEq, Eq)]
pub(crate) enum FollowEnd {
    /// All was read and written.
    Done,
    /// The connection's bytes have this fault.
    Fault(StreamFault),
    /// The connection's end came inside a frame, of which there are so many bytes.
    Cut(u64),
    /// The source failed.
    Read,
    /// The sink failed.
    Write,
    /// Memory ran out.
    Memory,
}

/// How a run of `sim` ends.
#[derive(Clone, Copy, Debug, PartialEq, Eq)]
pub(crate) enum SimEnd {
    /// All was read, run and written.
    Done,
    /// The script was run no further.
    Stopped(SimFault),
}

/// How a run of `load` ends.
#[derive(Clone, Copy, Debug, PartialEq, Eq)]
pub(crate) enum LoadEnd {
    /// The summary was written.
    Done,
    /// The sink failed.
    Write,
    /// Memory ran out.
    Memory,
}

impl Ending {
    /// The exit status of a run that ends so.
    pub fn status(self) -> u8
        ensures { result ≡ exit_status self }
    {
        match self {
            Ending::Usage => 1,
            Ending::Memory => 5,
            Ending::Stream(end) => end.status(),
            Ending::Follow(end) => end.status(),
            Ending::Sim(end) => end.status(),
            Ending::Load(end) => end.status(),
        }
    }
}

impl StreamEnd {
    fn status(self) -> u8
        ensures { result ≡ stream_status self }
    {
        match self {
            StreamEnd::Done => 0,
            StreamEnd::Fault(fault) => feed_status(fault),
            StreamEnd::Read => 3,
            StreamEnd::Write => 4,
            StreamEnd::Memory => 5,
        }
    }
}

impl FollowEnd {
    fn status(self) -> u8
        ensures { result ≡ follow_status self }
    {
        match self {
            FollowEnd::Done => 0,
            FollowEnd::Fault(fault) => fault_status(fault),
            FollowEnd::Cut(_) => 9,
            FollowEnd::Read => 3,
            FollowEnd::Write => 4,
            FollowEnd::Memory => 5,
        }
    }
}

impl SimEnd {
    fn status(self) -> u8
        ensures { result ≡ sim_status self }
    {
        match self {
            SimEnd::Done => 0,
            SimEnd::Stopped(fault) => script_status(fault),
        }
    }
}

impl LoadEnd {
    fn status(self) -> u8
        ensures { result ≡ load_status self }
    {
        match self {
            LoadEnd::Done => 0,
            LoadEnd::Write => 4,
            LoadEnd::Memory => 5,
        }
    }
}

fn script_status(fault: SimFault) -> u8
    ensures { result ≡ script_status_of fault }
{
    match fault {
        SimFault::Event { .. } | SimFault::Feed { .. } | SimFault::LongLine { .. } => 2,
        SimFault::TooMuch => 8,
        SimFault::Read => 3,
        SimFault::Write => 4,
        SimFault::NoMemory => 5,
    }
}

pub(crate) fn fault_status(fault: StreamFault) -> u8
    ensures { result ≡ fault_status_of fault }
{
    match fault {
        StreamFault::Wire(WireFault::TooMuch) => 8,
        _ => 6,
    }
}

pub(crate) fn feed_status(fault: IntakeFault) -> u8
    ensures { result ≡ feed_status_of fault }
{
    match fault {
        IntakeFault::TooMuch => 8,
        _ => 2,
    }
}
