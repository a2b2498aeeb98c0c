// Why a connection's bytes go no further.
use ty_wire::WireFault;

/// Why no more messages of a connection are heard. Frames count from 1 on each connection.
#[derive(Clone, Copy, Debug, PartialEq, Eq)]
pub enum StreamFault {
    /// The bytes are no frames of messages.
    Wire(WireFault),
    /// Frame 1 is a server hello of another version than 1.
    Version { found: u64 },
    /// The frame's message isn't allowed in its place.
    Order { frame: u64 },
    /// The frame is a crumb end whose number isn't above that of the crumb end before it.
    NotRising { frame: u64, had: u64, found: u64 },
}
