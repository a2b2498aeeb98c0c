// Why a server is followed no further.
use ty_client::StreamFault;

/// Why a server was followed no further.
#[derive(Clone, Copy, Debug, PartialEq, Eq)]
pub enum DialFault {
    /// The bytes of the last link have this fault.
    Stream(StreamFault),
    /// The end of the last link came inside a frame, of which there are `left` bytes.
    Cut { left: u64 },
    /// The sink failed.
    Write,
    /// The last link failed.
    Link,
    /// The dialler failed.
    Door,
    /// Memory ran out.
    NoMemory,
}
