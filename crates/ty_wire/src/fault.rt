// Why bytes read no further.

/// Why no message follows. Frames count from 1.
#[derive(Clone, Copy, Debug, PartialEq, Eq)]
pub enum WireFault {
    /// The frame tells a body of `len` bytes, more than `BODY_BYTES`. It is told at the fourth
    /// byte.
    TooLong { frame: u64, len: u64 },
    /// The frame's body is no JSON text (RFC 8259) that `serde_json` reads.
    NotJson { frame: u64 },
    /// The frame's body is a JSON text, and no message's spelling.
    Shape { frame: u64 },
    /// Byte number `INPUT_BYTES` came, which belongs to no frame.
    TooMuch,
}
