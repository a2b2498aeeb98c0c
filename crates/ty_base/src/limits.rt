// The limits and the times of the whole program, each of which stands here alone.

/// The most bytes of a key's text.
pub const KEY_BYTES: usize = 1_024;

/// The most bytes of a value's compact JSON text.
pub const VALUE_BYTES: usize = 1_048_576;

/// The most bytes of a line of a feed or of a script.
pub const LINE_BYTES: usize = 8_388_608;

/// The most bytes of a message's body.
pub const BODY_BYTES: usize = 8_388_608;

/// The updates of a batch: the last of so many closes it.
pub const BATCH_UPDATES: usize = 100;

/// The most deltas of a message.
pub const MESSAGE_DELTAS: usize = 100;

/// The number of the byte that is too much: of a feed, and of a connection in one direction, fewer are read.
pub const INPUT_BYTES: usize = 1 << 40;

/// The most bytes of one take or give.
pub const PIECE_BYTES: usize = 65_536;

/// The most bytes of a client's host.
pub const HOST_BYTES: usize = 253;

/// The milliseconds within which a client says hello.
pub const HELLO_TIMEOUT: u64 = 10_000;

/// The milliseconds within which a client that said hello is heard again.
pub const PONG_TIMEOUT: u64 = 60_000;

/// The milliseconds from one ping to the next.
pub const PING_INTERVAL: u64 = 10_000;

/// The milliseconds from one look for a client's bytes to the next.
pub const LOOK_INTERVAL: u64 = 1_000;

/// The most milliseconds that a client may be behind.
pub const GREATEST_LAG: u64 = 300_000;

/// The milliseconds from the joining within which a client may be as far behind as it is.
pub const GRACE: u64 = 300_000;

/// The age in milliseconds from which a breadcrumb waits for others in its group.
pub const GROUP_AGE: u64 = 100;
