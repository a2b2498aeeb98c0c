// What is sent.
use ty_base::{Deltas, List, Status, Text};

/// A message of a connection.
#[derive(Drop)]
pub enum Msg {
    /// The client's first message.
    ClientHello { version: u64, host: Text },
    /// The server's first message.
    ServerHello { version: u64 },
    /// Changes at keys, 1 to `MESSAGE_DELTAS` of them.
    Kvs(Deltas),
    /// The datastore's status from here on.
    Status(Status),
    /// All of the breadcrumb with this number has been sent.
    Crumb { n: u64 },
    /// The server asks whether the client is there, with its time in milliseconds.
    Ping { ts: u64 },
    /// The client is there, with the time of the ping.
    Pong { ts: u64 },
}

/// A list of messages.
pub type Msgs = List<Msg>;
