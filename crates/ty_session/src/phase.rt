// Where a connection stands.

/// The phases of a connection, one after another.
#[derive(Clone, Copy, Debug, PartialEq, Eq)]
pub enum Phase {
    /// No hello has come.
    Waiting,
    /// The hello has come.
    Greeted,
    /// The client has been told a snapshot.
    Joined,
    /// The connection is over.
    Over,
}
