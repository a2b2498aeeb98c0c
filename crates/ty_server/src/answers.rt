// What one greeting and one turn came to. They bear the names of their calls but for the case, so they stand in a
// module of their own.
use ty_session::Reason;

/// What one greeting came to.
#[derive(Clone, Copy, Debug, PartialEq, Eq)]
pub enum Greet {
    /// The client has said its hello.
    Ready,
    /// No whole message has come, and there is still time for one.
    Waiting,
    /// The connection is over.
    Over(Reason),
}

/// What one turn came to.
#[derive(Clone, Copy, Debug, PartialEq, Eq)]
pub enum Turn {
    /// The follower went on by one breadcrumb, which was offered.
    Sent,
    /// There was no later breadcrumb, and all bytes up to this one were given.
    Idle,
    /// The connection is over.
    Over(Reason),
}
