// How a feed that is published ends.
use ty_intake::IntakeFault;

/// How a feed ended that was read from a source.
#[derive(Clone, Copy, Debug, PartialEq, Eq)]
pub enum FeedEnd {
    /// The source gave its end, and the feed has no fault.
    Done,
    /// The feed has this fault, behind which nothing was read.
    Fault(IntakeFault),
    /// The source failed.
    Read,
    /// Memory ran out.
    NoMemory,
}
