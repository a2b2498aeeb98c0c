// One entry of a book.
use crate::delta::Deltas;
use crate::status::Status;

/// What one breadcrumb adds to the one before.
#[derive(Drop)]
pub struct Entry {
    /// How many items of the feed it counts.
    pub cut: u64,
    pub status: Status,
    pub deltas: Deltas,
}
