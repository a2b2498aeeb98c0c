// The batches that a feed closes.
use ty_base::{Item, List};

/// A list of items.
pub type Items = List<Item>;

/// A batch that is closed.
#[derive(Drop)]
pub struct Closed {
    /// Its items, in order.
    pub items: Items,
    /// How many items the feed has up to its last one.
    pub cut: u64,
}

/// A list of batches that are closed.
pub type Batches = List<Closed>;
