//! One list of entries that only grows, with a node for each place, and what callers know of it. The program keeps the
//! list's length and an item in each node. Readers follow the nodes without a lock.
#![tactic(auto)]

mod account;
mod block;
mod fresh;
mod front;
mod history;
mod hoard;
mod last;
mod named;
mod node;
mod pen;
mod reads;
mod right;
mod shared;
mod spot;
mod standing;
mod step;
#[cfg(test)]
mod tests;

pub use account::Account;
pub use fresh::Fresh;
pub use front::{Front, Look, front_copy, front_count};
pub use named::Named;
pub use pen::{AsEntry, Pen};
pub use spot::{Spot, Walked};
pub use standing::Standing;
