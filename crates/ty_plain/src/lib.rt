//! The meaning of a list of items by plain scans: closings, worlds, cuts, deltas and the book.
#![tactic(auto)]

mod change;
mod closing;
mod cut;
mod entries;
mod row;
mod world;

pub use change::changes;
pub use closing::closings;
pub use cut::cuts;
pub use entries::book;
pub use row::rows;
pub use world::{same_worlds, status_of, value_of};
