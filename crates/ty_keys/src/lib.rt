//! The keys of the feed: their forms, their one text each, and what is wrong with a text that is none.
#![tactic(auto)]

mod forms;
mod key;
mod laws;
mod part;
mod pools;
mod resources;
mod segment;
mod span;
mod text;

pub use key::{Key, KeyFault};
pub use laws::keys_read_back;
pub use resources::{ResourceKind, kind_of};
