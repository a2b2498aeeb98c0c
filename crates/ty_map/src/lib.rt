//! An immutable ordered map from texts to texts, whose copies share what they have in common.
#![tactic(auto)]

mod fresh;
mod laws;
mod pairs;
mod tree;
mod walk;

pub use fresh::fresh_nodes;
pub use laws::{fresh_nodes_add_up, greatest_heights};
pub use pairs::Pairs;
pub use tree::{Pair, Tree};
pub use walk::Walk;
