//! Which values each key may have, and the item that a line of the feed is.
#![tactic(auto)]

mod endpoints;
mod item;
mod keys;
mod kinds;
mod label;
mod line;
mod nets;
mod policies;
mod policy_rules;
mod resources;
mod selectors;
mod validity;

pub use item::clean;
pub use line::{Cleaned, Line};
pub use ty_rules::{Rule, ValueFault};
pub use validity::{check, check_text};
