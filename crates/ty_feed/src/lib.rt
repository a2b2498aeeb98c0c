//! A feed on its way from a source into a chain.
#![tactic(auto)]

mod ending;
mod publishing;

pub use ending::FeedEnd;
pub use publishing::publish_all;
