//! A breadcrumb's deltas as bytes that all sessions share, and an open group that is kept as bytes.
#![tactic(auto)]

mod delta;
mod encoded;
mod filling;
mod group;
mod mark;
mod messages;

pub use encoded::{Encoded, write_encoded};
pub use filling::Filling;
pub use group::Group;
