//! The client's side of a connection: what it rebuilds from the bytes that come, what it answers,
//! and the text of it.
#![tactic(auto)]

mod at;
mod connection;
mod fault;
mod follower;
mod heard;
mod laws;
mod rebuild;
mod stage;
mod text;

pub use at::{At, Ats};
pub use connection::follow_link;
pub use fault::StreamFault;
pub use follower::{FollowFault, follow};
pub use heard::Heard;
pub use laws::{one_hearing, talks_over_books_rebuild_the_worlds, talks_rebuild_worlds};
pub use rebuild::Rebuild;
pub use text::append_standing;
