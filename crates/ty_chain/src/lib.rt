//! A chain of breadcrumbs: one publisher adds to it, and followers in any threads step along it.
#![tactic(auto)]

mod follower;
mod lobby;
mod opening;
mod parcel;
mod place;
mod publisher;
mod stop;
#[cfg(test)]
mod tests;

pub use follower::{Follower, Step, agree};
pub use lobby::Lobby;
pub use opening::{Opening, start};
pub use publisher::{Published, Publisher};
pub use stop::Front;
