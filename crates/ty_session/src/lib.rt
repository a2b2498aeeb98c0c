//! One connection's machine on the server's side: what it hears, when it is dropped, and what it
//! queues.
#![tactic(auto)]

mod client;
mod drops;
mod group;
mod laws;
mod opening;
mod phase;
mod queue;
mod reason;
mod session;
mod stance;

pub use drops::{silent, slow, unhello};
pub use laws::what_is_queued_is_a_talk;
pub use phase::Phase;
pub use reason::{Gone, Reason};
pub use session::Session;
