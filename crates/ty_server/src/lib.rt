//! The running server: one connection, from the client's hello to its end, a worker that serves one after
//! another, and a worker for each door beside the one publisher.
#![tactic(auto)]

mod answers;
#[cfg(test)]
mod gate_tests;
#[cfg(test)]
mod gates;
mod giving;
mod greeting;
mod listening;
mod post;
mod server;
#[cfg(test)]
mod server_tests;
mod serving;
#[cfg(test)]
mod tests;
mod turning;
mod worker;

pub use answers::{Greet, Turn};
pub use greeting::greet;
pub use server::{MOST_DOORS, Served, serve};
pub use serving::serve_client;
pub use turning::turn;
pub use ty_feed::{FeedEnd, publish_all};
pub use worker::{DoorFault, MOST_LINKS, Worker};
