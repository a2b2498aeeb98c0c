//! What a server queues on a connection, as marks that make a talk.
#![tactic(auto)]

mod laws;

pub use laws::{marks_grow, marks_make_talks};
