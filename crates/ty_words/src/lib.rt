//! The command line's words, and what they ask for.
#![tactic(auto)]

mod cli;
mod given;
mod laws;
mod words;

pub use laws::hosts_fit;
pub use words::{
    ADDRESS_BYTES, Command, FollowWords, GREATEST_TRIES, GREATEST_WORKERS, ServeWords,
    USUAL_WORKERS, read_words,
};
