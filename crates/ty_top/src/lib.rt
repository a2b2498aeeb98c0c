//! The top call: the command line's words, the modes, the exit statuses and the notes.
#![tactic(auto)]

mod dialling;
mod doors;
mod ending;
mod follow;
mod laws;
mod link_ending;
mod link_notes;
mod load;
mod modes;
mod notes;
mod plain;
mod program;
mod publisher;
mod serving;
mod sim;
mod stream;
mod wanted;

pub use doors::needs;
pub use ending::Local;
pub use laws::{
    both_ends_agree, followed_streams_tell_every_world, statuses_tell, streams_rebuild_the_worlds,
    whole_streams_rebuild_every_world,
};
pub use modes::local;
pub use plain::plain_stream;
pub use program::top;
pub use wanted::Needs;
