//! The messages of a connection, their frames, the talk that they make, and reading them in any
//! pieces.
#![tactic(auto)]

mod cut;
mod decode;
mod decode_fast;
mod encode;
mod fault;
mod frame;
mod frames;
mod group;
mod kvs;
mod laws;
mod message;
mod pair;
mod partial_frame;
mod place;
mod quoted;
mod unquoted;

pub use cut::cut_kvs;
pub use encode::{fits, write};
pub use fault::WireFault;
pub use frames::{Frames, Got};
pub use group::write_group;
pub use laws::{
    cutting_keeps_deltas, frames_read_back, one_reading, one_spelling, short_messages_fit,
    talks_have_frames,
};
pub use message::{Msg, Msgs};
pub use pair::append_new;
