//! Following a server over links that are dialled.
#![tactic(auto)]

mod dial;
mod fault;

pub use dial::follow_door;
pub use fault::DialFault;
