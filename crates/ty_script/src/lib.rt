//! Scripts: the events of one, and what a line of it says.
#![tactic(auto)]

mod event;
mod script;

pub use event::{CLIENTS, Event, GET_BYTES, TICK_MILLISECONDS, TIME_LIMIT};
pub use script::{EventFault, read_event};
