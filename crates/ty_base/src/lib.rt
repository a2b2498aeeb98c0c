//! What every other crate speaks of: texts, items, deltas and the book, and what stands for the outside.
#![tactic(auto)]

mod clock;
mod delta;
mod door;
mod entry;
mod flow;
mod item;
mod laws;
mod limits;
mod link;
#[cfg(test)]
mod link_tests;
mod list;
mod memory;
mod memory_door;
mod memory_link;
mod number;
mod outside;
mod piece;
mod set_clock;
mod status;
#[cfg(test)]
mod tests;
mod text;

pub use clock::Clock;
pub use delta::{Delta, Deltas, Kind};
pub use door::{Came, Door};
pub use entry::Entry;
pub use flow::{ReadFault, give_all, read_all};
pub use item::Item;
pub use laws::{
    growth_changes_nothing_earlier, keys_and_values_are_the_items_own, numbers_read_back, readings,
    replay_gives_the_worlds,
};
pub use limits::{
    BATCH_UPDATES, BODY_BYTES, GRACE, GREATEST_LAG, GROUP_AGE, HELLO_TIMEOUT, HOST_BYTES,
    INPUT_BYTES, KEY_BYTES, LINE_BYTES, LOOK_INTERVAL, MESSAGE_DELTAS, PIECE_BYTES, PING_INTERVAL,
    PONG_TIMEOUT, VALUE_BYTES,
};
pub use link::{Link, Took};
pub use list::List;
pub use memory::{MemSink, MemSource};
pub use memory_door::MemDoor;
pub use memory_link::MemLink;
pub use number::{print_u64, read_u64};
pub use outside::{Failed, Sink, Source};
pub use piece::Piece;
pub use set_clock::SetClock;
pub use status::{Status, read_status, same_status, status_text};
pub use text::{NoMemory, Text, TextFault};
