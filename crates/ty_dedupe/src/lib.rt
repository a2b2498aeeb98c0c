//! A buffer that keeps only the last item about each key.
#![tactic(auto)]

mod buffer;
mod drained;

pub use buffer::Buffer;
pub use drained::{Changes, Drained};
