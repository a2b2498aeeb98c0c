//! The system's devices: standard streams, TCP links, doors and a clock. They tell nothing of content.
#![tactic(auto)]

mod clock;
mod door;
mod link;
mod sink;
mod source;
#[cfg(test)]
mod tests;

pub use clock::OsClock;
pub use door::OsDoor;
pub use link::OsLink;
pub use sink::OsSink;
pub use source::OsSource;
