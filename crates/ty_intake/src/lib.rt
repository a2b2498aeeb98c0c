//! From the bytes of a feed, in any pieces, to its batches, or to its first fault.
#![tactic(auto)]

mod batch;
mod intake;
mod laws;
mod line;
mod pieces;
mod progress;

pub use batch::{Batches, Closed, Items};
pub use intake::{Fed, Intake, IntakeFault};
pub use laws::{batches_join, faults_stay, lines_are_cut};
