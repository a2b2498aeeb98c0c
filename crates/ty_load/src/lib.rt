//! The load: a script that is made from a number, its run, and a summary of it.
#![tactic(auto)]

mod catch;
mod line;
mod run;
mod steps;
mod summary;
mod turns;

pub use run::load;
