//! The top call over doors and a dialler in memory, over those that fail, and over peers that say too little: tests alone.
#![tactic(auto)]

#[cfg(test)]
mod dialling;
#[cfg(test)]
mod frames;
#[cfg(test)]
mod gate_tests;
#[cfg(test)]
mod gates;
#[cfg(test)]
mod serving;
#[cfg(test)]
mod stage;
#[cfg(test)]
mod tops;
#[cfg(test)]
mod words;
