//! What clients, connections, a dialler, scripts and a load come to on worked rows: tests alone.
#![tactic(auto)]

#[cfg(test)]
mod clients;
#[cfg(test)]
mod connections;
#[cfg(test)]
mod dialling;
#[cfg(test)]
mod scripts;
