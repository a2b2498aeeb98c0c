//! What the readers make of texts from outside, what waits in the buffer, and the yardstick's own rows: tests alone.
#![tactic(auto)]

#[cfg(test)]
mod addresses;
#[cfg(test)]
mod buffer;
#[cfg(test)]
mod feeds;
#[cfg(test)]
mod items;
#[cfg(test)]
mod keys;
#[cfg(test)]
mod rules;
#[cfg(test)]
mod scripts;
#[cfg(test)]
mod values;
#[cfg(test)]
mod words;
#[cfg(test)]
mod yardstick;
