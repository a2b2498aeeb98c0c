//! The modes over source and sink, over devices that fail, and over hostile bytes: tests alone.
#![tactic(auto)]

#[cfg(test)]
mod devices;
#[cfg(test)]
mod failing;
#[cfg(test)]
mod faults;
#[cfg(test)]
mod feeds;
#[cfg(test)]
mod follows;
#[cfg(test)]
mod hostile;
#[cfg(test)]
mod plain;
#[cfg(test)]
mod realistic;
#[cfg(test)]
mod runs;
#[cfg(test)]
mod scripts;
