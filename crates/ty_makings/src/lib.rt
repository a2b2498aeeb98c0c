//! What the map, breadcrumbs, frames, groups and sessions make of worked rows: tests alone.
#![tactic(auto)]

#[cfg(test)]
mod batches;
#[cfg(test)]
mod breadcrumbs;
#[cfg(test)]
mod frames;
#[cfg(test)]
mod groups;
#[cfg(test)]
mod sessions;
#[cfg(test)]
mod trees;
