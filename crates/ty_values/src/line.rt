// A line of the feed, and what is made of it.
use serde_json::Value;
use ty_base::{Item, Status, Text};
use ty_rules::Rule;

/// A line of the feed.
#[derive(Drop)]
pub enum Line {
    /// A key has a value, or none: `Some` of null counts as none.
    Update { key: Text, value: Option<Value> },
    /// The datastore's status.
    Status(Status),
    /// A line of spaces, tabs and carriage returns, or of nothing.
    Blank,
}

/// What is made of a line.
#[derive(Drop)]
pub struct Cleaned {
    /// What the line says, but for an update whose key doesn't read.
    pub item: Option<Item>,
    /// The rule that an invalid value breaks, under a key that reads.
    pub broken: Option<Rule>,
}
