// What a buffer gave.
use ty_base::{List, Status, Text};

/// All that was pending: each key once, in the order of its first item, and the last status.
#[derive(Drop)]
pub struct Drained {
    pub pairs: Changes,
    pub status: Option<Status>,
}

/// Keys, each with its new value, or `None` where it has none any more.
pub type Changes = List<(Text, Option<Text>)>;
