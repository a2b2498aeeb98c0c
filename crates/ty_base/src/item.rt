// What one line of a feed says.
use crate::status::Status;
use crate::text::Text;

/// What one line of a feed says, once it is validated.
#[derive(Drop)]
pub enum Item {
    /// The key has this value, which is compact JSON text (RFC 8259).
    Put { key: Text, value: Text },
    /// The key has no value.
    Del { key: Text },
    /// The datastore's status.
    State(Status),
    /// A blank line, which ends a batch.
    Mark,
}
