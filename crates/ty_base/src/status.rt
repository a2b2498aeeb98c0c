// How far the datastore's own view has come.
ghost use Rattle.std.specs.Prelude.{◌≡◌};
ghost use Rattle.ty_base.specs.Statuses.{status_of, status_text as spelled, same_status as same};

/// A sync status.
#[derive(Clone, Copy, Debug, PartialEq, Eq)]
pub enum Status {
    /// `wait-for-ready`: nothing is known yet.
    Wait,
    /// `resync`: the datastore is being listed.
    Resync,
    /// `in-sync`: what is held is what the datastore has.
    InSync,
}

/// The status that a text names, if it names one.
pub fn read_status(bytes: &[u8]) -> Option<Status>
    ensures { result ≡ status_of bytes.now }
{
    if bytes == b"wait-for-ready".as_slice() {
        Some(Status::Wait)
    } else if bytes == b"resync".as_slice() {
        Some(Status::Resync)
    } else if bytes == b"in-sync".as_slice() {
        Some(Status::InSync)
    } else {
        None
    }
}

/// The text of a status.
pub fn status_text(status: Status) -> &'static str
    ensures { result.now ≡ spelled status }
{
    match status {
        Status::Wait => "wait-for-ready",
        Status::Resync => "resync",
        Status::InSync => "in-sync",
    }
}

/// Whether two statuses are one.
pub fn same_status(one: Status, other: Status) -> bool
    ensures { result ≡ same one other }
{
    match (one, other) {
        (Status::Wait, Status::Wait) => true,
        (Status::Resync, Status::Resync) => true,
        (Status::InSync, Status::InSync) => true,
        _ => false,
    }
}
