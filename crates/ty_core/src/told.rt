// What a run tells.
ghost use Rattle.std.specs.Prelude.{◌≡◌, ◌∷◌, [], IfOk};

use std::alloc::Global;
use ty_base::NoMemory;
use ty_client::At;

/// One thing that happened, as a report tells it. Clients are told by their numbers, breadcrumbs by theirs, and times
/// are in milliseconds.
#[derive(Drop)]
pub enum Told {
    /// A breadcrumb was published.
    Published(At),
    /// The feed has ended, behind this breadcrumb.
    Ended(u64),
    /// The client has a connection now.
    Opened(u64),
    /// The client had a connection before.
    Present(u64),
    /// So many messages of the client were heard.
    Heard(u64, u64),
    /// The client joined at this breadcrumb.
    Joined(u64, u64),
    /// The client was offered this breadcrumb.
    Stepped(u64, u64),
    /// There is no breadcrumb behind this one, the last that the client was offered.
    Pending(u64, u64),
    /// The client hasn't joined.
    Waiting(u64),
    /// The client is too slow for a breadcrumb that was made at the first time, at the second one.
    TooSlow(u64, u64, u64),
    /// A crumb end reached the client: what it has rebuilt there.
    Rebuilt(u64, At),
    /// No crumb end reached the client: what it holds, if it holds anything.
    Still(u64, Option<At>),
    /// The connection was cut.
    Lost(u64),
    /// The client said no hello since the first time, at the second one.
    NoHello(u64, u64, u64),
    /// The client wasn't heard since the first time, at the second one.
    NoPong(u64, u64, u64),
    /// The client has no connection.
    Absent(u64),
}

pub(crate) fn one(alloc: Global, told: Told) -> Result<Vec<Told>, NoMemory>
    ensures { IfOk result (λ v. v.items ≡ told ∷ []) }
{
    let mut all = Vec::new(alloc);
    all.push(told)?;
    Ok(all)
}

pub(crate) fn two(alloc: Global, first: Told, second: Told) -> Result<Vec<Told>, NoMemory>
    ensures { IfOk result (λ v. v.items ≡ first ∷ second ∷ []) }
{
    let mut all = Vec::new(alloc);
    all.push(first)?;
    all.push(second)?;
    Ok(all)
}
