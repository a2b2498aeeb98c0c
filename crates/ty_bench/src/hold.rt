// Chains whose breadcrumbs are all held by one follower, who stands at the first one and is dropped last.
ghost use Rattle.std.specs.Prelude.{◌≡◌};

use crate::batch::publish;
use std::alloc::Global;
use std::sync::Wait;
use ty_account::Named;
use ty_base::NoMemory;
use ty_chain::{Opening, Publisher, start};

/// Publishes so many breadcrumbs of one put each while a follower stands at the first one, who is
/// dropped last. It tells the number of the last one.
pub(crate) fn publish_and_hold<L: Named, R: Wait>(
    rt: &R,
    alloc: Global,
    opening: Opening,
    crumbs: u64,
) -> Result<u64, NoMemory>
    requires { opening.account ≡ L.account }
{
    let (lobby, publisher) = start::<L>(alloc, opening)?;
    let follower = lobby.enter(rt, publisher.front())?;
    drop(lobby);
    let last = publish_all(alloc, publisher, crumbs);
    drop(follower);
    last
}

// Publishes, and drops the publisher.
fn publish_all<L: Named>(
    alloc: Global,
    mut publisher: Publisher<L>,
    crumbs: u64,
) -> Result<u64, NoMemory> {
    for _ in 0..crumbs {
        publish(alloc, &mut publisher, 1)?;
    }
    Ok(publisher.crumb().number)
}
