// One publisher, and followers that step along its chain, each in a thread of its own.
ghost use Rattle.std.specs.Prelude.{◌≡◌};
ghost use Rattle.std.specs.Thread.{IsSend, IsSync};

use crate::batch::publish;
use std::alloc::{AllocError, Global};
use std::sync::Wait;
use std::thread::{Threads, join, map_indices, yield_now};
use ty_account::{Named, front_copy};
use ty_base::NoMemory;
use ty_chain::{Follower, Front, Lobby, Opening, Publisher, Step, start};

const PUTS: u64 = 100;

/// Publishes so many breadcrumbs of 100 puts each, while so many followers step to the end. It
/// tells how many steps they made.
pub(crate) fn publish_and_follow<L: Named + Send + Sync, R: Threads + Wait + Sync>(
    rt: &R,
    alloc: Global,
    opening: Opening,
    crumbs: u64,
    followers: usize,
) -> Result<u64, NoMemory>
    requires { opening.account ≡ L.account }
{
    let (lobby, publisher) = start::<L>(alloc, opening)?;
    let front = front_copy(publisher.front());
    follow_the_publisher(rt, alloc, &lobby, &front, publisher, crumbs, followers)
}

fn follow_the_publisher<L: Named + Send + Sync, R: Threads + Wait + Sync>(
    rt: &R,
    alloc: Global,
    lobby: &Lobby<L>,
    front: &Front,
    publisher: Publisher<L>,
    crumbs: u64,
    followers: usize,
) -> Result<u64, NoMemory>
    requires { front.now.account ≡ L.account }
{
    let (steps, published) = join(
        rt,
        || -> Result<Vec<Result<u64, NoMemory>>, AllocError>
            requires { IsSync R.row × (IsSend L.row × (IsSync L.row × (front.now.account ≡ L.account))) }
        { follow_in_threads(rt, alloc, lobby, front, followers) },
        || publish_and_close(alloc, publisher, crumbs),
    );
    published?;
    sum(&steps?)
}

fn sum(all: &[Result<u64, NoMemory>]) -> Result<u64, NoMemory> {
    let mut sum: u64 = 0;
    for one in all {
        let Ok(steps) = one else {
            return Err(NoMemory);
        };
        sum = sum.saturating_add(*steps);
    }
    Ok(sum)
}

// Publishes, and closes the chain whether it could or not.
fn publish_and_close<L: Named>(
    alloc: Global,
    mut publisher: Publisher<L>,
    crumbs: u64,
) -> Result<(), NoMemory> {
    let published = publish_all(alloc, &mut publisher, crumbs);
    publisher.close();
    published
}

fn publish_all<L: Named>(
    alloc: Global,
    publisher: &mut Publisher<L>,
    crumbs: u64,
) -> Result<(), NoMemory> {
    for _ in 0..crumbs {
        if !publish(alloc, publisher, PUTS)? {
            return Ok(());
        }
    }
    Ok(())
}

// How many steps each follower makes to the end.
fn follow_in_threads<L: Named + Send + Sync, R: Threads + Wait + Sync>(
    rt: &R,
    alloc: Global,
    lobby: &Lobby<L>,
    front: &Front,
    followers: usize,
) -> Result<Vec<Result<u64, NoMemory>>, AllocError>
    requires { front.now.account ≡ L.account }
{
    map_indices(
        rt,
        alloc,
        followers,
        &|_| -> Result<u64, NoMemory>
            requires { front.now.account ≡ L.account }
        { enter_and_follow(rt, lobby, front) },
    )
}

fn enter_and_follow<L: Named, R: Wait>(
    rt: &R,
    lobby: &Lobby<L>,
    front: &Front,
) -> Result<u64, NoMemory>
    requires { front.now.account ≡ L.account }
{
    let mut follower = lobby.enter(rt, front)?;
    Ok(steps_to_the_end(rt, &mut follower))
}

fn steps_to_the_end<L: Named, R: Wait>(rt: &R, follower: &mut Follower<L>) -> u64 {
    let mut steps: u64 = 0;
    for _ in rt.forever() {
        match follower.step() {
            Step::Stepped => steps = steps.saturating_add(1),
            Step::Pending => yield_now(),
            Step::Ended => return steps,
        }
    }
    unreachable!()
}
