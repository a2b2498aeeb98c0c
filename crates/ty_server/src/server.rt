// The whole server: one publisher beside a worker for each door.
ghost use Rattle.std.specs.Prelude.{◌≡◌, ◌≤◌, ◌<◌, [], true, List, length, map, sum_by, vec_len, vec_capacity, All, IfOk, OnErr};
ghost use Rattle.ty_account.specs.Known.{KnowsMore};
ghost use Rattle.ty_feed.specs.Publishing.{Publishes};
ghost use Rattle.ty_server.specs.WholeServer.{IsServedByAll, first_failed};
ghost use Rattle.ty_server.specs.steps.Posts.{AreStaffed, HasAccount, HasFront, IsNew, IsStaffed, IsWithin, door_of, run_of};

use crate::post::Post;
use crate::worker::Worker;
use std::alloc::Global;
use std::marker::Brand;
use std::mem;
use std::sync::Wait;
use std::thread::{Threads, for_each_mut, join_mut};
use ty_account::{Named, front_copy};
use ty_base::{Clock, Door, NoMemory, Source};
use ty_chain::{Front, Lobby, Opening, Publisher, start};
use ty_feed::{FeedEnd, publish_all};

/// The most doors of a server.
pub const MOST_DOORS: usize = 64;

/// What serving came to.
#[derive(Drop)]
pub struct Served {
    /// The front that knows the whole list, which is closed.
    pub front: Front,
    /// How the feed ended.
    pub feed: FeedEnd,
    /// The place, from 0, of the first door that failed, if one did.
    pub door: Option<u64>,
    /// How many connections were dropped for want of memory.
    pub short: u64,
}

/// Publishes a feed from a source while one worker for each of 1 to `MOST_DOORS` doors serves the clients that come
/// there, each worker in a thread of its own where one can be made. However the feed ends, the chain is closed, and each
/// worker ends when nobody waits at its door any more. The doors stand in their order again afterwards. Where memory
/// runs out before the threads begin, nothing was read and nobody was served. It waits for the doors, for peers and for
/// locks.
pub fn serve<R: Threads + Wait + Sync, S: Source, D: Door + Send + Drop, C: Clock + Sync>(
    rt: &R,
    alloc: Global,
    source: &mut S,
    doors: &mut Vec<D>,
    clock: &C,
) -> Result<Served, NoMemory>
    requires some { 0 < length doors.old.items }
    requires few { length doors.old.items ≤ 64 }
    ensures closed { IfOk result (λ s. s.front.closed ≡ true) }
    ensures list { IfOk result (λ s. Publishes s.feed (S.seen source.old) (S.seen source.new) s.front.entries) }
    ensures served { IfOk result (λ s. IsServedByAll D.gave D.got D.count D.sight D.Link.sight D.Link.count
        (C.gives clock.now) s doors.old.items doors.new.items) }
    ensures faults { (S.seen source.old).faults ≤ (S.seen source.new).faults }
    ensures nothing { OnErr result ((doors.new.items ≡ doors.old.items) × (source.new ≡ source.old)) }
{
    let opening = Opening::new(alloc, clock.now())?;
    serve_named::<R, Brand, S, D, C>(rt, alloc, opening, source, doors, clock)
}

// Serves over the account that `N` names.
fn serve_named<
    R: Threads + Wait + Sync,
    N: Named + Send + Sync,
    S: Source,
    D: Door + Send + Drop,
    C: Clock + Sync,
>(
    rt: &R,
    alloc: Global,
    opening: Opening,
    source: &mut S,
    doors: &mut Vec<D>,
    clock: &C,
) -> Result<Served, NoMemory>
    requires named { opening.account ≡ N.account }
    requires some { 0 < length doors.old.items }
    requires few { length doors.old.items ≤ 64 }
    ensures closed { IfOk result (λ s. s.front.closed ≡ true) }
    ensures list { IfOk result (λ s. Publishes s.feed (S.seen source.old) (S.seen source.new) s.front.entries) }
    ensures served { IfOk result (λ s. IsServedByAll D.gave D.got D.count D.sight D.Link.sight D.Link.count
        (C.gives clock.now) s doors.old.items doors.new.items) }
    ensures faults { (S.seen source.old).faults ≤ (S.seen source.new).faults }
    ensures nothing { OnErr result ((doors.new.items ≡ doors.old.items) × (source.new ≡ source.old)) }
{
    let (lobby, publisher) = start::<N>(alloc, opening)?;
    let front = front_copy(publisher.front());
    let mut posts = Vec::with_capacity(alloc, doors.len())?;
    let spare = Vec::with_capacity(alloc, doors.len())?;
    posts_of(mem::replace(doors, spare), &front, &mut posts);
    let (feed, front) = serve_all(rt, alloc, source, &lobby, publisher, &mut posts, clock);
    let front = met(&lobby, front, &posts);
    let door = failed_first(&posts);
    let short = short_of(&posts);
    doors_of(posts, doors);
    Ok(Served {
        front,
        feed,
        door,
        short,
    })
}

// The publisher in this thread, and the workers beside it. A closure that is lent can't move what it captured, so the
// publisher lies in an `Option` from which the closure takes it.
fn serve_all<
    R: Threads + Wait + Sync,
    N: Named + Send + Sync,
    S: Source,
    D: Door + Send,
    C: Clock + Sync,
>(
    rt: &R,
    alloc: Global,
    source: &mut S,
    lobby: &Lobby<N>,
    publisher: Publisher<N>,
    posts: &mut [Post<D>],
    clock: &C,
) -> (FeedEnd, Front)
    requires nothing_yet { publisher.known.entries ≡ [] }
    requires no_items { publisher.cut ≡ 0 }
    requires some { 0 < length posts.old }
    requires fronts { All (HasAccount N.account) posts.old }
    ensures account { result.1.account ≡ N.account }
    ensures closed { result.1.closed ≡ true }
    ensures list { Publishes result.0 (S.seen source.old) (S.seen source.new) result.1.entries }
    ensures faults { (S.seen source.old).faults ≤ (S.seen source.new).faults }
    ensures staffed { AreStaffed D.gave D.got D.count D.sight D.Link.sight D.Link.count
        (C.gives clock.now) posts.old posts.new }
{
    let mut holder = Some(publisher);
    let ((), published) = join_mut(
        rt,
        &mut ||
            requires { (0 < length posts.now) × All (HasAccount N.account) posts.now }
            ensures { AreStaffed D.gave D.got D.count D.sight D.Link.sight D.Link.count (C.gives clock.entry.now) posts.entry.now posts.exit.now }
        { work_all(rt, alloc, lobby, posts, clock) },
        &mut || -> (FeedEnd, Front)
            requires { IsNew holder }
            ensures { (result.1.account ≡ N.account) × (result.1.closed ≡ true)
                × Publishes result.0 (S.seen source.entry.now) (S.seen source.exit.now) result.1.entries
                × ((S.seen source.entry.now).faults ≤ (S.seen source.exit.now).faults) }
        {
            let Some(publisher) = holder.take() else {
                unreachable!()
            };
            publish_all(rt, alloc, source, lobby, publisher, clock)
        },
    );
    published
}

// The workers, each at its door, in a thread of its own where one can be made.
fn work_all<R: Threads + Wait + Sync, N: Named + Send + Sync, D: Door + Send, C: Clock + Sync>(
    rt: &R,
    alloc: Global,
    lobby: &Lobby<N>,
    posts: &mut [Post<D>],
    clock: &C,
)
    requires some { 0 < length posts.old }
    requires fronts { All (HasAccount N.account) posts.old }
    ensures { AreStaffed D.gave D.got D.count D.sight D.Link.sight D.Link.count
        (C.gives clock.now) posts.old posts.new }
{
    let threads = posts.len();
    for_each_mut(
        rt,
        posts,
        threads,
        &|_, post: &mut Post<D>|
            requires { HasAccount N.account post.old }
            ensures { IsStaffed D.gave D.got D.count D.sight D.Link.sight D.Link.count (C.gives clock.entry.now) post.old post.new }
        { work(rt, alloc, lobby, post, clock) },
    );
}

// One worker serves at its door.
fn work<R: Wait, N: Named, D: Door, C: Clock>(
    rt: &R,
    alloc: Global,
    lobby: &Lobby<N>,
    post: &mut Post<D>,
    clock: &C,
)
    requires { HasAccount N.account post.old }
    ensures { IsStaffed D.gave D.got D.count D.sight D.Link.sight D.Link.count
        (C.gives clock.now) post.old post.new }
{
    post.answer = post.worker.run(rt, alloc, lobby, &mut post.door, clock);
}

// The front, met with that of each worker.
fn met<N: Named, D>(lobby: &Lobby<N>, front: Front, posts: &[Post<D>]) -> Front
    requires account { front.account ≡ N.account }
    requires fronts { All (HasAccount N.account) posts.now }
    ensures more { KnowsMore front result }
    ensures met { All (λ p. KnowsMore p.worker.front result) posts.now }
{
    let mut all = front;
    for post in posts {
        lobby.meet(&mut all, post.worker.front());
    }
    all
}

// The place of the first door that failed.
fn failed_first<D>(posts: &[Post<D>]) -> Option<u64>
    requires few { length posts.now ≤ 64 }
    ensures { result ≡ first_failed 0 (map run_of posts.now) }
{
    let mut place = 0;
    for post in posts {
        if post.answer.is_err() {
            return Some(place);
        }
        place += 1;
    }
    None
}

// How many connections were dropped in all.
fn short_of<D>(posts: &[Post<D>]) -> u64
    requires few { length posts.now ≤ 64 }
    requires within { All IsWithin posts.now }
    ensures { result ≡ sum_by (λ p. p.worker.short) posts.now }
{
    let mut short = 0;
    for post in posts {
        short += post.worker.short();
    }
    short
}

// Puts each door into a post with a worker of its own. There is room, so nothing takes memory.
fn posts_of<D: Drop>(held: Vec<D>, front: &Front, posts: &mut Vec<Post<D>>)
    requires room { vec_len held ≤ vec_capacity posts.old }
    requires empty { posts.old.items ≡ [] }
    ensures doors { map door_of posts.new.items ≡ held.items }
    ensures fronts { All (HasFront front.now) posts.new.items }
{
    for door in held {
        let worker = Worker::new(posts.len() as u64, front_copy(front));
        posts.push_reserved(Post {
            door,
            worker,
            answer: Ok(0),
        });
    }
}

// Puts the doors back.
fn doors_of<D: Drop>(posts: Vec<Post<D>>, doors: &mut Vec<D>)
    requires room { vec_len posts ≤ vec_capacity doors.old }
    requires empty { doors.old.items ≡ [] }
    ensures { doors.new.items ≡ map door_of posts.items }
{
    for post in posts {
        doors.push_reserved(post.door);
    }
}
