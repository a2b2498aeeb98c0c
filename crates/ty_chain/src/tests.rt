// The chain in one thread, where its lobby, its looks and its drop are seen, and in several.
ghost use Rattle.std.specs.Prelude.{◌≡◌, ◌-◌, true, length, take, nat_le};
ghost use Rattle.std.specs.List.{list_all, count_by};
ghost use Rattle.std.specs.Thread.{IsSend, IsSync};
ghost use Rattle.ty_base.specs.Feed.{is_update as updates};
ghost use Rattle.ty_base.specs.Passing.{item_passes};
ghost use Rattle.ty_base.specs.Limits.{key_fits, value_fits, items_fit};
ghost use Rattle.ty_base.specs.Batches.{IsBatch};

use crate::{Follower, Front, Lobby, Opening, Published, Publisher, Step, agree, start};
use std::alloc::{AllocError, Global};
use std::marker::Brand;
use std::process::Abort;
use std::sync::Wait;
use std::test::Fail;
use std::thread::{Threads, join, map_indices, yield_now};
use ty_account::{Named, front_copy};
use ty_base::{Item, NoMemory, Text, print_u64, status_text};
use ty_crumb::Crumb;

fn is_update(item: &Item) -> bool
    ensures { result ≡ updates item.now }
{
    match item {
        Item::Put { .. } => true,
        Item::Del { .. } => true,
        Item::State(_) => false,
        Item::Mark => false,
    }
}

fn fits(item: &Item) -> bool
    ensures { result ≡ item_passes key_fits value_fits item.now }
{
    match item {
        Item::Put { key, value } => key.bytes().len() <= 1_024 && value.bytes().len() <= 1_048_576,
        Item::Del { key } => key.bytes().len() <= 1_024,
        Item::State(_) => true,
        Item::Mark => true,
    }
}

fn all_fit(items: &[Item]) -> bool
    ensures { result ≡ items_fit items.now }
{
    items.iter().all(|item| fits(item))
}

fn all_update(items: &[Item]) -> bool
    ensures { result ≡ list_all updates items.now }
{
    items.iter().all(|item| is_update(item))
}

fn is_batch(items: &[Item]) -> bool
    ensures { result ≡ true → IsBatch items.now }
{
    if items.len() > 100 {
        return false;
    }
    let front = items.len().saturating_sub(1);
    all_update(&items[..front]) && all_fit(items)
}

// Publishes one item as one batch. None where it can't.
fn publish<L: Named>(
    alloc: Global,
    publisher: &mut Publisher<L>,
    item: Item,
    now: u64,
) -> Result<Option<Published>, NoMemory> {
    let mut items = Vec::new(alloc);
    items.push(item)?;
    if !is_batch(&items) || publisher.cut() >= (1 << 40) - 100 {
        return Ok(None);
    }
    Ok(Some(publisher.publish(alloc, &items, now)?))
}

// Publishes a key with a value.
fn put<L: Named>(
    alloc: Global,
    publisher: &mut Publisher<L>,
    pair: (&str, &str),
    now: u64,
) -> Result<Option<Published>, NoMemory> {
    let item = Item::Put {
        key: Text::of(alloc, pair.0)?,
        value: Text::of(alloc, pair.1)?,
    };
    publish(alloc, publisher, item, now)
}

// The breadcrumb as a text: its number, cut and status, and its pairs.
fn told(alloc: Global, crumb: &Crumb) -> Result<Vec<u8>, NoMemory> {
    let mut out = Vec::new(alloc);
    print_u64(crumb.number, &mut out)?;
    out.push(b' ')?;
    print_u64(crumb.cut, &mut out)?;
    out.push(b' ')?;
    out.extend_from_slice(status_text(crumb.status).as_bytes())?;
    for (key, value) in crumb.pairs.walk(alloc)? {
        out.push(b' ')?;
        out.extend_from_slice(key.bytes())?;
        out.push(b'=')?;
        out.extend_from_slice(value.bytes())?;
    }
    Ok(out)
}

// What a step comes to, with the number and the time of the breadcrumb at which the follower then stands.
fn step<L: Named>(follower: &mut Follower<L>) -> (Step, u64, u64) {
    let step = follower.step();
    let crumb = follower.crumb();
    (step, crumb.number, crumb.at)
}

fn first_steps<L: Named, R: Abort>(
    rt: &R,
    alloc: Global,
    publisher: &mut Publisher<L>,
    follower: &mut Follower<L>,
) -> Result<(), Fail> {
    assert_eq!(rt; step(follower), (Step::Pending, 0, 0));
    assert_eq!(rt;
        put(alloc, publisher, ("a", "1"), 5)?,
        Some(Published::Crumb(1))
    );
    assert_eq!(rt;
        put(alloc, publisher, ("a", "1"), 5)?,
        Some(Published::Unchanged)
    );
    assert_eq!(rt; publisher.cut(), 2);
    assert_eq!(rt; step(follower), (Step::Stepped, 1, 5));
    assert_eq!(rt; step(follower), (Step::Pending, 1, 5));
    Ok(())
}

// Whether a follower agrees with one who enters where the publisher is.
fn meets_late<L: Named, R: Wait>(
    rt: &R,
    lobby: &Lobby<L>,
    publisher: &Publisher<L>,
    follower: &mut Follower<L>,
) -> Result<bool, NoMemory> {
    lobby.post(rt, publisher);
    let late = lobby.enter(rt, publisher.front())?;
    Ok(agree(follower, &late))
}

fn follow_to_the_end<L: Named, R: Wait + Abort>(
    rt: &R,
    alloc: Global,
    lobby: &Lobby<L>,
    mut publisher: Publisher<L>,
    follower: &mut Follower<L>,
) -> Result<(), Fail> {
    let stepped = first_steps(rt, alloc, &mut publisher, follower);
    let met = meets_late(rt, lobby, &publisher, follower);
    publisher.close();
    stepped?;
    assert_eq!(rt; met, Ok(true));
    assert_eq!(rt; step(follower), (Step::Ended, 1, 5));
    Ok(())
}

fn follow_one<L: Named, R: Wait + Abort>(
    rt: &R,
    alloc: Global,
    opening: Opening,
) -> Result<(), Fail>
    requires { opening.account ≡ L.account }
{
    let (lobby, publisher) = start::<L>(alloc, opening)?;
    let mut follower = lobby.enter(rt, publisher.front())?;
    follow_to_the_end(rt, alloc, &lobby, publisher, &mut follower)
}

#[test]
fn a_follower_steps_to_each_breadcrumb_and_to_the_end(rt: HostRuntime) -> Result<(), Fail> {
    follow_one::<Brand, _>(&rt, rt.alloc(), Opening::new(rt.alloc(), 0)?)
}

// Posts three breadcrumbs, and answers where one stands who then enters.
fn post_three<L: Named, R: Wait>(
    rt: &R,
    alloc: Global,
    lobby: &Lobby<L>,
    publisher: &mut Publisher<L>,
) -> Result<u64, NoMemory> {
    lobby.post(rt, publisher);
    put(alloc, publisher, ("a", "1"), 1)?;
    lobby.post(rt, publisher);
    put(alloc, publisher, ("b", "1"), 2)?;
    lobby.post(rt, publisher);
    Ok(lobby.enter(rt, publisher.front())?.crumb().number)
}

fn enter_late<L: Named, R: Wait>(rt: &R, alloc: Global, opening: Opening) -> Result<u64, NoMemory>
    requires { opening.account ≡ L.account }
{
    let (lobby, mut publisher) = start::<L>(alloc, opening)?;
    post_three(rt, alloc, &lobby, &mut publisher)
}

#[test]
fn a_new_follower_stands_at_what_was_posted_last(rt: HostRuntime) -> Result<(), Fail> {
    let opening = Opening::new(rt.alloc(), 0)?;
    assert_eq!(rt; enter_late::<Brand, _>(&rt, rt.alloc(), opening), Ok(2));
    Ok(())
}

// Publishes so many breadcrumbs, in which one key alternates between two values.
fn publish_many<L: Named>(
    alloc: Global,
    publisher: &mut Publisher<L>,
    count: u64,
) -> Result<(), NoMemory> {
    for i in 0..count {
        let value = if i % 2 == 0 { "0" } else { "1" };
        put(alloc, publisher, ("a", value), i)?;
    }
    Ok(())
}

// The numbers of the last breadcrumb, and of the one at which a follower stands who is dropped last.
fn publish_and_drop<L: Named, R: Wait>(
    rt: &R,
    alloc: Global,
    opening: Opening,
) -> Result<(u64, u64), NoMemory>
    requires { opening.account ≡ L.account }
{
    let (lobby, mut publisher) = start::<L>(alloc, opening)?;
    let follower = lobby.enter(rt, publisher.front())?;
    let published = publish_many(alloc, &mut publisher, 100_000);
    let number = publisher.crumb().number;
    drop(publisher);
    drop(lobby);
    published?;
    Ok((number, follower.crumb().number))
}

#[test]
fn a_chain_of_a_hundred_thousand_is_dropped(rt: HostRuntime) -> Result<(), Fail> {
    let opening = Opening::new(rt.alloc(), 0)?;
    assert_eq!(rt;
        publish_and_drop::<Brand, _>(&rt, rt.alloc(), opening),
        Ok((100_000, 0))
    );
    Ok(())
}

// Steps to the end of the chain, and tells its last breadcrumb.
fn follow<L: Named, R: Wait>(
    rt: &R,
    alloc: Global,
    follower: &mut Follower<L>,
) -> Result<Vec<u8>, NoMemory> {
    for _ in rt.forever() {
        match follower.step() {
            Step::Stepped => {}
            Step::Pending => yield_now(),
            Step::Ended => return told(alloc, follower.crumb()),
        }
    }
    unreachable!()
}

fn enter_and_follow<L: Named, R: Wait>(
    rt: &R,
    alloc: Global,
    lobby: &Lobby<L>,
    front: &Front,
) -> Result<Vec<u8>, NoMemory>
    requires { front.now.account ≡ L.account }
{
    let mut follower = lobby.enter(rt, front)?;
    follow(rt, alloc, &mut follower)
}

// Eight threads, each with a follower from breadcrumb 0 to the end.
fn follow_in_threads<L: Named + Send + Sync, R: Threads + Wait + Sync>(
    rt: &R,
    alloc: Global,
    lobby: &Lobby<L>,
    front: &Front,
) -> Result<Vec<Result<Vec<u8>, NoMemory>>, AllocError>
    requires { front.now.account ≡ L.account }
{
    map_indices(
        rt,
        alloc,
        8,
        &|_| -> Result<Vec<u8>, NoMemory>
            requires { front.now.account ≡ L.account }
        { enter_and_follow(rt, alloc, lobby, front) },
    )
}

// Publishes so many breadcrumbs, and closes the chain whether it could or not.
fn publish_and_close<L: Named>(
    alloc: Global,
    mut publisher: Publisher<L>,
    count: u64,
) -> Result<(), NoMemory> {
    let published = publish_many(alloc, &mut publisher, count);
    publisher.close();
    published
}

// What eight followers tell at the end, who step while this thread publishes and closes.
fn follow_the_publisher<L: Named + Send + Sync, R: Threads + Wait + Sync>(
    rt: &R,
    alloc: Global,
    lobby: &Lobby<L>,
    front: &Front,
    publisher: Publisher<L>,
) -> Result<Vec<Result<Vec<u8>, NoMemory>>, NoMemory>
    requires { front.now.account ≡ L.account }
{
    let (told, published) = join(
        rt,
        || -> Result<Vec<Result<Vec<u8>, NoMemory>>, AllocError>
            requires { IsSync R.row × (IsSend L.row × (IsSync L.row × (front.now.account ≡ L.account))) }
        { follow_in_threads(rt, alloc, lobby, front) },
        || publish_and_close(alloc, publisher, 100_000),
    );
    published?;
    Ok(told?)
}

fn fan_out<L: Named + Send + Sync, R: Threads + Wait + Sync>(
    rt: &R,
    alloc: Global,
    opening: Opening,
) -> Result<Vec<Result<Vec<u8>, NoMemory>>, NoMemory>
    requires { opening.account ≡ L.account }
{
    let (lobby, publisher) = start::<L>(alloc, opening)?;
    let front = front_copy(publisher.front());
    follow_the_publisher(rt, alloc, &lobby, &front, publisher)
}

#[test]
fn followers_in_eight_threads_end_at_one_breadcrumb(rt: HostRuntime) -> Result<(), Fail> {
    let opening = Opening::new(rt.alloc(), 0)?;
    let told = fan_out::<Brand, _>(&rt, rt.alloc(), opening)?;
    assert_eq!(rt; told.len(), 8);
    for one in told {
        assert!(rt; one?.as_slice() == b"100000 100000 wait-for-ready a=1".as_slice());
    }
    Ok(())
}
