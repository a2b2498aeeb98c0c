// Looks that are fresh, fronts that meet, spots that go along nodes, and holders in two threads.
ghost use Rattle.std.specs.Prelude.{◌≡◌};

use crate::{Account, Fresh, Front, Look, Pen, Spot, Standing, Walked, front_copy, front_count};
use std::alloc::Global;
use std::sync::Wait;
use std::test::Fail;
use std::thread::{Threads, join, yield_now};
use ty_base::{Deltas, Entry, NoMemory, Status};

// A number, which stands for any list.
#[derive(Drop)]
struct Number {
    number: u64,
}

impl Standing for Number {
    ghost stands = { λ n entries. Unit {0} };
}

// Enters so many empty entries, with the numbers of their places.
fn enter(alloc: Global, pen: &mut Pen<Number>, count: u64) -> Result<(), NoMemory>
    ensures { pen.new.account ≡ pen.old.account }
{
    let entry = Entry {
        cut: 0,
        status: Status::Wait,
        deltas: Deltas::new(alloc),
    };
    for _ in 0..count {
        let before = front_count(pen.front());
        if before < 1 << 40 {
            let item = Number { number: before + 1 };
            pen.enter(&entry, Fresh::new(alloc, item)?);
        }
    }
    Ok(())
}

#[test]
fn a_look_is_fresh(rt: HostRuntime) -> Result<(), Fail> {
    let alloc = rt.alloc();
    let (account, mut pen, mut front, _) = Account::start(alloc, Number { number: 0 })?;
    assert_eq!(rt;
        account.share()?.look(&mut front),
        Look {
            count: 0,
            closed: false
        }
    );
    enter(alloc, &mut pen, 2)?;
    assert_eq!(rt; front_count(&front), 0);
    assert_eq!(rt;
        account.look(&mut front),
        Look {
            count: 2,
            closed: false
        }
    );
    enter(alloc, &mut pen, 1)?;
    assert_eq!(rt; front_count(&pen.close()), 3);
    assert_eq!(rt;
        account.look(&mut front),
        Look {
            count: 3,
            closed: true
        }
    );
    Ok(())
}

#[test]
fn fronts_that_meet_know_the_longer_list(rt: HostRuntime) -> Result<(), Fail> {
    let alloc = rt.alloc();
    let (account, mut pen, mut front, _) = Account::start(alloc, Number { number: 0 })?;
    enter(alloc, &mut pen, 2)?;
    account.meet(&mut front, pen.front());
    let mut early = front_copy(&front);
    enter(alloc, &mut pen, 3)?;
    account.meet(&mut front, pen.front());
    account.meet(&mut front, &early);
    assert_eq!(rt; (front_count(&early), front_count(&front)), (2, 5));
    account.meet(&mut early, &front);
    assert_eq!(rt; front_count(&early), 5);
    Ok(())
}

// What a step finds, and the number where the spot is then.
fn go(spot: &mut Spot<Number>, front: &mut Front<Number>) -> (Walked, u64)
    requires { spot.old.account ≡ front.old.account }
    ensures { (spot.new.account ≡ spot.old.account) × (front.new.account ≡ front.old.account) }
{
    let walked = spot.step(front);
    (walked, spot.item().number)
}

#[test]
fn a_spot_goes_from_node_to_node(rt: HostRuntime) -> Result<(), Fail> {
    let alloc = rt.alloc();
    let (_, mut pen, mut front, mut spot) = Account::start(alloc, Number { number: 0 })?;
    assert_eq!(rt; go(&mut spot, &mut front), (Walked::Empty, 0));
    enter(alloc, &mut pen, 2)?;
    assert_eq!(rt; go(&mut spot, &mut front), (Walked::Next, 1));
    assert_eq!(rt; go(&mut spot, &mut front), (Walked::Next, 2));
    pen.close();
    assert_eq!(rt; go(&mut spot, &mut front), (Walked::Closed, 2));
    Ok(())
}

#[test]
fn a_copy_goes_its_own_way(rt: HostRuntime) -> Result<(), Fail> {
    let alloc = rt.alloc();
    let (_, mut pen, mut front, mut spot) = Account::start(alloc, Number { number: 0 })?;
    let mut copy = spot.copy()?;
    assert_eq!(rt; go(&mut copy, &mut front), (Walked::Empty, 0));
    enter(alloc, &mut pen, 2)?;
    assert_eq!(rt; go(&mut spot, &mut front), (Walked::Next, 1));
    assert_eq!(rt; copy.item().number, 0);
    copy.move_to(&spot);
    assert_eq!(rt; go(&mut copy, &mut front), (Walked::Next, 2));
    assert_eq!(rt; spot.item().number, 1);
    Ok(())
}

#[test]
fn a_spot_at_place_0_drops_a_hundred_thousand_nodes(rt: HostRuntime) -> Result<(), Fail> {
    let alloc = rt.alloc();
    let (account, mut pen, mut front, mut spot) = Account::start(alloc, Number { number: 0 })?;
    enter(alloc, &mut pen, 100_000)?;
    drop(pen);
    drop(account);
    assert_eq!(rt; spot.item().number, 0);
    assert_eq!(rt;
        (spot.step(&mut front), front_count(&front)),
        (Walked::Next, 100_000)
    );
    Ok(())
}

// Goes to the end of the closed list, and answers its last item, or none where an item isn't the next number.
fn walk<R: Wait>(rt: &R, mut spot: Spot<Number>, mut front: Front<Number>) -> Option<u64>
    requires { spot.account ≡ front.account }
{
    let mut before = spot.item().number;
    for _ in rt.forever() {
        match spot.step(&mut front) {
            Walked::Next => {
                let now = spot.item().number;
                if before.checked_add(1) != Some(now) {
                    return None;
                }
                before = now;
            }
            Walked::Empty => yield_now(),
            Walked::Closed => return Some(before),
        }
    }
    unreachable!()
}

fn enter_and_close(alloc: Global, mut pen: Pen<Number>) -> u64 {
    let entered = enter(alloc, &mut pen, 1_000);
    let count = front_count(&pen.close());
    if entered.is_ok() { count } else { 0 }
}

// The walker's last item, and the writer's count.
fn both<R: Threads + Wait + Sync>(
    rt: &R,
    alloc: Global,
    pen: Pen<Number>,
    spot: Spot<Number>,
    front: Front<Number>,
) -> (Option<u64>, u64)
    requires { spot.account ≡ front.account }
{
    join(
        rt,
        || -> Option<u64>
            requires { spot.account ≡ front.account }
        { walk(rt, spot, front) },
        || -> u64 { enter_and_close(alloc, pen) },
    )
}

#[test]
fn a_walker_comes_to_every_node_and_to_the_close(rt: HostRuntime) -> Result<(), Fail> {
    let alloc = rt.alloc();
    let (_, pen, front, spot) = Account::start(alloc, Number { number: 0 })?;
    let (seen, entered) = both(&rt, alloc, pen, spot, front);
    assert_eq!(rt; (entered, seen), (1_000, Some(1_000)));
    Ok(())
}
