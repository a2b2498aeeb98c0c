// One worker, which serves one connection after another.
ghost use Rattle.std.specs.Prelude.{◌≡◌, ◌+◌, ◌≤◌, IfOk};
ghost use Rattle.ty_account.specs.Known.{KnowsMore};
ghost use Rattle.ty_base.specs.Causes.{HasCause};
ghost use Rattle.ty_base.specs.Told.{Told};
ghost use Rattle.ty_server.specs.Workers.{WorksAt, IsRunOver};
ghost use Rattle.ty_server.specs.steps.Visits.{served_in, short_in, IsVisit};

use crate::serving::serve_client;
use std::alloc::Global;
use std::sync::Wait;
use ty_account::Named;
use ty_base::{Came, Clock, Door};
use ty_chain::{Front, Lobby};

/// The most links of one run.
pub const MOST_LINKS: u64 = 1 << 40;

/// The door has failed.
#[derive(Clone, Copy, Debug, PartialEq, Eq)]
pub struct DoorFault;

/// One worker: what it knows of the account, and how many connections its last run dropped.
#[derive(Drop)]
pub struct Worker {
    number: u64,
    front: Front,
    short: u64,
}

impl Worker {
    /// A worker with a number of its own, whose front this is.
    pub fn new(number: u64, front: Front) -> Worker
        ensures number { result.number ≡ number }
        ensures front { result.front ≡ front }
        ensures short { result.short ≡ 0 }
    {
        Worker {
            number,
            front,
            short: 0,
        }
    }

    /// The number that it was given.
    pub fn number(&self) -> u64
        ensures { result ≡ self.now.number }
    {
        self.number
    }

    /// What it knows of the account.
    pub fn front(&self) -> &Front
        ensures { result.now ≡ self.now.front }
    {
        &self.front
    }

    /// How many connections its last run dropped for want of memory, and 0 before the first run.
    pub fn short(&self) -> u64
        ensures { result ≡ self.now.short }
    {
        self.short
    }

    /// Serves one connection after another, and answers how many. Each link that the door gave goes back to it. It
    /// ends where the door gives `End`, or `Quiet` while the account is closed, or after `MOST_LINKS` links, and at
    /// the door's first fault. Where memory runs out at a connection it is dropped, and the next one is served. The
    /// front knows afterwards all that the clients were served. It waits for the door, for peers and for locks.
    pub fn run<R: Wait, N: Named, D: Door, C: Clock>(
        &mut self,
        rt: &R,
        alloc: Global,
        lobby: &Lobby<N>,
        door: &mut D,
        clock: &C,
    ) -> Result<u64, DoorFault>
        requires account { self.old.front.account ≡ N.account }
        ensures number { self.new.number ≡ self.old.number }
        ensures knows_more { KnowsMore self.old.front self.new.front }
        ensures back { D.gave door.new + D.got door.old ≡ D.gave door.old + D.got door.new }
        ensures count { IfOk result (λ n. D.got door.old + n ≡ D.got door.new) }
        ensures few { D.got door.old + self.new.short ≤ D.got door.new }
        ensures most { D.got door.new ≤ D.got door.old + MOST_LINKS }
        ensures cause { HasCause (D.count door.old) (D.count door.new) result }
        ensures ends { IfOk result (λ n.
            Told (IsRunOver self.new.front.closed n) (D.sight door.old) (D.sight door.new)) }
        ensures served { Told (WorksAt D.Link.sight D.Link.count (C.gives clock.now) self.new.front self.new.short)
            (D.sight door.old) (D.sight door.new) }
    {
        self.short = 0;
        let mut count = 0;
        for _ in rt.forever() {
            if count == MOST_LINKS {
                return Ok(count);
            }
            match serve_next(rt, alloc, lobby, &mut self.front, door, clock)? {
                Visit::Served => count += 1,
                Visit::Short => {
                    count += 1;
                    self.short += 1;
                }
                Visit::Quiet => {
                    if lobby.look(&mut self.front).closed {
                        return Ok(count);
                    }
                }
                Visit::End => return Ok(count),
            }
        }
        unreachable!()
    }
}

// What one accept came to.
enum Visit {
    // A client was served, and its connection has ended.
    Served,
    // Memory ran out at a client.
    Short,
    // Nobody came.
    Quiet,
    // Nobody will come.
    End,
}

// One accept. A link is served and goes back.
fn serve_next<R: Wait, N: Named, D: Door, C: Clock>(
    rt: &R,
    alloc: Global,
    lobby: &Lobby<N>,
    front: &mut Front,
    door: &mut D,
    clock: &C,
) -> Result<Visit, DoorFault>
    requires account { front.old.account ≡ N.account }
    ensures knows_more { KnowsMore front.old front.new }
    ensures back { D.gave door.new + D.got door.old ≡ D.gave door.old + D.got door.new }
    ensures count { D.got door.new ≡ D.got door.old + served_in result }
    ensures cause { HasCause (D.count door.old) (D.count door.new) result }
    ensures answer { IfOk result (λ v. Told (IsVisit v) (D.sight door.old) (D.sight door.new)) }
    ensures served { Told (WorksAt D.Link.sight D.Link.count (C.gives clock.now) front.new (short_in result))
        (D.sight door.old) (D.sight door.new) }
{
    match door.accept() {
        Ok(Came::Link(mut link)) => {
            let served = serve_client(rt, alloc, lobby, front, &mut link, clock);
            door.back(link);
            match served {
                Ok(_) => Ok(Visit::Served),
                Err(_) => Ok(Visit::Short),
            }
        }
        Ok(Came::Quiet) => Ok(Visit::Quiet),
        Ok(Came::End) => Ok(Visit::End),
        Err(_) => Err(DoorFault),
    }
}
