// A door in memory, with a list of the accepts that fail.
ghost use Rattle.std.specs.Prelude.{◌≡◌, ◌+◌, ◌<◌, ◌≤◌, ◌↔◌, [], ℕ, None, Some, length, map, drop, IfOk, IsErr};
ghost use Rattle.ty_base.specs.Causes.{HasCause};
ghost use Rattle.ty_base.specs.Memory.{next_call};
ghost use Rattle.ty_base.specs.Doors.{Accepts, TakesBack, links_in};
ghost use Rattle.ty_base.specs.MemoryDoors.{MemoryDoor, AcceptFails, next_came, coming_after};
ghost use Rattle.ty_base.specs.MemoryLinks.{MemoryLink, faults_after};

use crate::door::{Came, Door};
use crate::memory_link::MemLink;
use crate::outside::Failed;
use crate::text::NoMemory;
use std::alloc::Global;
use std::collections::VecDeque;
use std::marker::Model;
use std::snapshot::Snapshot;

/// A door that gives given links, some of whose accepts fail. It has room for every link that comes
/// back.
#[derive(Drop)]
pub struct MemDoor {
    coming: VecDeque<Came<MemLink>>,
    returned: Vec<MemLink>,
    // What was given last before each link that came back, as it was then. A snapshot has no bytes.
    firsts: Vec<Snapshot<Snapshot<MemLink>>>,
    last: Option<Snapshot<Result<Came<MemLink>, Failed>>>,
    lent: Option<Snapshot<MemLink>>,
    gave: usize,
    fails: Vec<u64>,
    calls: u64,
    faults: u64,
}

impl Model for MemDoor {
    ghost use Rattle.std.specs.Prelude.{◌≡◌, ◌+◌, ◌<◌, ◌≤◌, map, length, option_map, IsSome, vec_len, vec_capacity};
    ghost use Rattle.ty_base.specs.MemoryDoors.{MemoryDoor};
    ghost use Rattle.ty_base.specs.steps.Backs.{pair_up};

    ghost Value = { MemoryDoor };

    ghost view = { λ d. record {
      sight = record {
        last = option_map (λ s. s.value) d.last;
        lent = option_map (λ s. s.value) d.lent;
        backs = pair_up (map (λ s. s.value.value) d.firsts.items) d.returned.items;
      };
      coming = d.coming.items;
      gave = d.gave;
      got = vec_len d.returned;
      calls = d.calls;
      fails = d.fails.items;
      faults = d.faults;
    } };

    ghost invariant = { λ d. (d.gave + length d.coming.items ≤ vec_capacity d.returned)
        × (d.gave + length d.coming.items ≤ vec_capacity d.firsts)
        × (vec_len d.firsts ≡ vec_len d.returned)
        × (vec_len d.returned ≤ d.gave)
        × (0 < d.gave → IsSome d.lent) };
}

impl MemDoor {
    /// A door that will give these, and then `End`, and has taken the memory for what comes back.
    /// `fails` lists the numbers, from 1, of the accepts that fail.
    pub fn new(
        alloc: Global,
        coming: Vec<Came<MemLink>>,
        fails: Vec<u64>,
    ) -> Result<MemDoor, NoMemory>
        ensures coming { IfOk result (λ d. d.coming ≡ coming.items) }
        ensures sight { IfOk result (λ d.
            (d.sight.last ≡ None) × (d.sight.lent ≡ None) × (d.sight.backs ≡ [])) }
        ensures fails { IfOk result (λ d. d.fails ≡ fails.items) }
        ensures numbers { IfOk result (λ d. (d.gave ≡ 0) × (d.got ≡ 0)) }
        ensures begins { IfOk result (λ d. (d.calls ≡ 0) × (d.faults ≡ 0)) }
    {
        let returned = Vec::with_capacity(alloc, coming.len())?;
        let firsts = Vec::with_capacity(alloc, coming.len())?;
        Ok(MemDoor {
            coming: VecDeque::from(coming),
            returned,
            firsts,
            last: None,
            lent: None,
            gave: 0,
            fails,
            calls: 0,
            faults: 0,
        })
    }

    /// The links that came back, in order.
    pub fn returned(&self) -> &[MemLink]
        ensures { result.now ≡ map (λ b. b.1) self.now.sight.backs }
    {
        &self.returned
    }
}

impl Door for MemDoor {
    type Link = MemLink;

    ghost sight = { λ d. Some d.sight };

    ghost gave = { λ d. d.gave };

    ghost got = { λ d. d.got };

    ghost count = { λ d. d.faults };

    fn accept(&mut self) -> Result<Came<MemLink>, Failed>
        ensures told { Accepts result self.old.sight self.new.sight }
        ensures gave { self.new.gave ≡ self.old.gave + links_in result }
        ensures got { self.new.got ≡ self.old.got }
        ensures sound { self.old.got ≤ self.old.gave }
        ensures cause { HasCause self.old.faults self.new.faults result }
        ensures fails { IsErr result ↔ AcceptFails self.old }
        ensures next { IfOk result (λ c. c ≡ next_came self.old.coming) }
        ensures coming { self.new.coming ≡ coming_after result self.old.coming }
        ensures calls { self.new.calls ≡ next_call self.old.calls }
        ensures faults { self.new.faults ≡ faults_after result self.old.faults }
        ensures stays { self.new.fails ≡ self.old.fails }
    {
        self.calls = self.calls.saturating_add(1);
        if self.fails.contains(&self.calls) {
            self.faults = self.faults.saturating_add(1);
            self.last = Some(Snapshot::of(&Err(Failed)));
            return Err(Failed);
        }
        let answer = match self.coming.pop_front() {
            None => Ok(Came::End),
            Some(came) => Ok(came),
        };
        if let Ok(Came::Link(link)) = &answer {
            self.lent = Some(Snapshot::of(link));
            self.gave += 1;
        }
        self.last = Some(Snapshot::of(&answer));
        answer
    }

    fn back(&mut self, link: MemLink)
        requires { self.old.got < self.old.gave }
        ensures told { TakesBack link self.old.sight self.new.sight }
        ensures gave { self.new.gave ≡ self.old.gave }
        ensures got { self.new.got ≡ self.old.got + 1 }
        ensures count { self.new.faults ≡ self.old.faults }
        ensures coming { self.new.coming ≡ self.old.coming }
        ensures stays { (self.new.fails ≡ self.old.fails) × (self.new.calls ≡ self.old.calls) }
    {
        let Some(first) = &self.lent else {
            unreachable!()
        };
        self.firsts.push(Snapshot::of(first)).unwrap();
        self.returned.push(link).unwrap();
    }

    fn faults(&self) -> u64 {
        self.faults
    }
}
