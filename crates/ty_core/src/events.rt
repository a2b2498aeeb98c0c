// What events make of a run.
ghost use Rattle.std.specs.Prelude.{◌≡◌, ◌<◌, ◌≤◌, ◌+◌, ◌++◌, ◌∷◌, [], List, None, IfOk, OnOk, length, map, drop, replicate, option_copied, option_map};
ghost use Rattle.ty_base.specs.declared.entry.Entry.{Entry};
ghost use Rattle.ty_crumb.specs.Crumbs.{CrumbStands};
ghost use Rattle.ty_intake.specs.Faults.{feed_fault};
ghost use Rattle.ty_core.specs.Answers.{IfFeedFault};
ghost use Rattle.ty_core.specs.Clients.{down, no_client};
ghost use Rattle.ty_core.specs.declared.client.Client.{Client};
ghost use Rattle.ty_core.specs.Run.{State, no_state, finished, lined, event_fault, book_of, client, link, tick_client};
ghost use Rattle.ty_core.specs.Report.{told_end, told_ticks, world_shown};
ghost use Rattle.ty_core.specs.Held.{RunStands};
ghost use Rattle.ty_script.specs.Fits.{IsEvent, IsClient};
ghost use Rattle.ty_core.specs.steps.Runs.{HasState, RunMoves, SlotsStand, AreTicking};

use crate::chain::Chain;
use crate::fault::WorldFault;
use crate::run::Run;
use crate::slot::{Slot, cut, get, hear, join, step, tick};
use crate::told::Told;
use std::alloc::Global;
use ty_base::{NoMemory, Text};
use ty_client::At;
use ty_crumb::Crumb;
use ty_script::{CLIENTS, Event};

impl Run {
    // Breadcrumb 0 at time 0, no connection, and no map is held.
    pub(crate) fn new(alloc: Global) -> Result<Run, NoMemory>
        ensures { IfOk result (λ r. RunStands r no_state) }
    {
        Ok(Run {
            chain: Chain::new(alloc)?,
            time: 0,
            slots: no_slots(alloc)?,
        })
    }

    pub(crate) fn event(&mut self, alloc: Global, e: &Event) -> Result<Vec<Told>, WorldFault>
        requires run { HasState self.old }
        requires event { IsEvent self.old.time e.now }
        ensures moves { IfOk result (λ told. (s : State) → RunStands self.old s
            → RunMoves self.new s e.now told.items) }
        ensures fault { IfFeedFault result (λ f. (s : State) → RunStands self.old s
            → event_fault s e.now ≡ Some f) }
    {
        match e {
            Event::Line(line) => self.line(alloc, line),
            Event::Join(c) => Ok(self.join(alloc, *c)?),
            Event::Hear(c) => self.hear(alloc, *c),
            Event::Step(c) => Ok(self.step(alloc, *c)?),
            Event::Get(c, n) => self.get(alloc, *c, *n),
            Event::Cut(c) => Ok(self.cut(alloc, *c)?),
            Event::Tick(ms) => Ok(self.tick(alloc, *ms)?),
        }
    }

    fn line(&mut self, alloc: Global, line: &Text) -> Result<Vec<Told>, WorldFault>
        requires { HasState self.old }
        ensures moves { IfOk result (λ told. (s : State) → RunStands self.old s
            → RunMoves self.new s (Event.Line line.now) told.items) }
        ensures fault { IfFeedFault result (λ f. (s : State) → RunStands self.old s
            → feed_fault (lined line.now s).feed ≡ Some f) }
    {
        let now = self.time;
        self.chain.line(alloc, line, now)
    }

    // The feed has ended.
    pub(crate) fn end(&mut self, alloc: Global) -> Result<Vec<Told>, NoMemory>
        requires { HasState self.old }
        ensures { IfOk result (λ told. (s : State) → RunStands self.old s
            → RunStands self.new (finished s) × (told.items ≡ told_end s)) }
    {
        let now = self.time;
        let mut told = self.chain.end(alloc, now)?;
        told.push(Told::Ended(self.chain.newest()))?;
        Ok(told)
    }

    fn join(&mut self, alloc: Global, c: u64) -> Result<Vec<Told>, NoMemory>
        requires run { HasState self.old }
        requires event { IsEvent self.old.time (Event.Join c) }
        ensures { IfOk result (λ told. (s : State) → RunStands self.old s
            → RunMoves self.new s (Event.Join c) told.items) }
    {
        let slot = &mut self.slots[c as usize - 1];
        join(alloc, slot, c, self.time)
    }

    fn hear(&mut self, alloc: Global, c: u64) -> Result<Vec<Told>, WorldFault>
        requires run { HasState self.old }
        requires event { IsEvent self.old.time (Event.Hear c) }
        ensures moves { IfOk result (λ told. (s : State) → RunStands self.old s
            → RunMoves self.new s (Event.Hear c) told.items) }
        ensures fault { IfFeedFault result (λ f. (s : State) → RunStands self.old s
            → event_fault s (Event.Hear c) ≡ Some f) }
    {
        let slot = &mut self.slots[c as usize - 1];
        hear(alloc, &self.chain, slot, c, self.time)
    }

    fn step(&mut self, alloc: Global, c: u64) -> Result<Vec<Told>, NoMemory>
        requires run { HasState self.old }
        requires event { IsEvent self.old.time (Event.Step c) }
        ensures { IfOk result (λ told. (s : State) → RunStands self.old s
            → RunMoves self.new s (Event.Step c) told.items) }
    {
        let slot = &mut self.slots[c as usize - 1];
        step(alloc, &self.chain, slot, c, self.time)
    }

    fn get(&mut self, alloc: Global, c: u64, n: u64) -> Result<Vec<Told>, WorldFault>
        requires run { HasState self.old }
        requires event { IsEvent self.old.time (Event.Get c n) }
        ensures moves { IfOk result (λ told. (s : State) → RunStands self.old s
            → RunMoves self.new s (Event.Get c n) told.items) }
        ensures fault { IfFeedFault result (λ f. (s : State) → RunStands self.old s
            → event_fault s (Event.Get c n) ≡ Some f) }
    {
        let slot = &mut self.slots[c as usize - 1];
        get(alloc, slot, c, n)
    }

    fn cut(&mut self, alloc: Global, c: u64) -> Result<Vec<Told>, NoMemory>
        requires run { HasState self.old }
        requires event { IsEvent self.old.time (Event.Cut c) }
        ensures { IfOk result (λ told. (s : State) → RunStands self.old s
            → RunMoves self.new s (Event.Cut c) told.items) }
    {
        let slot = &mut self.slots[c as usize - 1];
        cut(alloc, slot, c)
    }

    fn tick(&mut self, alloc: Global, ms: u64) -> Result<Vec<Told>, NoMemory>
        requires run { HasState self.old }
        requires event { IsEvent self.old.time (Event.Tick ms) }
        ensures { IfOk result (λ told. (s : State) → RunStands self.old s
            → RunMoves self.new s (Event.Tick ms) told.items) }
    {
        let now = self.time + ms;
        self.time = now;
        tick_all(alloc, &mut self.slots, now)
    }

    // The last breadcrumb.
    pub(crate) fn crumb(&self) -> &Crumb
        ensures { (s : State) → RunStands self.now s → CrumbStands result.now (book_of s) }
    {
        self.chain.crumb(self.chain.newest())
    }

    // The bytes on their way down to a client.
    pub(crate) fn queued(&self, c: u64) -> Option<&[u8]>
        requires { IsClient c }
        ensures { (s : State) → RunStands self.now s
            → option_copied result ≡ option_map (λ k. drop k.got (down (book_of s) k)) (link s c) }
    {
        self.slots[c as usize - 1].queued()
    }

    // The number that a client's connection stands at.
    pub(crate) fn offered(&self, c: u64) -> Option<u64>
        requires { IsClient c }
        ensures { (s : State) → RunStands self.now s
            → result ≡ option_map (λ k. k.offered) (link s c) }
    {
        self.slots[c as usize - 1].offered()
    }

    // What a client holds.
    pub(crate) fn held(&self, c: u64) -> Option<&At>
        requires { IsClient c }
        ensures { (s : State) → RunStands self.now s
            → option_copied result ≡ option_map (world_shown s) (client s c).held }
    {
        self.slots[c as usize - 1].held()
    }
}

fn no_slots(alloc: Global) -> Result<Vec<Slot>, NoMemory>
    ensures count { IfOk result (λ v. length v.items ≡ CLIENTS) }
    ensures none { IfOk result (λ v. (es : List Entry) → SlotsStand v.items es (replicate CLIENTS no_client)) }
{
    let mut slots = Vec::new(alloc);
    for _ in 0..CLIENTS {
        slots.push(Slot::new(alloc))?;
    }
    Ok(slots)
}

fn tick_all(alloc: Global, slots: &mut Vec<Slot>, now: u64) -> Result<Vec<Told>, NoMemory>
    ensures count { length slots.new.items ≡ length slots.old.items }
    ensures ticks { IfOk result (λ told. (es : List Entry) (clients : List Client) → length clients ≡ length slots.old.items
        → SlotsStand slots.old.items es clients
        → SlotsStand slots.new.items es (map (tick_client now) clients) × (told.items ≡ told_ticks now 1 clients)) }
{
    let mut told = Vec::new(alloc);
    for i in 0..slots.len() {
        tick_at(alloc, slots, i, now, &mut told)?;
    }
    Ok(told)
}

fn tick_at(
    alloc: Global,
    slots: &mut Vec<Slot>,
    i: usize,
    now: u64,
    told: &mut Vec<Told>,
) -> Result<(), NoMemory>
    requires { i < length slots.old.items }
    ensures count { length slots.new.items ≡ length slots.old.items }
    ensures ticks { OnOk result ((es : List Entry) (clients : List Client) → length clients ≡ length slots.old.items
        → AreTicking slots.old.items es clients i now told.old.items
        → AreTicking slots.new.items es clients (i + 1) now told.new.items) }
{
    let slot = &mut slots[i];
    if let Some(one) = tick(alloc, slot, i as u64 + 1, now)? {
        told.push(one)?;
    }
    Ok(())
}
