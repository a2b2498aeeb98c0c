// What the feed's lines and its end make of a chain.
ghost use Rattle.std.specs.Prelude.{◌≡◌, ◌≤◌, ◌<◌, ◌+◌, ◌-◌, ◌++◌, ◌∷◌, [], List, ℕ, length, map, slice_index_or, true, false, Some, None, IfOk, OnOk};
ghost use Rattle.std.specs.List.{range_with_len};
ghost use Rattle.ty_base.specs.declared.item.Item.{Item as AnItem};
ghost use Rattle.ty_base.specs.declared.entry.Entry.{Entry};
ghost use Rattle.ty_base.specs.declared.limits.TheConstants.{INPUT_BYTES};
ghost use Rattle.ty_base.specs.Batches.{IsBatch, IsClosed, IsNextBatch};
ghost use Rattle.ty_crumb.specs.declared.crumb.Crumb.{Crumb as ACrumb};
ghost use Rattle.ty_crumb.specs.Crumbs.{world_of};
ghost use Rattle.ty_intake.specs.Faults.{feed_fault};
ghost use Rattle.ty_intake.specs.Batches.{joined};
ghost use Rattle.ty_client.specs.Worlds.{numbered, rebuilt_after};
ghost use Rattle.ty_core.specs.Answers.{IfFeedFault, WantsMemory};
ghost use Rattle.ty_core.specs.Run.{State, no_state, lined, finished};
ghost use Rattle.ty_core.specs.Held.{AreCrumbs, LastWithin, ChainStands};
ghost use Rattle.ty_core.specs.steps.Chains.{CrumbsOf, AreOwed, ArePublished, HasChain, ChainMoved};

use crate::chain::Chain;
use crate::fault::WorldFault;
use crate::told::Told;
use std::alloc::Global;
use ty_base::{NoMemory, Text};
use ty_client::At;
use ty_crumb::{Crumb, Made, next_crumb};
use ty_intake::{Closed, Intake, IntakeFault};

impl Chain {
    // Breadcrumb 0, made at time 0.
    pub(crate) fn new(alloc: Global) -> Result<Chain, NoMemory>
        ensures { IfOk result (λ chain. ChainStands chain no_state) }
    {
        let mut crumbs = Vec::new(alloc);
        crumbs.push(Crumb::first(alloc, 0))?;
        Ok(Chain {
            intake: Intake::new(alloc),
            crumbs,
        })
    }

    // The number of the last breadcrumb.
    pub(crate) fn newest(&self) -> u64
        ensures { result + 1 ≡ length self.now.crumbs.items }
    {
        self.crumbs.len() as u64 - 1
    }

    pub(crate) fn crumb(&self, n: u64) -> &Crumb
        requires { n < length self.now.crumbs.items }
        ensures { result.now ≡ slice_index_or self.now.crumbs.items n result.now }
    {
        &self.crumbs[n as usize]
    }

    // What a client rebuilds at the end of breadcrumb n.
    pub(crate) fn at(&self, n: u64) -> Result<At, NoMemory>
        requires { n < length self.now.crumbs.items }
        ensures { (es : List Entry) → AreCrumbs self.now.crumbs.items es → IfOk result (λ a. a ≡ rebuilt_after es n) }
    {
        at_of(self.crumb(n))
    }

    // The feed's next line, at this time: the breadcrumbs that it publishes, or the feed's fault.
    pub(crate) fn line(
        &mut self,
        alloc: Global,
        line: &Text,
        now: u64,
    ) -> Result<Vec<Told>, WorldFault>
        requires { HasChain self.old }
        ensures moved { IfOk result (λ told. (s : State) → ChainStands self.old s → s.now ≡ now
            → ChainMoved self.new s (lined line.now s) told.items) }
        ensures fault { IfFeedFault result (λ f. (s : State) → ChainStands self.old s
            → feed_fault (lined line.now s).feed ≡ Some f) }
    {
        let newest = self.newest();
        let bytes = ended_line(alloc, line)?;
        let fed = self.intake.feed(alloc, &bytes)?;
        go_on(fed.fault)?;
        publish_all(alloc, fed.closed.as_slice(), &mut self.crumbs, now)?;
        Ok(self.news(alloc, newest)?)
    }

    // The feed's end, at this time.
    pub(crate) fn end(&mut self, alloc: Global, now: u64) -> Result<Vec<Told>, NoMemory>
        requires { HasChain self.old }
        ensures { IfOk result (λ told. (s : State) → ChainStands self.old s → s.now ≡ now
            → ChainMoved self.new s (finished s) told.items) }
    {
        let newest = self.newest();
        let fed = self.intake.end(alloc)?;
        publish_all(alloc, fed.closed.as_slice(), &mut self.crumbs, now)?;
        Ok(self.news(alloc, newest)?)
    }

    // The breadcrumbs behind this number.
    fn news(&self, alloc: Global, number: u64) -> Result<Vec<Told>, NoMemory>
        requires { number < length self.now.crumbs.items }
        ensures { (es : List Entry) → AreCrumbs self.now.crumbs.items es
            → IfOk result (λ told. told.items ≡ map (λ n. Told.Published (rebuilt_after es n)) (range_with_len (number + 1) (length es - number))) }
    {
        let mut told = Vec::new(alloc);
        for n in number + 1..self.crumbs.len() as u64 {
            told.push(Told::Published(self.at(n)?))?;
        }
        Ok(told)
    }
}

fn go_on(fault: Option<IntakeFault>) -> Result<(), WorldFault>
    ensures none { OnOk result (fault ≡ None) }
    ensures some { IfFeedFault result (λ f. fault ≡ Some f) }
    ensures long { WantsMemory result → ⊥ }
{
    match fault {
        None => Ok(()),
        Some(fault) => Err(WorldFault::Feed(fault)),
    }
}

fn at_of(crumb: &Crumb) -> Result<At, NoMemory>
    ensures { IfOk result (λ a. a ≡ numbered crumb.now.number (world_of crumb.now)) }
{
    Ok(At {
        number: crumb.number,
        status: crumb.status,
        pairs: crumb.pairs.copy()?,
    })
}

// A line and the byte that ends it.
fn ended_line(alloc: Global, line: &Text) -> Result<Vec<u8>, NoMemory>
    ensures { IfOk result (λ bytes. bytes.items ≡ line.now ++ 10 ∷ []) }
{
    let mut bytes = Vec::new(alloc);
    bytes.extend_from_slice(line.bytes())?;
    bytes.push(b'\n')?;
    Ok(bytes)
}

// Publishes the breadcrumbs that these batches make.
fn publish_all(
    alloc: Global,
    closed: &[Closed],
    crumbs: &mut Vec<Crumb>,
    now: u64,
) -> Result<(), NoMemory>
    requires { AreOwed crumbs.old.items closed.now }
    ensures more { length crumbs.old.items ≤ length crumbs.new.items }
    ensures ok { OnOk result ((o : AreOwed crumbs.old.items closed.now)
        → ArePublished crumbs.old.items crumbs.new.items now (joined o.done) (joined (o.done ++ closed.now))) }
{
    for batch in closed {
        publish(alloc, batch, crumbs, now)?;
    }
    Ok(())
}

// Publishes the breadcrumb that a batch makes, if it makes one.
fn publish(alloc: Global, batch: &Closed, crumbs: &mut Vec<Crumb>, now: u64) -> Result<(), NoMemory>
    requires some { 0 < length crumbs.old.items }
    requires batch { IsBatch batch.now.items }
    requires later { LastWithin crumbs.old.items batch.now.cut }
    requires few { (c : ACrumb) → c ≡ slice_index_or crumbs.old.items (length crumbs.old.items - 1) c → c.number < INPUT_BYTES }
    ensures more { length crumbs.old.items ≤ length crumbs.new.items }
    ensures ok { OnOk result ((before : List AnItem) → IsClosed before → IsNextBatch true before batch.now.items
        → batch.now.cut ≡ length before + length batch.now.items → CrumbsOf crumbs.old.items before
        → ArePublished crumbs.old.items crumbs.new.items now before (before ++ batch.now.items)) }
{
    let last = &crumbs[crumbs.len() - 1];
    match next_crumb(alloc, last, batch.items.as_slice(), batch.cut, now)? {
        Made::Unchanged => Ok(()),
        Made::Crumb(next) => {
            crumbs.push(next)?;
            Ok(())
        }
    }
}
