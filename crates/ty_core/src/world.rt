// Every interleaving.
ghost use Rattle.std.specs.Prelude.{◌≡◌, ◌++◌, ◌∷◌, [], List, ℕ, Some, true, option_copied, option_map, drop, IfOk, OnOk};
ghost use Rattle.ty_crumb.specs.Crumbs.{CrumbStands};
ghost use Rattle.ty_core.specs.Clients.{down};
ghost use Rattle.ty_core.specs.Run.{Happening, on, end, State, going, over, run, book_of, client, link, event_fault};
ghost use Rattle.ty_core.specs.Report.{report, world_shown};
ghost use Rattle.ty_core.specs.Text.{report_text as text_of};
ghost use Rattle.ty_core.specs.Held.{RunStands, WorldStands};
ghost use Rattle.ty_script.specs.Fits.{IsEvent, IsClient};
ghost use Rattle.ty_core.specs.Answers.{IfFeedFault, IsGoing, OnFault, WantsMemory};
ghost use Rattle.ty_core.specs.steps.Runs.{HasState, RunTells, RunEnds};

use crate::fault::WorldFault;
use crate::run::Run;
use crate::text::report_text;
use std::alloc::Global;
use std::marker::Model;
use ty_base::{NoMemory, Text};
use ty_client::At;
use ty_crumb::Crumb;
use ty_intake::IntakeFault;
use ty_script::Event;

/// The lines that an event adds to the report.
#[derive(Drop)]
pub struct Out {
    pub text: Text,
}

/// One publisher, and `CLIENTS` clients with their connections.
#[derive(Drop)]
pub struct World {
    run: Run,
    fault: Option<IntakeFault>,
    spent: bool,
}

impl Model for World {
    ghost use Rattle.std.specs.Coded.{codes};
    ghost use Rattle.ty_map.specs.steps.Code.{shape_code};
    ghost use Rattle.ty_core.specs.Held.{WorldHeld, HasRun};

    ghost Value = { WorldHeld };

    ghost coded = { Prim.hlevel (codes, shape_code) };

    ghost view = { λ w. record { run = w.run; fault = w.fault; spent = w.spent } };

    ghost invariant = { λ w. HasRun (record { run = w.run; fault = w.fault; spent = w.spent }) };
}

impl World {
    /// Breadcrumb 0 at time 0, no connection, and no map is held.
    pub fn new(alloc: Global) -> Result<World, NoMemory>
        ensures { IfOk result (λ w. WorldStands w []) }
    {
        Ok(World {
            run: Run::new(alloc)?,
            fault: None,
            spent: false,
        })
    }

    /// One event, and the lines that it adds to the report. After a fault of the feed each later call answers that
    /// fault, and after want of memory each answers want of memory.
    pub fn event(&mut self, alloc: Global, e: &Event) -> Result<Out, WorldFault>
        requires { IsEvent self.old.run.time e.now }
        ensures runs { OnOk result ((hs : List Happening) → WorldStands self.old hs
            → WorldStands self.new (hs ++ on e.now ∷ [])) }
        ensures goes { OnOk result ((hs : List Happening) → WorldStands self.old hs
            → IsGoing (run (hs ++ on e.now ∷ []))) }
        ensures tells { IfOk result (λ out. (hs : List Happening) → WorldStands self.old hs
            → text_of (report (hs ++ on e.now ∷ [])) ≡ text_of (report hs) ++ out.text) }
        ensures fault { IfFeedFault result (λ f. (hs : List Happening) → WorldStands self.old hs
            → run (hs ++ on e.now ∷ []) ≡ over f) }
        ensures faulty { OnFault result ((hs : List Happening) → WorldStands self.old hs
            → WorldStands self.new (hs ++ on e.now ∷ [])) }
        ensures short { WantsMemory result → self.new.spent ≡ true }
        ensures spent { self.old.spent ≡ true → WantsMemory result }
    {
        if self.spent {
            return Err(WorldFault::NoMemory);
        }
        if let Some(fault) = self.fault {
            return Err(WorldFault::Feed(fault));
        }
        match tell(alloc, &mut self.run, e) {
            Ok(text) => Ok(Out { text }),
            Err(WorldFault::Feed(fault)) => {
                self.fault = Some(fault);
                Err(WorldFault::Feed(fault))
            }
            Err(WorldFault::NoMemory) => {
                self.spent = true;
                Err(WorldFault::NoMemory)
            }
        }
    }

    /// The feed has ended: the last batch closes. A line that comes behind it is passed over.
    pub fn finish(&mut self, alloc: Global) -> Result<Out, WorldFault>
        ensures runs { OnOk result ((hs : List Happening) → WorldStands self.old hs
            → WorldStands self.new (hs ++ end ∷ [])) }
        ensures goes { OnOk result ((hs : List Happening) → WorldStands self.old hs
            → IsGoing (run (hs ++ end ∷ []))) }
        ensures tells { IfOk result (λ out. (hs : List Happening) → WorldStands self.old hs
            → text_of (report (hs ++ end ∷ [])) ≡ text_of (report hs) ++ out.text) }
        ensures fault { IfFeedFault result (λ f. self.old.fault ≡ Some f) }
        ensures short { WantsMemory result → self.new.spent ≡ true }
        ensures spent { self.old.spent ≡ true → WantsMemory result }
    {
        if self.spent {
            return Err(WorldFault::NoMemory);
        }
        if let Some(fault) = self.fault {
            return Err(WorldFault::Feed(fault));
        }
        match tell_end(alloc, &mut self.run) {
            Ok(text) => Ok(Out { text }),
            Err(_) => {
                self.spent = true;
                Err(WorldFault::NoMemory)
            }
        }
    }

    /// The last breadcrumb.
    pub fn crumb(&self) -> &Crumb
        ensures { (hs : List Happening) (s : State) → WorldStands self.now hs → run hs ≡ going s
            → CrumbStands result.now (book_of s) }
    {
        self.run.crumb()
    }

    /// The time, in milliseconds.
    pub fn now(&self) -> u64
        ensures time { result ≡ self.now.run.time }
        ensures run { (hs : List Happening) (s : State) → WorldStands self.now hs → run hs ≡ going s
            → result ≡ s.now }
    {
        self.run.time
    }

    /// The bytes on their way down to a client that has a connection: what was queued, without what was delivered.
    pub fn queued(&self, c: u64) -> Option<&[u8]>
        requires { IsClient c }
        ensures { (hs : List Happening) (s : State) → WorldStands self.now hs → run hs ≡ going s
            → option_copied result ≡ option_map (λ k. drop k.got (down (book_of s) k)) (link s c) }
    {
        self.run.queued(c)
    }

    /// The number of the last breadcrumb that a client's connection joined or was offered, or 0 before it joins.
    pub fn offered(&self, c: u64) -> Option<u64>
        requires { IsClient c }
        ensures { (hs : List Happening) (s : State) → WorldStands self.now hs → run hs ≡ going s
            → result ≡ option_map (λ k. k.offered) (link s c) }
    {
        self.run.offered(c)
    }

    /// What a client holds: what it has rebuilt at the last crumb end of its last connection that had one.
    pub fn held(&self, c: u64) -> Option<&At>
        requires { IsClient c }
        ensures { (hs : List Happening) (s : State) → WorldStands self.now hs → run hs ≡ going s
            → option_copied result ≡ option_map (world_shown s) (client s c).held }
    {
        self.run.held(c)
    }
}

fn tell(alloc: Global, run: &mut Run, e: &Event) -> Result<Text, WorldFault>
    requires run { HasState run.old }
    requires event { IsEvent run.old.time e.now }
    ensures tells { IfOk result (λ text. (s : State) → RunStands run.old s
        → RunTells run.new s e.now text) }
    ensures fault { IfFeedFault result (λ f. (s : State) → RunStands run.old s
        → event_fault s e.now ≡ Some f) }
{
    let told = run.event(alloc, e)?;
    Ok(report_text(alloc, &told)?)
}

fn tell_end(alloc: Global, run: &mut Run) -> Result<Text, NoMemory>
    requires { HasState run.old }
    ensures { IfOk result (λ text. (s : State) → RunStands run.old s
        → RunEnds run.new s text) }
{
    let told = run.end(alloc)?;
    report_text(alloc, &told)
}
