// Devices of the tests that go by one another: links that wait for the source, a source that waits for the links, and a
// clock that the links move.
ghost use Rattle.std.specs.Prelude.{◌≡◌, ◌≤◌, ◌<◌, length, None, ⊤};
ghost use Rattle.ty_base.specs.Causes.{HasCause};

use once_cell::race::OnceBool;
use std::alloc::Global;
use std::sync::atomic::{AtomicU64, Ordering};
use std::time::Duration;
use std::{rt, thread};
use ty_base::{Came, Clock, Door, Failed, Link, Source, Took};

/// How often a link or a source rests before it fails, a millisecond each time.
const RESTS: u64 = 20_000;

/// The time, and what has come to pass, each set once: a link was given its first bytes, the feed was published, the
/// door has a link back.
#[derive(Drop)]
pub(crate) struct Events {
    time: AtomicU64,
    greeted: OnceBool,
    published: OnceBool,
    gone: OnceBool,
}

impl Events {
    /// Nothing has come to pass, and it is time 0.
    pub(crate) fn new() -> Events {
        Events {
            time: AtomicU64::new(0),
            greeted: OnceBool::new(),
            published: OnceBool::new(),
            gone: OnceBool::new(),
        }
    }

    /// A clock that tells the time.
    pub(crate) fn clock(&self) -> StageClock<'_> {
        StageClock { time: &self.time }
    }
}

fn is_set(flag: &OnceBool) -> bool {
    flag.get().is_some()
}

fn set(flag: &OnceBool) {
    let _ = flag.set(true);
}

// Puts the text at the front of the buffer, as far as there is room, and answers how far.
fn put(text: &[u8], buf: &mut [u8]) -> usize
    ensures bound { result ≤ length buf.new }
    ensures some { 0 < length text.now → 0 < length buf.old → 0 < result }
{
    let len = text.len().min(buf.len());
    buf[..len].copy_from_slice(&text[..len]);
    len
}

fn rest<R: rt::Clock>(rt: &R, rests: &mut u64, faults: &mut u64) -> Result<(), Failed>
    ensures { HasCause faults.old faults.new result }
{
    if *rests >= RESTS {
        *faults = faults.saturating_add(1);
        return Err(Failed);
    }
    *rests += 1;
    thread::sleep(rt, Duration::from_millis(1));
    Ok(())
}

// Whether a flag is set before one has rested too often.
fn comes<R: rt::Clock>(rt: &R, flag: &OnceBool) -> bool {
    for _ in 0..RESTS {
        if is_set(flag) {
            return true;
        }
        thread::sleep(rt, Duration::from_millis(1));
    }
    false
}

/// What a client does: what it brings, a text a take, and nothing behind that; by how much the time moves at each take that
/// brings nothing; whether its first give lasts until the feed was published, and how long then; which call fails.
#[derive(Clone, Copy)]
pub(crate) struct Manner {
    pub(crate) brings: &'static [&'static [u8]],
    pub(crate) lapse: u64,
    pub(crate) lasts: u64,
    pub(crate) fails: u64,
}

/// A client's link.
#[derive(Drop)]
pub(crate) struct StageLink<'a, R> {
    rt: &'a R,
    events: &'a Events,
    manner: Manner,
    given: Vec<u8>,
    takes: usize,
    calls: u64,
    rests: u64,
    faults: u64,
}

impl<'a, R: rt::Clock> StageLink<'a, R> {
    pub(crate) fn new(
        alloc: Global,
        rt: &'a R,
        events: &'a Events,
        manner: Manner,
    ) -> StageLink<'a, R> {
        StageLink {
            rt,
            events,
            manner,
            given: Vec::new(alloc),
            takes: 0,
            calls: 0,
            rests: 0,
            faults: 0,
        }
    }

    // Counts a call, which fails where it is the one that fails.
    fn call(&mut self) -> Result<(), Failed>
        ensures { HasCause self.old.faults self.new.faults result }
    {
        self.calls = self.calls.saturating_add(1);
        if self.calls == self.manner.fails {
            self.faults = self.faults.saturating_add(1);
            return Err(Failed);
        }
        Ok(())
    }

    // Where the first give lasts, it lasts until the feed was published.
    fn wait(&mut self) -> Result<(), Failed>
        ensures { HasCause self.old.faults self.new.faults result }
    {
        if comes(self.rt, &self.events.published) {
            self.events.time.store(self.manner.lasts, Ordering::SeqCst);
            return Ok(());
        }
        self.faults = self.faults.saturating_add(1);
        Err(Failed)
    }
}

impl<'a, R: rt::Clock> Link for StageLink<'a, R> {
    ghost sight = { λ _. None };

    ghost count = { λ l. l.faults };

    fn take(&mut self, buf: &mut [u8]) -> Result<Took, Failed> {
        self.call()?;
        if let Some(text) = self.manner.brings.get(self.takes) {
            self.takes = self.takes.saturating_add(1);
            if !text.is_empty() {
                return Ok(Took::Bytes(put(text, buf)));
            }
        }
        self.events
            .time
            .fetch_add(self.manner.lapse, Ordering::SeqCst);
        rest(self.rt, &mut self.rests, &mut self.faults)?;
        Ok(Took::Quiet)
    }

    fn give(&mut self, piece: &[u8]) -> Result<usize, Failed> {
        self.call()?;
        let first = self.given.is_empty();
        let Ok(()) = self.given.extend_from_slice(piece) else {
            self.faults = self.faults.saturating_add(1);
            return Err(Failed);
        };
        set(&self.events.greeted);
        if first && self.manner.lasts > 0 {
            self.wait()?;
        }
        Ok(piece.len())
    }

    fn faults(&self) -> u64 {
        self.faults
    }
}

/// A door that gives its links one after another, the first one last, and then ends; one accept fails.
#[derive(Drop)]
pub(crate) struct StageDoor<'a, R> {
    events: &'a Events,
    coming: Vec<StageLink<'a, R>>,
    back: Vec<StageLink<'a, R>>,
    gave: u64,
    got: u64,
    calls: u64,
    fails: u64,
    faults: u64,
    ghost sound: { got ≤ gave },
}

impl<'a, R> StageDoor<'a, R> {
    pub(crate) fn new(
        alloc: Global,
        events: &'a Events,
        coming: Vec<StageLink<'a, R>>,
        fails: u64,
    ) -> StageDoor<'a, R> {
        StageDoor {
            events,
            coming,
            back: Vec::new(alloc),
            gave: 0,
            got: 0,
            calls: 0,
            fails,
            faults: 0,
        }
    }

    /// What each link was given that came back, in order.
    pub(crate) fn given(&self, place: usize) -> Option<&[u8]> {
        match self.back.get(place) {
            Some(link) => Some(&link.given),
            None => None,
        }
    }

    /// How many links came back.
    pub(crate) fn count(&self) -> usize {
        self.back.len()
    }
}

impl<'a, R: rt::Clock + Sync> Door for StageDoor<'a, R> {
    type Link = StageLink<'a, R>;

    ghost sight = { λ _. None };

    ghost gave = { λ d. d.gave };

    ghost got = { λ d. d.got };

    ghost count = { λ d. d.faults };

    fn accept(&mut self) -> Result<Came<StageLink<'a, R>>, Failed> {
        self.calls = self.calls.saturating_add(1);
        if self.calls == self.fails {
            self.faults = self.faults.saturating_add(1);
            return Err(Failed);
        }
        if self.gave >= 1_000 {
            return Ok(Came::End);
        }
        let Some(link) = self.coming.pop() else {
            return Ok(Came::End);
        };
        self.gave += 1;
        Ok(Came::Link(link))
    }

    fn back(&mut self, link: StageLink<'a, R>) {
        let _ = self.back.push(link);
        self.got += 1;
        set(&self.events.gone);
    }

    fn faults(&self) -> u64 {
        self.faults
    }
}

/// A feed's source: `Ready`, a mark and the status in one take, once a link was given its first bytes, and the end once a
/// link is back. Meanwhile each take brings a mark, a blank line.
#[derive(Drop)]
pub(crate) struct StageSource<'a, R> {
    rt: &'a R,
    events: &'a Events,
    feeds: bool,
    begun: bool,
    rests: u64,
    faults: u64,
}

impl<'a, R> StageSource<'a, R> {
    /// One whose feed has the two lines, or marks alone.
    pub(crate) fn new(rt: &'a R, events: &'a Events, feeds: bool) -> StageSource<'a, R> {
        StageSource {
            rt,
            events,
            feeds,
            begun: false,
            rests: 0,
            faults: 0,
        }
    }
}

impl<'a, R: rt::Clock> Source for StageSource<'a, R> {
    ghost seen = { λ s. record { left = None; faults = s.faults } };

    fn take(&mut self, buf: &mut [u8]) -> Result<usize, Failed> {
        if self.begun {
            set(&self.events.published);
        }
        if is_set(&self.events.gone) {
            return Ok(0);
        }
        if self.feeds && !self.begun && is_set(&self.events.greeted) {
            self.begun = true;
            let feed =
                b"{\"key\":\"/calico/v1/Ready\",\"value\":true}\n\n{\"status\":\"in-sync\"}\n";
            return Ok(put(feed, buf));
        }
        rest(self.rt, &mut self.rests, &mut self.faults)?;
        Ok(put(b"\n", buf))
    }

    fn faults(&self) -> u64 {
        self.faults
    }
}

/// The stage's time.
#[derive(Drop)]
pub(crate) struct StageClock<'a> {
    time: &'a AtomicU64,
}

impl<'a> Clock for StageClock<'a> {
    ghost gives = { λ _ _. ⊤ };

    fn now(&self) -> u64 {
        self.time.load(Ordering::SeqCst)
    }
}
