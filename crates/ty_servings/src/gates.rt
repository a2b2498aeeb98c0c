// Links, doors and a source that wait for what the links were given: a run of them ends well only where two clients are
// served at the same time, and are given each breadcrumb before the feed goes on.
ghost use Rattle.std.specs.Prelude.{◌≡◌, ◌≤◌, ◌<◌, length, None};
ghost use Rattle.ty_base.specs.Causes.{HasCause};

use once_cell::race::OnceBool;
use std::alloc::Global;
use std::rt::Clock;
use std::thread;
use std::time::Duration;
use ty_base::{Came, Door, Failed, Link, Source, Took};

/// How often a link or a source rests before it fails, a millisecond each time.
const RESTS: u64 = 20_000;

/// Flags of each link, each set once: it was given a crumb end, and crumb end 2.
#[derive(Drop)]
pub(crate) struct Gates<'a, R> {
    pub(crate) rt: &'a R,
    pub(crate) some: &'a [OnceBool],
    pub(crate) two: &'a [OnceBool],
}

fn set(flags: &[OnceBool], place: usize) {
    if let Some(flag) = flags.get(place) {
        let _ = flag.set(true);
    }
}

// Whether all flags but so many of the first are set.
fn are_set(flags: &[OnceBool], but: usize) -> bool {
    flags.iter().skip(but).all(|flag| flag.get().is_some())
}

fn has(bytes: &[u8], part: &[u8]) -> bool {
    (0..bytes.len()).any(|at| bytes[at..].starts_with(part))
}

// Puts the text at the front of the buffer, as far as there is room, and answers how far.
fn put(text: &[u8], buf: &mut [u8]) -> usize
    ensures bound { result ≤ length buf.new }
    ensures some { 0 < length text.now → 0 < length buf.old → 0 < result }
{
    let len = text.len().min(buf.len());
    buf[..len].copy_from_slice(&text[..len]);
    len
}

fn rest<R: Clock>(rt: &R, rests: &mut u64, faults: &mut u64) -> Result<(), Failed>
    ensures { HasCause faults.old faults.new result }
{
    if *rests >= RESTS {
        *faults = faults.saturating_add(1);
        return Err(Failed);
    }
    *rests += 1;
    thread::sleep(rt, Duration::from_millis(1));
    Ok(())
}

/// A client's link. Its hello comes once each link behind it was given a crumb end, and its end once all were given crumb
/// end 2.
#[derive(Drop)]
pub(crate) struct GateLink<'a, R> {
    gates: &'a Gates<'a, R>,
    place: usize,
    greeted: bool,
    given: Vec<u8>,
    rests: u64,
    faults: u64,
}

impl<'a, R: Clock> Link for GateLink<'a, R> {
    ghost sight = { λ _. None };

    ghost count = { λ l. l.faults };

    fn take(&mut self, buf: &mut [u8]) -> Result<Took, Failed> {
        if !self.greeted && are_set(self.gates.some, self.place.saturating_add(1)) {
            self.greeted = true;
            let hello = b"\x00\x00\x00,{\"host\":\"n1\",\"m\":\"client_hello\",\"version\":1}";
            return Ok(Took::Bytes(put(hello, buf)));
        }
        if self.greeted && are_set(self.gates.two, 0) {
            return Ok(Took::End);
        }
        rest(self.gates.rt, &mut self.rests, &mut self.faults)?;
        Ok(Took::Quiet)
    }

    fn give(&mut self, piece: &[u8]) -> Result<usize, Failed> {
        let Ok(()) = self.given.extend_from_slice(piece) else {
            self.faults = self.faults.saturating_add(1);
            return Err(Failed);
        };
        if has(&self.given, b"{\"m\":\"crumb\",\"n\":") {
            set(self.gates.some, self.place);
        }
        if has(&self.given, b"{\"m\":\"crumb\",\"n\":2}") {
            set(self.gates.two, self.place);
        }
        Ok(piece.len())
    }

    fn faults(&self) -> u64 {
        self.faults
    }
}

/// A door that gives one link and then ends. The link comes back to its place.
#[derive(Drop)]
pub(crate) struct GateDoor<'a, R> {
    link: Option<GateLink<'a, R>>,
    gave: u64,
    got: u64,
    ghost sound: { got ≤ gave },
}

impl<'a, R> GateDoor<'a, R> {
    /// A door of the link at this place, from 0.
    pub(crate) fn new(alloc: Global, gates: &'a Gates<'a, R>, place: usize) -> GateDoor<'a, R> {
        let link = GateLink {
            gates,
            place,
            greeted: false,
            given: Vec::new(alloc),
            rests: 0,
            faults: 0,
        };
        GateDoor {
            link: Some(link),
            gave: 0,
            got: 0,
        }
    }

    /// What its link was given, where it came back without a fault.
    pub(crate) fn given(&self) -> Option<&[u8]> {
        match &self.link {
            Some(link) if link.faults == 0 => Some(&link.given),
            _ => None,
        }
    }
}

impl<'a, R: Clock + Sync> Door for GateDoor<'a, R> {
    type Link = GateLink<'a, R>;

    ghost sight = { λ _. None };

    ghost gave = { λ d. d.gave };

    ghost got = { λ d. d.got };

    ghost count = { λ _. 0 };

    fn accept(&mut self) -> Result<Came<GateLink<'a, R>>, Failed> {
        if self.gave > 0 {
            return Ok(Came::End);
        }
        let Some(link) = self.link.take() else {
            return Ok(Came::End);
        };
        self.gave = 1;
        Ok(Came::Link(link))
    }

    fn back(&mut self, link: GateLink<'a, R>) {
        self.link = Some(link);
        self.got += 1;
    }

    fn faults(&self) -> u64 {
        0
    }
}

/// A feed's source: `Ready` and a mark, the status once all links were given a crumb end, and the end once all were given
/// crumb end 2. Meanwhile each take brings one more mark, a blank line.
#[derive(Drop)]
pub(crate) struct GateSource<'a, R> {
    gates: &'a Gates<'a, R>,
    begun: bool,
    in_sync: bool,
    rests: u64,
    faults: u64,
}

impl<'a, R> GateSource<'a, R> {
    pub(crate) fn new(gates: &'a Gates<'a, R>) -> GateSource<'a, R> {
        GateSource {
            gates,
            begun: false,
            in_sync: false,
            rests: 0,
            faults: 0,
        }
    }
}

impl<'a, R: Clock> Source for GateSource<'a, R> {
    ghost seen = { λ s. record { left = None; faults = s.faults } };

    fn take(&mut self, buf: &mut [u8]) -> Result<usize, Failed> {
        if !self.begun {
            self.begun = true;
            return Ok(put(b"{\"key\":\"/calico/v1/Ready\",\"value\":true}\n\n", buf));
        }
        if !self.in_sync && are_set(self.gates.some, 0) {
            self.in_sync = true;
            return Ok(put(b"{\"status\":\"in-sync\"}\n", buf));
        }
        if self.in_sync && are_set(self.gates.two, 0) {
            return Ok(0);
        }
        rest(self.gates.rt, &mut self.rests, &mut self.faults)?;
        Ok(put(b"\n", buf))
    }

    fn faults(&self) -> u64 {
        self.faults
    }
}
