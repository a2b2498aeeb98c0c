// A feed that comes in pieces: its batches, and its first fault.
ghost use Rattle.std.specs.Prelude.{◌≡◌, ◌<◌, ◌≤◌, ◌+◌, ◌++◌, [], length, IfOk, OnOk, OnErr, None, Some, true, false};
ghost use Rattle.std.specs.List.{list_all};
ghost use Rattle.ty_intake.specs.Lines.{Feed, fed_with, ended_now, no_feed};
ghost use Rattle.ty_base.specs.declared.limits.TheConstants.{LINE_BYTES};
ghost use Rattle.ty_intake.specs.Faults.{feed_fault, left_of};
ghost use Rattle.ty_intake.specs.Batches.{batches_of, batch_fits};
ghost use Rattle.ty_intake.specs.Held.{IntakeStands};
ghost use Rattle.ty_intake.specs.steps.Progress.{IsSoundProgress, IsFrontRead, IsPieceFed, IsFinished, fault_or_too_much, progress_of};
ghost use Rattle.ty_intake.specs.declared.intake.IntakeFault.{IntakeFault as Fault};

use crate::batch::{Batches, Items};
use crate::pieces::{read_end, read_piece};
use crate::progress::Progress;
use std::alloc::Global;
use std::marker::Model;
use std::mem;
use ty_base::{INPUT_BYTES, NoMemory};

/// Why no more batches come of a feed. Lines are counted from 1.
#[derive(Clone, Copy, Debug, PartialEq, Eq)]
pub enum IntakeFault {
    /// The line has more than `LINE_BYTES` bytes.
    LongLine { line: u64 },
    /// The line isn't UTF-8.
    BadUtf8 { line: u64 },
    /// The line is neither an update nor a status nor blank.
    BadLine { line: u64 },
    /// Byte number `INPUT_BYTES` came.
    TooMuch,
}

/// What a piece closed.
#[derive(Drop)]
pub struct Fed {
    /// The batches that the piece closed, in order.
    pub closed: Batches,
    /// Why no more will follow, if that is known.
    pub fault: Option<IntakeFault>,
}

/// Reads a feed in any pieces. It keeps the unfinished line and the items since the last closing, and no others.
#[derive(Drop)]
pub struct Intake {
    rest: Vec<u8>,
    lines: u64,
    seen: u64,
    pending: Items,
    cut: u64,
    fault: Option<IntakeFault>,
    ended: bool,
    spent: bool,
}

impl Model for Intake {
    ghost use Rattle.std.specs.Prelude.{◌≡◌, ◌≤◌, ◌<◌, ◌+◌, length, true};
    ghost use Rattle.std.specs.List.{list_all};
    ghost use Rattle.ty_base.specs.Limits.{is_small};
    ghost use Rattle.ty_base.specs.declared.limits.TheConstants.{INPUT_BYTES, BATCH_UPDATES};
    ghost use Rattle.ty_intake.specs.Held.{IntakeHeld};

    ghost Value = { IntakeHeld };

    ghost view = { λ s. record {
      rest = s.rest.items;
      lines = s.lines;
      seen = s.seen;
      pending = s.pending;
      cut = s.cut;
      fault = s.fault;
      ended = s.ended;
      spent = s.spent;
    } };

    ghost invariant = { λ s. (s.seen < INPUT_BYTES) × (s.lines ≤ s.seen) × (length s.pending < BATCH_UPDATES)
        × (s.cut + length s.pending ≤ s.lines) × (list_all is_small s.pending ≡ true) };
}

impl Intake {
    /// The feed has no bytes so far.
    pub fn new(alloc: Global) -> Intake
        ensures { IntakeStands result no_feed }
    {
        Intake {
            rest: Vec::new(alloc),
            lines: 0,
            seen: 0,
            pending: Items::new(alloc),
            cut: 0,
            fault: None,
            ended: false,
            spent: false,
        }
    }

    /// Takes the next piece of the feed, and gives the batches that it closes and the first fault of all bytes so
    /// far. After a fault each call gives that fault and no batch, and after the end nothing more is given. After
    /// want of memory each call answers want of memory.
    pub fn feed(&mut self, alloc: Global, piece: &[u8]) -> Result<Fed, NoMemory>
        ensures stands { IfOk result (λ fed. (feed : Feed) → IntakeStands self.old feed
            → IntakeStands self.new (fed_with feed piece.now)) }
        ensures closed { IfOk result (λ fed. (feed : Feed) → IntakeStands self.old feed
            → batches_of (fed_with feed piece.now) ≡ batches_of feed ++ fed.closed) }
        ensures fault { IfOk result (λ fed. (feed : Feed) → IntakeStands self.old feed
            → fed.fault ≡ feed_fault (fed_with feed piece.now)) }
        ensures fits { IfOk result (λ fed. list_all batch_fits fed.closed ≡ true) }
        ensures stays { IfOk result (λ fed. (f : Fault) → self.old.fault ≡ Some f
            → (fed.fault ≡ Some f) × (fed.closed ≡ [])) }
        ensures short { OnErr result (self.new.spent ≡ true) }
        ensures spent { self.old.spent ≡ true → OnOk result ⊥ }
    {
        if self.spent {
            return Err(NoMemory);
        }
        if self.ended || self.fault.is_some() {
            return Ok(self.nothing(alloc));
        }
        match self.read_within_limit(alloc, piece) {
            Ok(closed) => Ok(Fed {
                closed,
                fault: self.fault,
            }),
            Err(e) => {
                self.spent = true;
                Err(e)
            }
        }
    }

    /// The feed has ended: gives the batches that its last line and its end close, and the first fault. Where it has
    /// ended before, it gives no batch.
    pub fn end(&mut self, alloc: Global) -> Result<Fed, NoMemory>
        ensures stands { IfOk result (λ fed. (feed : Feed) → IntakeStands self.old feed
            → IntakeStands self.new (ended_now feed)) }
        ensures closed { IfOk result (λ fed. (feed : Feed) → IntakeStands self.old feed
            → batches_of (ended_now feed) ≡ batches_of feed ++ fed.closed) }
        ensures fault { IfOk result (λ fed. (feed : Feed) → IntakeStands self.old feed
            → fed.fault ≡ feed_fault (ended_now feed)) }
        ensures fits { IfOk result (λ fed. list_all batch_fits fed.closed ≡ true) }
        ensures stays { IfOk result (λ fed. (f : Fault) → self.old.fault ≡ Some f
            → (fed.fault ≡ Some f) × (fed.closed ≡ [])) }
        ensures short { OnErr result (self.new.spent ≡ true) }
        ensures spent { self.old.spent ≡ true → OnOk result ⊥ }
    {
        if self.spent {
            return Err(NoMemory);
        }
        if self.ended || self.fault.is_some() {
            self.ended = true;
            return Ok(self.nothing(alloc));
        }
        match self.finish(alloc) {
            Ok(closed) => Ok(Fed {
                closed,
                fault: self.fault,
            }),
            Err(e) => {
                self.spent = true;
                Err(e)
            }
        }
    }

    /// How many bytes the unfinished line has so far, at most `LINE_BYTES`; none after a fault or the end.
    pub fn left(&self) -> u64
        ensures value { (feed : Feed) → IntakeStands self.now feed → result ≡ left_of feed }
        ensures within { (feed : Feed) → IntakeStands self.now feed → result ≤ LINE_BYTES }
        ensures stopped { (f : Fault) → self.now.fault ≡ Some f → result ≡ 0 }
    {
        if self.ended {
            return 0;
        }
        if self.fault.is_some() {
            return 0;
        }
        self.rest.len() as u64
    }

    // No batch, and the fault.
    fn nothing(&self, alloc: Global) -> Fed
        ensures closed { result.closed ≡ [] }
        ensures fault { result.fault ≡ self.now.fault }
    {
        Fed {
            closed: Batches::new(alloc),
            fault: self.fault,
        }
    }

    // The piece up to the limit of bytes, and whether there is more.
    fn read_within_limit(&mut self, alloc: Global, piece: &[u8]) -> Result<Batches, NoMemory>
        requires open { self.old.ended ≡ false }
        requires good { self.old.fault ≡ None }
        ensures { IfOk result (λ closed. IsPieceFed self.old self.new piece.now closed) }
    {
        let room = INPUT_BYTES - 1 - self.seen as usize;
        let (front, back) = piece.split_at(piece.len().min(room));
        let closed = self.read_front(alloc, front)?;
        self.fault = ended(self.fault, !back.is_empty());
        Ok(closed)
    }

    // Bytes that are within the limit.
    fn read_front(&mut self, alloc: Global, front: &[u8]) -> Result<Batches, NoMemory>
        requires { self.old.seen + length front.now < INPUT_BYTES }
        ensures { IfOk result (λ closed. IsFrontRead self.old self.new front.now closed) }
    {
        let mut progress = self.progress(alloc);
        let fault = read_piece(alloc, &mut self.rest, &mut progress, front)?;
        let Progress {
            lines,
            pending,
            cut,
            closed,
        } = progress;
        self.lines = lines;
        self.pending = pending;
        self.cut = cut;
        self.seen += front.len() as u64;
        self.fault = fault;
        Ok(closed)
    }

    // The end, which ends the unfinished line and closes what is pending.
    fn finish(&mut self, alloc: Global) -> Result<Batches, NoMemory>
        requires open { self.old.ended ≡ false }
        requires good { self.old.fault ≡ None }
        ensures { IfOk result (λ closed. IsFinished self.old self.new closed) }
    {
        let mut progress = self.progress(alloc);
        self.fault = read_end(alloc, &self.rest, &mut progress)?;
        self.ended = true;
        self.rest = Vec::new(alloc);
        Ok(progress.closed)
    }

    // What is read so far, with no batch. What is pending is moved there.
    fn progress(&mut self, alloc: Global) -> Progress
        ensures progress { result ≡ progress_of self.old [] }
        ensures sound { IsSoundProgress result }
        ensures rest { self.new ≡ record self.old { pending = [] } }
    {
        Progress {
            lines: self.lines,
            pending: mem::replace(&mut self.pending, Items::new(alloc)),
            cut: self.cut,
            closed: Batches::new(alloc),
        }
    }
}

// The fault, where there is more than can be read.
fn ended(fault: Option<IntakeFault>, over: bool) -> Option<IntakeFault>
    ensures { result ≡ fault_or_too_much over fault }
{
    match fault {
        None if over => Some(IntakeFault::TooMuch),
        fault => fault,
    }
}
