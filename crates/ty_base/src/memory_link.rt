// A link in memory, with a list of the calls that fail.
ghost use Rattle.std.specs.Prelude.{◌≡◌, ◌≤◌, ◌<◌, ◌-◌, ◌↔◌, min, [], false, ℕ, length, Some, IfOk, IsErr, OnErr};
ghost use Rattle.std.specs.Io.{ReadsAtMost};
ghost use Rattle.ty_base.specs.Causes.{HasCause};
ghost use Rattle.ty_base.specs.Memory.{next_call};
ghost use Rattle.ty_base.specs.Links.{Takes, FitsIn, IsGiven};
ghost use Rattle.ty_base.specs.MemoryLinks.{TakeFails, GiveFails, coming_of, next_took, faults_after};
ghost use Rattle.ty_base.specs.Told.{IsSame};
ghost use Rattle.ty_base.specs.steps.Places.{is_real};

use crate::link::{Link, Took};
use crate::outside::Failed;
use crate::piece::Piece;
use crate::text::NoMemory;
use std::alloc::Global;
use std::marker::Model;

/// A link that brings given pieces and has room for so many bytes, some of whose calls fail. A take
/// gives bytes of one piece alone.
#[derive(Drop)]
pub struct MemLink {
    pieces: Vec<Piece>,
    // The piece from which the next take gives, and how many of its bytes were taken.
    next: usize,
    at: usize,
    ended: bool,
    given: Vec<u8>,
    room: usize,
    fails: Vec<u64>,
    calls: u64,
    faults: u64,
}

impl Model for MemLink {
    ghost use Rattle.std.specs.Prelude.{◌≡◌, ◌≤◌, true, drop, vec_capacity};
    ghost use Rattle.ty_base.specs.MemoryLinks.{MemoryLink};
    ghost use Rattle.ty_base.specs.steps.Places.{brought_at, coming_from, has_left};

    ghost Value = { MemoryLink };

    ghost view = { λ s. record {
      sight = record {
        given = s.given.items;
        brought = brought_at s.pieces.items s.next s.at;
        coming = coming_from s.at (drop s.next s.pieces.items);
        ended = s.ended;
      };
      room = s.room;
      calls = s.calls;
      fails = s.fails.items;
      faults = s.faults;
    } };

    ghost invariant = { λ s. (s.room ≤ vec_capacity s.given)
        × (has_left s.at (drop s.next s.pieces.items) ≡ true) };
}

// Whether a piece isn't dropped at the making.
fn is_kept(piece: &Piece) -> bool
    ensures { result ≡ is_real piece.now }
{
    match piece {
        Piece::Bytes(bytes) => !bytes.is_empty(),
        _ => true,
    }
}

impl MemLink {
    /// A link that will bring these pieces, of which those without bytes are dropped, and has taken the
    /// memory for `room` bytes. `fails` lists the numbers, from 1, of the calls that fail, takes and
    /// gives counted together.
    pub fn new(
        alloc: Global,
        coming: Vec<Piece>,
        room: usize,
        fails: Vec<u64>,
    ) -> Result<MemLink, NoMemory>
        ensures coming { IfOk result (λ s. s.sight.coming ≡ coming_of coming.items) }
        ensures sight { IfOk result (λ s.
            (s.sight.given ≡ []) × (s.sight.brought ≡ []) × (s.sight.ended ≡ false)) }
        ensures room { IfOk result (λ s. s.room ≡ room) }
        ensures fails { IfOk result (λ s. s.fails ≡ fails.items) }
        ensures begins { IfOk result (λ s. (s.calls ≡ 0) × (s.faults ≡ 0)) }
    {
        let mut pieces = coming;
        pieces.retain(is_kept);
        Ok(MemLink {
            pieces,
            next: 0,
            at: 0,
            ended: false,
            given: Vec::with_capacity(alloc, room)?,
            room,
            fails,
            calls: 0,
            faults: 0,
        })
    }

    /// The bytes that it was given.
    pub fn given(&self) -> &[u8]
        ensures { result.now ≡ self.now.sight.given }
    {
        &self.given
    }
}

impl Link for MemLink {
    ghost sight = { λ s. Some s.sight };

    ghost count = { λ s. s.faults };

    fn take(&mut self, buf: &mut [u8]) -> Result<Took, Failed>
        requires { 0 < length buf.old }
        ensures bound { IfOk result (λ t. FitsIn (length buf.new) t) }
        ensures taken { IfOk result (λ t. Takes t buf.new self.old.sight self.new.sight) }
        ensures kept { OnErr result (IsSame self.old.sight self.new.sight) }
        ensures cause { HasCause self.old.faults self.new.faults result }
        ensures fails { IsErr result ↔ TakeFails self.old }
        ensures piece { IfOk result (λ t. t ≡ next_took self.old.sight.coming (length buf.old)) }
        ensures calls { self.new.calls ≡ next_call self.old.calls }
        ensures faults { self.new.faults ≡ faults_after result self.old.faults }
        ensures stays { (self.new.fails ≡ self.old.fails) × (self.new.room ≡ self.old.room) }
    {
        self.calls = self.calls.saturating_add(1);
        if self.fails.contains(&self.calls) {
            self.faults = self.faults.saturating_add(1);
            return Err(Failed);
        }
        match self.pieces.get(self.next) {
            None | Some(Piece::End) => {
                self.ended = true;
                Ok(Took::End)
            }
            Some(Piece::Quiet) => {
                self.next += 1;
                self.at = 0;
                Ok(Took::Quiet)
            }
            Some(Piece::Bytes(bytes)) => {
                let rest = &bytes[self.at..];
                let len = rest.len().min(buf.len());
                buf[..len].copy_from_slice(&rest[..len]);
                if len == rest.len() {
                    self.next += 1;
                    self.at = 0;
                } else {
                    self.at += len;
                }
                Ok(Took::Bytes(len))
            }
        }
    }

    fn give(&mut self, piece: &[u8]) -> Result<usize, Failed>
        requires { 0 < length piece.now }
        ensures some { IfOk result (λ n. 0 < n) }
        ensures bound { ReadsAtMost result piece.now }
        ensures given { IfOk result (λ n. IsGiven n piece.now self.old.sight self.new.sight) }
        ensures kept { OnErr result (IsSame self.old.sight self.new.sight) }
        ensures cause { HasCause self.old.faults self.new.faults result }
        ensures fails { IsErr result ↔ GiveFails self.old }
        ensures fits { IfOk result (λ n.
            n ≡ min (length piece.now) (self.old.room - length self.old.sight.given)) }
        ensures calls { self.new.calls ≡ next_call self.old.calls }
        ensures faults { self.new.faults ≡ faults_after result self.old.faults }
        ensures stays { (self.new.fails ≡ self.old.fails) × (self.new.room ≡ self.old.room) }
    {
        self.calls = self.calls.saturating_add(1);
        let free = self.room.saturating_sub(self.given.len());
        let len = piece.len().min(free);
        if len == 0 {
            self.faults = self.faults.saturating_add(1);
            return Err(Failed);
        }
        if self.fails.contains(&self.calls) {
            self.faults = self.faults.saturating_add(1);
            return Err(Failed);
        }
        self.given.extend_from_slice(&piece[..len]).unwrap();
        Ok(len)
    }

    fn faults(&self) -> u64 {
        self.faults
    }
}
