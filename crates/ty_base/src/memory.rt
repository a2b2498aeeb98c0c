// A source and a sink in memory, each with a list of the calls that fail.
ghost use Rattle.std.specs.Prelude.{◌≡◌, ◌≤◌, ◌<◌, ◌+◌, ◌-◌, ◌↔◌, min, [], List, ℕ, length, flat_map, map, Some, IfOk, IsErr};
ghost use Rattle.std.specs.Io.{ReadsAtMost};
ghost use Rattle.std.specs.Io.KnownBytes.{ReadConsumes, WriteAppends};
ghost use Rattle.ty_base.specs.Causes.{HasCause};
ghost use Rattle.ty_base.specs.Memory.{SourceFails, SinkFails, next_call, end_of, ends_after, piece_left};

use crate::outside::{Failed, Sink, Source};
use crate::text::NoMemory;
use std::alloc::Global;
use std::marker::Model;

/// A source of given pieces, some of whose calls fail. A take gives bytes of one piece alone.
#[derive(Drop)]
pub struct MemSource {
    bytes: Vec<u8>,
    // Where each piece ends.
    ends: Vec<usize>,
    at: usize,
    fails: Vec<u64>,
    calls: u64,
    faults: u64,
}

impl Model for MemSource {
    ghost use Rattle.std.specs.Prelude.{◌≤◌, drop, length};
    ghost use Rattle.ty_base.specs.Memory.{MemorySource};

    ghost Value = { MemorySource };

    ghost view = { λ s. record { left = drop s.at s.bytes.items; at = s.at; ends = s.ends.items; calls = s.calls; fails = s.fails.items; faults = s.faults } };

    ghost invariant = { λ s. s.at ≤ length s.bytes.items };
}

impl MemSource {
    /// A source of these pieces, of which those without bytes are dropped. `fails` lists the numbers,
    /// from 1, of the calls that fail.
    pub fn new(alloc: Global, pieces: Vec<Vec<u8>>, fails: Vec<u64>) -> Result<MemSource, NoMemory>
        ensures left { IfOk result (λ s. s.left ≡ flat_map (λ p. p.items) pieces.items) }
        ensures fails { IfOk result (λ s. s.fails ≡ fails.items) }
        ensures ends { IfOk result (λ s. s.ends ≡ ends_after 0 (map (λ p. p.items) pieces.items)) }
        ensures begins { IfOk result (λ s. (s.at ≡ 0) × (s.calls ≡ 0) × (s.faults ≡ 0)) }
    {
        let mut bytes = Vec::new(alloc);
        let mut ends = Vec::new(alloc);
        for piece in &pieces {
            bytes.extend_from_slice(piece)?;
            ends.push(bytes.as_slice().len())?;
        }
        Ok(MemSource {
            bytes,
            ends,
            at: 0,
            fails,
            calls: 0,
            faults: 0,
        })
    }
}

// Where the piece ends in which a place lies.
fn piece_end(ends: &[usize], at: usize, len: usize) -> usize
    requires { at ≤ len }
    ensures exact { result ≡ end_of ends.now at len }
    ensures bounds { (at ≤ result) × (result ≤ len) }
    ensures some { at < len → at < result }
{
    for end in ends {
        if at < *end {
            return len.min(*end);
        }
    }
    len
}

impl Source for MemSource {
    ghost seen = { λ s. record { left = Some s.left; faults = s.faults } };

    fn take(&mut self, buf: &mut [u8]) -> Result<usize, Failed>
        requires { 0 < length buf.old }
        ensures bound { ReadsAtMost result buf.new }
        ensures bytes { ReadConsumes (Some self.old.left) (Some self.new.left) result buf.new }
        ensures cause { HasCause self.old.faults self.new.faults result }
        ensures fails { IsErr result ↔ SourceFails self.old }
        ensures piece { IfOk result (λ n. n ≡ piece_left self.old (length buf.old)) }
        ensures calls { self.new.calls ≡ next_call self.old.calls }
        ensures stays { (self.new.fails ≡ self.old.fails) × (self.new.ends ≡ self.old.ends) }
    {
        self.calls = self.calls.saturating_add(1);
        if self.fails.contains(&self.calls) {
            self.faults = self.faults.saturating_add(1);
            return Err(Failed);
        }
        let end = piece_end(&self.ends, self.at, self.bytes.len());
        let rest = &self.bytes[self.at..end];
        let len = rest.len().min(buf.len());
        buf[..len].copy_from_slice(&rest[..len]);
        self.at += len;
        Ok(len)
    }

    fn faults(&self) -> u64 {
        self.faults
    }
}

/// A sink with room for so many bytes, some of whose calls fail.
#[derive(Drop)]
pub struct MemSink {
    bytes: Vec<u8>,
    room: usize,
    fails: Vec<u64>,
    calls: u64,
    faults: u64,
}

impl Model for MemSink {
    ghost use Rattle.std.specs.Prelude.{◌≤◌, vec_capacity};
    ghost use Rattle.ty_base.specs.Memory.{MemorySink};

    ghost Value = { MemorySink };

    ghost view = { λ s. record { held = s.bytes.items; room = s.room; calls = s.calls; fails = s.fails.items; faults = s.faults } };

    ghost invariant = { λ s. s.room ≤ vec_capacity s.bytes };
}

impl MemSink {
    /// A sink that holds nothing, and has taken its memory. `fails` lists the numbers, from 1, of the
    /// calls that fail.
    pub fn new(alloc: Global, room: usize, fails: Vec<u64>) -> Result<MemSink, NoMemory>
        ensures held { IfOk result (λ s. s.held ≡ []) }
        ensures room { IfOk result (λ s. s.room ≡ room) }
        ensures fails { IfOk result (λ s. s.fails ≡ fails.items) }
        ensures begins { IfOk result (λ s. (s.calls ≡ 0) × (s.faults ≡ 0)) }
    {
        Ok(MemSink {
            bytes: Vec::with_capacity(alloc, room)?,
            room,
            fails,
            calls: 0,
            faults: 0,
        })
    }

    /// The bytes that it holds.
    pub fn given(&self) -> &[u8]
        ensures { result.now ≡ self.now.held }
    {
        &self.bytes
    }
}

impl Sink for MemSink {
    ghost seen = { λ s. record { held = Some s.held; faults = s.faults } };

    fn give(&mut self, piece: &[u8]) -> Result<usize, Failed>
        requires { 0 < length piece.now }
        ensures some { IfOk result (λ n. 0 < n) }
        ensures bound { ReadsAtMost result piece.now }
        ensures bytes { WriteAppends (Some self.old.held) (Some self.new.held) result piece.now }
        ensures cause { HasCause self.old.faults self.new.faults result }
        ensures fails { IsErr result ↔ SinkFails self.old }
        ensures fits { IfOk result (λ n. n ≡ min (length piece.now) (self.old.room - length self.old.held)) }
        ensures calls { self.new.calls ≡ next_call self.old.calls }
        ensures stays { (self.new.fails ≡ self.old.fails) × (self.new.room ≡ self.old.room) }
    {
        self.calls = self.calls.saturating_add(1);
        let free = self.room.saturating_sub(self.bytes.len());
        let len = piece.len().min(free);
        if len == 0 {
            self.faults = self.faults.saturating_add(1);
            return Err(Failed);
        }
        if self.fails.contains(&self.calls) {
            self.faults = self.faults.saturating_add(1);
            return Err(Failed);
        }
        self.bytes.extend_from_slice(&piece[..len]).unwrap();
        Ok(len)
    }

    fn faults(&self) -> u64 {
        self.faults
    }
}
