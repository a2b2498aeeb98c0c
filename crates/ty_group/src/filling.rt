// A message that is being filled.
ghost use Rattle.std.specs.Prelude.{◌≡◌, ◌++◌, ◌∷◌, [], List, false, true, OnOk, OnErr};
ghost use Rattle.ty_base.specs.Passing.{delta_passes};
ghost use Rattle.ty_base.specs.Limits.{key_fits, value_fits};
ghost use Rattle.ty_base.specs.declared.delta.Delta.{Delta as Change};
ghost use Rattle.ty_wire.specs.Wire.{new_pair, frames};
ghost use Rattle.ty_wire.specs.Talk.{kvs_messages};
ghost use Rattle.ty_group.specs.Written.{IsWritten, Keeps};
ghost use Rattle.ty_group.specs.steps.Filled.{has_place};

use crate::delta::weight_of_pair;
use crate::encoded::Encoded;
use crate::messages::is_taken;
use std::alloc::Global;
use std::marker::Model;
use ty_base::{NoMemory, Text};

/// A KVs message that is being filled with pairs, one after another, each as a delta that is new.
/// A pair is encoded where it is taken, so it isn't copied. Where the message takes no more it is
/// written, and the next one is begun in the same memory: so no list of all deltas is needed.
/// Contracts see the deltas that aren't written yet.
#[derive(Drop)]
pub struct Filling {
    encoded: Encoded,
    // The bytes of their keys and values.
    weight: usize,
}

impl Model for Filling {
    ghost use Rattle.std.specs.Prelude.{List};
    ghost use Rattle.ty_base.specs.declared.delta.Delta.{Delta};
    ghost use Rattle.ty_group.specs.steps.Filled.{IsFilled};

    ghost Value = { List Delta };

    ghost view = { λ f. f.encoded };

    ghost invariant = { λ f. IsFilled f.encoded f.weight };
}

impl Filling {
    /// No deltas. It takes no memory.
    pub fn new(alloc: Global) -> Filling
        ensures { result ≡ [] }
    {
        Filling {
            encoded: Encoded::empty(alloc),
            weight: 0,
        }
    }

    /// Takes the next pair. Before that the message is written behind `out` where it has no place
    /// for it. Whatever comes behind, what is written then are the first of the messages into which
    /// all deltas are cut. What `out` had it has still. After want of memory some deltas may be
    /// lost.
    pub fn push(&mut self, key: &Text, value: &Text, out: &mut Vec<u8>) -> Result<(), NoMemory>
        requires { delta_passes key_fits value_fits (new_pair key.now value.now) ≡ true }
        ensures ok { OnOk result ((rest : List Change)
            → IsWritten (self.old ++ new_pair key.now value.now ∷ rest) (self.new ++ rest) out.old.items out.new.items) }
        ensures kept { Keeps out.old.items out.new.items }
    {
        self.make_place(key, value, out)?;
        self.add(key, value)?;
        Ok(())
    }

    /// Writes the message behind `out`, unless it is empty.
    pub fn close(self, out: &mut Vec<u8>) -> Result<(), NoMemory>
        ensures ok { OnOk result (out.new.items ≡ out.old.items ++ frames (kvs_messages self)) }
        ensures err { OnErr result (out.new.items ≡ out.old.items) }
    {
        let len = out.len();
        match self.encoded.append_to(out) {
            Ok(()) => Ok(()),
            Err(e) => {
                out.truncate(len);
                Err(e)
            }
        }
    }

    // Writes the message where it has no place for the pair.
    fn make_place(&mut self, key: &Text, value: &Text, out: &mut Vec<u8>) -> Result<(), NoMemory>
        ensures place { OnOk result (has_place self.new (new_pair key.now value.now) ≡ true) }
        ensures ok { OnOk result ((rest : List Change)
            → IsWritten (self.old ++ new_pair key.now value.now ∷ rest) (self.new ++ new_pair key.now value.now ∷ rest) out.old.items out.new.items) }
        ensures kept { Keeps out.old.items out.new.items }
    {
        if self.has_place(key, value) {
            return Ok(());
        }
        self.send(out)?;
        Ok(())
    }

    fn has_place(&self, key: &Text, value: &Text) -> bool
        ensures { result ≡ has_place self.now (new_pair key.now value.now) }
    {
        self.encoded.len() == 0
            || is_taken(self.encoded.len(), self.weight, weight_of_pair(key, value))
    }

    fn add(&mut self, key: &Text, value: &Text) -> Result<(), NoMemory>
        requires fits { delta_passes key_fits value_fits (new_pair key.now value.now) ≡ true }
        requires place { has_place self.old (new_pair key.now value.now) ≡ true }
        ensures ok { OnOk result (self.new ≡ self.old ++ new_pair key.now value.now ∷ []) }
    {
        self.encoded.push_new(key, value)?;
        self.weight += weight_of_pair(key, value);
        Ok(())
    }

    // Writes the message, and begins the next one.
    fn send(&mut self, out: &mut Vec<u8>) -> Result<(), NoMemory>
        ensures ok { OnOk result (out.new.items ≡ out.old.items ++ frames (kvs_messages self.old)) }
        ensures begins { OnOk result ((d : Change) (rest : List Change) → has_place self.old d ≡ false
            → IsWritten (self.old ++ d ∷ rest) (d ∷ rest) out.old.items out.new.items) }
        ensures empty { self.new ≡ [] }
        ensures err { OnErr result (Keeps out.old.items out.new.items) }
    {
        let written = self.encoded.append_to(out);
        self.encoded.clear();
        self.weight = 0;
        written
    }
}
