// A breadcrumb's deltas as bytes.
ghost use Rattle.std.specs.Prelude.{true, ◌≡◌, ◌++◌, ◌∷◌, [], length, IfOk, OnOk, OnErr};
ghost use Rattle.std.specs.List.{AllByRecursion};
ghost use Rattle.ty_base.specs.Limits.{key_fits, value_fits, deltas_fit};
ghost use Rattle.ty_base.specs.Passing.{delta_passes};
ghost use Rattle.ty_wire.specs.Wire.{IsWire, new_pair, frames};
ghost use Rattle.ty_wire.specs.Talk.{kvs_messages, group_messages as group};
ghost use Rattle.ty_group.specs.Written.{Keeps};

use crate::delta::{append_piece, weight_of, weight_of_pair};
use crate::mark::Mark;
use crate::messages::append_messages;
use std::alloc::Global;
use std::marker::Model;
use ty_base::{Deltas, NoMemory, Status, Text};
use ty_wire::{append_new, write_group};

/// Deltas as they stand in KVs messages, made once and shared by all sessions: their texts in one
/// buffer, a comma behind each, and for each delta the bytes of its text and its weight, the bytes
/// of its key and value. Contracts see it as the list of the deltas.
#[derive(Drop)]
pub struct Encoded {
    text: Vec<u8>,
    marks: Vec<Mark>,
}

impl Model for Encoded {
    ghost use Rattle.std.specs.Prelude.{List};
    ghost use Rattle.ty_base.specs.declared.delta.Delta.{Delta};
    ghost use Rattle.ty_group.specs.steps.Pieces.{told_in, AreEncoded};

    ghost Value = { List Delta };

    ghost view = { λ e. told_in e.text.items e.marks.items };

    ghost invariant = { λ e. AreEncoded e.text.items e.marks.items };
}

impl Encoded {
    /// The deltas of a breadcrumb, in order, each encoded once.
    pub fn of(alloc: Global, deltas: &Deltas) -> Result<Encoded, NoMemory>
        requires { deltas_fit deltas.now ≡ true }
        ensures { IfOk result (λ e. e ≡ deltas.now) }
    {
        let mut text = Vec::new(alloc);
        let mut marks = Vec::new(alloc);
        for delta in deltas.as_slice() {
            let before = text.len();
            text = append_piece(text, delta)?;
            marks.push(Mark {
                len: text.len() - before,
                weight: weight_of(delta),
            })?;
        }
        Ok(Encoded { text, marks })
    }

    /// How many deltas there are.
    pub fn len(&self) -> usize
        ensures { result ≡ length self.now }
    {
        self.marks.len()
    }

    // No deltas.
    pub(crate) fn empty(alloc: Global) -> Encoded
        ensures { result ≡ [] }
    {
        Encoded {
            text: Vec::new(alloc),
            marks: Vec::new(alloc),
        }
    }

    // Appends others. Want of memory leaves what was there.
    pub(crate) fn append(&mut self, others: &Encoded) -> Result<(), NoMemory>
        ensures ok { OnOk result (self.new ≡ self.old ++ others.now) }
        ensures err { OnErr result (self.new ≡ self.old) }
    {
        self.text.reserve(others.text.len())?;
        self.marks.reserve(others.marks.len())?;
        self.text.extend_from_slice(&others.text).unwrap();
        self.marks.extend_from_slice(&others.marks).unwrap();
        Ok(())
    }

    // Appends a pair as a delta that is new. Want of memory leaves what was there.
    pub(crate) fn push_new(&mut self, key: &Text, value: &Text) -> Result<(), NoMemory>
        requires { delta_passes key_fits value_fits (new_pair key.now value.now) ≡ true }
        ensures ok { OnOk result (self.new ≡ self.old ++ new_pair key.now value.now ∷ []) }
        ensures err { OnErr result (self.new ≡ self.old) }
    {
        self.marks.reserve(1)?;
        let before = self.text.len();
        append_new(key, value, &mut self.text)?;
        let mark = Mark {
            len: self.text.len() - before,
            weight: weight_of_pair(key, value),
        };
        self.marks.push(mark).unwrap();
        Ok(())
    }

    // Takes all away, and keeps the memory.
    pub(crate) fn clear(&mut self)
        ensures { self.new ≡ [] }
    {
        self.text.clear();
        self.marks.clear();
    }

    // Appends the frames of the KVs messages into which the deltas are cut.
    pub(crate) fn append_to(&self, out: &mut Vec<u8>) -> Result<(), NoMemory>
        ensures ok { OnOk result (out.new.items ≡ out.old.items ++ frames (kvs_messages self.now)) }
        ensures err { OnErr result (Keeps out.old.items out.new.items) }
    {
        append_messages(&self.text, &self.marks, out)
    }
}

/// Appends the frames of the group of these deltas: the KVs messages into which they are cut, the
/// status if it is given, and the crumb end. Want of memory leaves what was there.
pub fn write_encoded(
    alloc: Global,
    encoded: &Encoded,
    status: Option<Status>,
    n: u64,
    out: &mut Vec<u8>,
) -> Result<(), NoMemory>
    ensures ok { OnOk result (out.new.items
        ≡ out.old.items ++ frames (group encoded.now status n)) }
    ensures wire { OnOk result (AllByRecursion IsWire (group encoded.now status n)) }
    ensures err { OnErr result (out.new.items ≡ out.old.items) }
{
    let len = out.len();
    match append_group(alloc, encoded, status, n, out) {
        Ok(()) => Ok(()),
        Err(e) => {
            out.truncate(len);
            Err(e)
        }
    }
}

fn append_group(
    alloc: Global,
    encoded: &Encoded,
    status: Option<Status>,
    n: u64,
    out: &mut Vec<u8>,
) -> Result<(), NoMemory>
    ensures ok { OnOk result (out.new.items
        ≡ out.old.items ++ frames (group encoded.now status n)) }
    ensures wire { OnOk result (AllByRecursion IsWire (group encoded.now status n)) }
    ensures err { OnErr result (Keeps out.old.items out.new.items) }
{
    append_messages(&encoded.text, &encoded.marks, out)?;
    write_group(alloc, &Deltas::new(alloc), status, n, out)
}
