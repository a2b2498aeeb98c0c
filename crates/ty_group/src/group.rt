// An open group of deltas.
ghost use Rattle.std.specs.Prelude.{true, ◌≡◌, ◌++◌, [], length, OnOk, OnErr};
ghost use Rattle.std.specs.List.{AllByRecursion};
ghost use Rattle.ty_base.specs.Limits.{deltas_fit};
ghost use Rattle.ty_wire.specs.Wire.{IsWire, frames};
ghost use Rattle.ty_wire.specs.Talk.{group_messages as group};

use crate::encoded::{Encoded, write_encoded};
use std::alloc::Global;
use std::marker::Model;
use ty_base::{Deltas, NoMemory, Status};

/// The deltas of a group that isn't closed, as bytes: those of a breadcrumb come by one copy of its
/// text and one of its marks. Contracts see it as the list of the deltas.
#[derive(Drop)]
pub struct Group {
    deltas: Encoded,
}

impl Model for Group {
    ghost use Rattle.std.specs.Prelude.{List};
    ghost use Rattle.ty_base.specs.declared.delta.Delta.{Delta};

    ghost Value = { List Delta };

    ghost view = { λ g. g.deltas };
}

impl Group {
    /// No deltas. It takes no memory.
    pub fn new(alloc: Global) -> Group
        ensures { result ≡ [] }
    {
        Group {
            deltas: Encoded::empty(alloc),
        }
    }

    /// How many deltas there are.
    pub fn len(&self) -> usize
        ensures { result ≡ length self.now }
    {
        self.deltas.len()
    }

    /// Appends a breadcrumb's deltas, which are encoded here. Want of memory leaves the group as it
    /// was.
    pub fn push(&mut self, alloc: Global, deltas: &Deltas) -> Result<(), NoMemory>
        requires { deltas_fit deltas.now ≡ true }
        ensures ok { OnOk result (self.new ≡ self.old ++ deltas.now) }
        ensures err { OnErr result (self.new ≡ self.old) }
    {
        let encoded = Encoded::of(alloc, deltas)?;
        self.deltas.append(&encoded)
    }

    /// Appends a breadcrumb's deltas, which are encoded already. Want of memory leaves the group as
    /// it was.
    pub fn push_encoded(&mut self, _alloc: Global, encoded: &Encoded) -> Result<(), NoMemory>
        ensures ok { OnOk result (self.new ≡ self.old ++ encoded.now) }
        ensures err { OnErr result (self.new ≡ self.old) }
    {
        self.deltas.append(encoded)
    }

    /// Appends the group's frames to `out`, the KVs messages into which its deltas are cut, the
    /// status if it is given, and the crumb end. It empties the group and gives back its memory.
    /// Want of memory leaves both as they were.
    pub fn close(
        &mut self,
        alloc: Global,
        status: Option<Status>,
        n: u64,
        out: &mut Vec<u8>,
    ) -> Result<(), NoMemory>
        ensures ok { OnOk result (out.new.items
            ≡ out.old.items ++ frames (group self.old status n)) }
        ensures wire { OnOk result (AllByRecursion IsWire (group self.old status n)) }
        ensures empty { OnOk result (self.new ≡ []) }
        ensures err { OnErr result (out.new.items ≡ out.old.items) }
        ensures kept { OnErr result (self.new ≡ self.old) }
    {
        write_encoded(alloc, &self.deltas, status, n, out)?;
        self.deltas = Encoded::empty(alloc);
        Ok(())
    }
}
