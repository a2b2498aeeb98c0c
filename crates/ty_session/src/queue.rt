// The bytes that are queued for a client.
ghost use Rattle.std.specs.Prelude.{true, ◌≡◌, ◌≤◌, ◌++◌, [], List, ℕ, length, drop, OnOk, OnErr};
ghost use Rattle.ty_base.specs.Limits.{deltas_fit};
ghost use Rattle.ty_wire.specs.Wire.{frame, frames};
ghost use Rattle.ty_wire.specs.Talk.{group_messages as group};
ghost use Rattle.ty_wire.specs.declared.message.Msg.TheVariants.{Ping};
ghost use Rattle.ty_crumb.specs.Crumbs.{world_of};
ghost use Rattle.ty_session.specs.Story.{snapshot_bytes};

use crate::opening::write_opening;
use std::alloc::Global;
use std::marker::Model;
use ty_base::{Deltas, NoMemory, PIECE_BYTES, Status};
use ty_crumb::Crumb;
use ty_group::{Encoded, Group, write_encoded};
use ty_wire::{Msg, short_messages_fit, write, write_group};

// Bytes that wait to be sent, the oldest first. The first `gone` of those that are kept were sent.
#[derive(Drop)]
pub(crate) struct Queue {
    alloc: Global,
    bytes: Vec<u8>,
    gone: usize,
}

impl Model for Queue {
    ghost use Rattle.std.specs.Prelude.{◌≤◌, List, ℕ, length, drop};

    ghost Value = { List ℕ };

    ghost view = { λ q. drop q.gone q.bytes.items };

    ghost invariant = { λ q. q.gone ≤ length q.bytes.items };
}

impl Queue {
    pub(crate) fn new(alloc: Global) -> Queue
        ensures { result ≡ [] }
    {
        Queue {
            alloc,
            bytes: Vec::new(alloc),
            gone: 0,
        }
    }

    pub(crate) fn as_slice(&self) -> &[u8]
        ensures { result.now ≡ self.now }
    {
        &self.bytes[self.gone..]
    }

    // Removes the first `n` bytes. Room is given up once three quarters of it or more are of no use,
    // so a byte is moved at most once for each three that are removed.
    pub(crate) fn remove(&mut self, n: usize)
        requires { n ≤ length self.old }
        ensures { self.new ≡ drop n self.old }
    {
        self.gone += n;
        compact(self.alloc, &mut self.bytes, &mut self.gone);
    }

    // The frame of a ping.
    pub(crate) fn push_ping(&mut self, alloc: Global, ts: u64) -> Result<(), NoMemory>
        ensures ok { OnOk result (self.new ≡ self.old ++ frame (Ping ts)) }
        ensures err { OnErr result (self.new ≡ self.old) }
    {
        short_messages_fit();
        write(alloc, &Msg::Ping { ts }, &mut self.bytes)
    }

    // The frames of a group.
    pub(crate) fn push_group(
        &mut self,
        alloc: Global,
        deltas: &Deltas,
        status: Option<Status>,
        n: u64,
    ) -> Result<(), NoMemory>
        requires { deltas_fit deltas.now ≡ true }
        ensures ok { OnOk result (self.new ≡ self.old ++ frames (group deltas.now status n)) }
        ensures err { OnErr result (self.new ≡ self.old) }
    {
        write_group(alloc, deltas, status, n, &mut self.bytes)
    }

    // The frames of a group whose deltas are encoded.
    pub(crate) fn push_encoded(
        &mut self,
        alloc: Global,
        encoded: &Encoded,
        status: Option<Status>,
        n: u64,
    ) -> Result<(), NoMemory>
        ensures ok { OnOk result (self.new ≡ self.old ++ frames (group encoded.now status n)) }
        ensures err { OnErr result (self.new ≡ self.old) }
    {
        write_encoded(alloc, encoded, status, n, &mut self.bytes)
    }

    // The frames of the group that is held, which is empty then.
    pub(crate) fn push_held(
        &mut self,
        alloc: Global,
        held: &mut Group,
        status: Option<Status>,
        n: u64,
    ) -> Result<(), NoMemory>
        ensures ok { OnOk result (self.new ≡ self.old ++ frames (group held.old status n)) }
        ensures empty { OnOk result (held.new ≡ []) }
        ensures err { OnErr result (self.new ≡ self.old) }
    {
        held.close(alloc, status, n, &mut self.bytes)
    }

    // The server's hello and a breadcrumb's snapshot.
    pub(crate) fn push_opening(&mut self, alloc: Global, crumb: &Crumb) -> Result<(), NoMemory>
        ensures ok { OnOk result (self.new
            ≡ self.old ++ snapshot_bytes (world_of crumb.now) crumb.now.number) }
        ensures err { OnErr result (self.new ≡ self.old) }
    {
        write_opening(alloc, crumb, &mut self.bytes)
    }
}

// Gives up the bytes that are gone, where they are three quarters of all or more, and a large room
// once it is empty.
fn compact(alloc: Global, bytes: &mut Vec<u8>, gone: &mut usize)
    requires { gone.old ≤ length bytes.old.items }
    ensures within { gone.new ≤ length bytes.new.items }
    ensures left { drop gone.new bytes.new.items ≡ drop gone.old bytes.old.items }
{
    let left = bytes.len() - *gone;
    if left == 0 && bytes.capacity() > PIECE_BYTES {
        *bytes = Vec::new(alloc);
        *gone = 0;
    } else if left <= *gone / 3 {
        bytes.copy_within(*gone.., 0);
        bytes.truncate(left);
        *gone = 0;
    }
}
