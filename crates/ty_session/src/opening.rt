// The opening of a talk: the server's hello and a breadcrumb's snapshot. It is written as the map is
// walked, so that no list of all pairs is made.
ghost use Rattle.std.specs.Prelude.{◌≡◌, ◌++◌, List, ℕ, IfOk, OnOk, OnErr};
ghost use Rattle.ty_crumb.specs.Crumbs.{snapshot_of, world_of};
ghost use Rattle.ty_map.specs.Shape.{pairs};
ghost use Rattle.ty_wire.specs.Wire.{frames};
ghost use Rattle.ty_wire.specs.Talk.{kvs_messages};
ghost use Rattle.ty_group.specs.Written.{IsWritten, Keeps};
ghost use Rattle.ty_session.specs.Story.{snapshot_bytes};

use std::alloc::Global;
use ty_base::{Deltas, NoMemory};
use ty_crumb::Crumb;
use ty_group::Filling;
use ty_wire::{Msg, short_messages_fit, write, write_group};

pub(crate) fn write_opening(alloc: Global, crumb: &Crumb, out: &mut Vec<u8>) -> Result<(), NoMemory>
    ensures ok { OnOk result (out.new.items
        ≡ out.old.items ++ snapshot_bytes (world_of crumb.now) crumb.now.number) }
    ensures err { OnErr result (out.new.items ≡ out.old.items) }
{
    let len = out.len();
    match append_opening(alloc, crumb, out) {
        Ok(()) => Ok(()),
        Err(e) => {
            out.truncate(len);
            Err(e)
        }
    }
}

fn append_opening(alloc: Global, crumb: &Crumb, out: &mut Vec<u8>) -> Result<(), NoMemory>
    ensures ok { OnOk result (out.new.items
        ≡ out.old.items ++ snapshot_bytes (world_of crumb.now) crumb.now.number) }
    ensures err { OnErr result (Keeps out.old.items out.new.items) }
{
    short_messages_fit();
    write(alloc, &Msg::ServerHello { version: 1 }, out)?;
    append_pairs(alloc, crumb, out)?;
    write_group(
        alloc,
        &Deltas::new(alloc),
        Some(crumb.status),
        crumb.number,
        out,
    )?;
    Ok(())
}

// The KVs messages of all pairs.
fn append_pairs(alloc: Global, crumb: &Crumb, out: &mut Vec<u8>) -> Result<(), NoMemory>
    ensures ok { OnOk result (out.new.items
        ≡ out.old.items ++ frames (kvs_messages (snapshot_of (pairs crumb.now.pairs)))) }
    ensures err { OnErr result (Keeps out.old.items out.new.items) }
{
    let filling = fill(alloc, crumb, out)?;
    filling.close(out)
}

// All of them but the last one, which is being filled.
fn fill(alloc: Global, crumb: &Crumb, out: &mut Vec<u8>) -> Result<Filling, NoMemory>
    ensures ok { IfOk result (λ f. IsWritten (snapshot_of (pairs crumb.now.pairs)) f out.old.items out.new.items) }
    ensures kept { Keeps out.old.items out.new.items }
{
    let mut filling = Filling::new(alloc);
    for (key, value) in crumb.pairs.walk(alloc)? {
        filling.push(key, value, out)?;
    }
    Ok(filling)
}
