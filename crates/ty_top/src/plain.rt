// The talk over the book of a list of items, by the plain programs.
ghost use Rattle.std.specs.Prelude.{◌≡◌, ◌++◌, [], true, length, IfOk, OnOk};
ghost use Rattle.std.specs.List.{All, range_with_len};
ghost use Rattle.ty_base.specs.Limits.{items_fit};
ghost use Rattle.ty_base.specs.Limits.{deltas_fit};
ghost use Rattle.ty_wire.specs.Wire.{frames};
ghost use Rattle.ty_wire.specs.Talk.{groups_after, opening as opening_of};
ghost use Rattle.ty_top.specs.Streamed.{streamed};

use crate::publisher::change;
use std::alloc::Global;
use ty_base::{Deltas, Entry, Item, NoMemory, Status};
use ty_plain::book;
use ty_wire::{Msg, write, write_group};

/// What `stream` writes for these items from breadcrumb 0 on, by the plain programs, which keep no map and no
/// breadcrumb. Each key has at most 1,024 bytes and each value at most 1,048,576.
pub fn plain_stream(alloc: Global, items: &[Item]) -> Result<Vec<u8>, NoMemory>
    requires { items_fit items.now ≡ true }
    ensures { IfOk result (λ bytes. bytes.items ≡ streamed items.now 0) }
{
    let book = book(alloc, items, true)?;
    let mut out = opening(alloc)?;
    write_entries(alloc, &book, &mut out)?;
    Ok(out)
}

// The server hello, and the snapshot of breadcrumb 0.
fn opening(alloc: Global) -> Result<Vec<u8>, NoMemory>
    ensures { IfOk result (λ bytes. bytes.items ≡ frames (opening_of [] 0)) }
{
    let mut out = Vec::new(alloc);
    write(alloc, &Msg::ServerHello { version: 1 }, &mut out)?;
    write_group(alloc, &Deltas::new(alloc), Some(Status::Wait), 0, &mut out)?;
    Ok(out)
}

// A group for each entry, from the first on.
fn write_entries(alloc: Global, book: &[Entry], out: &mut Vec<u8>) -> Result<(), NoMemory>
    requires { All (λ e. deltas_fit e.deltas ≡ true) book.now }
    ensures { OnOk result (out.new.items ≡ out.old.items ++ frames (groups_after book.now 0 (range_with_len 1 (length book.now)))) }
{
    let mut status = Status::Wait;
    let mut n = 0;
    for entry in book {
        n += 1;
        write_group(alloc, &entry.deltas, change(status, entry.status), n, out)?;
        status = entry.status;
    }
    Ok(())
}
