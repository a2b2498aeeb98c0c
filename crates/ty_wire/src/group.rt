// The messages of a group, written one after another.
ghost use Rattle.std.specs.Prelude.{◌≡◌, ◌≤◌, ◌<◌, ◌++◌, ◌∷◌, [], List, ℕ, length, drop, true, IfOk, OnOk, OnErr};
ghost use Rattle.std.specs.List.{AllByRecursion};
ghost use Rattle.ty_base.specs.Limits.{deltas_fit};
ghost use Rattle.ty_wire.specs.Wire.{IsWire, frames};
ghost use Rattle.ty_wire.specs.Talk.{group_messages, kvs_messages, status_messages};
ghost use Rattle.ty_wire.specs.steps.Sent.{Appends, IsSent};
ghost use Rattle.ty_wire.specs.declared.message.Msg.TheVariants.{Crumb};

use crate::cut::front_len;
use crate::encode::{write, write_deltas};
use crate::message::Msg;
use std::alloc::Global;
use ty_base::{Delta, Deltas, NoMemory, Status};

/// Appends a group's frames: the KVs messages into which its deltas are cut, the status if it is
/// given, and the crumb end. Want of memory leaves what was there.
pub fn write_group(
    alloc: Global,
    deltas: &Deltas,
    status: Option<Status>,
    n: u64,
    out: &mut Vec<u8>,
) -> Result<(), NoMemory>
    requires { deltas_fit deltas.now ≡ true }
    ensures ok { OnOk result (out.new.items
        ≡ out.old.items ++ frames (group_messages deltas.now status n)) }
    ensures wire { OnOk result (AllByRecursion IsWire (group_messages deltas.now status n)) }
    ensures err { OnErr result (out.new.items ≡ out.old.items) }
{
    let len = out.len();
    match append_group(alloc, deltas.as_slice(), status, n, out) {
        Ok(()) => Ok(()),
        Err(e) => {
            out.truncate(len);
            Err(e)
        }
    }
}

fn append_group(
    alloc: Global,
    deltas: &[Delta],
    status: Option<Status>,
    n: u64,
    out: &mut Vec<u8>,
) -> Result<(), NoMemory>
    requires { deltas_fit deltas.now ≡ true }
    ensures ok { OnOk result (Appends out.old.items out.new.items (group_messages deltas.now status n)) }
    ensures err { OnErr result ((more : List ℕ) × (out.new.items ≡ out.old.items ++ more)) }
{
    append_deltas(alloc, deltas, out)?;
    append_end(alloc, status, n, out)?;
    Ok(())
}

fn append_deltas(alloc: Global, deltas: &[Delta], out: &mut Vec<u8>) -> Result<(), NoMemory>
    requires { deltas_fit deltas.now ≡ true }
    ensures ok { OnOk result (Appends out.old.items out.new.items (kvs_messages deltas.now)) }
    ensures err { OnErr result ((more : List ℕ) × (out.new.items ≡ out.old.items ++ more)) }
{
    let mut from = 0;
    while from < deltas.len() {
        from += append_front(alloc, &deltas[from..], out)?;
    }
    Ok(())
}

// The first message of these deltas. It gives the number of its deltas.
fn append_front(alloc: Global, deltas: &[Delta], out: &mut Vec<u8>) -> Result<usize, NoMemory>
    requires some { 0 < length deltas.now }
    requires limits { deltas_fit deltas.now ≡ true }
    ensures within { IfOk result (λ n. (0 < n) × (n ≤ length deltas.now)) }
    ensures sent { IfOk result (λ n. IsSent deltas.now (drop n deltas.now) out.old.items out.new.items) }
    ensures err { OnErr result (out.new.items ≡ out.old.items) }
{
    let len = front_len(deltas);
    write_deltas(&deltas[..len], out)?;
    Ok(len)
}

fn append_end(
    alloc: Global,
    status: Option<Status>,
    n: u64,
    out: &mut Vec<u8>,
) -> Result<(), NoMemory>
    ensures ok { OnOk result (Appends out.old.items out.new.items (status_messages status
        ++ Crumb n ∷ [])) }
    ensures err { OnErr result ((more : List ℕ) × (out.new.items ≡ out.old.items ++ more)) }
{
    append_status(alloc, status, out)?;
    write(alloc, &Msg::Crumb { n }, out)?;
    Ok(())
}

fn append_status(alloc: Global, status: Option<Status>, out: &mut Vec<u8>) -> Result<(), NoMemory>
    ensures ok { OnOk result (Appends out.old.items out.new.items (status_messages status)) }
    ensures err { OnErr result (out.new.items ≡ out.old.items) }
{
    match status {
        Some(status) => write(alloc, &Msg::Status(status), out),
        None => Ok(()),
    }
}
