// A pair's text as it stands in a KVs message, written without a delta that owns copies of it.
ghost use Rattle.std.specs.Prelude.{◌≡◌, ◌+◌, ◌≤◌, ◌++◌, ◌∷◌, [], length, vec_len, OnOk, OnErr, true};
ghost use Rattle.json.specs.Filled.{Placed};
ghost use Rattle.ty_base.specs.Limits.{key_fits, value_fits};
ghost use Rattle.ty_base.specs.Passing.{delta_passes};
ghost use Rattle.ty_wire.specs.Wire.{new_pair, delta_text, DeltaHasUtf8};

use crate::place::{lengthen, place};
use crate::quoted::{LANES, escaped_len, place_quoted};
use ty_base::{NoMemory, Text};

/// Appends the text that a new pair has in a KVs message, and a comma. Want of memory leaves what
/// was there.
pub fn append_new(key: &Text, value: &Text, out: &mut Vec<u8>) -> Result<(), NoMemory>
    requires { delta_passes key_fits value_fits (new_pair key.now value.now) ≡ true }
    ensures ok { OnOk result (out.new.items
        ≡ out.old.items ++ (delta_text (new_pair key.now value.now) ++ 44 ∷ [])) }
    ensures utf8 { DeltaHasUtf8 (new_pair key.now value.now) }
    ensures err { OnErr result (out.new.items ≡ out.old.items) }
{
    let at = out.len();
    let room = pair_len(key, value) + LANES;
    out.reserve(room)?;
    lengthen(out, at + room);
    let end = place_pair(out.as_mut_slice(), at, key, value);
    out.truncate(end);
    Ok(())
}

// The length of its text and the comma.
fn pair_len(key: &Text, value: &Text) -> usize
    requires { delta_passes key_fits value_fits (new_pair key.now value.now) ≡ true }
    ensures len { result ≡ length (delta_text (new_pair key.now value.now)) + 1 }
    ensures bound { result ≤ 7000000 }
    ensures utf8 { DeltaHasUtf8 (new_pair key.now value.now) }
{
    escaped_len(key.bytes()) + escaped_len(value.bytes()) + 35
}

fn place_pair(buf: &mut [u8], at: usize, key: &Text, value: &Text) -> usize
    requires { at + (length (delta_text (new_pair key.now value.now)) + 1) + LANES ≤ length buf.old }
    ensures { Placed buf.old buf.new at (delta_text (new_pair key.now value.now) ++ 44 ∷ []) result }
{
    let at = place(buf, at, b"{\"key\":");
    let at = place_quoted(buf, at, key.bytes());
    let at = place(buf, at, b",\"type\":\"new\",\"value\":");
    let at = place_quoted(buf, at, value.bytes());
    place(buf, at, b"},")
}
