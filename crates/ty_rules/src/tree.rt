// One walk over a value: no number is a float, and the members of each object ascend.
ghost use Rattle.std.specs.Prelude.{◌≡◌, false};
ghost use Rattle.serde_json.specs.Written.{has_float, items_have_float, members_have_float};
ghost use Rattle.serde_json.specs.View.{view, items_view, members_view};
ghost use Rattle.ty_rules.specs.Tree.{Ascends, ItemsAscend, MembersAscend};

use serde_json::{Map, Value};

/// Whether some number in the value is no whole number from -2^63 to 2^64 - 1. Where none is, the members of
/// each object stand in ascending order of their names' bytes, as `serde_json` keeps them.
#[cycle(floats)]
pub fn has_float(value: &Value) -> bool
    ensures value { result ≡ has_float (view value.now) }
    ensures ascends { result ≡ false → Ascends (view value.now) }
{
    match value {
        Value::Number(n) => n.is_f64(),
        Value::Array(items) => items_have_float(items),
        Value::Object(members) => members_have_float(members),
        _ => false,
    }
}

#[cycle(floats)]
fn items_have_float(items: &Vec<Value>) -> bool
    ensures value { result ≡ items_have_float (items_view items.now.items) }
    ensures ascends { result ≡ false → ItemsAscend (items_view items.now.items) }
{
    for item in items {
        if has_float(item) {
            return true;
        }
    }
    false
}

#[cycle(floats)]
fn members_have_float(members: &Map<String, Value>) -> bool
    ensures value { result ≡ members_have_float (members_view members.now.entries) }
    ensures ascends { result ≡ false → MembersAscend (members_view members.now.entries) }
{
    for (_name, member) in members.iter() {
        if has_float(member) {
            return true;
        }
    }
    false
}
