// The item of a line.
ghost use Rattle.std.specs.Prelude.{◌≡◌, ◌≤◌, true, Some, IfOk, IfSome, OnSome, length, string_bytes};
ghost use Rattle.std.specs.Option.{option_map, option_map_or};
ghost use Rattle.serde_json.specs.View.{view};
ghost use Rattle.ty_base.specs.declared.item.Item.TheVariants.{Put, Del};
ghost use Rattle.ty_base.specs.declared.limits.TheConstants.{KEY_BYTES, VALUE_BYTES};
ghost use Rattle.ty_base.specs.Limits.{is_small};
ghost use Rattle.ty_values.specs.Keys.{broken as first_broken};
ghost use Rattle.ty_values.specs.Items.{update, said, value_given, key_named, item_under, item_of, broken_in, data_given, IsOrdered};

use crate::line::{Cleaned, Line};
use crate::validity::check_text;
use serde_json::Value;
use std::alloc::Global;
use ty_base::{Item, NoMemory, Text};
use ty_keys::{Key, KeyFault};
use ty_rules::ValueFault;

/// The item of a line. An update whose key doesn't read gives none. A valid value is put as its compact text,
/// with the members of each object in ascending order of their names' bytes. A value that is absent, null or
/// invalid deletes the key.
pub fn clean(alloc: Global, line: &Line) -> Result<Cleaned, NoMemory>
    ensures item { IfOk result (λ c. c.item ≡ item_of (said line.now)) }
    ensures broken { IfOk result (λ c. c.broken ≡ broken_in (said line.now)) }
    ensures limits { IfOk result (λ c. option_map_or is_small c.item true ≡ true) }
    ensures ordered { IfOk result (λ c. IfSome c.item (IsOrdered (data_given (said line.now)))) }
{
    match line {
        Line::Update { key, value } => clean_update(alloc, key, value),
        Line::Status(status) => Ok(Cleaned {
            item: Some(Item::State(*status)),
            broken: None,
        }),
        Line::Blank => Ok(Cleaned {
            item: Some(Item::Mark),
            broken: None,
        }),
    }
}

fn clean_update(alloc: Global, key: &Text, value: &Option<Value>) -> Result<Cleaned, NoMemory>
    ensures item { IfOk result (λ c. c.item ≡ item_of (update key.now (option_map view value.now))) }
    ensures broken { IfOk result (λ c. c.broken ≡ broken_in (update key.now (option_map view value.now))) }
    ensures limits { IfOk result (λ c. option_map_or is_small c.item true ≡ true) }
    ensures ordered { IfOk result (λ c. IfSome c.item (IsOrdered (value_given (option_map view value.now)))) }
{
    let Some(parsed) = read_key(alloc, key)? else {
        return Ok(Cleaned {
            item: None,
            broken: None,
        });
    };
    match given(value) {
        Some(value) => clean_value(alloc, &parsed, key, value),
        None => Ok(Cleaned {
            item: Some(deletion(alloc, key)?),
            broken: None,
        }),
    }
}

// The key that a text reads as, which then has `KEY_BYTES` bytes at most.
fn read_key(alloc: Global, text: &Text) -> Result<Option<Key>, NoMemory>
    ensures key { IfOk result (λ k. k ≡ key_named text.now) }
    ensures short { IfOk result (λ k. OnSome k (length text.now ≤ KEY_BYTES)) }
{
    match Key::read(alloc, text.bytes()) {
        Ok(key) => Ok(Some(key)),
        Err(KeyFault::NoMemory) => Err(NoMemory),
        Err(_) => Ok(None),
    }
}

// The value, where it is not null.
fn given(value: &Option<Value>) -> Option<&Value>
    ensures { option_map (λ v. view v.now) result ≡ value_given (option_map view value.now) }
{
    let value = value.as_ref()?;
    if value.is_null() { None } else { Some(value) }
}

fn clean_value(alloc: Global, key: &Key, text: &Text, value: &Value) -> Result<Cleaned, NoMemory>
    requires { length text.now ≤ KEY_BYTES }
    ensures item { IfOk result (λ c. c.item ≡ Some (item_under key.now text.now (Some (view value.now)))) }
    ensures broken { IfOk result (λ c. c.broken ≡ first_broken key.now (view value.now)) }
    ensures limits { IfOk result (λ c. option_map_or is_small c.item true ≡ true) }
    ensures ordered { IfOk result (λ c. IfSome c.item (IsOrdered (Some (view value.now)))) }
{
    match check_text(alloc, key, value) {
        Ok(compact) => Ok(Cleaned {
            item: Some(put(alloc, text, compact)?),
            broken: None,
        }),
        Err(ValueFault::Broken { rule }) => Ok(Cleaned {
            item: Some(deletion(alloc, text)?),
            broken: Some(rule),
        }),
        Err(ValueFault::NoMemory) => Err(NoMemory),
    }
}

fn put(alloc: Global, key: &Text, value: String) -> Result<Item, NoMemory>
    requires short { length key.now ≤ KEY_BYTES }
    requires fits { length (string_bytes value) ≤ VALUE_BYTES }
    ensures item { IfOk result (λ i. i ≡ Put key.now (string_bytes value)) }
    ensures limits { IfOk result (λ i. is_small i ≡ true) }
{
    Ok(Item::Put {
        key: Text::of(alloc, key.as_str())?,
        value: Text::from_string(value),
    })
}

fn deletion(alloc: Global, key: &Text) -> Result<Item, NoMemory>
    requires { length key.now ≤ KEY_BYTES }
    ensures item { IfOk result (λ i. i ≡ Del key.now) }
    ensures limits { IfOk result (λ i. is_small i ≡ true) }
{
    Ok(Item::Del {
        key: Text::of(alloc, key.as_str())?,
    })
}
