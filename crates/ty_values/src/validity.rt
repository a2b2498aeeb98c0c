// Whether a key may have a value.
ghost use Rattle.std.specs.Prelude.{◌≡◌, ◌≤◌, None, IfOk, IfErr, OnOk, string_bytes, length};
ghost use Rattle.serde_json.specs.View.{view};
ghost use Rattle.serde_json.specs.Written.{compact_text};
ghost use Rattle.ty_rules.specs.Tree.{Ascends};
ghost use Rattle.ty_rules.specs.Checks.{Names};
ghost use Rattle.ty_values.specs.Keys.{broken};

use crate::keys::check_form;
use serde_json::Value;
use std::alloc::Global;
use ty_base::VALUE_BYTES;
use ty_keys::Key;
use ty_rules::{Rule, ValueFault, has_float};

/// Whether a key may have a value: `Broken` with the first rule that it breaks, in the order of the rules, or
/// `NoMemory`.
pub fn check(alloc: Global, key: &Key, value: &Value) -> Result<(), ValueFault>
    ensures valid { OnOk result (broken key.now (view value.now) ≡ None) }
    ensures fault { IfErr result (λ e. Names e (broken key.now (view value.now))) }
{
    let _text = check_text(alloc, key, value)?;
    Ok(())
}

/// The same, with the value's compact text (RFC 8259), at most `VALUE_BYTES` bytes, in which the members of each
/// object stand in ascending order of their names' bytes.
#[tactic(auto, unfolding(crate::specs::Keys::broken))]
pub fn check_text(alloc: Global, key: &Key, value: &Value) -> Result<String, ValueFault>
    ensures text { IfOk result (λ s. string_bytes s ≡ compact_text (view value.now)) }
    ensures short { IfOk result (λ s. length (string_bytes s) ≤ VALUE_BYTES) }
    ensures ordered { OnOk result (Ascends (view value.now)) }
    ensures valid { OnOk result (broken key.now (view value.now) ≡ None) }
    ensures fault { IfErr result (λ e. Names e (broken key.now (view value.now))) }
{
    if has_float(value) {
        return Err(ValueFault::Broken { rule: Rule::Number });
    }
    let text = value.to_string(alloc)?;
    if text.len() > VALUE_BYTES {
        return Err(ValueFault::Broken { rule: Rule::Size });
    }
    check_form(alloc, key, value)?;
    Ok(text)
}
