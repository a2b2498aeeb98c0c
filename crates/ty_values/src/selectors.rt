// Selectors, whose reading takes memory.
ghost use Rattle.std.specs.Prelude.{◌≡◌, IfOk, is_ok};
ghost use Rattle.serde_json.specs.View.{view};
ghost use Rattle.ty_rules.specs.declared.rule.Rule.TheVariants as R;
ghost use Rattle.ty_rules.specs.Tests.{optional};
ghost use Rattle.ty_rules.specs.Checks.{Tells, row};
ghost use Rattle.ty_values.specs.Nets.{selects, selector};

use serde_json::Value;
use std::alloc::Global;
use ty_base::NoMemory;
use ty_rules::{Check, Rule, ValueFault, given};
use ty_select::{SelectFault, Selector};

// Whether a text is a selector.
fn is_selector(alloc: Global, text: &str) -> Result<bool, NoMemory>
    ensures { IfOk result (λ b. b ≡ selects text.now) }
{
    match Selector::read(alloc, text.as_bytes()) {
        Ok(_) => Ok(true),
        Err(SelectFault::NoMemory) => Err(NoMemory),
        Err(_) => Ok(false),
    }
}

fn check_selector(alloc: Global, value: &Value) -> Result<(), ValueFault>
    ensures { Tells result (row R.Selector selector (view value.now)) }
{
    let Some(text) = value.as_str() else {
        return Err(ValueFault::Broken {
            rule: Rule::Selector,
        });
    };
    if is_selector(alloc, text)? {
        Ok(())
    } else {
        Err(ValueFault::Broken {
            rule: Rule::Selector,
        })
    }
}

/// A member that is absent, null or a selector.
#[derive(Drop)]
pub struct SelectorAt<'n>(pub &'n str);

impl Check for SelectorAt<'_> {
    ghost breaks = { λ t. row R.Selector (optional t.0.now selector) };

    fn check(&self, alloc: Global, value: &Value) -> Result<(), ValueFault> {
        match given(value, self.0) {
            Some(member) => check_selector(alloc, member),
            None => Ok(()),
        }
    }
}
