// How deep a selector nests.
ghost use Rattle.std.specs.Prelude.{◌≡◌, ◌+◌};
ghost use Rattle.ty_select.specs.Forms.{form, forms_of};
ghost use Rattle.ty_select.specs.steps.Forms.{forms};
ghost use Rattle.ty_select.specs.Text.{capped, depth, deepest};

use crate::selector::Selector;

impl Selector {
    /// The most `!` and `(` of grouping that are open at once in the printed text, up to `u64::MAX`.
    pub fn depth(&self) -> u64
        ensures { result ≡ capped (depth (form self.now)) }
    {
        depth_of(self)
    }
}

#[cycle(nesting)]
fn depth_of(selector: &Selector) -> u64
    ensures { result ≡ capped (depth (form selector.now)) }
{
    match selector {
        Selector::Not(operand) => one_more(depth_of(operand)),
        Selector::And(operands) => one_more(deepest(&operands.list)),
        Selector::Or(operands) => one_more(deepest(&operands.list)),
        _ => 0,
    }
}

#[cycle(nesting)]
fn deepest(selectors: &[Selector]) -> u64
    ensures { result ≡ capped (deepest (forms_of (forms selectors.now))) }
{
    let mut most: u64 = 0;
    for selector in selectors {
        most = most.max(depth_of(selector));
    }
    most
}

fn one_more(n: u64) -> u64
    ensures { result ≡ capped (n + 1) }
{
    n.saturating_add(1)
}
