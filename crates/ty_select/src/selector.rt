// What a selector is.
use std::marker::Model;
use ty_base::Text;

/// Which labels a selector asks for.
#[cycle(selector)]
#[derive(Drop)]
pub enum Selector {
    /// `all()`
    All,
    /// `global()`
    Global,
    /// `has(label)`
    Has(Text),
    /// `label == 'text'`
    Eq(Text, Text),
    /// `label != 'text'`
    Ne(Text, Text),
    /// `label in {'text', 'text'}`
    In(Text, Texts),
    /// `label not in {'text', 'text'}`
    NotIn(Text, Texts),
    /// `label contains 'text'`
    Contains(Text, Text),
    /// `label starts with 'text'`
    Starts(Text, Text),
    /// `label ends with 'text'`
    Ends(Text, Text),
    /// `!` and the operand
    Not(Box<Selector>),
    /// Two operands or more, parted by `&&`
    And(Selectors),
    /// Two operands or more, parted by `||`
    Or(Selectors),
}

/// A list of texts.
#[derive(Drop)]
pub struct Texts {
    pub list: Vec<Text>,
}

impl Model for Texts {
    ghost use Rattle.std.specs.Prelude.{List, ℕ};

    ghost Value = { List (List ℕ) };

    ghost view = { λ t. t.list.items };
}

/// A list of selectors.
#[cycle(selector)]
#[derive(Drop)]
pub struct Selectors {
    pub list: Vec<Selector>,
}
