// Printing a selector.
ghost use Rattle.std.specs.Prelude.{◌≡◌, ◌==◌, ◌++◌, [], codes, OnOk, OnErr};
ghost use Rattle.std.specs.List.{list_any};
ghost use Rattle.ty_select.specs.Forms.{form, forms_of};
ghost use Rattle.ty_select.specs.steps.Forms.{forms};
ghost use Rattle.ty_select.specs.Text.{printed, parted, quoted_text, quoted_texts, set_text};

use crate::selector::{Selector, Texts};
use std::alloc::Global;
use ty_base::{NoMemory, Text};

impl Selector {
    /// Appends the selector's text. Want of memory leaves what was there.
    pub fn print(&self, alloc: Global, out: &mut Vec<u8>) -> Result<(), NoMemory>
        ensures ok { OnOk result (out.new.items ≡ out.old.items ++ printed (form self.now)) }
        ensures err { OnErr result (out.new.items ≡ out.old.items) }
    {
        let mut text = Vec::new(alloc);
        print_selector(self, &mut text)?;
        out.extend_from_slice(&text)?;
        Ok(())
    }
}

#[cycle(printing)]
fn print_selector(selector: &Selector, out: &mut Vec<u8>) -> Result<(), NoMemory>
    ensures { OnOk result (out.new.items ≡ out.old.items ++ printed (form selector.now)) }
{
    match selector {
        Selector::All => push(out, "all()"),
        Selector::Global => push(out, "global()"),
        Selector::Has(label) => {
            push(out, "has(")?;
            push(out, label.as_str())?;
            push(out, ")")
        }
        Selector::Eq(label, value) => print_test(label, " == ", value, out),
        Selector::Ne(label, value) => print_test(label, " != ", value, out),
        Selector::In(label, values) => print_choice(label, " in ", values, out),
        Selector::NotIn(label, values) => print_choice(label, " not in ", values, out),
        Selector::Contains(label, value) => print_test(label, " contains ", value, out),
        Selector::Starts(label, value) => print_test(label, " starts with ", value, out),
        Selector::Ends(label, value) => print_test(label, " ends with ", value, out),
        Selector::Not(operand) => {
            push(out, "!")?;
            print_selector(operand, out)
        }
        Selector::And(operands) => print_operands(" && ", &operands.list, out),
        Selector::Or(operands) => print_operands(" || ", &operands.list, out),
    }
}

// Operands in parentheses, with the mark between them.
#[cycle(printing)]
fn print_operands(mark: &str, operands: &[Selector], out: &mut Vec<u8>) -> Result<(), NoMemory>
    ensures { OnOk result (out.new.items ≡ out.old.items ++ (codes "(" ++ (parted [] mark.now (forms_of (forms operands.now)) ++ codes ")"))) }
{
    push(out, "(")?;
    let mut before = "";
    for operand in operands {
        push(out, before)?;
        print_selector(operand, out)?;
        before = mark;
    }
    push(out, ")")
}

fn print_test(label: &Text, operator: &str, value: &Text, out: &mut Vec<u8>) -> Result<(), NoMemory>
    ensures { OnOk result (out.new.items ≡ out.old.items ++ (label.now ++ (operator.now ++ quoted_text value.now))) }
{
    push(out, label.as_str())?;
    push(out, operator)?;
    print_quoted(value, out)
}

fn print_choice(
    label: &Text,
    operator: &str,
    values: &Texts,
    out: &mut Vec<u8>,
) -> Result<(), NoMemory>
    ensures { OnOk result (out.new.items ≡ out.old.items ++ (label.now ++ (operator.now ++ set_text values.now))) }
{
    push(out, label.as_str())?;
    push(out, operator)?;
    print_set(&values.list, out)
}

#[tactic(auto, unfolding(crate::specs::Text::set_text))]
fn print_set(values: &[Text], out: &mut Vec<u8>) -> Result<(), NoMemory>
    ensures { OnOk result (out.new.items ≡ out.old.items ++ set_text values.now) }
{
    push(out, "{")?;
    let mut before = "";
    for value in values {
        push(out, before)?;
        print_quoted(value, out)?;
        before = ", ";
    }
    push(out, "}")
}

// A text that holds a `'` is quoted in `"`.
#[tactic(auto, unfolding(crate::specs::Text::quoted_text))]
fn print_quoted(value: &Text, out: &mut Vec<u8>) -> Result<(), NoMemory>
    ensures { OnOk result (out.new.items ≡ out.old.items ++ quoted_text value.now) }
{
    let quote = if holds_quote(value.bytes()) {
        "\""
    } else {
        "'"
    };
    push(out, quote)?;
    push(out, value.as_str())?;
    push(out, quote)
}

// Whether there is a `'`.
fn holds_quote(text: &[u8]) -> bool
    ensures { result ≡ list_any (λ b. b == 39) text.now }
{
    text.iter().any(|byte| *byte == b'\'')
}

fn push(out: &mut Vec<u8>, text: &str) -> Result<(), NoMemory>
    ensures { OnOk result (out.new.items ≡ out.old.items ++ text.now) }
{
    out.extend_from_slice(text.as_bytes())?;
    Ok(())
}
