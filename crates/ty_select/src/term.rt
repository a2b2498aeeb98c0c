// A term that begins with a word: a function or a label's test.
ghost use Rattle.std.specs.Prelude.{◌≡◌, codes};
ghost use Rattle.ty_select.specs.Forms.{form, all, global};
ghost use Rattle.ty_select.specs.Expressions.{operator_of, operand, quoted, test, membership, constant, primary, word};
ghost use Rattle.ty_select.specs.steps.Returns.{Returns};

use crate::fault::{Stop, Wanted};
use crate::piece::{bad, is, mark, set, text, word};
use crate::selector::Selector;
use crate::token::{Kind, next, same_kind};
use std::alloc::Global;
use ty_base::Text;

/// What a label is tested for.
#[derive(Clone, Copy, Debug, PartialEq, Eq)]
pub(crate) enum Operator {
    Equal,
    Unequal,
    In,
    /// `not`, which `in` has to follow.
    NotIn,
    Contains,
    /// `starts`, which `with` has to follow.
    Starts,
    /// `ends`, which `with` has to follow.
    Ends,
}

/// A term from behind its first word on, and what follows it.
#[tactic(auto, unfolding(crate::specs::Expressions::primary))]
pub(crate) fn primary<'a>(
    alloc: Global,
    name: &str,
    bytes: &'a [u8],
) -> Result<(Selector, &'a [u8]), Stop>
    ensures { Returns (λ x. (form x.0, x.1.now)) result (primary name.now bytes.now) }
{
    let token = next(bytes);
    let called = same_kind(token.kind, Kind::Open);
    if called && is(name, "all") {
        constant_all(token.rest)
    } else if called && is(name, "global") {
        constant_global(token.rest)
    } else if called && is(name, "has") {
        membership(alloc, token.rest)
    } else {
        test(alloc, Text::of(alloc, name)?, bytes)
    }
}

#[tactic(auto, unfolding(crate::specs::Expressions::constant))]
fn constant_all(bytes: &[u8]) -> Result<(Selector, &[u8]), Stop>
    ensures { Returns (λ x. (form x.0, x.1.now)) result (constant all bytes.now) }
{
    let rest = mark(Kind::Close, Wanted::Close, bytes)?;
    Ok((Selector::All, rest))
}

#[tactic(auto, unfolding(crate::specs::Expressions::constant))]
fn constant_global(bytes: &[u8]) -> Result<(Selector, &[u8]), Stop>
    ensures { Returns (λ x. (form x.0, x.1.now)) result (constant global bytes.now) }
{
    let rest = mark(Kind::Close, Wanted::Close, bytes)?;
    Ok((Selector::Global, rest))
}

#[tactic(auto, unfolding(crate::specs::Expressions::membership))]
fn membership(alloc: Global, bytes: &[u8]) -> Result<(Selector, &[u8]), Stop>
    ensures { Returns (λ x. (form x.0, x.1.now)) result (membership bytes.now) }
{
    let (label, rest) = text(alloc, Kind::Word, Wanted::Label, bytes)?;
    let rest = mark(Kind::Close, Wanted::Close, rest)?;
    Ok((Selector::Has(label), rest))
}

#[tactic(auto, unfolding(crate::specs::Expressions::test))]
fn test(alloc: Global, label: Text, bytes: &[u8]) -> Result<(Selector, &[u8]), Stop>
    ensures { Returns (λ x. (form x.0, x.1.now)) result (test label bytes.now) }
{
    let token = next(bytes);
    match operator_of(token.kind, token.text) {
        None => Err(bad(token.here, Wanted::Operator)),
        Some(operator) => operand(alloc, label, operator, token.rest),
    }
}

fn operator_of(kind: Kind, name: &str) -> Option<Operator>
    ensures { result ≡ operator_of kind name.now }
{
    if same_kind(kind, Kind::EqualEqual) {
        Some(Operator::Equal)
    } else if same_kind(kind, Kind::NotEqual) {
        Some(Operator::Unequal)
    } else if same_kind(kind, Kind::Word) {
        named(name)
    } else {
        None
    }
}

fn named(name: &str) -> Option<Operator>
    ensures { result ≡ operator_of Kind.Word name.now }
{
    if is(name, "in") {
        Some(Operator::In)
    } else if is(name, "not") {
        Some(Operator::NotIn)
    } else if is(name, "contains") {
        Some(Operator::Contains)
    } else if is(name, "starts") {
        Some(Operator::Starts)
    } else if is(name, "ends") {
        Some(Operator::Ends)
    } else {
        None
    }
}

fn operand(
    alloc: Global,
    label: Text,
    operator: Operator,
    bytes: &[u8],
) -> Result<(Selector, &[u8]), Stop>
    ensures { Returns (λ x. (form x.0, x.1.now)) result (operand label operator bytes.now) }
{
    match operator {
        Operator::Equal => {
            let (value, rest) = quoted(alloc, bytes)?;
            Ok((Selector::Eq(label, value), rest))
        }
        Operator::Unequal => {
            let (value, rest) = quoted(alloc, bytes)?;
            Ok((Selector::Ne(label, value), rest))
        }
        Operator::In => {
            let (values, rest) = set(alloc, bytes)?;
            Ok((Selector::In(label, values), rest))
        }
        Operator::NotIn => {
            let rest = word("in", Wanted::In, bytes)?;
            let (values, rest) = set(alloc, rest)?;
            Ok((Selector::NotIn(label, values), rest))
        }
        Operator::Contains => {
            let (value, rest) = quoted(alloc, bytes)?;
            Ok((Selector::Contains(label, value), rest))
        }
        Operator::Starts => {
            let rest = with(bytes)?;
            let (value, rest) = quoted(alloc, rest)?;
            Ok((Selector::Starts(label, value), rest))
        }
        Operator::Ends => {
            let rest = with(bytes)?;
            let (value, rest) = quoted(alloc, rest)?;
            Ok((Selector::Ends(label, value), rest))
        }
    }
}

fn with(bytes: &[u8]) -> Result<&[u8], Stop>
    ensures { Returns (λ rest. rest.now) result (word (codes "with") Wanted.With bytes.now) }
{
    word("with", Wanted::With, bytes)
}

fn quoted(alloc: Global, bytes: &[u8]) -> Result<(Text, &[u8]), Stop>
    ensures { Returns (λ x. (x.0, x.1.now)) result (quoted bytes.now) }
{
    text(alloc, Kind::Quoted, Wanted::Quoted, bytes)
}
