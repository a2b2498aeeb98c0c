// Reading a selector from left to right. Only `!` and `(` are read by recursion.
ghost use Rattle.std.specs.Prelude.{◌≡◌, IfOk, IfErr, ◌≢◌};
ghost use Rattle.ty_select.specs.Forms.{form};
ghost use Rattle.ty_select.specs.steps.Forms.{forms};
ghost use Rattle.ty_select.specs.Expressions.{unary, negation, grouped, conjunction, disjunction, others_from, alone_or, both_of, either_of, one_deeper, inside, whole_text, stop_fault, selector_of};
ghost use Rattle.ty_select.specs.steps.Returns.{Returns};

use crate::fault::{SelectFault, Stop, Wanted};
use crate::limits::MOST_OPEN;
use crate::piece::{bad, mark};
use crate::selector::{Selector, Selectors};
use crate::term::primary;
use crate::token::{Kind, next, same_kind};
use std::alloc::Global;

impl Selector {
    /// The selector that a text is. Blank text is `all()`.
    pub fn read(alloc: Global, text: &[u8]) -> Result<Selector, SelectFault>
        ensures reads { IfOk result (λ s. selector_of text.now ≡ Ok (form s)) }
        ensures fault { IfErr result (λ e. e ≢ SelectFault.NoMemory → selector_of text.now ≡ Err e) }
    {
        match whole(alloc, text) {
            Ok(selector) => Ok(selector),
            Err(stop) => Err(placed(text.len(), stop)),
        }
    }
}

// A fault with its place from the front of a text of this length.
fn placed(length: usize, stop: Stop) -> SelectFault
    ensures { result ≡ stop_fault length stop }
{
    match stop {
        Stop::Bad { left, wanted } => SelectFault::Bad {
            at: length.saturating_sub(left),
            wanted,
        },
        Stop::TooDeep { left } => SelectFault::TooDeep {
            at: length.saturating_sub(left),
        },
        Stop::Spent => SelectFault::NoMemory,
    }
}

#[tactic(auto, unfolding(crate::specs::Expressions::whole_text))]
fn whole(alloc: Global, bytes: &[u8]) -> Result<Selector, Stop>
    ensures { Returns form result (whole_text bytes.now) }
{
    if same_kind(next(bytes).kind, Kind::End) {
        return Ok(Selector::All);
    }
    let (selector, rest) = disjunction(alloc, MOST_OPEN, bytes)?;
    let token = next(rest);
    if !same_kind(token.kind, Kind::End) {
        return Err(bad(token.here, Wanted::Joint));
    }
    Ok(selector)
}

// Operands with `||` between them, where so many more `!` and `(` may be open, and what follows them.
#[cycle(reading)]
#[tactic(auto, unfolding(crate::specs::Expressions::operands))]
fn disjunction(alloc: Global, levels: u32, bytes: &[u8]) -> Result<(Selector, &[u8]), Stop>
    ensures { Returns (λ x. (form x.0, x.1.now)) result (disjunction (unary levels) bytes.now) }
{
    let (first, rest) = conjunction(alloc, levels, bytes)?;
    let (list, rest) = alternatives(alloc, levels, first, rest)?;
    Ok((any_of(list), rest))
}

// The operands of `||` from the first one on, and what follows them.
#[cycle(reading)]
fn alternatives(
    alloc: Global,
    levels: u32,
    first: Selector,
    bytes: &[u8],
) -> Result<(Vec<Selector>, &[u8]), Stop>
    ensures { Returns (λ x. (forms x.0.items, x.1.now)) result
        (others_from Kind.OrOr (conjunction (unary levels)) (form first) bytes.now) }
{
    let mut list = Vec::new(alloc);
    list.push(first)?;
    let mut rest = bytes;
    // A mark is a byte, so there are no more of them.
    let count = bytes.len();
    for _ in 0..count {
        let token = next(rest);
        if !same_kind(token.kind, Kind::OrOr) {
            return Ok((list, rest));
        }
        let (operand, after) = conjunction(alloc, levels, token.rest)?;
        list.push(operand)?;
        rest = after;
    }
    Ok((list, rest))
}

// Operands with `&&` between them, and what follows them.
#[cycle(reading)]
#[tactic(auto, unfolding(crate::specs::Expressions::operands))]
fn conjunction(alloc: Global, levels: u32, bytes: &[u8]) -> Result<(Selector, &[u8]), Stop>
    ensures { Returns (λ x. (form x.0, x.1.now)) result (conjunction (unary levels) bytes.now) }
{
    let (first, rest) = unary(alloc, levels, bytes)?;
    let (list, rest) = conditions(alloc, levels, first, rest)?;
    Ok((all_of(list), rest))
}

// The operands of `&&` from the first one on, and what follows them.
#[cycle(reading)]
fn conditions(
    alloc: Global,
    levels: u32,
    first: Selector,
    bytes: &[u8],
) -> Result<(Vec<Selector>, &[u8]), Stop>
    ensures { Returns (λ x. (forms x.0.items, x.1.now)) result
        (others_from Kind.AndAnd (unary levels) (form first) bytes.now) }
{
    let mut list = Vec::new(alloc);
    list.push(first)?;
    let mut rest = bytes;
    // A mark is a byte, so there are no more of them.
    let count = bytes.len();
    for _ in 0..count {
        let token = next(rest);
        if !same_kind(token.kind, Kind::AndAnd) {
            return Ok((list, rest));
        }
        let (operand, after) = unary(alloc, levels, token.rest)?;
        list.push(operand)?;
        rest = after;
    }
    Ok((list, rest))
}

// One operand alone is no `Or`.
fn any_of(mut list: Vec<Selector>) -> Selector
    ensures { form result ≡ alone_or either_of (forms list.items) }
{
    if list.len() == 1 {
        list.remove(0)
    } else {
        Selector::Or(Selectors { list })
    }
}

// One operand alone is no `And`.
fn all_of(mut list: Vec<Selector>) -> Selector
    ensures { form result ≡ alone_or both_of (forms list.items) }
{
    if list.len() == 1 {
        list.remove(0)
    } else {
        Selector::And(Selectors { list })
    }
}

// A term, and what follows it.
#[cycle(reading)]
#[tactic(auto, unfolding(crate::specs::Expressions::unary_by))]
fn unary(alloc: Global, levels: u32, bytes: &[u8]) -> Result<(Selector, &[u8]), Stop>
    ensures { Returns (λ x. (form x.0, x.1.now)) result (unary levels bytes.now) }
{
    let token = next(bytes);
    if same_kind(token.kind, Kind::Word) {
        primary(alloc, token.text, token.rest)
    } else if same_kind(token.kind, Kind::Bang) {
        negation(alloc, levels, token.here, token.rest)
    } else if same_kind(token.kind, Kind::Open) {
        group(alloc, levels, token.here, token.rest)
    } else {
        Err(bad(token.here, Wanted::Term))
    }
}

// What follows a `!`.
#[cycle(reading)]
fn negation<'a>(
    alloc: Global,
    levels: u32,
    here: &[u8],
    bytes: &'a [u8],
) -> Result<(Selector, &'a [u8]), Stop>
    ensures { Returns (λ x. (form x.0, x.1.now)) result (one_deeper (inside levels) negation here.now bytes.now) }
{
    if levels == 0 {
        return Err(Stop::TooDeep { left: here.len() });
    }
    let (operand, rest) = unary(alloc, levels - 1, bytes)?;
    Ok((Selector::Not(Box::new(alloc, operand)?), rest))
}

// What follows a `(`.
#[cycle(reading)]
fn group<'a>(
    alloc: Global,
    levels: u32,
    here: &[u8],
    bytes: &'a [u8],
) -> Result<(Selector, &'a [u8]), Stop>
    ensures { Returns (λ x. (form x.0, x.1.now)) result (one_deeper (inside levels) grouped here.now bytes.now) }
{
    if levels == 0 {
        return Err(Stop::TooDeep { left: here.len() });
    }
    let (selector, rest) = disjunction(alloc, levels - 1, bytes)?;
    let rest = mark(Kind::Close, Wanted::Close, rest)?;
    Ok((selector, rest))
}
