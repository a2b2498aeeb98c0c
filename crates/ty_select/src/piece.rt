// The pieces of a selector's text: marks, words, quoted texts and sets.
ghost use Rattle.std.specs.Prelude.{◌≡◌, length};
ghost use Rattle.std.specs.Str.{bytes_eq};
ghost use Rattle.ty_select.specs.Expressions.{mark, token_text, word, texts_from, texts, set};
ghost use Rattle.ty_select.specs.steps.Returns.{Returns};

use crate::fault::{Stop, Wanted};
use crate::selector::Texts;
use crate::token::{Kind, next, same_kind};
use std::alloc::Global;
use ty_base::Text;

/// What can't stand at the front of what is left.
pub(crate) fn bad(here: &[u8], wanted: Wanted) -> Stop
    ensures { result ≡ Stop.Bad (length here.now) wanted }
{
    Stop::Bad {
        left: here.len(),
        wanted,
    }
}

/// What follows a mark.
#[tactic(auto, unfolding(crate::specs::Expressions::mark))]
pub(crate) fn mark(kind: Kind, wanted: Wanted, bytes: &[u8]) -> Result<&[u8], Stop>
    ensures { Returns (λ rest. rest.now) result (mark kind wanted bytes.now) }
{
    let token = next(bytes);
    if same_kind(token.kind, kind) {
        Ok(token.rest)
    } else {
        Err(bad(token.here, wanted))
    }
}

/// What follows a word of this name.
#[tactic(auto, unfolding(crate::specs::Expressions::word))]
pub(crate) fn word<'a>(name: &str, wanted: Wanted, bytes: &'a [u8]) -> Result<&'a [u8], Stop>
    ensures { Returns (λ rest. rest.now) result (word name.now wanted bytes.now) }
{
    let token = next(bytes);
    if same_kind(token.kind, Kind::Word) && is(token.text, name) {
        Ok(token.rest)
    } else {
        Err(bad(token.here, wanted))
    }
}

/// Whether a text is this one.
pub(crate) fn is(text: &str, name: &str) -> bool
    ensures { result ≡ bytes_eq text.now name.now }
{
    text.as_bytes() == name.as_bytes()
}

/// A word or a quoted text, and what follows it.
#[tactic(auto, unfolding(crate::specs::Expressions::token_text))]
pub(crate) fn text(
    alloc: Global,
    kind: Kind,
    wanted: Wanted,
    bytes: &[u8],
) -> Result<(Text, &[u8]), Stop>
    ensures { Returns (λ x. (x.0, x.1.now)) result (token_text kind wanted bytes.now) }
{
    let token = next(bytes);
    if !same_kind(token.kind, kind) {
        return Err(bad(token.here, wanted));
    }
    Ok((Text::of(alloc, token.text)?, token.rest))
}

/// Quoted texts in braces, and what follows them.
#[tactic(auto, unfolding(crate::specs::Expressions::set))]
pub(crate) fn set(alloc: Global, bytes: &[u8]) -> Result<(Texts, &[u8]), Stop>
    ensures { Returns (λ x. (x.0, x.1.now)) result (set bytes.now) }
{
    let inside = mark(Kind::LeftBrace, Wanted::Brace, bytes)?;
    let token = next(inside);
    if same_kind(token.kind, Kind::RightBrace) {
        let none = Texts {
            list: Vec::new(alloc),
        };
        return Ok((none, token.rest));
    }
    texts(alloc, inside)
}

#[tactic(auto, unfolding(crate::specs::Expressions::texts))]
fn texts(alloc: Global, bytes: &[u8]) -> Result<(Texts, &[u8]), Stop>
    ensures { Returns (λ x. (x.0, x.1.now)) result (texts bytes.now) }
{
    let (first, rest) = text(alloc, Kind::Quoted, Wanted::QuotedOrBrace, bytes)?;
    texts_from(alloc, first, rest)
}

// The texts of a set from its first one on.
fn texts_from(alloc: Global, first: Text, bytes: &[u8]) -> Result<(Texts, &[u8]), Stop>
    ensures { Returns (λ x. (x.0, x.1.now)) result (texts_from first bytes.now) }
{
    let mut list = Vec::new(alloc);
    list.push(first)?;
    let mut rest = bytes;
    // A comma is a byte, so there are no more of them.
    let count = bytes.len();
    for _ in 0..count {
        let token = next(rest);
        if same_kind(token.kind, Kind::RightBrace) {
            return Ok((Texts { list }, token.rest));
        }
        if !same_kind(token.kind, Kind::Comma) {
            return Err(bad(token.here, Wanted::CommaOrBrace));
        }
        let (another, after) = text(alloc, Kind::Quoted, Wanted::Quoted, token.rest)?;
        list.push(another)?;
        rest = after;
    }
    Err(bad(next(rest).here, Wanted::CommaOrBrace))
}
