// One token of a selector's text, and what follows it.
ghost use Rattle.std.specs.Prelude.{◌≡◌, ◌+◌, ◌==◌, length, slice_index, drop, take, []};
ghost use Rattle.std.specs.List.{prefix_len, position_or_len};
ghost use Rattle.ty_select.specs.Words.{is_word_byte};
ghost use Rattle.ty_select.specs.Tokens.{is_blank, is_quote as is_quoting, mark_kind, width, lexeme, token_at, word_at, quoted_at, mark_at, same_kind};
ghost use Rattle.ty_select.specs.steps.Tokens.{lexeme_of};

use crate::word::{is_word_byte, is_word_len};
use std::str;

/// What kind of token it is.
#[derive(Clone, Copy, Debug, PartialEq, Eq)]
pub(crate) enum Kind {
    Word,
    Quoted,
    Open,
    Close,
    LeftBrace,
    RightBrace,
    Comma,
    Bang,
    NotEqual,
    EqualEqual,
    AndAnd,
    OrOr,
    /// The text's end.
    End,
    /// Bytes that are no token.
    Junk,
}

/// The first token of a text.
#[derive(Clone, Copy)]
pub(crate) struct Token<'a> {
    pub kind: Kind,
    /// The text from the token on.
    pub here: &'a [u8],
    /// The word, or what stands between the quotes.
    pub text: &'a str,
    /// The text after the token.
    pub rest: &'a [u8],
}

/// The first token of a text, after blanks.
#[tactic(auto, unfolding(crate::specs::Tokens::lexeme))]
pub(crate) fn next(bytes: &[u8]) -> Token<'_>
    ensures kind { result.kind ≡ (lexeme bytes.now).kind }
    ensures here { result.here.now ≡ (lexeme bytes.now).here }
    ensures text { result.text.now ≡ (lexeme bytes.now).text }
    ensures rest { result.rest.now ≡ (lexeme bytes.now).rest }
{
    token_at(after(bytes, blank_len(bytes)))
}

/// Whether two kinds are one.
pub(crate) fn same_kind(one: Kind, other: Kind) -> bool
    ensures { result ≡ same_kind one other }
{
    one as u8 == other as u8
}

// The first token of a text that doesn't begin with a blank.
fn token_at(here: &[u8]) -> Token<'_>
    ensures { lexeme_of result ≡ token_at here.now }
{
    if here.is_empty() {
        return nothing(Kind::End, here);
    }
    let first = here[0];
    if is_word_byte(first) {
        word_at(here)
    } else if is_quote(first) {
        quoted_at(here, first)
    } else {
        mark_at(here)
    }
}

// A token from which nothing is taken.
fn nothing(kind: Kind, here: &[u8]) -> Token<'_>
    ensures { lexeme_of result ≡ record { kind = kind; here = here.now; text = []; rest = here.now } }
{
    Token {
        kind,
        here,
        text: "",
        rest: here,
    }
}

fn blank_len(bytes: &[u8]) -> usize
    ensures { result ≡ prefix_len is_blank bytes.now }
{
    let mut count = 0;
    for byte in bytes {
        if !is_blank(*byte) {
            return count;
        }
        count += 1;
    }
    count
}

fn is_blank(byte: u8) -> bool
    ensures { result ≡ is_blank byte }
{
    byte == b' ' || byte == b'\t'
}

fn is_quote(byte: u8) -> bool
    ensures { result ≡ is_quoting byte }
{
    byte == b'\'' || byte == b'"'
}

// What follows so many bytes, and nothing where there are fewer.
fn after(bytes: &[u8], count: usize) -> &[u8]
    ensures { result.now ≡ drop count bytes.now }
{
    if count < bytes.len() {
        &bytes[count..]
    } else {
        &[]
    }
}

fn word_len(here: &[u8]) -> usize
    ensures { result ≡ prefix_len is_word_byte here.now }
{
    let mut count = 0;
    for byte in here {
        if !is_word_byte(*byte) {
            return count;
        }
        count += 1;
    }
    count
}

fn word_at(here: &[u8]) -> Token<'_>
    ensures { lexeme_of result ≡ word_at here.now }
{
    let count = word_len(here);
    if !is_word_len(count) {
        return nothing(Kind::Junk, here);
    }
    let Ok(text) = str::from_utf8(&here[..count]) else {
        return nothing(Kind::Junk, here);
    };
    Token {
        kind: Kind::Word,
        here,
        text,
        rest: after(here, count),
    }
}

// The first place of a byte, or the length where it is nowhere.
fn place_of(byte: u8, bytes: &[u8]) -> usize
    ensures { result ≡ position_or_len (λ b. b == byte) bytes.now }
{
    for (i, b) in bytes.iter().enumerate() {
        if *b == byte {
            return i;
        }
    }
    bytes.len()
}

fn quoted_at(here: &[u8], quote: u8) -> Token<'_>
    ensures { lexeme_of result ≡ quoted_at here.now quote }
{
    let body = after(here, 1);
    let count = place_of(quote, body);
    if count >= body.len() {
        return nothing(Kind::Junk, here);
    }
    let Ok(text) = str::from_utf8(&body[..count]) else {
        return nothing(Kind::Junk, here);
    };
    Token {
        kind: Kind::Quoted,
        here,
        text,
        rest: after(body, count + 1),
    }
}

fn mark_at(here: &[u8]) -> Token<'_>
    ensures { lexeme_of result ≡ mark_at here.now }
{
    let kind = mark_kind(byte_at(here, 0), byte_at(here, 1));
    Token {
        kind,
        here,
        text: "",
        rest: after(here, width(kind)),
    }
}

// The byte at a place, and 0 past the end, which begins no mark.
fn byte_at(bytes: &[u8], place: usize) -> u8
    ensures { result ≡ slice_index bytes.now place }
{
    if place < bytes.len() { bytes[place] } else { 0 }
}

fn mark_kind(first: u8, following: u8) -> Kind
    ensures { result ≡ mark_kind first following }
{
    match first {
        b'(' => Kind::Open,
        b')' => Kind::Close,
        b'{' => Kind::LeftBrace,
        b'}' => Kind::RightBrace,
        b',' => Kind::Comma,
        b'!' => {
            if following == b'=' {
                Kind::NotEqual
            } else {
                Kind::Bang
            }
        }
        b'=' if following == b'=' => Kind::EqualEqual,
        b'&' if following == b'&' => Kind::AndAnd,
        b'|' if following == b'|' => Kind::OrOr,
        _ => Kind::Junk,
    }
}

fn width(kind: Kind) -> usize
    ensures { result ≡ width kind }
{
    match kind {
        Kind::NotEqual | Kind::EqualEqual | Kind::AndAnd | Kind::OrOr => 2,
        Kind::Word | Kind::Quoted | Kind::End | Kind::Junk => 0,
        _ => 1,
    }
}
