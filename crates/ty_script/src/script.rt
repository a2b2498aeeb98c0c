// What one line of a script says.
ghost use Rattle.std.specs.Prelude.{◌≡◌, IfOk, IsErrOf, Some, None, true, false};
ghost use Rattle.std.specs.Str.{IsUtf8};
ghost use Rattle.ty_script.specs.Fits.{FitsScript};
ghost use Rattle.ty_script.specs.Script.{parts_words, may_lead, is_like_feed, words, number_to, event_of_one, event_of_two, event_of_words, event_of};

use crate::event::{CLIENTS, Event, GET_BYTES, TICK_MILLISECONDS};
use std::alloc::Global;
use std::str;
use ty_base::{NoMemory, Text, read_u64};

/// Why nothing is read of a line.
#[derive(Clone, Copy, Debug, PartialEq, Eq)]
pub enum EventFault {
    /// It begins like no feed line, and says none of the six forms, whether it is UTF-8 or not.
    Bad,
    /// It begins like a feed line, and isn't UTF-8 (RFC 3629).
    NotUtf8,
    /// Memory ran out for the copy of a feed line.
    NoMemory,
}

/// The event that a line says, which is given without the byte 10 that ends it.
///
/// A line whose first byte other than a space, a tab or a carriage return is `{`, and one that has no such byte, is a feed
/// line, with its bytes as they are; whether the feed's reader takes it is judged elsewhere. Any other line says `join C`,
/// `step C`, `get C N`, `hear C`, `cut C` or `tick MS`, in words parted by spaces or tabs, which may also stand before
/// and behind them. C is from 1 to `CLIENTS`, N from 1 to `GET_BYTES`, MS from 1 to `TICK_MILLISECONDS`, each as
/// `read_u64` reads it. A carriage return parts no words.
#[tactic(auto, unfolding(crate::specs::Script::event_of))]
pub fn read_event(alloc: Global, line: &[u8]) -> Result<Event, EventFault>
    ensures says { IfOk result (λ e. event_of line.now ≡ Some e) }
    ensures fits { IfOk result (λ e. FitsScript line.now e) }
    ensures bad { IsErrOf result EventFault.Bad
        → (is_like_feed line.now ≡ false) × (event_of line.now ≡ None) }
    ensures not_utf8 { IsErrOf result EventFault.NotUtf8
        → (is_like_feed line.now ≡ true) × ¬ (IsUtf8 line.now) }
    ensures no_memory { IsErrOf result EventFault.NoMemory
        → event_of line.now ≡ Some (Event.Line line.now) }
{
    if is_like_feed(line) {
        return feed_line(alloc, line);
    }
    match event_in_words(line) {
        Some(event) => Ok(event),
        None => Err(EventFault::Bad),
    }
}

// Whether the first byte that may not lead is `{`, or there is none.
fn is_like_feed(line: &[u8]) -> bool
    ensures { result ≡ is_like_feed line.now }
{
    for b in line {
        if !may_lead(*b) {
            return *b == b'{';
        }
    }
    true
}

fn may_lead(b: u8) -> bool
    ensures { result ≡ may_lead b }
{
    parts_words(b) || b == b'\r'
}

fn parts_words(b: u8) -> bool
    ensures { result ≡ parts_words b }
{
    b == b' ' || b == b'\t'
}

// A feed line as an event.
fn feed_line(alloc: Global, line: &[u8]) -> Result<Event, EventFault>
    ensures says { IfOk result (λ e. (e ≡ Event.Line line.now) × IsUtf8 line.now) }
    ensures not_bad { IsErrOf result EventFault.Bad → ⊥ }
    ensures not_utf8 { IsErrOf result EventFault.NotUtf8 → ¬ (IsUtf8 line.now) }
    ensures no_memory { IsErrOf result EventFault.NoMemory → IsUtf8 line.now }
{
    let Ok(text) = str::from_utf8(line) else {
        return Err(EventFault::NotUtf8);
    };
    match Text::of(alloc, text) {
        Ok(text) => Ok(Event::Line(text)),
        Err(NoMemory) => Err(EventFault::NoMemory),
    }
}

// What the words of a line say.
fn event_in_words(line: &[u8]) -> Option<Event>
    ensures { result ≡ event_of_words (words line.now) }
{
    let mut words = line
        .split(|b| parts_words(*b))
        .filter(|word| !word.is_empty());
    match (words.next(), words.next(), words.next(), words.next()) {
        (Some(name), Some(number), None, _) => event_of_one(name, number),
        (Some(name), Some(client), Some(count), None) => event_of_two(name, client, count),
        _ => None,
    }
}

// What a name says of one number.
fn event_of_one(name: &[u8], number: &[u8]) -> Option<Event>
    ensures { result ≡ event_of_one name.now number.now }
{
    if name == b"join".as_slice() {
        number_to(CLIENTS, number).map(Event::Join)
    } else if name == b"step".as_slice() {
        number_to(CLIENTS, number).map(Event::Step)
    } else if name == b"hear".as_slice() {
        number_to(CLIENTS, number).map(Event::Hear)
    } else if name == b"cut".as_slice() {
        number_to(CLIENTS, number).map(Event::Cut)
    } else if name == b"tick".as_slice() {
        number_to(TICK_MILLISECONDS, number).map(Event::Tick)
    } else {
        None
    }
}

// What a name says of a client and a number of bytes.
fn event_of_two(name: &[u8], client: &[u8], count: &[u8]) -> Option<Event>
    ensures { result ≡ event_of_two name.now client.now count.now }
{
    if name != b"get".as_slice() {
        return None;
    }
    let client = number_to(CLIENTS, client)?;
    let count = number_to(GET_BYTES, count)?;
    Some(Event::Get(client, count))
}

// The number from 1 to the most that a text writes.
fn number_to(most: u64, text: &[u8]) -> Option<u64>
    ensures { result ≡ number_to most text.now }
{
    let n = read_u64(text)?;
    if n < 1 || most < n {
        return None;
    }
    Some(n)
}
