// The command line's words.
ghost use Rattle.std.specs.Prelude.{◌≡◌, IfOk, option_and_then, option_map};
ghost use Rattle.ty_words.specs.Words.{address_in, asked_by, command_of, count_or as count_or_of, follow_at as follow_at_of, follow_source as follow_source_of, follow_with as follow_of, host_in, in_range as in_range_of, load_with as load_of, mode_with, number_or as number_or_of, of_length as of_length_of, serve_with as serve_of, sim_with as sim_of, stream_from as stream_from_of, stream_with as stream_of};

use crate::given::{Given, texts_of};
use std::alloc::Global;
use ty_base::{HOST_BYTES, INPUT_BYTES, NoMemory, Text, read_u64};

/// The most bytes of an address, which is that of `--at`.
pub const ADDRESS_BYTES: usize = 512;

/// The most workers of a server.
pub const GREATEST_WORKERS: u64 = 64;

/// The workers of a server where the words give no number.
pub const USUAL_WORKERS: u64 = 8;

/// The most connections that a follower dials.
pub const GREATEST_TRIES: u64 = 100;

/// What the words say of a server.
#[derive(Drop)]
pub struct ServeWords {
    /// The address where it listens, of 1 to `ADDRESS_BYTES` bytes.
    pub at: Text,
    /// How many workers it has, 1 to `GREATEST_WORKERS`.
    pub workers: u64,
}

/// What the words say of the following of a server.
#[derive(Drop)]
pub struct FollowWords {
    /// The address that is dialled, of 1 to `ADDRESS_BYTES` bytes.
    pub at: Text,
    /// The host that the follower gives as its own, of 1 to `HOST_BYTES` bytes.
    pub host: Text,
    /// How many connections it dials in all, 1 to `GREATEST_TRIES`.
    pub tries: u64,
    /// Whether it leaves the pairs out.
    pub brief: bool,
}

/// What the words ask for.
#[derive(Drop)]
pub enum Command {
    /// The talk over the feed that is the source, from this breadcrumb on.
    Stream { from: u64 },
    /// The text of what a client rebuilds from the connection that is the source, perhaps without its pairs.
    Follow { brief: bool },
    /// The same text, of the server that is dialled.
    FollowAt(FollowWords),
    /// The report of the script that is the source.
    Sim,
    /// The summary of the load that is made from this number.
    Load { number: u64 },
    /// The feed that is the source, served to those who connect.
    Serve(ServeWords),
}

/// What the words ask for, the program's name not among them: a mode and its options. `None` where the words are
/// refused: the mode is unknown, or it doesn't take an option or lacks one, or a value is no number, out of range, or
/// empty or too long.
#[tactic(auto, unfolding(crate::specs::Words::command_of))]
pub fn read_words(alloc: Global, words: &[Text]) -> Result<Option<Command>, NoMemory>
    ensures { IfOk result (λ command. command ≡ command_of words.now) }
{
    let texts = texts_of(alloc, words)?;
    match Given::read(alloc, texts.as_slice())? {
        Some(given) => asked(alloc, &given),
        None => Ok(None),
    }
}

fn asked(alloc: Global, given: &Given<'_>) -> Result<Option<Command>, NoMemory>
    ensures { IfOk result (λ command. command ≡ asked_by given.now) }
{
    match given.value("mode") {
        Some(mode) => with_mode(alloc, mode, given),
        None => Ok(None),
    }
}

fn with_mode(alloc: Global, mode: &str, given: &Given<'_>) -> Result<Option<Command>, NoMemory>
    ensures { IfOk result (λ command. command ≡ mode_with given.now mode.now) }
{
    match mode {
        "stream" => Ok(stream_with(given)),
        "follow" => follow_with(alloc, given),
        "sim" => Ok(sim_with(given)),
        "load" => Ok(load_with(given)),
        "serve" => serve_with(alloc, given),
        _ => Ok(None),
    }
}

fn stream_with(given: &Given<'_>) -> Option<Command>
    ensures { result ≡ stream_of given.now }
{
    if !given.gives_only(&["from"]) {
        return None;
    }
    stream_from(number_or(0, given.value("from"))?)
}

// A breadcrumb's number is at most `INPUT_BYTES`.
fn stream_from(from: u64) -> Option<Command>
    ensures { result ≡ stream_from_of from }
{
    if from <= INPUT_BYTES as u64 {
        Some(Command::Stream { from })
    } else {
        None
    }
}

fn follow_with(alloc: Global, given: &Given<'_>) -> Result<Option<Command>, NoMemory>
    ensures { IfOk result (λ command. command ≡ follow_of given.now) }
{
    if given.gives("at") {
        follow_at(alloc, given)
    } else {
        Ok(follow_source(given))
    }
}

fn follow_source(given: &Given<'_>) -> Option<Command>
    ensures { result ≡ follow_source_of given.now }
{
    if !given.gives_only(&["brief"]) {
        return None;
    }
    Some(Command::Follow {
        brief: given.gives("brief"),
    })
}

fn follow_at(alloc: Global, given: &Given<'_>) -> Result<Option<Command>, NoMemory>
    ensures { IfOk result (λ command. command ≡ follow_at_of given.now) }
{
    if !given.gives_only(&["at", "host", "tries", "brief"]) {
        return Ok(None);
    }
    let Some(at) = address(given) else {
        return Ok(None);
    };
    let Some(host) = host(given) else {
        return Ok(None);
    };
    let Some(tries) = count_or(GREATEST_TRIES, 1, given.value("tries")) else {
        return Ok(None);
    };
    let brief = given.gives("brief");
    Ok(Some(Command::FollowAt(FollowWords {
        at: Text::of(alloc, at)?,
        host: Text::of(alloc, host)?,
        tries,
        brief,
    })))
}

fn sim_with(given: &Given<'_>) -> Option<Command>
    ensures { result ≡ sim_of given.now }
{
    if !given.gives_only(&[]) {
        return None;
    }
    Some(Command::Sim)
}

fn load_with(given: &Given<'_>) -> Option<Command>
    ensures { result ≡ load_of given.now }
{
    if !given.gives_only(&["number"]) {
        return None;
    }
    Some(Command::Load {
        number: number_or(1, given.value("number"))?,
    })
}

fn serve_with(alloc: Global, given: &Given<'_>) -> Result<Option<Command>, NoMemory>
    ensures { IfOk result (λ command. command ≡ serve_of given.now) }
{
    if !given.gives_only(&["at", "workers"]) {
        return Ok(None);
    }
    let Some(at) = address(given) else {
        return Ok(None);
    };
    let Some(workers) = count_or(GREATEST_WORKERS, USUAL_WORKERS, given.value("workers")) else {
        return Ok(None);
    };
    Ok(Some(Command::Serve(ServeWords {
        at: Text::of(alloc, at)?,
        workers,
    })))
}

// The address that is given.
fn address<'a>(given: &Given<'a>) -> Option<&'a str>
    ensures { option_map (λ s. s.now) result ≡ address_in given.now }
{
    of_length(ADDRESS_BYTES, given.value("at")?)
}

// The host that is given, which is `follower` where none is.
fn host<'a>(given: &Given<'a>) -> Option<&'a str>
    ensures { option_map (λ s. s.now) result ≡ host_in given.now }
{
    of_length(HOST_BYTES, given.value("host").unwrap_or("follower"))
}

// A text of 1 to so many bytes.
fn of_length(most: usize, text: &str) -> Option<&str>
    ensures { option_map (λ s. s.now) result ≡ of_length_of most text.entry.now }
{
    if text.is_empty() {
        return None;
    }
    if text.len() <= most { Some(text) } else { None }
}

// The number from 1 to the greatest that an option's value writes, or this one where the option isn't given.
fn count_or(greatest: u64, number: u64, value: Option<&str>) -> Option<u64>
    ensures { result ≡ count_or_of greatest number (option_map (λ s. s.now) value.entry) }
{
    in_range(greatest, number_or(number, value)?)
}

// A number from 1 to the greatest.
fn in_range(greatest: u64, number: u64) -> Option<u64>
    ensures { result ≡ in_range_of greatest number }
{
    if number < 1 {
        return None;
    }
    if number <= greatest {
        Some(number)
    } else {
        None
    }
}

// The number that an option's value writes, or this one where the option isn't given.
fn number_or(number: u64, value: Option<&str>) -> Option<u64>
    ensures { result ≡ number_or_of number (option_map (λ s. s.now) value.entry) }
{
    match value {
        Some(value) => read_u64(value.as_bytes()),
        None => Some(number),
    }
}
