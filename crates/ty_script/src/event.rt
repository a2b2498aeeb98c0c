// What happens in a script.
ghost use Rattle.std.specs.Prelude.{◌+◌, ◌<◌, IsTrue, ◌↔◌};
ghost use Rattle.ty_script.specs.Fits.{IsEvent, IsClient};

use ty_base::{INPUT_BYTES, Text};

/// The most clients of a script. They are numbered from 1.
pub const CLIENTS: u64 = 64;

/// The most bytes that one event of a script gives a client.
pub const GET_BYTES: u64 = INPUT_BYTES as u64;

/// The most milliseconds that pass in one event of a script.
pub const TICK_MILLISECONDS: u64 = 1_000_000;

/// The time stays below so many milliseconds.
pub const TIME_LIMIT: u64 = 1 << 63;

/// One event. A client's number is from 1 to `CLIENTS`, and times are in milliseconds.
#[derive(Drop)]
pub enum Event {
    /// A line of the feed, without the byte that ends it.
    Line(Text),
    /// A client opens a connection, unless it has one.
    Join(u64),
    /// A client's session takes one step along the chain.
    Step(u64),
    /// At most so many of the bytes on their way down reach a client.
    Get(u64, u64),
    /// The session hears all that is on its way up.
    Hear(u64),
    /// A connection is lost, with all bytes on their way.
    Cut(u64),
    /// So much time passes.
    Tick(u64),
}

impl Event {
    /// Whether this can happen at this time: its client's number is from 1 to `CLIENTS`, and the time stays below
    /// `TIME_LIMIT`.
    pub fn is_fit(&self, now: u64) -> bool
        ensures { IsTrue result ↔ IsEvent now self.now }
    {
        match self {
            Event::Line(_) => true,
            Event::Join(c) => is_client(*c),
            Event::Step(c) => is_client(*c),
            Event::Get(c, _) => is_client(*c),
            Event::Hear(c) => is_client(*c),
            Event::Cut(c) => is_client(*c),
            Event::Tick(ms) => is_time(now, *ms),
        }
    }
}

fn is_client(c: u64) -> bool
    ensures { IsTrue result ↔ IsClient c }
{
    1 <= c && c <= CLIENTS
}

fn is_time(now: u64, ms: u64) -> bool
    ensures { IsTrue result ↔ (now + ms < TIME_LIMIT) }
{
    now < TIME_LIMIT && ms < TIME_LIMIT - now
}
