// When a server drops a connection. Times are in milliseconds.
ghost use Rattle.std.specs.Prelude.{◌≡◌};
ghost use Rattle.ty_base.specs.Drops.{is_unhello, is_silent, is_slow};

use ty_base::{GRACE, GREATEST_LAG, HELLO_TIMEOUT, PONG_TIMEOUT};

/// Whether the client said no hello in time: more than 10,000 milliseconds have passed since the
/// opening.
pub fn unhello(opened: u64, now: u64) -> bool
    ensures { result ≡ is_unhello opened now }
{
    now.saturating_sub(opened) > HELLO_TIMEOUT
}

/// Whether the client wasn't heard for too long: more than 60,000 milliseconds.
pub fn silent(heard: u64, now: u64) -> bool
    ensures { result ≡ is_silent heard now }
{
    now.saturating_sub(heard) > PONG_TIMEOUT
}

/// Whether the client is too far behind: the next breadcrumb was made more than 300,000
/// milliseconds ago, and the client joined more than 300,000 milliseconds ago.
pub fn slow(at: u64, joined: u64, now: u64) -> bool
    ensures { result ≡ is_slow at joined now }
{
    now.saturating_sub(at) > GREATEST_LAG && now.saturating_sub(joined) > GRACE
}
