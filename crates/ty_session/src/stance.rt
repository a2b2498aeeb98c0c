// The phase and the times of a connection.
ghost use Rattle.std.specs.Prelude.{◌≡◌};
ghost use Rattle.ty_session.specs.Story.{opened_at, over_for, pings_at};
ghost use Rattle.ty_session.specs.Outcomes.{tick_reason};
ghost use Rattle.ty_session.specs.steps.Hearing.{heard_times};
ghost use Rattle.ty_session.specs.steps.Held.{joined_stance};

use crate::drops::{silent, unhello};
use crate::phase::Phase;
use crate::reason::Reason;
use ty_base::PING_INTERVAL;

/// Where a connection stands, why it is over, and its times in milliseconds: of the opening, of the
/// client's last message, of the last look for its bytes, of the joining, and of the last ping, at
/// first the joining.
#[derive(Clone, Copy)]
pub struct Stance {
    pub phase: Phase,
    pub reason: Option<Reason>,
    pub opened: u64,
    pub heard: u64,
    pub looked: u64,
    pub joined: u64,
    pub pinged: u64,
}

impl Stance {
    pub(crate) fn new(opened: u64) -> Stance
        ensures { result ≡ opened_at opened }
    {
        Stance {
            phase: Phase::Waiting,
            reason: None,
            opened,
            heard: opened,
            looked: opened,
            joined: 0,
            pinged: 0,
        }
    }

    // So many messages came.
    pub(crate) fn hear(&mut self, count: u64, now: u64)
        ensures { self.new ≡ heard_times now count self.old }
    {
        self.looked = now;
        if count == 0 {
            return;
        }
        self.heard = now;
        if matches!(self.phase, Phase::Waiting) {
            self.phase = Phase::Greeted;
        }
    }

    pub(crate) fn join(&mut self, now: u64)
        ensures { self.new ≡ joined_stance now self.old }
    {
        self.phase = Phase::Joined;
        self.joined = now;
        self.pinged = now;
    }

    pub(crate) fn leave(&mut self, reason: Reason)
        ensures { self.new ≡ over_for reason self.old }
    {
        self.phase = Phase::Over;
        self.reason = Some(reason);
    }

    // Why the connection is over at this time, if it is.
    pub(crate) fn reason_at(&self, now: u64) -> Option<Reason>
        ensures { result ≡ tick_reason now self.now }
    {
        match self.phase {
            Phase::Waiting if unhello(self.opened, now) => Some(Reason::NoHello {
                opened: self.opened,
                now,
            }),
            Phase::Waiting => None,
            Phase::Over => self.reason,
            _ if silent(self.heard, now) => Some(Reason::NoPong {
                heard: self.heard,
                now,
            }),
            _ => None,
        }
    }

    pub(crate) fn is_ping_due(&self, now: u64) -> bool
        ensures { result ≡ pings_at now self.now }
    {
        matches!(self.phase, Phase::Joined) && now.saturating_sub(self.pinged) >= PING_INTERVAL
    }
}
