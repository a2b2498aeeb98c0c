// One connection's machine.
ghost use Rattle.std.specs.Prelude.{◌≡◌, ◌≤◌, ◌+◌, ◌++◌, [], List, ℕ, length, drop, true, Some, None, nat_le, IfOk, OnOk, OnErr, OnSome};
ghost use Rattle.ty_base.specs.declared.entry.Entry.{Entry};
ghost use Rattle.ty_base.specs.declared.limits.TheConstants.{BODY_BYTES};
ghost use Rattle.ty_crumb.specs.Crumbs.{CrumbStands};
ghost use Rattle.ty_session.specs.Times.{is_look_due};
ghost use Rattle.ty_session.specs.Client.{Shows};
ghost use Rattle.ty_session.specs.Story.{Story, begun, looked_at, ticked, joined_at, idled, over_for, left_by, given_up, pings_at};
ghost use Rattle.ty_session.specs.Held.{IsQueued, SessionStands};
ghost use Rattle.ty_session.specs.Outcomes.{IfLeft, OnShort, IsShort, IsSpent, MayLeave, Carries, CarriesIn, TakesNext, HeardMore, tick_reason, offer_reason};
ghost use Rattle.ty_session.specs.steps.Hearing.{IsListened, heard_times};
ghost use Rattle.ty_session.specs.steps.Held.{over_view, pinged_view, joined_view};
ghost use Rattle.ty_session.specs.declared.phase.Phase.TheVariants.{Greeted as IsGreeted, Joined as HasJoined};
ghost use Rattle.ty_session.specs.declared.reason.Reason.{Reason as Why};

use crate::client::{Listened, listen};
use crate::drops::slow;
use crate::phase::Phase;
use crate::queue::Queue;
use crate::reason::{Gone, Reason};
use crate::stance::Stance;
use std::alloc::Global;
use std::marker::Model;
use ty_base::{LOOK_INTERVAL, NoMemory, Status};
use ty_crumb::Crumb;
use ty_group::{Encoded, Group};
use ty_wire::Frames;

/// One connection's machine on the server's side: what it hears, when it is dropped, and what it
/// queues. It has no thread and no clock: times are handed in, in milliseconds. After want of
/// memory each call that may want memory answers want of memory, and what was queued is queued
/// still.
#[derive(Drop)]
pub struct Session {
    stance: Stance,
    // The last breadcrumb that was joined or offered, and the last one whose end is queued.
    pub(crate) number: u64,
    pub(crate) status: Status,
    pub(crate) ended: u64,
    pub(crate) told: Status,
    // What changed between them.
    pub(crate) held: Group,
    pub(crate) out: Queue,
    unread: Frames,
    // The number of the client's next frame.
    frame: u64,
    pub(crate) spent: bool,
}

impl Model for Session {
    ghost use Rattle.ty_session.specs.Held.{SessionHeld};

    ghost Value = { SessionHeld };

    ghost view = { λ s. record {
      stance = s.stance;
      number = s.number;
      status = s.status;
      ended = s.ended;
      told = s.told;
      held = s.held;
      out = s.out;
      unread = s.unread;
      frame = s.frame;
      spent = s.spent;
    } };
}

impl Session {
    /// A connection that was opened at this time.
    pub fn new(alloc: Global, opened: u64) -> Session
        ensures { SessionStands result (begun opened) }
    {
        Session {
            stance: Stance::new(opened),
            number: 0,
            status: Status::Wait,
            ended: 0,
            told: Status::Wait,
            held: Group::new(alloc),
            out: Queue::new(alloc),
            unread: Frames::new(alloc),
            frame: 1,
            spent: false,
        }
    }

    /// Takes the client's next bytes, in any pieces, and tells how many messages end in them. A
    /// client says a hello with version 1, and then pongs. The connection is over at the first
    /// message that isn't in its place, or at the wire's fault. A connection that is over stays so,
    /// for the same reason.
    pub fn hear(&mut self, alloc: Global, bytes: &[u8], now: u64) -> Result<u64, Gone>
        ensures hears { IfOk result (λ n. (s : Story) → SessionStands self.old s
            → HeardMore self.new now bytes.now n s) }
        ensures shows { IfLeft result (λ r. (s : Story) → SessionStands self.old s
            → s.stance.reason ≡ None → Shows (s.bytes ++ bytes.now) r) }
        ensures leaves { IfLeft result (λ r.
            Carries self.old self.new (λ s. left_by r (looked_at now s))) }
        ensures stays { IfLeft result (λ r. (why : Why)
            → self.old.stance.reason ≡ Some why → r ≡ why) }
        ensures over { (why : Why) → self.old.stance.reason ≡ Some why → OnOk result ⊥ }
        ensures short { OnShort result (IsSpent self.old self.new) }
        ensures spent { self.old.spent ≡ true → IsShort result }
    {
        if self.spent {
            return Err(Gone::NoMemory);
        }
        self.quiet(now);
        if let Some(reason) = self.reason() {
            return Err(Gone::Left(reason));
        }
        let Ok(listened) = self.listen(alloc, bytes) else {
            return Err(Gone::NoMemory);
        };
        if let Some(reason) = listened.fault {
            self.end(reason);
            return Err(Gone::Left(reason));
        }
        self.count(listened.count, now);
        Ok(listened.count)
    }

    /// No bytes came when they were looked for.
    pub fn quiet(&mut self, now: u64)
        ensures looks { Carries self.old self.new (looked_at now) }
        ensures same { self.new ≡ record self.old {
          stance = record self.old.stance { looked = now };
        } }
    {
        self.stance.looked = now;
    }

    /// Whether it is time to look for bytes: `LOOK_INTERVAL` or more has passed since the last look.
    pub fn due(&self, now: u64) -> bool
        ensures { result ≡ is_look_due self.now.stance.looked now }
    {
        now.saturating_sub(self.stance.looked) >= LOOK_INTERVAL
    }

    /// Time has passed: the connection is over where no hello, or no pong, came in time. Else a
    /// ping is queued where one is due: `PING_INTERVAL` or more has passed since the last one, or
    /// since the joining. A connection that is over stays so, for the same reason.
    pub fn tick(&mut self, alloc: Global, now: u64) -> Result<(), Gone>
        ensures ok { OnOk result (tick_reason now self.old.stance ≡ None) }
        ensures goes_on { OnOk result (Carries self.old self.new (ticked now)) }
        ensures left { IfLeft result (λ r. tick_reason now self.old.stance ≡ Some r) }
        ensures leaves { IfLeft result (λ r. Carries self.old self.new (left_by r)) }
        ensures short { OnShort result (IsSpent self.old self.new) }
        ensures spent { self.old.spent ≡ true → IsShort result }
    {
        if self.spent {
            return Err(Gone::NoMemory);
        }
        if let Some(reason) = self.reason_at(now) {
            self.end(reason);
            return Err(Gone::Left(reason));
        }
        if !self.is_ping_due(now) {
            return Ok(());
        }
        let Ok(()) = self.ping(alloc, now) else {
            return Err(Gone::NoMemory);
        };
        Ok(())
    }

    /// Queues the server's hello and the snapshot of this breadcrumb, for a client that has said
    /// its hello.
    pub fn join(&mut self, alloc: Global, crumb: &Crumb, now: u64) -> Result<(), NoMemory>
        ensures joins { OnOk result ((entries : List Entry) → CrumbStands crumb.now entries
            → CarriesIn IsGreeted self.old self.new (joined_at now entries)) }
        ensures short { OnErr result (IsSpent self.old self.new) }
        ensures spent { self.old.spent ≡ true → OnOk result ⊥ }
    {
        if self.spent {
            return Err(NoMemory);
        }
        self.admit(alloc, crumb, now)
    }

    /// Offers the next breadcrumb to a client that has joined. The connection is over where the
    /// client is too far behind. Else the breadcrumb joins the group that is held. The group is
    /// queued where the breadcrumb is younger than `GROUP_AGE`, or where the group has
    /// `MESSAGE_DELTAS` deltas or more.
    pub fn offer(&mut self, alloc: Global, crumb: &Crumb, now: u64) -> Result<(), Gone>
        ensures ok { OnOk result (offer_reason crumb.now.at now self.old.stance ≡ None) }
        ensures goes_on { OnOk result (TakesNext self.old self.new crumb.now now) }
        ensures left { IfLeft result (λ r. offer_reason crumb.now.at now self.old.stance ≡ Some r) }
        ensures leaves { IfLeft result (λ r. Carries self.old self.new (left_by r)) }
        ensures short { OnShort result (IsSpent self.old self.new) }
        ensures spent { self.old.spent ≡ true → IsShort result }
    {
        if self.spent {
            return Err(Gone::NoMemory);
        }
        if let Some(reason) = self.slow_reason(crumb.at, now) {
            self.end(reason);
            return Err(Gone::Left(reason));
        }
        let Ok(()) = self.enter(alloc, crumb, now) else {
            return Err(Gone::NoMemory);
        };
        Ok(())
    }

    /// The same, with the breadcrumb's deltas encoded: their bytes are made once for all clients.
    pub fn offer_encoded(
        &mut self,
        alloc: Global,
        crumb: &Crumb,
        encoded: &Encoded,
        now: u64,
    ) -> Result<(), Gone>
        ensures ok { OnOk result (offer_reason crumb.now.at now self.old.stance ≡ None) }
        ensures goes_on { OnOk result (encoded.now ≡ crumb.now.deltas
            → TakesNext self.old self.new crumb.now now) }
        ensures left { IfLeft result (λ r. offer_reason crumb.now.at now self.old.stance ≡ Some r) }
        ensures leaves { IfLeft result (λ r. Carries self.old self.new (left_by r)) }
        ensures short { OnShort result (IsSpent self.old self.new) }
        ensures spent { self.old.spent ≡ true → IsShort result }
    {
        if self.spent {
            return Err(Gone::NoMemory);
        }
        if let Some(reason) = self.slow_reason(crumb.at, now) {
            self.end(reason);
            return Err(Gone::Left(reason));
        }
        let Ok(()) = self.enter_encoded(alloc, crumb, encoded, now) else {
            return Err(Gone::NoMemory);
        };
        Ok(())
    }

    /// There is no next breadcrumb now: a group that is held is queued.
    pub fn idle(&mut self, alloc: Global) -> Result<(), NoMemory>
        ensures idles { OnOk result (CarriesIn HasJoined self.old self.new idled) }
        ensures ended { OnOk result (self.new.ended ≡ self.new.number) }
        ensures short { OnErr result (IsSpent self.old self.new) }
        ensures spent { self.old.spent ≡ true → OnOk result ⊥ }
    {
        if self.spent {
            return Err(NoMemory);
        }
        if self.ended == self.number {
            return Ok(());
        }
        self.close(alloc)
    }

    /// The connection is over: the peer has closed it, the link has failed, or all is said and
    /// sent.
    pub fn leave(&mut self, reason: Reason)
        requires { MayLeave reason self.old }
        ensures leaves { Carries self.old self.new (left_by reason) }
        ensures same { self.new ≡ record self.old { stance = over_for reason self.old.stance } }
    {
        self.end(reason);
    }

    /// The bytes that are to be sent, the oldest first.
    pub fn out(&self) -> &[u8]
        ensures { result.now ≡ self.now.out }
    {
        self.out.as_slice()
    }

    /// The first `n` of these bytes were sent. After want of memory too, what is left are the next
    /// bytes of the talk.
    pub fn given(&mut self, n: usize)
        requires { n ≤ length self.old.out }
        ensures gives { Carries self.old self.new (given_up n) }
        ensures queued { (s : Story) → IsQueued self.old.out s
            → IsQueued self.new.out (given_up n s) }
        ensures same { self.new ≡ record self.old { out = drop n self.old.out } }
    {
        self.out.remove(n);
    }

    /// Where the connection stands.
    pub fn phase(&self) -> Phase
        ensures { result ≡ self.now.stance.phase }
    {
        self.stance.phase
    }

    /// The number of the last breadcrumb that was joined or offered, or 0 before the joining. A
    /// breadcrumb for which the client was too slow doesn't count.
    pub fn number(&self) -> u64
        ensures { result ≡ self.now.number }
    {
        self.number
    }

    /// How many bytes the client's unfinished frame has so far: at most a length and all but the
    /// last byte of the longest body, and none behind a fault of the wire.
    pub fn left(&self) -> u64
        ensures rest { result ≡ length self.now.unread.rest }
        ensures bound { result ≤ BODY_BYTES + 3 }
        ensures fault { OnSome self.now.unread.fault (result ≡ 0) }
    {
        self.unread.left()
    }
}

impl Session {
    fn reason(&self) -> Option<Reason>
        ensures { result ≡ self.now.stance.reason }
    {
        self.stance.reason
    }

    fn reason_at(&self, now: u64) -> Option<Reason>
        ensures { result ≡ tick_reason now self.now.stance }
    {
        self.stance.reason_at(now)
    }

    fn slow_reason(&self, at: u64, now: u64) -> Option<Reason>
        ensures { result ≡ offer_reason at now self.now.stance }
    {
        if slow(at, self.stance.joined, now) {
            return Some(Reason::TooSlow { at, now });
        }
        None
    }

    fn is_ping_due(&self, now: u64) -> bool
        ensures { result ≡ pings_at now self.now.stance }
    {
        self.stance.is_ping_due(now)
    }

    fn end(&mut self, reason: Reason)
        ensures { self.new ≡ over_view reason self.old }
    {
        self.stance.leave(reason);
    }

    fn listen(&mut self, alloc: Global, bytes: &[u8]) -> Result<Listened, NoMemory>
        ensures ok { IfOk result (λ l. IsListened self.old self.new bytes.now l.count l.fault) }
        ensures err { OnErr result (IsSpent self.old self.new) }
    {
        match listen(alloc, &mut self.unread, self.frame, bytes) {
            Ok(listened) => {
                self.frame = self.frame.saturating_add(listened.count);
                Ok(listened)
            }
            Err(e) => {
                self.spent = true;
                Err(e)
            }
        }
    }

    // So many messages came.
    fn count(&mut self, count: u64, now: u64)
        ensures { self.new ≡ record self.old { stance = heard_times now count self.old.stance } }
    {
        self.stance.hear(count, now);
    }

    fn ping(&mut self, alloc: Global, now: u64) -> Result<(), NoMemory>
        ensures ok { OnOk result (self.new ≡ pinged_view now self.old) }
        ensures err { OnErr result (IsSpent self.old self.new) }
    {
        match self.out.push_ping(alloc, now) {
            Ok(()) => {
                self.stance.pinged = now;
                Ok(())
            }
            Err(e) => {
                self.spent = true;
                Err(e)
            }
        }
    }

    // Queues the opening.
    fn admit(&mut self, alloc: Global, crumb: &Crumb, now: u64) -> Result<(), NoMemory>
        ensures ok { OnOk result (self.new ≡ joined_view now crumb.now self.old) }
        ensures err { OnErr result (IsSpent self.old self.new) }
    {
        match self.out.push_opening(alloc, crumb) {
            Ok(()) => {
                self.stance.join(now);
                self.number = crumb.number;
                self.status = crumb.status;
                self.ended = crumb.number;
                self.told = crumb.status;
                self.held = Group::new(alloc);
                Ok(())
            }
            Err(e) => {
                self.spent = true;
                Err(e)
            }
        }
    }
}
