// Many sessions in one thread, to which breadcrumbs are offered.
use crate::batch::next;
use crate::frames::append;
use std::alloc::Global;
use ty_base::{GROUP_AGE, NoMemory, Text};
use ty_crumb::Crumb;
use ty_group::Encoded;
use ty_session::{Gone, Session};
use ty_wire::Msg;

/// How often a breadcrumb's deltas are encoded.
#[derive(Clone, Copy)]
pub(crate) enum Encoding {
    /// Once for each session.
    Each,
    /// Once for all sessions.
    Encoded,
}

/// When a breadcrumb is offered.
#[derive(Clone, Copy)]
pub(crate) enum Offering {
    /// At once: 100 puts, each breadcrumb a group of its own.
    Fresh,
    /// Late: 33 puts, three breadcrumbs held as one group.
    Held,
}

/// What was delivered.
#[derive(Clone, Copy)]
pub(crate) struct Delivered {
    pub crumbs: u64,
    /// How often a breadcrumb was offered to a session.
    pub deliveries: u64,
    /// All bytes that were queued, those of the openings too.
    pub bytes: u64,
}

impl Offering {
    fn puts(self) -> u64 {
        match self {
            Offering::Fresh => 100,
            Offering::Held => 33,
        }
    }

    // When a breadcrumb that was made at `at` is offered.
    fn time(self, at: u64) -> u64 {
        match self {
            Offering::Fresh => at,
            Offering::Held => at.saturating_add(GROUP_AGE),
        }
    }

    // Whether no breadcrumb comes behind this one for a while.
    fn is_idle_after(self, number: u64) -> bool {
        match self {
            Offering::Fresh => false,
            Offering::Held => number % 3 == 0,
        }
    }
}

/// Offers so many breadcrumbs to so many sessions, and takes what is queued after each.
pub(crate) fn deliver(
    alloc: Global,
    count: u64,
    crumbs: u64,
    encoding: Encoding,
    offering: Offering,
) -> Result<Delivered, Gone> {
    let mut crumb = Crumb::first(alloc, 0);
    let mut sessions = joined_all(alloc, count, &crumb)?;
    let mut done = Delivered {
        crumbs: 0,
        deliveries: 0,
        bytes: taken_of_all(&mut sessions),
    };
    for _ in 0..crumbs {
        let Some(made) = next(alloc, &crumb, offering.puts())? else {
            return Ok(done);
        };
        crumb = made;
        let bytes = offer_all(alloc, &mut sessions, &crumb, encoding, offering)?;
        done.crumbs = done.crumbs.saturating_add(1);
        done.deliveries = done.deliveries.saturating_add(sessions.len() as u64);
        done.bytes = done.bytes.saturating_add(bytes);
    }
    Ok(done)
}

fn hello(alloc: Global) -> Result<Vec<u8>, NoMemory> {
    let mut bytes = Vec::new(alloc);
    let message = Msg::ClientHello {
        version: 1,
        host: Text::of(alloc, "node-1")?,
    };
    append(alloc, &message, &mut bytes)?;
    Ok(bytes)
}

// Sessions whose clients have said hello and joined.
fn joined_all(alloc: Global, count: u64, first: &Crumb) -> Result<Vec<Session>, Gone> {
    let hello = hello(alloc)?;
    let mut sessions = Vec::new(alloc);
    for _ in 0..count {
        let session = joined(alloc, &hello, first)?;
        add(&mut sessions, session)?;
    }
    Ok(sessions)
}

fn add(sessions: &mut Vec<Session>, session: Session) -> Result<(), NoMemory> {
    sessions.push(session)?;
    Ok(())
}

fn joined(alloc: Global, hello: &[u8], first: &Crumb) -> Result<Session, Gone> {
    let mut session = Session::new(alloc, first.at);
    session.hear(alloc, hello, first.at)?;
    session.join(alloc, first, first.at)?;
    Ok(session)
}

// Takes what is queued, and tells how many bytes it was.
fn taken(session: &mut Session) -> u64 {
    let len = session.out().len();
    session.given(len);
    len as u64
}

fn taken_of_all(sessions: &mut [Session]) -> u64 {
    let mut bytes: u64 = 0;
    for session in sessions {
        bytes = bytes.saturating_add(taken(session));
    }
    bytes
}

// Offers a breadcrumb to all sessions, and tells how many bytes were taken.
fn offer_all(
    alloc: Global,
    sessions: &mut [Session],
    crumb: &Crumb,
    encoding: Encoding,
    offering: Offering,
) -> Result<u64, Gone> {
    let now = offering.time(crumb.at);
    let bytes = match encoding {
        Encoding::Each => offer_each(alloc, sessions, crumb, now)?,
        Encoding::Encoded => offer_encoded(alloc, sessions, crumb, now)?,
    };
    if !offering.is_idle_after(crumb.number) {
        return Ok(bytes);
    }
    Ok(bytes.saturating_add(idle_all(alloc, sessions)?))
}

fn offer_each(
    alloc: Global,
    sessions: &mut [Session],
    crumb: &Crumb,
    now: u64,
) -> Result<u64, Gone> {
    let mut bytes: u64 = 0;
    for session in sessions {
        session.offer(alloc, crumb, now)?;
        bytes = bytes.saturating_add(taken(session));
    }
    Ok(bytes)
}

fn offer_encoded(
    alloc: Global,
    sessions: &mut [Session],
    crumb: &Crumb,
    now: u64,
) -> Result<u64, Gone> {
    let encoded = Encoded::of(alloc, &crumb.deltas)?;
    let mut bytes: u64 = 0;
    for session in sessions {
        session.offer_encoded(alloc, crumb, &encoded, now)?;
        bytes = bytes.saturating_add(taken(session));
    }
    Ok(bytes)
}

// Tells all sessions that there is no next breadcrumb now.
fn idle_all(alloc: Global, sessions: &mut [Session]) -> Result<u64, Gone> {
    let mut bytes: u64 = 0;
    for session in sessions {
        session.idle(alloc)?;
        bytes = bytes.saturating_add(taken(session));
    }
    Ok(bytes)
}
