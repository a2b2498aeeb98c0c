// Breadcrumbs and sessions for the tests.

mod groups;
mod rows;

use crate::batches::is_batch;
use std::alloc::Global;
use ty_base::{Item, NoMemory, Text};
use ty_crumb::{Crumb, Made, next_crumb};
use ty_session::Session;

const HELLO: &[u8] = b"\x00\x00\x00,{\"host\":\"n1\",\"m\":\"client_hello\",\"version\":1}";

const READY: &str = "/calico/v1/Ready";

// The breadcrumb that items make, at time 0.
fn made_of(alloc: Global, last: &Crumb, items: &[Item]) -> Result<Crumb, NoMemory> {
    if !is_batch(items) || last.number >= 1 << 40 {
        return Err(NoMemory);
    }
    match next_crumb(alloc, last, items, last.cut, 0)? {
        Made::Crumb(crumb) => Ok(crumb),
        Made::Unchanged => Err(NoMemory),
    }
}

// Breadcrumb 1: one key, and the status as before.
fn ready(alloc: Global, first: &Crumb) -> Result<Crumb, NoMemory> {
    let mut items = Vec::new(alloc);
    items.push(Item::Put {
        key: Text::of(alloc, READY)?,
        value: Text::of(alloc, "true")?,
    })?;
    made_of(alloc, first, &items)
}

fn give_all(session: &mut Session) {
    let len = session.out().len();
    session.given(len);
}

// A session that was opened, heard its hello and joined breadcrumb 0 at 0, and has had all its
// bytes given.
fn joined(alloc: Global, first: &Crumb) -> Result<Session, NoMemory> {
    let mut session = Session::new(alloc, 0);
    if session.hear(alloc, HELLO, 0).is_err() {
        return Err(NoMemory);
    }
    session.join(alloc, first, 0)?;
    give_all(&mut session);
    Ok(session)
}
