// One client with its connection: what it rebuilds, and the session on the server's side.
ghost use Rattle.std.specs.Prelude.{◌≡◌, ◌≤◌, ◌<◌, ◌++◌, ◌∷◌, [], List, ℕ, Option, Some, None, true, length, option_copied, option_map, option_to_list, option_and_then, IfOk, OnOk};
ghost use Rattle.std.specs.List.{list_all};
ghost use Rattle.ty_base.specs.declared.entry.Entry.{Entry};
ghost use Rattle.ty_base.specs.declared.limits.TheConstants.{INPUT_BYTES};
ghost use Rattle.ty_base.specs.Limits.{is_small_entry};
ghost use Rattle.ty_client.specs.Rebuild.{RebuildHeld};
ghost use Rattle.ty_client.specs.Rebuilt.{last_held};
ghost use Rattle.ty_client.specs.Worlds.{rebuilt_after};
ghost use Rattle.ty_core.specs.declared.client.Client.{Client};
ghost use Rattle.ty_core.specs.declared.client.Connection.{Connection};
ghost use Rattle.ty_core.specs.Clients.{Trail, newest, new_link, join_link, hear_link as link_heard, step_link as link_stepped, tick_link as link_ticked, got_with};
ghost use Rattle.ty_core.specs.Answers.{IfFeedFault};
ghost use Rattle.ty_core.specs.Run.{tick_client, hear_fault, get_fault};
ghost use Rattle.ty_core.specs.Report.{told_join, told_hear, told_step, told_cut, told_tick};
ghost use Rattle.ty_core.specs.steps.Links.{AllIsHeard, IsDelivered};
ghost use Rattle.ty_core.specs.Links.{IsLink};
ghost use Rattle.ty_core.specs.Held.{HasHeard, IsLinked, LinkStands, SlotStands};
ghost use Rattle.ty_core.specs.steps.Slots.{AreTrail, LinkOrOver, SlotMoves, SlotGets, LinkGets, LinkHears, is_greeted_phase, is_joined_phase, is_over_session, ends_or_still, reason_told};

use crate::chain::Chain;
use crate::fault::WorldFault;
use crate::told::{Told, one, two};
use std::alloc::Global;
use ty_base::{NoMemory, Text};
use ty_client::{At, Heard, Rebuild};
use ty_intake::IntakeFault;
use ty_session::{Gone, Phase, Reason, Session};

/// What a client rebuilds, and the session of its connection, if it has one.
#[derive(Drop)]
pub struct Slot {
    pub(crate) rebuild: Rebuild,
    pub(crate) session: Option<Session>,
}

impl Slot {
    // No connection, and no map is held.
    pub(crate) fn new(alloc: Global) -> Slot
        ensures { (es : List Entry) → SlotStands result es (record { held = None; link = None }) }
    {
        Slot {
            rebuild: Rebuild::new(alloc),
            session: None,
        }
    }

    // The bytes on their way down.
    pub(crate) fn queued(&self) -> Option<&[u8]>
        ensures { option_copied result ≡ option_map (λ s. s.out) self.now.session }
    {
        match &self.session {
            Some(session) => Some(session.out()),
            None => None,
        }
    }

    // The number that the session stands at.
    pub(crate) fn offered(&self) -> Option<u64>
        ensures { result ≡ option_map (λ s. s.number) self.now.session }
    {
        match &self.session {
            Some(session) => Some(session.number()),
            None => None,
        }
    }

    // What the client holds.
    pub(crate) fn held(&self) -> Option<&At>
        ensures { option_copied result ≡ self.now.rebuild.held }
    {
        self.rebuild.held()
    }
}

// Opening and cutting

pub(crate) fn join(alloc: Global, slot: &mut Slot, c: u64, now: u64) -> Result<Vec<Told>, NoMemory>
    ensures { IfOk result (λ told. (es : List Entry) (k : Client) → SlotStands slot.old es k
        → SlotMoves slot.new es (record k { link = join_link now k.link }) told.items (told_join c k.link)) }
{
    if slot.session.is_some() {
        return one(alloc, Told::Present(c));
    }
    let session = open(alloc, &mut slot.rebuild, now)?;
    slot.session = Some(session);
    Ok(one(alloc, Told::Opened(c))?)
}

// A new connection, of which the client has said its hello.
fn open(alloc: Global, rebuild: &mut Rebuild, now: u64) -> Result<Session, NoMemory>
    ensures link { IfOk result (λ s. (es : List Entry) → HasHeard rebuild.old
        → IsLinked rebuild.new s es (new_link now)) }
    ensures held { rebuild.new.held ≡ rebuild.old.held }
{
    let host = Text::of(alloc, "follower")?;
    rebuild.lost();
    rebuild.hello(alloc, &host)?;
    Ok(Session::new(alloc, now))
}

pub(crate) fn cut(alloc: Global, slot: &mut Slot, c: u64) -> Result<Vec<Told>, NoMemory>
    ensures { IfOk result (λ told. (es : List Entry) (k : Client) → SlotStands slot.old es k
        → SlotMoves slot.new es (record k { link = None }) told.items (told_cut c k.link)) }
{
    if slot.session.is_none() {
        return one(alloc, Told::Absent(c));
    }
    slot.session = None;
    one(alloc, Told::Lost(c))
}

// Hearing

pub(crate) fn hear(
    alloc: Global,
    chain: &Chain,
    slot: &mut Slot,
    c: u64,
    now: u64,
) -> Result<Vec<Told>, WorldFault>
    ensures ok { IfOk result (λ told. (t : Trail) (k : Client) → AreTrail chain.now.crumbs.items t
        → SlotStands slot.old t.entries k
        → SlotMoves slot.new t.entries (record k { link = option_map (link_heard (newest t) now) k.link }) told.items (told_hear (newest t) c k.link)) }
    ensures good { OnOk result ((t : Trail) (k : Client) → AreTrail chain.now.crumbs.items t
        → SlotStands slot.old t.entries k → hear_fault t.entries k.link ≡ None) }
    ensures fault { IfFeedFault result (λ f. (t : Trail) (k : Client) → AreTrail chain.now.crumbs.items t
        → SlotStands slot.old t.entries k → hear_fault t.entries k.link ≡ Some f) }
{
    match &mut slot.session {
        None => Ok(one(alloc, Told::Absent(c))?),
        Some(session) => hear_link(alloc, chain, &mut slot.rebuild, session, c, now),
    }
}

fn hear_link(
    alloc: Global,
    chain: &Chain,
    rebuild: &mut Rebuild,
    session: &mut Session,
    c: u64,
    now: u64,
) -> Result<Vec<Told>, WorldFault>
    ensures ok { IfOk result (λ told. (t : Trail) (k : Connection) → AreTrail chain.now.crumbs.items t
        → IsLinked rebuild.old session.old t.entries k
        → LinkHears rebuild.new session.new t.entries k now c told.items) }
    ensures fault { IfFeedFault result (λ f. (t : Trail) (k : Connection) → AreTrail chain.now.crumbs.items t
        → IsLinked rebuild.old session.old t.entries k → hear_fault t.entries (Some k) ≡ Some f) }
    ensures held { rebuild.new.held ≡ rebuild.old.held }
{
    match hear_all(alloc, rebuild, session, now) {
        Ok(count) => Ok(welcome(alloc, chain, session, c, now, count)?),
        Err(fault) => Err(fault),
    }
}

// So many messages of the client were heard. It joins the last breadcrumb, where its hello was among them.
fn welcome(
    alloc: Global,
    chain: &Chain,
    session: &mut Session,
    c: u64,
    now: u64,
    count: u64,
) -> Result<Vec<Told>, NoMemory>
    ensures { IfOk result (λ told. (rebuild : RebuildHeld) (t : Trail) (k : Connection) (before : List (List ℕ))
        → AreTrail chain.now.crumbs.items t → AllIsHeard rebuild session.old t.entries now k before count
        → LinkHears rebuild session.new t.entries k now c told.items) }
{
    if !is_greeted(session) {
        return Ok(one(alloc, Told::Heard(c, count))?);
    }
    let newest = chain.newest();
    session.join(alloc, chain.crumb(newest), now)?;
    Ok(two(alloc, Told::Heard(c, count), Told::Joined(c, newest))?)
}

fn is_greeted(session: &Session) -> bool
    ensures { result ≡ is_greeted_phase session.now.stance.phase }
{
    matches!(session.phase(), Phase::Greeted)
}

// The session hears all that is on its way up.
fn hear_all(
    alloc: Global,
    rebuild: &mut Rebuild,
    session: &mut Session,
    now: u64,
) -> Result<u64, WorldFault>
    ensures heard { IfOk result (λ count. (es : List Entry) (k : Connection) (before : List (List ℕ))
        → list_all is_small_entry es ≡ true → length es < INPUT_BYTES
        → IsLink rebuild.old session.old es k before
        → AllIsHeard rebuild.new session.new es now k before count) }
    ensures fault { IfFeedFault result (λ f. (es : List Entry) (k : Connection) (before : List (List ℕ))
        → list_all is_small_entry es ≡ true → length es < INPUT_BYTES
        → IsLink rebuild.old session.old es k before → hear_fault es (Some k) ≡ Some f) }
    ensures held { rebuild.new.held ≡ rebuild.old.held }
{
    let len = rebuild.up().len();
    match session.hear(alloc, rebuild.up(), now) {
        Ok(count) => {
            rebuild.up_given(len);
            Ok(count)
        }
        Err(Gone::Left(_)) => Err(WorldFault::Feed(IntakeFault::TooMuch)),
        Err(Gone::NoMemory) => Err(WorldFault::NoMemory),
    }
}

// Stepping

pub(crate) fn step(
    alloc: Global,
    chain: &Chain,
    slot: &mut Slot,
    c: u64,
    now: u64,
) -> Result<Vec<Told>, NoMemory>
    ensures { IfOk result (λ told. (t : Trail) (k : Client) → AreTrail chain.now.crumbs.items t
        → SlotStands slot.old t.entries k
        → SlotMoves slot.new t.entries (record k { link = option_and_then (link_stepped t now) k.link }) told.items (told_step t now c k.link)) }
{
    let told = step_session(alloc, chain, &mut slot.session, c, now)?;
    drop_over(&mut slot.session);
    Ok(one(alloc, told)?)
}

fn step_session(
    alloc: Global,
    chain: &Chain,
    session: &mut Option<Session>,
    c: u64,
    now: u64,
) -> Result<Told, NoMemory>
    ensures link { OnOk result ((rebuild : RebuildHeld) (t : Trail) (link : Option Connection) → AreTrail chain.now.crumbs.items t
        → LinkStands rebuild session.old t.entries link
        → LinkOrOver rebuild session.new t.entries (option_and_then (link_stepped t now) link)) }
    ensures told { IfOk result (λ told. (rebuild : RebuildHeld) (t : Trail) (link : Option Connection) → AreTrail chain.now.crumbs.items t
        → LinkStands rebuild session.old t.entries link → told ∷ [] ≡ told_step t now c link) }
{
    match session {
        None => Ok(Told::Absent(c)),
        Some(session) => Ok(step_link(alloc, chain, session, c, now)?),
    }
}

fn step_link(
    alloc: Global,
    chain: &Chain,
    session: &mut Session,
    c: u64,
    now: u64,
) -> Result<Told, NoMemory>
    ensures link { OnOk result ((rebuild : RebuildHeld) (t : Trail) (k : Connection) → AreTrail chain.now.crumbs.items t
        → IsLinked rebuild session.old t.entries k
        → LinkOrOver rebuild (Some session.new) t.entries (link_stepped t now k)) }
    ensures told { IfOk result (λ told. (rebuild : RebuildHeld) (t : Trail) (k : Connection) → AreTrail chain.now.crumbs.items t
        → IsLinked rebuild session.old t.entries k → told ∷ [] ≡ told_step t now c (Some k)) }
{
    if !is_joined(session) {
        return Ok(Told::Waiting(c));
    }
    let number = session.number();
    if number >= chain.newest() {
        session.idle(alloc)?;
        return Ok(Told::Pending(c, number));
    }
    let crumb = chain.crumb(number + 1);
    match session.offer(alloc, crumb, now) {
        Ok(()) => Ok(Told::Stepped(c, number + 1)),
        Err(Gone::Left(_)) => Ok(Told::TooSlow(c, crumb.at, now)),
        Err(Gone::NoMemory) => Err(NoMemory),
    }
}

fn is_joined(session: &Session) -> bool
    ensures { result ≡ is_joined_phase session.now.stance.phase }
{
    matches!(session.phase(), Phase::Joined)
}

// A session that is over is dropped.
fn drop_over(session: &mut Option<Session>)
    ensures { (rebuild : RebuildHeld) (es : List Entry) (link : Option Connection)
        → LinkOrOver rebuild session.old es link → LinkStands rebuild session.new es link }
{
    if is_over(session) {
        *session = None;
    }
}

fn is_over(session: &Option<Session>) -> bool
    ensures { result ≡ is_over_session session.now }
{
    match session {
        None => false,
        Some(session) => matches!(session.phase(), Phase::Over),
    }
}

// Delivery

pub(crate) fn get(alloc: Global, slot: &mut Slot, c: u64, n: u64) -> Result<Vec<Told>, WorldFault>
    ensures ok { IfOk result (λ told. (es : List Entry) (k : Client) → list_all is_small_entry es ≡ true
        → length es < INPUT_BYTES → SlotStands slot.old es k
        → SlotGets slot.new es k n c told.items) }
    ensures fault { IfFeedFault result (λ f. (es : List Entry) (k : Client) → list_all is_small_entry es ≡ true
        → length es < INPUT_BYTES → SlotStands slot.old es k → get_fault es n k.link ≡ Some f) }
{
    match &mut slot.session {
        None => Ok(one(alloc, Told::Absent(c))?),
        Some(session) => get_link(alloc, &mut slot.rebuild, session, c, n),
    }
}

fn get_link(
    alloc: Global,
    rebuild: &mut Rebuild,
    session: &mut Session,
    c: u64,
    n: u64,
) -> Result<Vec<Told>, WorldFault>
    ensures ok { IfOk result (λ told. (es : List Entry) (k : Connection) (held : Option ℕ) → list_all is_small_entry es ≡ true
        → length es < INPUT_BYTES → IsLinked rebuild.old session.old es k
        → rebuild.old.held ≡ option_map (rebuilt_after es) held
        → LinkGets rebuild.new session.new es k n c held told.items) }
    ensures fault { IfFeedFault result (λ f. (es : List Entry) (k : Connection) → list_all is_small_entry es ≡ true
        → length es < INPUT_BYTES → IsLinked rebuild.old session.old es k
        → get_fault es n (Some k) ≡ Some f) }
{
    let heard = deliver(alloc, rebuild, session, n)?;
    if heard.fault.is_some() {
        return Err(WorldFault::Feed(IntakeFault::TooMuch));
    }
    Ok(told_ends(alloc, rebuild.held(), c, heard.ats.as_slice())?)
}

// So many bytes on their way down reach the client.
fn deliver(
    alloc: Global,
    rebuild: &mut Rebuild,
    session: &mut Session,
    n: u64,
) -> Result<Heard, NoMemory>
    ensures short { IfOk result (λ h. (es : List Entry) (k : Connection) (before : List (List ℕ)) → list_all is_small_entry es ≡ true
        → length es < INPUT_BYTES → IsLink rebuild.old session.old es k before → got_with es k n < INPUT_BYTES
        → IsDelivered rebuild.new session.new es k before n h.ats h.fault) }
    ensures good { IfOk result (λ h. (es : List Entry) (k : Connection) (before : List (List ℕ))
        → IsLink rebuild.old session.old es k before → h.fault ≡ None → got_with es k n < INPUT_BYTES) }
    ensures held { IfOk result (λ h. rebuild.new.held ≡ last_held rebuild.old.held h.ats) }
{
    let out = session.out();
    let count = (n as usize).min(out.len());
    let heard = rebuild.feed(alloc, &out[..count])?;
    session.given(count);
    Ok(heard)
}

// The crumb ends that came, or else what is still held.
fn told_ends(alloc: Global, held: Option<&At>, c: u64, ats: &[At]) -> Result<Vec<Told>, NoMemory>
    ensures { IfOk result (λ told. told.items ≡ ends_or_still c (option_copied held.entry) ats.now) }
{
    if ats.is_empty() {
        let held = copy_held(held)?;
        return one(alloc, Told::Still(c, held));
    }
    let mut told = Vec::new(alloc);
    for at in ats {
        told.push(Told::Rebuilt(c, at.copy()?))?;
    }
    Ok(told)
}

fn copy_held(held: Option<&At>) -> Result<Option<At>, NoMemory>
    ensures { IfOk result (λ a. a ≡ option_copied held.entry) }
{
    match held {
        Some(at) => Ok(Some(at.copy()?)),
        None => Ok(None),
    }
}

// Time

// Time has passed. It tells why the connection is over, if it is.
pub(crate) fn tick(
    alloc: Global,
    slot: &mut Slot,
    c: u64,
    now: u64,
) -> Result<Option<Told>, NoMemory>
    ensures { IfOk result (λ told. (es : List Entry) (k : Client) → SlotStands slot.old es k
        → SlotMoves slot.new es (tick_client now k) (option_to_list told) (told_tick now c k.link)) }
{
    let told = tick_session(alloc, &mut slot.session, c, now)?;
    drop_over(&mut slot.session);
    Ok(told)
}

fn tick_session(
    alloc: Global,
    session: &mut Option<Session>,
    c: u64,
    now: u64,
) -> Result<Option<Told>, NoMemory>
    ensures link { OnOk result ((rebuild : RebuildHeld) (es : List Entry) (link : Option Connection)
        → LinkStands rebuild session.old es link
        → LinkOrOver rebuild session.new es (option_and_then (link_ticked now) link)) }
    ensures told { IfOk result (λ told. (rebuild : RebuildHeld) (es : List Entry) (link : Option Connection)
        → LinkStands rebuild session.old es link → option_to_list told ≡ told_tick now c link) }
{
    match session {
        None => Ok(None),
        Some(session) => Ok(tick_link(alloc, session, c, now)?),
    }
}

fn tick_link(
    alloc: Global,
    session: &mut Session,
    c: u64,
    now: u64,
) -> Result<Option<Told>, NoMemory>
    ensures link { OnOk result ((rebuild : RebuildHeld) (es : List Entry) (k : Connection)
        → IsLinked rebuild session.old es k
        → LinkOrOver rebuild (Some session.new) es (link_ticked now k)) }
    ensures told { IfOk result (λ told. (rebuild : RebuildHeld) (es : List Entry) (k : Connection)
        → IsLinked rebuild session.old es k → option_to_list told ≡ told_tick now c (Some k)) }
{
    match session.tick(alloc, now) {
        Ok(()) => Ok(None),
        Err(Gone::Left(reason)) => Ok(told_reason(c, reason)),
        Err(Gone::NoMemory) => Err(NoMemory),
    }
}

fn told_reason(c: u64, reason: Reason) -> Option<Told>
    ensures { result ≡ reason_told c reason }
{
    match reason {
        Reason::NoHello { opened, now } => Some(Told::NoHello(c, opened, now)),
        Reason::NoPong { heard, now } => Some(Told::NoPong(c, heard, now)),
        _ => None,
    }
}
