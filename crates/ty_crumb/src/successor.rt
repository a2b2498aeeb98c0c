// The next breadcrumb.
ghost use Rattle.std.specs.Prelude.{◌≡◌, ◌==◌, ◌&&◌, ◌+◌, ◌*◌, ◌^◌, ◌<◌, ◌≤◌, ℕ, Bool, false, cond, List, [], ◌++◌, length, Some, None, IfOk, IfNone, OnOk};
ghost use Rattle.std.specs.List.{fold, filter_map, count_by, cons_option};
ghost use Rattle.ty_base.specs.declared.item.Item.{Item};
ghost use Rattle.ty_base.specs.declared.entry.Entry.{Entry};
ghost use Rattle.ty_base.specs.declared.limits.TheConstants.{INPUT_BYTES};
ghost use Rattle.ty_base.specs.Statuses.{same_status as same};
ghost use Rattle.ty_base.specs.Feed.{after, book, same_world, change, changed, get, put_value, is_update};
ghost use Rattle.ty_map.specs.Ascending.{IsAscending};
ghost use Rattle.ty_map.specs.Fresh.{fresh};
ghost use Rattle.ty_map.specs.Shape.{pairs, height};
ghost use Rattle.ty_dedupe.specs.Pending.{pending, last_status};
ghost use Rattle.ty_base.specs.Batches.{IsBatch, IsClosed, IsNextBatch};
ghost use Rattle.ty_crumb.specs.Batches.{next_entries};
ghost use Rattle.ty_crumb.specs.declared.crumb.Crumb.{Crumb as ACrumb};
ghost use Rattle.ty_crumb.specs.Crumbs.{CrumbStands, world_of, is_unchanged, IfNext, entries_of, IsMadeFor, made_of, IfGivenBack, added, most_fresh};
ghost use Rattle.ty_crumb.specs.steps.Applied.{AreApart};
ghost use Rattle.ty_crumb.specs.steps.Deltas.{updated, deleted, delta_of};
ghost use Rattle.ty_crumb.specs.steps.Following.{IsLike, IsLeftBy, IsMadeOf};

use crate::crumb::Crumb;
use std::alloc::Global;
use ty_base::{Delta, Deltas, Item, Kind, NoMemory, Status, Text, same_status};
use ty_dedupe::{Buffer, Drained};
use ty_map::Pairs;

/// What a batch makes of the last breadcrumb.
#[derive(Drop)]
pub enum Made {
    /// Map and status are as they were.
    Unchanged,
    /// The next breadcrumb.
    Crumb(Crumb),
}

/// What a batch makes of a breadcrumb that is given up for it.
#[derive(Drop)]
pub enum Followed {
    /// Map and status are as they were: the breadcrumb that was given.
    Unchanged(Crumb),
    /// The next breadcrumb.
    Next(Crumb),
}

/// The breadcrumb that a batch makes, at a cut and a time in milliseconds. Nothing is made exactly where the fold of
/// the items over the last breadcrumb's map and status is the same. Else the next number, map and status are the
/// fold's, and the deltas are what changed, each key once, in the order of its first item. The new map's tree has few
/// nodes that the last one lacks.
pub fn next_crumb(
    alloc: Global,
    last: &Crumb,
    items: &[Item],
    cut: u64,
    now: u64,
) -> Result<Made, NoMemory>
    requires batch { IsBatch items.now }
    requires later { last.now.cut ≤ cut }
    requires few { last.now.number < INPUT_BYTES }
    ensures unchanged { IfOk result (λ m. is_unchanged m
        ≡ same_world (world_of last.now) (fold after (world_of last.now) items.now)) }
    ensures entries { IfOk result (λ m. entries_of m
        ≡ next_entries cut (world_of last.now) items.now) }
    ensures number { IfOk result (λ m. IfNext m (λ c. c.number ≡ last.now.number + 1)) }
    ensures at { IfOk result (λ m. IfNext m (λ c. c.at ≡ now)) }
    ensures world { IfOk result (λ m. IfNext m (λ c. world_of c
        ≡ fold after (world_of last.now) items.now)) }
    ensures few { IfOk result (λ m. IfNext m (λ c. fresh last.now.pairs c.pairs
        ≤ most_fresh (length (pairs last.now.pairs)) (count_by is_update items.now))) }
    ensures stands { (entries : List Entry) → CrumbStands last.now entries
        → IfOk result (λ m. IfNext m (λ c. CrumbStands c (entries ++ entries_of m))) }
    ensures book { (ended : Bool) (before : List Item) → IsClosed before
        → IsNextBatch ended before items.now
        → cut ≡ length before + length items.now → CrumbStands last.now (book false before)
        → IfOk result (λ m. IsMadeFor (book false before) (book ended (before ++ items.now)) m) }
{
    // The deltas that led to the last breadcrumb aren't needed.
    let base = Crumb {
        number: last.number,
        status: last.status,
        cut: last.cut,
        at: last.at,
        pairs: last.pairs.copy()?,
        deltas: Deltas::new(alloc),
    };
    let pending = drained(alloc, items)?;
    Ok(made_of(made_after(alloc, base, pending, cut, now)?))
}

/// The same of a breadcrumb that is given up for the next one, and of items that are handed over: what of its map nobody
/// shares changes in place, and the deltas have the items' own keys and values. It is given back where nothing is made. At
/// want of memory it is gone.
pub fn next_crumb_in(
    alloc: Global,
    last: Crumb,
    items: Vec<Item>,
    cut: u64,
    now: u64,
) -> Result<Followed, NoMemory>
    requires batch { IsBatch items.items }
    requires later { last.cut ≤ cut }
    requires few { last.number < INPUT_BYTES }
    ensures unchanged { IfOk result (λ f. is_unchanged (made_of f)
        ≡ same_world (world_of last) (fold after (world_of last) items.items)) }
    ensures given_back { IfOk result (λ f. IfGivenBack f (λ c. c ≡ last)) }
    ensures entries { IfOk result (λ f. entries_of (made_of f)
        ≡ next_entries cut (world_of last) items.items) }
    ensures number { IfOk result (λ f. IfNext (made_of f) (λ c. c.number ≡ last.number + 1)) }
    ensures at { IfOk result (λ f. IfNext (made_of f) (λ c. c.at ≡ now)) }
    ensures world { IfOk result (λ f. IfNext (made_of f) (λ c. world_of c
        ≡ fold after (world_of last) items.items)) }
    ensures few { IfOk result (λ f. IfNext (made_of f) (λ c. fresh last.pairs c.pairs
        ≤ most_fresh (length (pairs last.pairs)) (count_by is_update items.items))) }
    ensures stands { (entries : List Entry) → CrumbStands last entries
        → IfOk result (λ f. IfNext (made_of f) (λ c. CrumbStands c (entries ++ entries_of (made_of f)))) }
    ensures book { (ended : Bool) (before : List Item) → IsClosed before
        → IsNextBatch ended before items.items
        → cut ≡ length before + length items.items → CrumbStands last (book false before)
        → IfOk result (λ f. IsMadeFor (book false before) (book ended (before ++ items.items)) (made_of f)) }
{
    let pending = drained_of(alloc, items)?;
    made_after(alloc, last, pending, cut, now)
}

// The same for each breadcrumb with this number, status and map, and each batch that leaves this pending.
fn made_after(
    alloc: Global,
    last: Crumb,
    pending: Drained,
    cut: u64,
    now: u64,
) -> Result<Followed, NoMemory>
    requires batch { (items : List Item) × IsLeftBy pending items }
    requires few { last.number < INPUT_BYTES }
    ensures made { (held : ACrumb) (items : List Item) → IsLike held last → IsLeftBy pending items
        → IfOk result (λ f. IsMadeOf held items cut now (made_of f)) }
    ensures given_back { IfOk result (λ f. IfGivenBack f (λ c. c ≡ last)) }
{
    let Drained {
        pairs: changes,
        status,
    } = pending;
    let Crumb {
        number,
        status: before,
        cut: last_cut,
        at,
        pairs,
        deltas: last_deltas,
    } = last;
    let status = status.unwrap_or(before);
    let (pairs, deltas) = changed_by(alloc, pairs, changes.into_vec())?;
    if is_same(before, status, &deltas) {
        return Ok(Followed::Unchanged(Crumb {
            number,
            status: before,
            cut: last_cut,
            at,
            pairs,
            deltas: last_deltas,
        }));
    }
    Ok(Followed::Next(Crumb {
        number: number + 1,
        status,
        cut,
        at: now,
        pairs,
        deltas,
    }))
}

// The breadcrumb that was given is let go.
fn made_of(followed: Followed) -> Made
    ensures { result ≡ made_of followed }
{
    match followed {
        Followed::Unchanged(_) => Made::Unchanged,
        Followed::Next(next) => Made::Crumb(next),
    }
}

// Whether nothing changed.
fn is_same(before: Status, after: Status, deltas: &Deltas) -> bool
    ensures { result ≡ ((length deltas.now == 0) && same before after) }
{
    deltas.is_empty() && same_status(before, after)
}

// What the items leave pending.
fn drained(alloc: Global, items: &[Item]) -> Result<Drained, NoMemory>
    ensures pairs { IfOk result (λ d. d.pairs ≡ pending items.now) }
    ensures status { IfOk result (λ d. d.status ≡ last_status items.now) }
{
    let mut buffer = Buffer::new(alloc);
    for item in items {
        buffer.put(alloc, item)?;
    }
    buffer.drain(alloc)
}

// The same of items that are handed over.
fn drained_of(alloc: Global, items: Vec<Item>) -> Result<Drained, NoMemory>
    ensures pairs { IfOk result (λ d. d.pairs ≡ pending items.items) }
    ensures status { IfOk result (λ d. d.status ≡ last_status items.items) }
{
    let mut buffer = Buffer::new(alloc);
    for item in items {
        buffer.take(item)?;
    }
    buffer.drain(alloc)
}

// The map in which each pending key has its value, and what that changes.
fn changed_by(
    alloc: Global,
    last: Pairs,
    pending: Vec<(Text, Option<Text>)>,
) -> Result<(Pairs, Deltas), NoMemory>
    requires { AreApart pending.items }
    ensures deltas { IfOk result (λ r. r.1
        ≡ filter_map (λ p. change p.0 (get (pairs last) p.0) p.1) pending.items) }
    ensures pairs { IfOk result (λ r. pairs r.0 ≡ fold changed (pairs last) r.1) }
    ensures same { IfOk result (λ r. r.1 ≡ [] → r.0 ≡ last) }
    ensures few { IfOk result (λ r. fresh last r.0
        ≤ most_fresh (length (pairs last)) (length pending.items)) }
{
    let mut map = last;
    let mut deltas = Deltas::from_vec(Vec::with_capacity(alloc, pending.len())?);
    for (key, value) in pending {
        let (after, delta) = applied(alloc, map, key, value)?;
        map = after;
        add(&mut deltas, delta)?;
    }
    Ok((map, deltas))
}

// Adds a delta, if there is one.
fn add(deltas: &mut Deltas, delta: Option<Delta>) -> Result<(), NoMemory>
    ensures { OnOk result (deltas.new ≡ deltas.old ++ cons_option delta []) }
{
    match delta {
        None => Ok(()),
        Some(delta) => deltas.push(delta),
    }
}

// The map in which a pending key has its value, and what that changes.
fn applied(
    alloc: Global,
    map: Pairs,
    key: Text,
    value: Option<Text>,
) -> Result<(Pairs, Option<Delta>), NoMemory>
    ensures delta { IfOk result (λ r. r.1 ≡ change key (get (pairs map) key) value) }
    ensures pairs { IfOk result (λ r. pairs r.0 ≡ put_value (pairs map) key value) }
    ensures same { IfOk result (λ r. IfNone r.1 (r.0 ≡ map)) }
    ensures few { IfOk result (λ r. fresh map r.0 ≤ 3 * (height map + 1)) }
    ensures low { 2 ^ height map ≤ (length (pairs map) + 1) ^ 2 }
    ensures ascending { IsAscending (pairs map) }
{
    // Reads the count of pairs, so that their order is known.
    let _all = map.len();
    match value {
        Some(value) => {
            let (map, kind) = map.put_in(alloc, &key, &value)?;
            Ok((map, put_delta(kind, key, value)))
        }
        None => {
            let (map, was) = map.remove_in(alloc, &key)?;
            Ok((map, removed_delta(was, key)))
        }
    }
}

// What a put of a kind changes.
fn put_delta(kind: Option<Kind>, key: Text, value: Text) -> Option<Delta>
    ensures { result ≡ delta_of kind key value }
{
    match kind {
        None => None,
        Some(kind) => match kind {
            Kind::New => Some(added(key, value)),
            Kind::Updated => Some(updated(key, value)),
            // A put deletes nothing.
            Kind::Deleted => None,
        },
    }
}

// What it changes that a key is removed, if it was there.
fn removed_delta(was: bool, key: Text) -> Option<Delta>
    ensures { result ≡ cond was (Some (deleted key)) None }
{
    if was { Some(deleted(key)) } else { None }
}

// The key has a value now.
fn added(key: Text, value: Text) -> Delta
    ensures { result ≡ added key value }
{
    Delta {
        key,
        kind: Kind::New,
        value: Some(value),
    }
}

// The key has another value now.
fn updated(key: Text, value: Text) -> Delta
    ensures { result ≡ updated key value }
{
    Delta {
        key,
        kind: Kind::Updated,
        value: Some(value),
    }
}

// The key has no value any more.
fn deleted(key: Text) -> Delta
    ensures { result ≡ deleted key }
{
    Delta {
        key,
        kind: Kind::Deleted,
        value: None,
    }
}
