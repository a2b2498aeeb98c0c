// The buffer.
ghost use Rattle.std.specs.Prelude.{◌≡◌, ◌≤◌, List, [], ◌∷◌, ◌++◌, map, length, vec_len, vec_capacity, IfOk, OnOk, OnErr};
ghost use Rattle.std.specs.Str.{bytes_eq};
ghost use Rattle.indexmap.specs.IndexMap.{insert_entry};
ghost use Rattle.ty_base.specs.declared.item.Item.{Item};
ghost use Rattle.ty_dedupe.specs.Pending.{pending, last_status, BufferStands, shown};

use crate::drained::{Changes, Drained};
use indexmap::IndexMap;
use std::alloc::Global;
use std::marker::Model;
use std::mem;
use ty_base::{Item, NoMemory, Status, Text};

/// Items that wait to be drained. Of the items about one key only the last is kept, at the place of the first.
#[derive(Drop)]
pub struct Buffer {
    pairs: IndexMap<String, Option<Text>>,
    status: Option<Status>,
}

impl Model for Buffer {
    ghost use Rattle.std.specs.Prelude.{ℕ, List, Option, map};
    ghost use Rattle.ty_base.specs.declared.status.Status.{Status};
    ghost use Rattle.ty_dedupe.specs.Pending.{shown};

    ghost Value = { List (List ℕ × Option (List ℕ)) × Option Status };

    ghost view = { λ b. (map shown b.pairs.entries, b.status) };
}

impl Buffer {
    /// A buffer in which nothing is pending. It takes no memory.
    pub fn new(alloc: Global) -> Buffer
        ensures { BufferStands result [] }
    {
        Buffer {
            pairs: IndexMap::new(alloc),
            status: None,
        }
    }

    /// Takes in one more item. A key that is pending keeps its place, and a new one goes last; a status takes the
    /// place of the one before; a blank line does nothing. Want of memory leaves the buffer as it was.
    pub fn put(&mut self, alloc: Global, item: &Item) -> Result<(), NoMemory>
        ensures ok { (items : List Item) → BufferStands self.old items
            → OnOk result (BufferStands self.new (items ++ item.now ∷ [])) }
        ensures err { OnErr result (self.new ≡ self.old) }
    {
        let item = copied(alloc, item)?;
        self.take(item)
    }

    /// The same of an item that is handed over: neither its key nor its value is copied. At want of memory it is gone.
    pub fn take(&mut self, item: Item) -> Result<(), NoMemory>
        ensures ok { (items : List Item) → BufferStands self.old items
            → OnOk result (BufferStands self.new (items ++ item ∷ [])) }
        ensures err { OnErr result (self.new ≡ self.old) }
    {
        match item {
            Item::Put { key, value } => note(&mut self.pairs, key, Some(value))?,
            Item::Del { key } => note(&mut self.pairs, key, None)?,
            Item::State(status) => self.status = Some(status),
            Item::Mark => {}
        }
        Ok(())
    }

    /// Gives all that is pending, and empties the buffer. Want of memory leaves the buffer as it was.
    pub fn drain(&mut self, alloc: Global) -> Result<Drained, NoMemory>
        ensures pairs { (items : List Item) → BufferStands self.old items
            → IfOk result (λ d. d.pairs ≡ pending items) }
        ensures status { (items : List Item) → BufferStands self.old items
            → IfOk result (λ d. d.status ≡ last_status items) }
        ensures emptied { OnOk result (BufferStands self.new []) }
        ensures err { OnErr result (self.new ≡ self.old) }
    {
        let pairs = taken(&mut self.pairs, alloc)?;
        let status = mem::replace(&mut self.status, None);
        Ok(Drained {
            pairs: Changes::from_vec(pairs),
            status,
        })
    }
}

// Another item that says the same.
fn copied(alloc: Global, item: &Item) -> Result<Item, NoMemory>
    ensures { IfOk result (λ x. x ≡ item.now) }
{
    match item {
        Item::Put { key, value } => Ok(Item::Put {
            key: key.copy(alloc)?,
            value: value.copy(alloc)?,
        }),
        Item::Del { key } => Ok(Item::Del {
            key: key.copy(alloc)?,
        }),
        Item::State(status) => Ok(Item::State(*status)),
        Item::Mark => Ok(Item::Mark),
    }
}

// Puts a key's new value at the key's place, or behind all others.
fn note(
    pairs: &mut IndexMap<String, Option<Text>>,
    key: Text,
    value: Option<Text>,
) -> Result<(), NoMemory>
    ensures ok { OnOk result (map shown pairs.new.entries
        ≡ insert_entry bytes_eq (map shown pairs.old.entries) key value) }
    ensures err { OnErr result (pairs.new.entries ≡ pairs.old.entries) }
{
    let key = key.into_string();
    pairs.insert(key, value)?;
    Ok(())
}

// All pairs, in order, out of a map that is empty then.
fn taken(
    pairs: &mut IndexMap<String, Option<Text>>,
    alloc: Global,
) -> Result<Vec<(Text, Option<Text>)>, NoMemory>
    ensures ok { IfOk result (λ v. v.items ≡ map shown pairs.old.entries) }
    ensures emptied { OnOk result (pairs.new.entries ≡ []) }
    ensures err { OnErr result (pairs.new.entries ≡ pairs.old.entries) }
{
    let list = Vec::with_capacity(alloc, pairs.len())?;
    let all = mem::replace(pairs, IndexMap::new(alloc));
    Ok(moved(all, list))
}

// The pairs of a map, moved to a list that has room for them.
fn moved(
    all: IndexMap<String, Option<Text>>,
    list: Vec<(Text, Option<Text>)>,
) -> Vec<(Text, Option<Text>)>
    requires empty { list.items ≡ [] }
    requires none { vec_len list ≡ 0 }
    requires room { length all.entries ≤ vec_capacity list }
    ensures { result.items ≡ map shown all.entries }
{
    let mut list = list;
    for (key, value) in all {
        let Ok(()) = list.push((Text::from_string(key), value)) else {
            unreachable!()
        };
    }
    list
}
