// A list that contracts see as its elements in order.
use crate::text::NoMemory;
use std::alloc::Global;
use std::marker::Model;

/// A list of any length, kept in one `Vec`.
#[derive(Drop)]
pub struct List<T> {
    list: Vec<T>,
}

impl<T> Model for List<T> {
    ghost use Rattle.std.specs.Prelude.{List as Seq};
    ghost use base.Stored.{coded_list};

    ghost Value = { Seq T };

    ghost coded = { coded_list T.code };

    ghost view = { λ l. l.list.items };
}

impl<T> List<T> {
    ghost use Rattle.std.specs.Prelude.{◌≡◌, ◌==◌, [], ◌∷◌, ◌++◌, ◌<◌, length, slice_get, OnOk, OnErr};

    /// The empty list.
    pub fn new(alloc: Global) -> List<T>
        ensures { result ≡ [] }
    {
        List {
            list: Vec::new(alloc),
        }
    }

    /// A list that is handed over, without a copy.
    pub fn from_vec(list: Vec<T>) -> List<T>
        ensures { result ≡ list.items }
    {
        List { list }
    }

    /// The list as a `Vec`, without a copy.
    pub fn into_vec(self) -> Vec<T>
        ensures { result.items ≡ self }
    {
        let List { list } = self;
        list
    }

    /// How many elements there are.
    pub fn len(&self) -> usize
        ensures { result ≡ length self.now }
    {
        self.list.len()
    }

    /// Whether there are none.
    pub fn is_empty(&self) -> bool
        ensures { result ≡ (length self.now == 0) }
    {
        self.list.is_empty()
    }

    /// The element at a place, from 0.
    pub fn at(&self, i: usize) -> &T
        requires { i < length self.now }
        ensures { slice_get self.now i ≡ Some result.now }
    {
        &self.list[i]
    }

    /// All of them, in order.
    pub fn as_slice(&self) -> &[T]
        ensures { result.now ≡ self.now }
    {
        &self.list
    }
}

impl<T: Drop> List<T> {
    ghost use Rattle.std.specs.Prelude.{◌≡◌, [], ◌∷◌, ◌++◌, OnOk, OnErr};

    /// Adds one at the end. Want of memory leaves the list as it was, and drops the element.
    pub fn push(&mut self, element: T) -> Result<(), NoMemory>
        ensures ok { OnOk result (self.new ≡ self.old ++ element ∷ []) }
        ensures err { OnErr result (self.new ≡ self.old) }
    {
        self.list.push(element)?;
        Ok(())
    }
}
