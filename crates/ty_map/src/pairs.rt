// The map.
ghost use Rattle.std.specs.Prelude.{◌≡◌, ◌==◌, ◌^◌, ◌*◌, ◌+◌, ◌≤◌, length, false, is_some, IfOk, IfNone};
ghost use Rattle.std.specs.Option.{option_copied};
ghost use Rattle.ty_base.specs.Feed.{insert, remove, get};
ghost use Rattle.ty_map.specs.Ascending.{IsAscending};
ghost use Rattle.ty_map.specs.Changes.{kind_of_put};
ghost use Rattle.ty_map.specs.Fresh.{fresh};
ghost use Rattle.ty_map.specs.Shape.{Empty, pairs, height, IsBalanced};

use crate::tree::{Pair, Tree};
use crate::walk::Walk;
use std::alloc::Global;
use std::marker::Model;
use std::sync::Arc;
use ty_base::{Kind, NoMemory, Text};

/// An ordered map from texts to texts that never changes: `put` and `remove` give a new one, which shares with the
/// old what they have in common. Contracts see it as the tree that it keeps. `pairs` of that tree is the map: its pairs,
/// in ascending order of the keys' bytes.
#[derive(Drop)]
pub struct Pairs {
    tree: Tree,
}

impl Model for Pairs {
    ghost use Rattle.ty_map.specs.Shape.{Shape};
    ghost use Rattle.ty_map.specs.steps.Code.{shape_code};

    ghost Value = { Shape };

    ghost coded = { shape_code };

    ghost view = { λ p. p.tree };
}

impl Pairs {
    /// The empty map, which takes no memory.
    pub fn empty() -> Pairs
        ensures { result ≡ Empty }
    {
        Pairs {
            tree: Tree::empty(),
        }
    }

    /// The same map, with an equal tree. It takes no memory, and fails only where a node's count of sharers is full.
    pub fn copy(&self) -> Result<Pairs, NoMemory>
        ensures { IfOk result (λ p. p ≡ self.now) }
    {
        Ok(Pairs {
            tree: self.tree.copy()?,
        })
    }

    /// How many pairs there are. No key stands twice.
    pub fn len(&self) -> usize
        ensures count { result ≡ length (pairs self.now) }
        ensures ascending { IsAscending (pairs self.now) }
    {
        self.tree.len()
    }

    /// Whether there are none.
    pub fn is_empty(&self) -> bool
        ensures { result ≡ (length (pairs self.now) == 0) }
    {
        self.tree.len() == 0
    }

    /// The value of a key, if it has one.
    pub fn get(&self, key: &Text) -> Option<&Text>
        ensures { option_copied result ≡ get (pairs self.now) key.now }
    {
        self.tree.get(key)
    }

    /// The map with this value at this key, both of which are copied once. New are at most three nodes for each level of
    /// the tree and three more.
    pub fn put(&self, alloc: Global, key: &Text, value: &Text) -> Result<Pairs, NoMemory>
        ensures pairs { IfOk result (λ p. pairs p ≡ insert (pairs self.now) key.now value.now) }
        ensures few { IfOk result (λ p. fresh self.now p ≤ 3 * (height self.now + 1)) }
        ensures low { 2 ^ height self.now ≤ (length (pairs self.now) + 1) ^ 2 }
    {
        // Reads the height, so that its bound is known.
        let _height = self.tree.height();
        let pair = Pair {
            key: key.copy(alloc)?,
            value: value.copy(alloc)?,
        };
        let pair = Arc::new(alloc, pair)?;
        Ok(Pairs {
            tree: self.tree.put(alloc, pair)?,
        })
    }

    /// The same of a map that is given up, and the kind of the change, or `None` where the key had this very value: then
    /// nothing is written. Nodes that no other map shares change in place, and only the others are copied. At want of
    /// memory the map is gone.
    pub fn put_in(
        self,
        alloc: Global,
        key: &Text,
        value: &Text,
    ) -> Result<(Pairs, Option<Kind>), NoMemory>
        ensures pairs { IfOk result (λ r. pairs r.0 ≡ insert (pairs self) key.now value.now) }
        ensures kind { IfOk result (λ r. r.1 ≡ kind_of_put (pairs self) key.now value.now) }
        ensures same { IfOk result (λ r. IfNone r.1 (r.0 ≡ self)) }
        ensures few { IfOk result (λ r. fresh self r.0 ≤ 3 * (height self + 1)) }
        ensures low { 2 ^ height self ≤ (length (pairs self) + 1) ^ 2 }
    {
        let Pairs { tree } = self;
        // Reads the height, so that its bound is known.
        let _height = tree.height();
        let (tree, kind) = tree.put_in(alloc, key, value)?;
        Ok((Pairs { tree }, kind))
    }

    /// The map without this key; an equal map where it wasn't there. New are as few nodes as by `put`.
    pub fn remove(&self, alloc: Global, key: &Text) -> Result<Pairs, NoMemory>
        ensures pairs { IfOk result (λ p. pairs p ≡ remove (pairs self.now) key.now) }
        ensures few { IfOk result (λ p. fresh self.now p ≤ 3 * (height self.now + 1)) }
        ensures low { 2 ^ height self.now ≤ (length (pairs self.now) + 1) ^ 2 }
    {
        let _height = self.tree.height();
        Ok(Pairs {
            tree: self.tree.remove(alloc, key)?,
        })
    }

    /// The same of a map that is given up, as by `put_in`, and whether the key was there. Where it wasn't, nothing is
    /// written.
    pub fn remove_in(self, alloc: Global, key: &Text) -> Result<(Pairs, bool), NoMemory>
        ensures pairs { IfOk result (λ r. pairs r.0 ≡ remove (pairs self) key.now) }
        ensures held { IfOk result (λ r. r.1 ≡ is_some (get (pairs self) key.now)) }
        ensures same { IfOk result (λ r. r.1 ≡ false → r.0 ≡ self) }
        ensures few { IfOk result (λ r. fresh self r.0 ≤ 3 * (height self + 1)) }
        ensures low { 2 ^ height self ≤ (length (pairs self) + 1) ^ 2 }
    {
        let Pairs { tree } = self;
        let _height = tree.height();
        let (tree, was) = tree.remove_in(alloc, key)?;
        Ok((Pairs { tree }, was))
    }

    /// The pairs in ascending order of the keys' bytes. Only this call takes memory, and no step of the walk.
    pub fn walk(&self, alloc: Global) -> Result<Walk<'_>, NoMemory>
        ensures pairs { IfOk result (λ w. w ≡ pairs self.now) }
        ensures ascending { IsAscending (pairs self.now) }
    {
        // Reads the count of pairs, so that their order is known.
        let _all = self.tree.len();
        Walk::of(alloc, &self.tree)
    }

    /// The tree that the map keeps.
    pub fn tree(&self) -> &Tree
        ensures { result.now ≡ self.now }
    {
        &self.tree
    }

    /// How high that tree is, in nodes: no higher than its balance asks, and no lower than its pairs do.
    pub fn height(&self) -> u64
        ensures value { result ≡ height self.now }
        ensures balanced { IsBalanced self.now }
        ensures low { 2 ^ result ≤ (length (pairs self.now) + 1) ^ 2 }
        ensures high { length (pairs self.now) + 1 ≤ 2 ^ result }
    {
        self.tree.height()
    }
}
