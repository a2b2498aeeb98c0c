// A tree's pairs, one after another.
ghost use Rattle.std.specs.Prelude.{◌≡◌, ◌+◌, ◌≤◌, ◌++◌, vec_len, vec_capacity, IfOk};
ghost use Rattle.std.specs.Iterator.{YieldsFirstBy, item_count};
ghost use Rattle.ty_map.specs.Shape.{pairs, height};
ghost use Rattle.ty_map.specs.Stack.{stacked, rest};
ghost use Rattle.ty_map.specs.steps.Stack.{HasRoom};

use crate::tree::Tree;
use std::alloc::Global;
use std::marker::Model;
use ty_base::{NoMemory, Text};

/// The pairs of a map that are still to come, in ascending order of their keys' bytes. It holds at most as many
/// references as the map's tree is high, and each step takes no memory.
#[derive(Drop)]
pub struct Walk<'a> {
    stack: Vec<&'a Tree>,
}

impl<'a> Model for Walk<'a> {
    ghost use Rattle.std.specs.Prelude.{ℕ, List, vec_capacity};
    ghost use Rattle.ty_map.specs.Stack.{stacked, rest};
    ghost use Rattle.ty_map.specs.steps.Stack.{HasRoom};

    ghost Value = { List (List ℕ × List ℕ) };

    ghost view = { λ w. rest (stacked w.stack.items) };

    ghost invariant = { λ w. HasRoom (vec_capacity w.stack) (stacked w.stack.items) };
}

impl<'a> Walk<'a> {
    /// Before the first pair of a tree.
    pub(crate) fn of(alloc: Global, tree: &'a Tree) -> Result<Walk<'a>, NoMemory>
        ensures { IfOk result (λ w. w ≡ pairs tree.now) }
    {
        let mut stack = Vec::with_capacity(alloc, tree.height() as usize)?;
        descend(&mut stack, tree);
        Ok(Walk { stack })
    }
}

impl<'a> Iterator for Walk<'a> {
    type Item = (&'a Text, &'a Text);

    ghost next_gives = { YieldsFirstBy (λ p. (p.0.now, p.1.now)) (λ s. s) };

    ghost remaining = { item_count (λ s. s) };

    fn next(&mut self) -> Option<(&'a Text, &'a Text)> {
        let tree = self.stack.pop()?;
        let Some((_, pair, right)) = tree.sides() else {
            unreachable!()
        };
        descend(&mut self.stack, right);
        Some((&pair.key, &pair.value))
    }
}

// Puts a tree and then each left side on the stack, so that its first pair comes next.
fn descend<'a>(stack: &mut Vec<&'a Tree>, tree: &'a Tree)
    requires room { HasRoom (vec_capacity stack.old) (stacked stack.old.items) }
    requires fits { height tree.now + vec_len stack.old ≤ vec_capacity stack.old }
    ensures room { HasRoom (vec_capacity stack.new) (stacked stack.new.items) }
    ensures rest { rest (stacked stack.new.items)
        ≡ pairs tree.now ++ rest (stacked stack.old.items) }
{
    let Some((left, _, _)) = tree.sides() else {
        return;
    };
    let Ok(()) = stack.push(tree) else {
        unreachable!()
    };
    descend(stack, left);
}
