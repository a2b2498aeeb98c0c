// How many nodes of a tree an older one lacks.
ghost use Rattle.std.specs.Prelude.{◌≡◌, ◌≤◌, length};
ghost use Rattle.ty_base.specs.Feed.{same_pair};
ghost use Rattle.ty_map.specs.Fresh.{fresh, same_shape, is_subtree};
ghost use Rattle.ty_map.specs.Nodes.{pair_of};
ghost use Rattle.ty_map.specs.Shape.{pairs};

use crate::pairs::Pairs;
use crate::tree::{Pair, Tree};

/// How many nodes of the tree of `new` are in no subtree of that of `old`, where trees are compared as values. It looks
/// through the whole of `old` for each of them, so it is for measuring.
pub fn fresh_nodes(old: &Pairs, new: &Pairs) -> u64
    ensures value { result ≡ fresh old.now new.now }
    ensures within { result ≤ length (pairs new.now) }
{
    fresh_in(old.tree(), new.tree())
}

// The same of two trees.
fn fresh_in(old: &Tree, new: &Tree) -> u64
    ensures value { result ≡ fresh old.now new.now }
    ensures within { result ≤ length (pairs new.now) }
{
    let Some((left, _, right)) = new.sides() else {
        return 0;
    };
    if is_part(new, old) {
        return 0;
    }
    // The count of all pairs is a number of the type, so what is counted here is one too.
    let _all = new.len();
    1 + fresh_in(old, left) + fresh_in(old, right)
}

// Whether a tree is one of the subtrees of another.
fn is_part(tree: &Tree, whole: &Tree) -> bool
    ensures { result ≡ is_subtree tree.now whole.now }
{
    if is_same(tree, whole) {
        return true;
    }
    match whole.sides() {
        None => false,
        Some((left, _, right)) => is_part(tree, left) || is_part(tree, right),
    }
}

// Whether two trees are one, as values.
fn is_same(one: &Tree, other: &Tree) -> bool
    ensures { result ≡ same_shape one.now other.now }
{
    match one.sides() {
        None => match other.sides() {
            None => true,
            Some(_) => false,
        },
        Some((left, pair, right)) => match other.sides() {
            None => false,
            Some((before, entry, after)) => {
                same_entry(pair, entry)
                    && one.height() == other.height()
                    && is_same(left, before)
                    && is_same(right, after)
            }
        },
    }
}

fn same_entry(one: &Pair, other: &Pair) -> bool
    ensures { result ≡ same_pair (pair_of one.now) (pair_of other.now) }
{
    one.key.same(&other.key) && one.value.same(&other.value)
}
