// An AVL tree whose nodes are shared, seen as its shape.
ghost use Rattle.std.specs.Prelude.{◌≡◌, ℕ, ◌*◌, ◌+◌, ◌^◌, ◌<◌, ◌≤◌, max, ◌∷◌, ◌++◌, length, false, Some, is_some, IfOk, IfNone, IfSome};
ghost use Rattle.std.specs.Option.{option_copied};
ghost use Rattle.std.specs.Arc.{arc_value};
ghost use Rattle.ty_base.specs.declared.delta.Kind.TheVariants.{New};
ghost use Rattle.ty_base.specs.Feed.{insert, remove, get, change};
ghost use Rattle.ty_map.specs.Ascending.{IsAscending};
ghost use Rattle.ty_map.specs.Changes.{kind_of, kind_of_put};
ghost use Rattle.ty_map.specs.Fresh.{fresh};
ghost use Rattle.ty_map.specs.steps.Tree.{AtMostFresh, IsHeightAfterRebalance, IsSound, IsOpen, settled};
ghost use Rattle.ty_map.specs.Nodes.{pair_of};
ghost use Rattle.ty_map.specs.Shape.{Shape, Empty, Fork, pairs, height, IsBalanced, DifferByAtMost};

use std::alloc::Global;
use std::cmp::Ordering;
use std::marker::Model;
use std::mem;
use std::sync::Arc;
use ty_base::{Kind, NoMemory, Text};

/// A key and its value.
#[derive(Drop)]
pub struct Pair {
    pub key: Text,
    pub value: Text,
}

/// A binary search tree of pairs whose sides differ in height by at most one, at every node. Contracts see it as
/// its shape: every pair and height at its place. It never changes; a new tree shares the nodes that stay.
#[cycle(tree)]
#[derive(Drop)]
pub struct Tree {
    root: Root,
}

#[cycle(tree)]
#[derive(Drop)]
enum Root {
    Leaf,
    Node(Arc<Node>),
}

#[cycle(tree)]
#[derive(Drop)]
struct Node {
    left: Tree,
    pair: Arc<Pair>,
    right: Tree,
    height: u64,
    count: usize,
}

impl Model for Tree {
    ghost use Rattle.std.specs.Prelude.{ℕ, length};
    ghost use Rattle.ty_map.specs.Shape.{Shape, pairs};

    ghost Value = { Shape };

    ghost use Rattle.ty_map.specs.steps.Code.{shape_code};

    ghost coded = { shape_code };

    ghost use Rattle.ty_map.specs.Nodes.{shape_of};
    ghost use Rattle.ty_map.specs.steps.Tree.{IsAvl};

    ghost view = { λ a. shape_of a.root };

    ghost invariant = { λ a. IsAvl a.root };

    ghost size = { λ s. length (pairs s) };

    ghost use Rattle.std.proofs.Common.{arith, length-append};

    ghost size_decreases = { λ a h. Prim.grind (arith, length-append) };
}

impl Tree {
    /// The empty tree, which takes no memory.
    pub fn empty() -> Tree
        ensures { result ≡ Empty }
    {
        Tree { root: Root::Leaf }
    }

    /// How many pairs there are.
    pub fn len(&self) -> usize
        ensures count { result ≡ length (pairs self.now) }
        ensures ascending { IsAscending (pairs self.now) }
    {
        match &self.root {
            Root::Leaf => 0,
            Root::Node(node) => node.count,
        }
    }

    /// How many nodes stand on the longest way down.
    pub fn height(&self) -> u64
        ensures value { result ≡ height self.now }
        ensures balanced { IsBalanced self.now }
        ensures low { 2 ^ result ≤ (length (pairs self.now) + 1) ^ 2 }
        ensures high { length (pairs self.now) + 1 ≤ 2 ^ result }
    {
        match &self.root {
            Root::Leaf => 0,
            Root::Node(node) => node.height,
        }
    }

    /// The left side, the pair and the right side of the topmost node, if there is one.
    pub fn sides(&self) -> Option<(&Tree, &Pair, &Tree)>
        ensures none { IfNone result (self.now ≡ Empty) }
        ensures some { IfSome result (λ s. self.now
            ≡ Fork s.0.now (pair_of s.1.now) s.2.now (height self.now)) }
        ensures lower { IfSome result (λ s. (height s.0.now < height self.now)
            × (height s.2.now < height self.now)) }
    {
        match &self.root {
            Root::Leaf => None,
            Root::Node(node) => {
                let pair: &Pair = &node.pair;
                Some((&node.left, pair, &node.right))
            }
        }
    }

    /// The tree with a pair put in.
    pub fn put(&self, alloc: Global, pair: Arc<Pair>) -> Result<Tree, NoMemory>
        ensures pairs { IfOk result (λ t. pairs t
            ≡ insert (pairs self.now) (arc_value pair).key (arc_value pair).value) }
        ensures not_lower { IfOk result (λ t. height self.now ≤ height t) }
        ensures at_most_one_higher { IfOk result (λ t. height t ≤ height self.now + 1) }
        ensures fresh { IfOk result (λ t. fresh self.now t ≤ 3 * (height self.now + 1)) }
    {
        match &self.root {
            Root::Leaf => join(alloc, Tree::empty(), pair, Tree::empty()),
            Root::Node(node) => match pair.key.compare(&node.pair.key) {
                Ordering::Less => {
                    let left = node.left.put(alloc, pair)?;
                    balance(alloc, left, Arc::try_clone(&node.pair)?, node.right.copy()?)
                }
                Ordering::Greater => {
                    let right = node.right.put(alloc, pair)?;
                    balance(alloc, node.left.copy()?, Arc::try_clone(&node.pair)?, right)
                }
                Ordering::Equal => join(alloc, node.left.copy()?, pair, node.right.copy()?),
            },
        }
    }

    /// The tree with a value put at a key, and the kind of that change, or none where the key has this very value: then
    /// nothing is written. This tree is given up: its nodes that no other tree shares change in place, and only the others
    /// are copied.
    pub fn put_in(
        self,
        alloc: Global,
        key: &Text,
        value: &Text,
    ) -> Result<(Tree, Option<Kind>), NoMemory>
        ensures pairs { IfOk result (λ r. pairs r.0 ≡ insert (pairs self) key.now value.now) }
        ensures kind { IfOk result (λ r. r.1 ≡ kind_of_put (pairs self) key.now value.now) }
        ensures same { IfOk result (λ r. IfNone r.1 (r.0 ≡ self)) }
        ensures not_lower { IfOk result (λ r. height self ≤ height r.0) }
        ensures at_most_one_higher { IfOk result (λ r. height r.0 ≤ height self + 1) }
        ensures fresh { IfOk result (λ r. AtMostFresh self r.0 (3 * (height self + 1))) }
    {
        let Tree { root } = self;
        match root {
            Root::Leaf => put_first(alloc, key, value),
            Root::Node(mut held) => {
                let Some(node) = Arc::get_mut(&mut held) else {
                    let shared = Tree {
                        root: Root::Node(held),
                    };
                    return put_shared(alloc, shared, key, value);
                };
                match key.compare(&node.pair.key) {
                    Ordering::Less => {
                        let left = mem::replace(&mut node.left, Tree::empty());
                        let (height, count) = (left.height(), left.len());
                        let (left, kind) = left.put_in(alloc, key, value)?;
                        match set_left(alloc, node, left, height, count)? {
                            Some(turned) => Ok((turned, kind)),
                            None => Ok((
                                Tree {
                                    root: Root::Node(held),
                                },
                                kind,
                            )),
                        }
                    }
                    Ordering::Greater => {
                        let right = mem::replace(&mut node.right, Tree::empty());
                        let (height, count) = (right.height(), right.len());
                        let (right, kind) = right.put_in(alloc, key, value)?;
                        match set_right(alloc, node, right, height, count)? {
                            Some(turned) => Ok((turned, kind)),
                            None => Ok((
                                Tree {
                                    root: Root::Node(held),
                                },
                                kind,
                            )),
                        }
                    }
                    Ordering::Equal => {
                        let kind = write(alloc, &mut node.pair, key, value)?;
                        Ok((
                            Tree {
                                root: Root::Node(held),
                            },
                            kind,
                        ))
                    }
                }
            }
        }
    }

    /// The tree with no pair of a key.
    pub fn remove(&self, alloc: Global, key: &Text) -> Result<Tree, NoMemory>
        ensures pairs { IfOk result (λ t. pairs t ≡ remove (pairs self.now) key.now) }
        ensures not_higher { IfOk result (λ t. height t ≤ height self.now) }
        ensures at_most_one_lower { IfOk result (λ t. height self.now ≤ height t + 1) }
        ensures fresh { IfOk result (λ t. fresh self.now t ≤ 3 * (height self.now + 1)) }
    {
        match &self.root {
            Root::Leaf => Ok(Tree::empty()),
            Root::Node(node) => match key.compare(&node.pair.key) {
                Ordering::Less => {
                    let left = node.left.remove(alloc, key)?;
                    balance(alloc, left, Arc::try_clone(&node.pair)?, node.right.copy()?)
                }
                Ordering::Greater => {
                    let right = node.right.remove(alloc, key)?;
                    balance(alloc, node.left.copy()?, Arc::try_clone(&node.pair)?, right)
                }
                Ordering::Equal => match node.right.split_first(alloc)? {
                    None => node.left.copy(),
                    Some((first, right)) => balance(alloc, node.left.copy()?, first, right),
                },
            },
        }
    }

    /// The tree with no pair of a key, and whether there was one. This tree is given up, as by `put_in`.
    pub fn remove_in(self, alloc: Global, key: &Text) -> Result<(Tree, bool), NoMemory>
        ensures pairs { IfOk result (λ r. pairs r.0 ≡ remove (pairs self) key.now) }
        ensures held { IfOk result (λ r. r.1 ≡ is_some (get (pairs self) key.now)) }
        ensures same { IfOk result (λ r. r.1 ≡ false → r.0 ≡ self) }
        ensures not_higher { IfOk result (λ r. height r.0 ≤ height self) }
        ensures at_most_one_lower { IfOk result (λ r. height self ≤ height r.0 + 1) }
        ensures fresh { IfOk result (λ r. AtMostFresh self r.0 (3 * (height self + 1))) }
    {
        let Tree { root } = self;
        match root {
            Root::Leaf => Ok((Tree::empty(), false)),
            Root::Node(mut held) => {
                let Some(node) = Arc::get_mut(&mut held) else {
                    let shared = Tree {
                        root: Root::Node(held),
                    };
                    return remove_shared(alloc, shared, key);
                };
                match key.compare(&node.pair.key) {
                    Ordering::Less => {
                        let left = mem::replace(&mut node.left, Tree::empty());
                        let (height, count) = (left.height(), left.len());
                        let (left, was) = left.remove_in(alloc, key)?;
                        match set_left(alloc, node, left, height, count)? {
                            Some(turned) => Ok((turned, was)),
                            None => Ok((
                                Tree {
                                    root: Root::Node(held),
                                },
                                was,
                            )),
                        }
                    }
                    Ordering::Greater => {
                        let right = mem::replace(&mut node.right, Tree::empty());
                        let (height, count) = (right.height(), right.len());
                        let (right, was) = right.remove_in(alloc, key)?;
                        match set_right(alloc, node, right, height, count)? {
                            Some(turned) => Ok((turned, was)),
                            None => Ok((
                                Tree {
                                    root: Root::Node(held),
                                },
                                was,
                            )),
                        }
                    }
                    Ordering::Equal => {
                        let left = mem::replace(&mut node.left, Tree::empty());
                        match node.right.split_first(alloc)? {
                            None => Ok((left, true)),
                            Some((first, right)) => {
                                let rest = balance(alloc, left, first, right)?;
                                Ok((rest, true))
                            }
                        }
                    }
                }
            }
        }
    }

    // The first pair, and the tree without it.
    fn split_first(&self, alloc: Global) -> Result<Option<(Arc<Pair>, Tree)>, NoMemory>
        ensures none { IfOk result (λ o. IfNone o (self.now ≡ Empty)) }
        ensures pairs { IfOk result (λ o. IfSome o (λ p. pairs self.now
            ≡ pair_of (arc_value p.0) ∷ pairs p.1)) }
        ensures not_higher { IfOk result (λ o. IfSome o (λ p. height p.1 ≤ height self.now)) }
        ensures at_most_one_lower { IfOk result (λ o. IfSome o (λ p. height self.now ≤ height p.1 + 1)) }
        ensures fresh { IfOk result (λ o. IfSome o (λ p. AtMostFresh self.now p.1 (3 * height self.now))) }
    {
        match &self.root {
            Root::Leaf => Ok(None),
            Root::Node(node) => match node.left.split_first(alloc)? {
                None => Ok(Some((Arc::try_clone(&node.pair)?, node.right.copy()?))),
                Some((first, left)) => {
                    let rest = balance(
                        alloc,
                        left,
                        Arc::try_clone(&node.pair)?,
                        node.right.copy()?,
                    )?;
                    Ok(Some((first, rest)))
                }
            },
        }
    }

    /// The value of a key, if it has one.
    pub fn get(&self, key: &Text) -> Option<&Text>
        ensures { option_copied result ≡ get (pairs self.now) key.now }
    {
        match &self.root {
            Root::Leaf => None,
            Root::Node(node) => match key.compare(&node.pair.key) {
                Ordering::Less => node.left.get(key),
                Ordering::Greater => node.right.get(key),
                Ordering::Equal => Some(&node.pair.value),
            },
        }
    }

    /// The same tree, which shares every node and takes no memory. It fails only where a node's count of sharers is full.
    pub fn copy(&self) -> Result<Tree, NoMemory>
        ensures { IfOk result (λ t. t ≡ self.now) }
    {
        match &self.root {
            Root::Leaf => Ok(Tree::empty()),
            Root::Node(node) => {
                let node = Arc::try_clone(node)?;
                Ok(Tree {
                    root: Root::Node(node),
                })
            }
        }
    }
}

// A new pair of copies.
fn new_pair(alloc: Global, key: &Text, value: &Text) -> Result<Arc<Pair>, NoMemory>
    ensures { IfOk result (λ p. pair_of (arc_value p) ≡ (key.now, value.now)) }
{
    let pair = Pair {
        key: key.copy(alloc)?,
        value: value.copy(alloc)?,
    };
    Ok(Arc::new(alloc, pair)?)
}

// The tree of one new pair.
fn put_first(alloc: Global, key: &Text, value: &Text) -> Result<(Tree, Option<Kind>), NoMemory>
    ensures tree { IfOk result (λ r. r.0 ≡ Fork Empty (key.now, value.now) Empty 1) }
    ensures kind { IfOk result (λ r. r.1 ≡ Some New) }
{
    let pair = new_pair(alloc, key, value)?;
    let tree = join(alloc, Tree::empty(), pair, Tree::empty())?;
    Ok((tree, Some(Kind::New)))
}

// A tree whose topmost node is shared, with a value put at a key: it is looked up first, so that nothing is copied where
// nothing changes.
fn put_shared(
    alloc: Global,
    tree: Tree,
    key: &Text,
    value: &Text,
) -> Result<(Tree, Option<Kind>), NoMemory>
    ensures pairs { IfOk result (λ r. pairs r.0 ≡ insert (pairs tree) key.now value.now) }
    ensures kind { IfOk result (λ r. r.1 ≡ kind_of_put (pairs tree) key.now value.now) }
    ensures same { IfOk result (λ r. IfNone r.1 (r.0 ≡ tree)) }
    ensures not_lower { IfOk result (λ r. height tree ≤ height r.0) }
    ensures at_most_one_higher { IfOk result (λ r. height r.0 ≤ height tree + 1) }
    ensures fresh { IfOk result (λ r. AtMostFresh tree r.0 (3 * (height tree + 1))) }
{
    // Reads the count of pairs, so that their order is known.
    let _all = tree.len();
    match change_by(tree.get(key), key, value) {
        None => Ok((tree, None)),
        Some(kind) => {
            let pair = new_pair(alloc, key, value)?;
            Ok((tree.put(alloc, pair)?, Some(kind)))
        }
    }
}

// The same where a key is removed.
fn remove_shared(alloc: Global, tree: Tree, key: &Text) -> Result<(Tree, bool), NoMemory>
    ensures pairs { IfOk result (λ r. pairs r.0 ≡ remove (pairs tree) key.now) }
    ensures held { IfOk result (λ r. r.1 ≡ is_some (get (pairs tree) key.now)) }
    ensures same { IfOk result (λ r. r.1 ≡ false → r.0 ≡ tree) }
    ensures not_higher { IfOk result (λ r. height r.0 ≤ height tree) }
    ensures at_most_one_lower { IfOk result (λ r. height tree ≤ height r.0 + 1) }
    ensures fresh { IfOk result (λ r. AtMostFresh tree r.0 (3 * (height tree + 1))) }
{
    let _all = tree.len();
    match tree.get(key) {
        None => Ok((tree, false)),
        Some(_) => Ok((tree.remove(alloc, key)?, true)),
    }
}

// How a key changes that is given a value.
fn change_by(held: Option<&Text>, key: &Text, value: &Text) -> Option<Kind>
    ensures { result ≡ kind_of (change key.now (option_copied held.entry) (Some value.now)) }
{
    match held {
        None => Some(Kind::New),
        Some(old) => {
            if old.same(value) {
                None
            } else {
                Some(Kind::Updated)
            }
        }
    }
}

// Writes the value of a key's pair where it has another, in place where no other tree has this pair.
fn write(
    alloc: Global,
    pair: &mut Arc<Pair>,
    key: &Text,
    value: &Text,
) -> Result<Option<Kind>, NoMemory>
    requires { (arc_value pair.old).key ≡ key.now }
    ensures pair { IfOk result (λ _. pair_of (arc_value pair.new) ≡ (key.now, value.now)) }
    ensures kind { IfOk result (λ k. k
        ≡ kind_of (change key.now (Some (arc_value pair.old).value) (Some value.now))) }
    ensures same { IfOk result (λ k. IfNone k (pair_of (arc_value pair.new) ≡ pair_of (arc_value pair.old))) }
{
    if pair.value.same(value) {
        return Ok(None);
    }
    match Arc::get_mut(pair) {
        Some(alone) => alone.value = value.copy(alloc)?,
        None => *pair = new_pair(alloc, key, value)?,
    }
    Ok(Some(Kind::Updated))
}

// Gives a node whose left side was taken out another one: in place where it is as high as that was, else as a new tree.
fn set_left(
    alloc: Global,
    node: &mut Node,
    left: Tree,
    before: u64,
    count: usize,
) -> Result<Option<Tree>, NoMemory>
    requires sorted { IsAscending (pairs left ++ pair_of (arc_value node.old.pair) ∷ pairs node.old.right) }
    requires near { DifferByAtMost 2 (height left) (height node.old.right) }
    requires open { IsOpen node.old before count node.old.right }
    ensures sound { IfOk result (λ o. IfNone o (IsSound node.new)) }
    ensures pairs { IfOk result (λ o. pairs (settled node.new o)
        ≡ pairs left ++ pair_of (arc_value node.old.pair) ∷ pairs node.old.right) }
    ensures height { IfOk result (λ o. IsHeightAfterRebalance (height left) (height node.old.right) (height (settled node.new o))) }
    ensures kept { height left ≡ before → IfOk result (λ o. settled node.new o ≡ Fork left (pair_of (arc_value node.old.pair)) node.old.right node.old.height) }
    ensures fresh { (old : Shape) (a b : ℕ) → AtMostFresh old left a → AtMostFresh old node.old.right b
        → IfOk result (λ o. AtMostFresh old (settled node.new o) (a + b + 3)) }
{
    if left.height() != before {
        let right = mem::replace(&mut node.right, Tree::empty());
        let turned = balance(alloc, left, Arc::try_clone(&node.pair)?, right)?;
        return Ok(Some(turned));
    }
    node.count = recount(node.count, count, left.len())?;
    node.left = left;
    Ok(None)
}

// The same of the right side.
fn set_right(
    alloc: Global,
    node: &mut Node,
    right: Tree,
    before: u64,
    count: usize,
) -> Result<Option<Tree>, NoMemory>
    requires sorted { IsAscending (pairs node.old.left ++ pair_of (arc_value node.old.pair) ∷ pairs right) }
    requires near { DifferByAtMost 2 (height node.old.left) (height right) }
    requires open { IsOpen node.old before count node.old.left }
    ensures sound { IfOk result (λ o. IfNone o (IsSound node.new)) }
    ensures pairs { IfOk result (λ o. pairs (settled node.new o)
        ≡ pairs node.old.left ++ pair_of (arc_value node.old.pair) ∷ pairs right) }
    ensures height { IfOk result (λ o. IsHeightAfterRebalance (height node.old.left) (height right) (height (settled node.new o))) }
    ensures kept { height right ≡ before → IfOk result (λ o. settled node.new o ≡ Fork node.old.left (pair_of (arc_value node.old.pair)) right node.old.height) }
    ensures fresh { (old : Shape) (a b : ℕ) → AtMostFresh old node.old.left a → AtMostFresh old right b
        → IfOk result (λ o. AtMostFresh old (settled node.new o) (a + b + 3)) }
{
    if right.height() != before {
        let left = mem::replace(&mut node.left, Tree::empty());
        let turned = balance(alloc, left, Arc::try_clone(&node.pair)?, right)?;
        return Ok(Some(turned));
    }
    node.count = recount(node.count, count, right.len())?;
    node.right = right;
    Ok(None)
}

// The count of a whole of which a part went from one count to another.
fn recount(whole: usize, from: usize, to: usize) -> Result<usize, NoMemory>
    requires { from ≤ whole }
    ensures { IfOk result (λ n. n + from ≡ whole + to) }
{
    let rest = whole - from;
    // No memory holds so many nodes.
    if to > usize::MAX - rest {
        return Err(NoMemory);
    }
    Ok(rest + to)
}

// Joins sides whose heights differ by at most two.
fn balance(alloc: Global, left: Tree, pair: Arc<Pair>, right: Tree) -> Result<Tree, NoMemory>
    requires sorted { IsAscending (pairs left ++ pair_of (arc_value pair) ∷ pairs right) }
    requires near { DifferByAtMost 2 (height left) (height right) }
    ensures pairs { IfOk result (λ t. pairs t
        ≡ pairs left ++ pair_of (arc_value pair) ∷ pairs right) }
    ensures height { IfOk result (λ t. IsHeightAfterRebalance (height left) (height right) (height t)) }
    ensures fresh { (old : Shape) (a b : ℕ) → AtMostFresh old left a → AtMostFresh old right b
        → IfOk result (λ t. AtMostFresh old t (a + b + 3)) }
{
    let (hl, hr) = (left.height(), right.height());
    if hl > hr && hl - hr > 1 {
        lean_left(alloc, left, pair, right)
    } else if hr > hl && hr - hl > 1 {
        lean_right(alloc, left, pair, right)
    } else {
        join(alloc, left, pair, right)
    }
}

// Joins sides of which the left is two higher: one rotation, or two where its inner side is the higher one.
fn lean_left(alloc: Global, left: Tree, pair: Arc<Pair>, right: Tree) -> Result<Tree, NoMemory>
    requires sorted { IsAscending (pairs left ++ pair_of (arc_value pair) ∷ pairs right) }
    requires two_higher { height left ≡ height right + 2 }
    ensures pairs { IfOk result (λ t. pairs t
        ≡ pairs left ++ pair_of (arc_value pair) ∷ pairs right) }
    ensures not_lower { IfOk result (λ t. height left ≤ height t) }
    ensures at_most_one_higher { IfOk result (λ t. height t ≤ height left + 1) }
    ensures fresh { (old : Shape) (a b : ℕ) → AtMostFresh old left a → AtMostFresh old right b
        → IfOk result (λ t. AtMostFresh old t (a + b + 3)) }
{
    let Root::Node(outer) = &left.root else {
        unreachable!()
    };
    let top = Arc::try_clone(&outer.pair)?;
    if outer.left.height() >= outer.right.height() {
        let low = join(alloc, outer.right.copy()?, pair, right)?;
        return join(alloc, outer.left.copy()?, top, low);
    }
    let Root::Node(inner) = &outer.right.root else {
        unreachable!()
    };
    let low = join(alloc, outer.left.copy()?, top, inner.left.copy()?)?;
    let high = join(alloc, inner.right.copy()?, pair, right)?;
    join(alloc, low, Arc::try_clone(&inner.pair)?, high)
}

// The same with the right two higher.
fn lean_right(alloc: Global, left: Tree, pair: Arc<Pair>, right: Tree) -> Result<Tree, NoMemory>
    requires sorted { IsAscending (pairs left ++ pair_of (arc_value pair) ∷ pairs right) }
    requires two_higher { height right ≡ height left + 2 }
    ensures pairs { IfOk result (λ t. pairs t
        ≡ pairs left ++ pair_of (arc_value pair) ∷ pairs right) }
    ensures not_lower { IfOk result (λ t. height right ≤ height t) }
    ensures at_most_one_higher { IfOk result (λ t. height t ≤ height right + 1) }
    ensures fresh { (old : Shape) (a b : ℕ) → AtMostFresh old left a → AtMostFresh old right b
        → IfOk result (λ t. AtMostFresh old t (a + b + 3)) }
{
    let Root::Node(outer) = &right.root else {
        unreachable!()
    };
    let top = Arc::try_clone(&outer.pair)?;
    if outer.right.height() >= outer.left.height() {
        let low = join(alloc, left, pair, outer.left.copy()?)?;
        return join(alloc, low, top, outer.right.copy()?);
    }
    let Root::Node(inner) = &outer.left.root else {
        unreachable!()
    };
    let low = join(alloc, left, pair, inner.left.copy()?)?;
    let high = join(alloc, inner.right.copy()?, top, outer.right.copy()?)?;
    join(alloc, low, Arc::try_clone(&inner.pair)?, high)
}

// Makes one node.
fn join(alloc: Global, left: Tree, pair: Arc<Pair>, right: Tree) -> Result<Tree, NoMemory>
    requires sorted { IsAscending (pairs left ++ pair_of (arc_value pair) ∷ pairs right) }
    requires balanced { DifferByAtMost 1 (height left) (height right) }
    ensures { IfOk result (λ t. t
        ≡ Fork left (pair_of (arc_value pair)) right (max (height left) (height right) + 1)) }
{
    // Reads both sides' roots, so that what their type keeps is known.
    let (_, _) = (&left.root, &right.root);
    let below = left.height().max(right.height());
    let (before, after) = (left.len(), right.len());
    // No memory holds so many nodes.
    if below == u64::MAX || before >= usize::MAX - after {
        return Err(NoMemory);
    }
    let node = Node {
        left,
        pair,
        right,
        height: below + 1,
        count: before + after + 1,
    };
    Ok(Tree {
        root: Root::Node(Arc::new(alloc, node)?),
    })
}
