// A search tree, seen as its pairs by rising key. Its nodes come from outside and are given back, so that no change takes
// memory. It is kept balanced: the sides of a node are to differ in height by one at most, which no clause says, since a tree
// of any shape has the same pairs; that it holds shows in the time alone, in bench/keys.
ghost use Rattle.std.specs.Prelude.{◌≡◌, [], ◌∷◌, ◌++◌, option_map, is_some, if◌then◌else◌};
ghost use Rattle.std.specs.Bool.{IsTrue};
ghost use Rattle.std.specs.FinMap.{is_sorted, find, put};
ghost use Rattle.fc_keys.specs.Keys.{key_cmp, without};
ghost use Rattle.fc_keys.specs.Trees.{pairs_of, pairs_at};

use crate::held::HeldKey;
use std::cmp::Ordering;
use std::mem;

/// A pair between two sides, with the height of the whole.
#[cycle(tree)]
#[derive(Debug, Drop)]
pub(crate) struct Fork {
    pub(crate) left: Tree,
    pub(crate) key: HeldKey,
    pub(crate) subscript: u32,
    height: u8,
    pub(crate) right: Tree,
}

#[cycle(tree)]
#[derive(Debug, Drop)]
pub(crate) enum Tree {
    Leaf,
    Branch(Box<Fork>),
}

impl Tree {
    fn height(&self) -> u8 {
        match self {
            Tree::Leaf => 0,
            Tree::Branch(fork) => fork.height,
        }
    }

    // By how much the left side is higher, and the right side.
    fn lean(&self) -> (u8, u8) {
        match self {
            Tree::Leaf => (0, 0),
            Tree::Branch(fork) => {
                let (left, right) = (fork.left.height(), fork.right.height());
                (left.saturating_sub(right), right.saturating_sub(left))
            }
        }
    }
}

// How keys of a few bytes compare: as slices do, of which std's own comparison first looks for groups of bytes that are equal.
fn cmp(one: &[u8], other: &[u8]) -> Ordering
    ensures { result ≡ key_cmp one.now other.now }
{
    match one {
        [] => order_of_none(other),
        [first, rest @ ..] => match other {
            [] => Ordering::Greater,
            [second, others @ ..] => match first.cmp(second) {
                Ordering::Less => Ordering::Less,
                Ordering::Equal => cmp(rest, others),
                Ordering::Greater => Ordering::Greater,
            },
        },
    }
}

// How no byte compares with bytes.
fn order_of_none(other: &[u8]) -> Ordering
    ensures { result ≡ key_cmp [] other.now }
{
    match other {
        [] => Ordering::Equal,
        [_, ..] => Ordering::Less,
    }
}

/// The subscript at a key; none exactly where the key is not there.
pub(crate) fn find(tree: &Tree, key: &[u8]) -> Option<u32>
    ensures { IsTrue (is_sorted key_cmp (pairs_of tree.now)) → result ≡ find key_cmp key.now (pairs_of tree.now) }
{
    match tree {
        Tree::Leaf => None,
        Tree::Branch(fork) => match cmp(key, fork.key.as_slice()) {
            Ordering::Less => find(&fork.left, key),
            Ordering::Equal => Some(fork.subscript),
            Ordering::Greater => find(&fork.right, key),
        },
    }
}

/// A node that stands in no tree.
pub(crate) fn blank() -> Fork {
    Fork {
        left: Tree::Leaf,
        key: HeldKey::none(),
        subscript: 0,
        height: 1,
        right: Tree::Leaf,
    }
}

/// A node without its key, whose bytes are let go.
pub(crate) fn emptied(mut node: Box<Fork>) -> Box<Fork> {
    drop(mem::replace(&mut node.key, HeldKey::none()));
    node
}

// The height of a node over its two sides.
fn measured(mut fork: Box<Fork>) -> Box<Fork>
    ensures { pairs_at result.value ≡ pairs_at fork.value }
{
    let sides = fork.left.height().max(fork.right.height());
    fork.height = sides.saturating_add(1);
    fork
}

// The node with its left side above it.
fn turned_right(mut fork: Box<Fork>) -> Box<Fork>
    ensures { pairs_at result.value ≡ pairs_at fork.value }
{
    match mem::replace(&mut fork.left, Tree::Leaf) {
        Tree::Leaf => fork,
        Tree::Branch(mut pivot) => {
            drop(mem::replace(&mut fork.left, mem::replace(&mut pivot.right, Tree::Leaf)));
            drop(mem::replace(&mut pivot.right, Tree::Branch(measured(fork))));
            measured(pivot)
        }
    }
}

// The node with its right side above it.
fn turned_left(mut fork: Box<Fork>) -> Box<Fork>
    ensures { pairs_at result.value ≡ pairs_at fork.value }
{
    match mem::replace(&mut fork.right, Tree::Leaf) {
        Tree::Leaf => fork,
        Tree::Branch(mut pivot) => {
            drop(mem::replace(&mut fork.right, mem::replace(&mut pivot.left, Tree::Leaf)));
            drop(mem::replace(&mut pivot.left, Tree::Branch(measured(fork))));
            measured(pivot)
        }
    }
}

// The tree, its left side not the lower one.
fn leant_left(tree: Tree) -> Tree
    ensures { pairs_of result ≡ pairs_of tree }
{
    let (_, right) = tree.lean();
    match tree {
        Tree::Leaf => Tree::Leaf,
        Tree::Branch(fork) => Tree::Branch(if right > 0 { turned_left(fork) } else { fork }),
    }
}

// The tree, its right side not the lower one.
fn leant_right(tree: Tree) -> Tree
    ensures { pairs_of result ≡ pairs_of tree }
{
    let (left, _) = tree.lean();
    match tree {
        Tree::Leaf => Tree::Leaf,
        Tree::Branch(fork) => Tree::Branch(if left > 0 { turned_right(fork) } else { fork }),
    }
}

// The node as a tree, after one of its sides has changed in height by one.
fn rebalanced(mut fork: Box<Fork>) -> Tree
    ensures { pairs_of result ≡ pairs_at fork.value }
{
    let (left, right) = (fork.left.height(), fork.right.height());
    if left > right.saturating_add(1) {
        let side = leant_left(mem::replace(&mut fork.left, Tree::Leaf));
        drop(mem::replace(&mut fork.left, side));
        return Tree::Branch(turned_right(fork));
    }
    if right > left.saturating_add(1) {
        let side = leant_right(mem::replace(&mut fork.right, Tree::Leaf));
        drop(mem::replace(&mut fork.right, side));
        return Tree::Branch(turned_left(fork));
    }
    Tree::Branch(measured(fork))
}

// The node as a tree, after one of its sides has changed, perhaps in height by one: where it has not, the node is as high as
// before, and the other side is not looked at, which may stand in memory that is in no cache.
fn balanced(fork: Box<Fork>, moved: bool) -> Tree
    ensures { pairs_of result ≡ pairs_at fork.value }
{
    if moved {
        rebalanced(fork)
    } else {
        Tree::Branch(fork)
    }
}

/// The tree with a pair in a node of its own. The node is given back exactly where the key is there, and then nothing has
/// changed.
pub(crate) fn entered(
    tree: Tree,
    mut blank: Box<Fork>,
    key: HeldKey,
    subscript: u32,
) -> (Tree, Option<Box<Fork>>)
    ensures back { IsTrue (is_sorted key_cmp (pairs_of tree)) → is_some result.1 ≡ is_some (find key_cmp key (pairs_of tree)) }
    ensures pairs { IsTrue (is_sorted key_cmp (pairs_of tree)) → pairs_of result.0 ≡ (if is_some result.1 then pairs_of tree else put key_cmp key subscript (pairs_of tree)) }
{
    match tree {
        Tree::Leaf => {
            let fresh = Fork {
                left: Tree::Leaf,
                key,
                subscript,
                height: 1,
                right: Tree::Leaf,
            };
            drop(mem::replace(&mut *blank, fresh));
            (Tree::Branch(blank), None)
        }
        Tree::Branch(mut fork) => match cmp(key.as_slice(), fork.key.as_slice()) {
            Ordering::Less => {
                let side = mem::replace(&mut fork.left, Tree::Leaf);
                let height = side.height();
                let (side, back) = entered(side, blank, key, subscript);
                let moved = side.height() != height;
                drop(mem::replace(&mut fork.left, side));
                (balanced(fork, moved), back)
            }
            Ordering::Equal => (Tree::Branch(fork), Some(blank)),
            Ordering::Greater => {
                let side = mem::replace(&mut fork.right, Tree::Leaf);
                let height = side.height();
                let (side, back) = entered(side, blank, key, subscript);
                let moved = side.height() != height;
                drop(mem::replace(&mut fork.right, side));
                (balanced(fork, moved), back)
            }
        },
    }
}

// The tree without its last pair, and the node of that pair.
fn without_last(mut fork: Box<Fork>) -> (Tree, Box<Fork>)
    ensures { pairs_at fork.value ≡ pairs_of result.0 ++ (result.1.value.key, result.1.value.subscript) ∷ [] }
{
    match mem::replace(&mut fork.right, Tree::Leaf) {
        Tree::Leaf => (mem::replace(&mut fork.left, Tree::Leaf), fork),
        Tree::Branch(side) => {
            let height = side.height;
            let (side, last) = without_last(side);
            let moved = side.height() != height;
            drop(mem::replace(&mut fork.right, side));
            (balanced(fork, moved), last)
        }
    }
}

// The pairs of two trees, one after the other, as a tree.
fn joined(left: Tree, right: Tree) -> Tree
    ensures { pairs_of result ≡ pairs_of left ++ pairs_of right }
{
    match left {
        Tree::Leaf => right,
        Tree::Branch(fork) => {
            let (side, mut last) = without_last(fork);
            drop(mem::replace(&mut last.left, side));
            drop(mem::replace(&mut last.right, right));
            rebalanced(last)
        }
    }
}

/// The tree without the pair of a key, and the node of that pair, if the key is there.
pub(crate) fn removed(tree: Tree, key: &[u8]) -> (Tree, Option<(u32, Box<Fork>)>)
    ensures node { IsTrue (is_sorted key_cmp (pairs_of tree)) → option_map (λ x. x.0) result.1 ≡ find key_cmp key.now (pairs_of tree) }
    ensures pairs { IsTrue (is_sorted key_cmp (pairs_of tree)) → pairs_of result.0 ≡ without key.now (pairs_of tree) }
{
    match tree {
        Tree::Leaf => (Tree::Leaf, None),
        Tree::Branch(mut fork) => match cmp(key, fork.key.as_slice()) {
            Ordering::Less => {
                let side = mem::replace(&mut fork.left, Tree::Leaf);
                let height = side.height();
                let (side, node) = removed(side, key);
                let moved = side.height() != height;
                drop(mem::replace(&mut fork.left, side));
                (balanced(fork, moved), node)
            }
            Ordering::Equal => {
                let left = mem::replace(&mut fork.left, Tree::Leaf);
                let right = mem::replace(&mut fork.right, Tree::Leaf);
                (joined(left, right), Some((fork.subscript, fork)))
            }
            Ordering::Greater => {
                let side = mem::replace(&mut fork.right, Tree::Leaf);
                let height = side.height();
                let (side, node) = removed(side, key);
                let moved = side.height() != height;
                drop(mem::replace(&mut fork.right, side));
                (balanced(fork, moved), node)
            }
        },
    }
}
