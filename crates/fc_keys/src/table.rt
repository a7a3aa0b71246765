// A table of buckets, each a search tree of the keys that have their place in it. A key is looked for in one bucket alone, and where
// there are twice as many buckets as keys most buckets hold one key or none, so that one node is looked at, however many keys there are;
// keys that meet in one bucket cost as they do in one tree.
ghost use Rattle.std.specs.Prelude.{◌≡◌, ◌≢◌, ◌≤◌, ◌<◌, ◌*◌, List, ℕ, fold, length, slice_set, IfOk, OnErr, OnOk, is_some, option_map, if◌then◌else◌};
ghost use Rattle.std.specs.FinMap as map;
ghost use Rattle.std.specs.FinMap.{find};
ghost use Rattle.std.specs.Option.{option_or};
ghost use Rattle.fc_keys.specs.Keys.{key_cmp};
ghost use Rattle.fc_keys.specs.Trees.{pairs_of};
ghost use Rattle.fc_keys.specs.Buckets.{pairs_in, place_of, tree_at, with_byte};

use crate::held::HeldKey;
use crate::tree::{Fork, Tree, entered, find, removed};
use fc_base::Memory;
use std::alloc::Global;
use std::marker::Model;
use std::mem;

// What a sum of bytes is multiplied by before the next byte.
const FACTOR: u64 = 65_599;
// What the sum of all bytes is multiplied by, so that its upper half depends on each byte.
const SPREAD: u64 = 0x9e37_79b9_7f4a_7c15;
// What that is multiplied by when its upper half was laid over the lower one. Without it keys that count up by some steps meet twice as often
// as keys at random do; with it they meet no more often, by whatever step they count.
const MIX: u64 = 0xbf58_476d_1ce4_e5b9;
// The buckets of the least table.
const FEWEST: usize = 8;

/// A finite map from the bytes of keys to subscripts, with the number of buckets that it is spread over.
#[derive(Debug, Drop)]
pub(crate) struct Table {
    buckets: Vec<Tree>,
}

impl Model for Table {
    ghost use Rattle.std.specs.Prelude.{ℕ, length};
    ghost use Rattle.std.specs.Coded.{coded×, coded_ℕ};
    ghost use Rattle.fc_keys.specs.Keys.{KeyMap, key_map_code};
    ghost use Rattle.fc_keys.specs.Buckets.{map_of, IsSpread};

    ghost Value = { KeyMap × ℕ };

    ghost coded = { coded× key_map_code coded_ℕ };

    ghost view = { λ s. (map_of s.buckets.items, length s.buckets.items) };

    ghost invariant = { λ s. IsSpread s.buckets.items };
}

impl Table {
    /// No bucket, which takes no memory.
    pub(crate) fn new(alloc: Global) -> Table
        ensures pairs { result.0 ≡ map.empty }
        ensures buckets { result.1 ≡ 0 }
    {
        Table {
            buckets: Vec::new(alloc),
        }
    }

    // So many buckets without a pair.
    fn with_buckets(alloc: Global, count: usize) -> Result<Table, Memory>
        ensures pairs { IfOk result (λ t. t.0 ≡ map.empty) }
        ensures buckets { IfOk result (λ t. t.1 ≡ count) }
    {
        let mut buckets = Vec::with_capacity(alloc, count)?;
        for _ in 0..count {
            buckets.push_reserved(Tree::Leaf);
        }
        Ok(Table { buckets })
    }

    /// The subscript at a key; none exactly where the key is not there.
    #[inline]
    pub(crate) fn find(&self, key: &[u8]) -> Option<u32>
        ensures { result ≡ map.get self.now.0 key.now }
    {
        let place = place(key, self.buckets.len());
        if place >= self.buckets.len() {
            return None;
        }
        find(&self.buckets[place], key)
    }

    /// Enters a key with its subscript, in a node of its own. The node is given back exactly where the key is there, and then
    /// nothing has changed.
    pub(crate) fn enter(
        &mut self,
        blank: Box<Fork>,
        key: HeldKey,
        subscript: u32,
    ) -> Option<Box<Fork>>
        requires { 0 < self.old.1 }
        ensures back { is_some result ≡ map.contains_key self.old.0 key }
        ensures pairs { self.new.0 ≡ (if is_some result then self.old.0 else map.insert self.old.0 key subscript) }
        ensures buckets { self.new.1 ≡ self.old.1 }
    {
        let place = place(key.as_slice(), self.buckets.len());
        let tree = exchange(&mut self.buckets, place, Tree::Leaf);
        let (tree, back) = entered(tree, blank, key, subscript);
        drop(exchange(&mut self.buckets, place, tree));
        back
    }

    /// Takes the pair of a key out, and gives its subscript and its node, if the key is there.
    pub(crate) fn take(&mut self, key: &[u8]) -> Option<(u32, Box<Fork>)>
        ensures node { option_map (λ x. x.0) result ≡ map.get self.old.0 key.now }
        ensures pairs { self.new.0 ≡ map.remove self.old.0 key.now }
        ensures buckets { self.new.1 ≡ self.old.1 }
    {
        let place = place(key, self.buckets.len());
        if place >= self.buckets.len() {
            return None;
        }
        let tree = exchange(&mut self.buckets, place, Tree::Leaf);
        let (tree, node) = removed(tree, key);
        drop(exchange(&mut self.buckets, place, tree));
        node
    }

    /// Spreads the pairs over at least so many buckets, and over twice as many as before at least where there are fewer. After an
    /// `Err` nothing has changed.
    pub(crate) fn widen(&mut self, least: usize) -> Result<(), Memory>
        ensures same { self.new.0 ≡ self.old.0 }
        ensures ok { OnOk result (least ≤ self.new.1) }
        ensures buckets { self.old.1 ≤ self.new.1 }
        ensures err { OnErr result (self.new ≡ self.old) }
        ensures doubled { (self.new.1 ≢ self.old.1) → 2 * self.old.1 ≤ self.new.1 }
    {
        if least <= self.buckets.len() {
            return Ok(());
        }
        let Some(twice) = self.buckets.len().checked_mul(2) else {
            return Err(Memory);
        };
        let Some(count) = least.max(twice).max(FEWEST).checked_next_power_of_two() else {
            return Err(Memory);
        };
        let alloc = *self.buckets.allocator();
        let mut wider = Table::with_buckets(alloc, count)?;
        let Table { buckets } = mem::replace(self, Table::new(alloc));
        move_all(&mut wider, buckets);
        drop(mem::replace(self, wider));
        Ok(())
    }
}

// The sum of a key's bytes.
#[inline]
fn sum(key: &[u8]) -> u64
    ensures { result ≡ fold with_byte 0 key.now }
{
    key.iter().fold(0, |sum: u64, byte| {
        sum.wrapping_mul(FACTOR).wrapping_add(u64::from(*byte))
    })
}

// The place of a key among so many buckets.
#[inline]
#[tactic(auto, unfolding(crate::specs::Buckets::place_of))]
fn place(key: &[u8], count: usize) -> usize
    ensures is { result ≡ place_of key.now count }
    ensures within { 0 < count → result < count }
{
    let spread = sum(key).wrapping_mul(SPREAD);
    let mixed = (spread ^ (spread >> 32)).wrapping_mul(MIX);
    let weight = (mixed >> 32) as usize;
    weight & count.saturating_sub(1)
}

// Puts a tree in the place of another one, and gives that.
#[inline]
fn exchange(trees: &mut Vec<Tree>, place: usize, tree: Tree) -> Tree
    requires { place < length trees.old.items }
    ensures given { result ≡ tree_at trees.old.items place }
    ensures after { trees.new.items ≡ slice_set trees.old.items place tree }
{
    mem::replace(&mut trees[place], tree)
}

// Enters each pair of a tree whose key is not there, in the node in which it stands.
fn move_in(table: &mut Table, tree: Tree)
    requires { 0 < table.old.1 }
    ensures pairs { (key : List ℕ) → map.get table.new.0 key ≡ option_or (map.get table.old.0 key) (find key_cmp key (pairs_of tree)) }
    ensures buckets { table.new.1 ≡ table.old.1 }
{
    match tree {
        Tree::Leaf => {}
        Tree::Branch(mut fork) => {
            let left = mem::replace(&mut fork.left, Tree::Leaf);
            let right = mem::replace(&mut fork.right, Tree::Leaf);
            let key = mem::replace(&mut fork.key, HeldKey::none());
            let subscript = fork.subscript;
            move_in(table, left);
            drop(table.enter(fork, key, subscript));
            move_in(table, right);
        }
    }
}

// The same of the pairs of all trees.
fn move_all(table: &mut Table, trees: Vec<Tree>)
    requires { 0 < table.old.1 }
    ensures pairs { (key : List ℕ) → map.get table.new.0 key ≡ option_or (map.get table.old.0 key) (find key_cmp key (pairs_in trees.items)) }
    ensures buckets { table.new.1 ≡ table.old.1 }
{
    for tree in trees {
        move_in(table, tree);
    }
}
