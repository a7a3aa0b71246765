// The entries of an array that is a component.
ghost use Rattle.std.specs.Prelude.{◌≡◌, ◌≤◌, ◌<◌, ◌+◌, ℕ, List as Items, option_map, length, vec_len, vec_capacity, IsTrue, OnOk, OnErr};
ghost use Rattle.std.specs.List.{insert, HoldsAt};
ghost use Rattle.std.specs.List.Sorted.{IsSearchInRange};
ghost use Rattle.std.specs.Ordering.{nat_cmp};
ghost use Rattle.std.specs.FinMap as map;
ghost use Rattle.std.specs.FinMap.{is_sorted, from_sorted};
ghost use Rattle.fc_value.specs.declared.value.Value.{Value as Valued};
ghost use Rattle.fc_rows.specs.Rowed.{IsPlace, updated};

use fc_base::{List, Memory};
use fc_value::Value;
use std::alloc::Global;
use std::cmp::Ordering;
use std::marker::Model;
use std::mem;

/// The entries of an array, which contracts see as a finite map from subscripts to values, with the number of entries for which
/// there is memory in all.
#[derive(Debug, Drop)]
pub struct RowList {
    // by rising subscript
    entries: Vec<(u32, Value)>,
}

impl Model for RowList {
    ghost use Rattle.std.specs.Prelude.{ℕ, vec_capacity, IsTrue};
    ghost use Rattle.std.specs.Coded.{coded×, coded_ℕ};
    ghost use Rattle.std.specs.Ordering.{nat_cmp};
    ghost use Rattle.std.specs.FinMap.{from_sorted, is_sorted};
    ghost use Rattle.fc_rows.specs.Rowed.{RowMap, row_map_code};

    ghost Value = { RowMap × ℕ };

    ghost coded = { coded× row_map_code coded_ℕ };

    ghost view = { λ s. (from_sorted s.entries.items, vec_capacity s.entries) };

    ghost invariant = { λ s. IsTrue (is_sorted nat_cmp s.entries.items) };
}

impl RowList {
    /// No entry, which takes no memory.
    pub fn new(alloc: Global) -> RowList
        ensures { result.0 ≡ map.empty }
    {
        RowList {
            entries: Vec::new(alloc),
        }
    }

    /// How many entries there are.
    pub fn len(&self) -> usize
        ensures { result ≡ map.len self.now.0 }
    {
        self.entries.len()
    }

    /// For how many entries there is memory in all.
    pub fn capacity(&self) -> usize
        ensures { result ≡ self.now.1 }
    {
        self.entries.capacity()
    }

    /// What stands at a subscript.
    pub fn get(&self, subscript: u32) -> Option<&Value>
        ensures { option_map (λ x. x.now) result ≡ map.get self.now.0 subscript }
    {
        match place_of(self.entries.as_slice(), subscript) {
            Ok(place) => Some(&self.entries[place].1),
            Err(_) => None,
        }
    }

    /// The entries, by rising subscript.
    pub fn as_slice(&self) -> &[(u32, Value)]
        ensures { result.now ≡ map.entries self.now.0 }
    {
        self.entries.as_slice()
    }

    /// Makes room for so many entries more. After an `Err` the entries are as before, and the room is not less.
    pub fn reserve(&mut self, count: usize) -> Result<(), Memory>
        ensures same { self.new.0 ≡ self.old.0 }
        ensures ok { OnOk result (map.len self.old.0 + count ≤ self.new.1) }
        ensures room { self.old.1 ≤ self.new.1 }
    {
        self.entries.reserve(count)?;
        Ok(())
    }

    /// Puts a value, or none, in the place of what stands at a subscript, and gives that. It takes no memory.
    pub fn swap(&mut self, subscript: u32, value: Option<Value>) -> Option<Value>
        requires { map.len (updated self.old.0 subscript value) ≤ self.old.1 }
        ensures given { result ≡ map.get self.old.0 subscript }
        ensures rows { self.new.0 ≡ updated self.old.0 subscript value }
        ensures room { self.new.1 ≡ self.old.1 }
    {
        match place_of(self.entries.as_slice(), subscript) {
            Ok(place) => match value {
                Some(value) => Some(mem::replace(&mut self.entries[place].1, value)),
                None => Some(self.entries.remove(place).1),
            },
            Err(place) => match value {
                Some(value) => {
                    put_at(&mut self.entries, place, subscript, value);
                    None
                }
                None => None,
            },
        }
    }
}

// Puts an entry at a place, where there is room for it.
fn put_at(entries: &mut Vec<(u32, Value)>, place: usize, subscript: u32, value: Value)
    requires within { place ≤ vec_len entries.old }
    requires room { vec_len entries.old < vec_capacity entries.old }
    ensures items { entries.new.items ≡ insert entries.old.items place (subscript, value) }
    ensures len { vec_len entries.new ≡ vec_len entries.old + 1 }
    ensures capacity { vec_capacity entries.new ≡ vec_capacity entries.old }
{
    let _ = entries.insert(place, (subscript, value));
}

// How the subscript at a place compares with another one.
fn order_at(entries: &[(u32, Value)], place: usize, subscript: u32) -> Ordering
    requires { place < length entries.now }
    ensures { HoldsAt (λ (entry : ℕ × Valued). nat_cmp entry.0 subscript ≡ result) entries.now place }
{
    entries[place].0.cmp(&subscript)
}

// Where a subscript stands among entries that rise, or else where it belongs. The last entry is looked at first: the place of what
// belongs behind all of them is found by that one alone.
fn place_of(entries: &[(u32, Value)], subscript: u32) -> Result<usize, usize>
    requires { IsTrue (is_sorted nat_cmp entries.now) }
    ensures place { IsPlace entries.now subscript result }
    ensures range { IsSearchInRange result (length entries.now) }
{
    let len = entries.len();
    if let Some(last) = len.checked_sub(1) {
        match order_at(entries, last, subscript) {
            Ordering::Less => return Err(len),
            Ordering::Equal => return Ok(last),
            Ordering::Greater => {}
        }
    }
    let mut low = 0;
    let mut high = len;
    while low < high {
        let middle = low + (high - low) / 2;
        match order_at(entries, middle, subscript) {
            Ordering::Less => low = middle + 1,
            Ordering::Greater => high = middle,
            Ordering::Equal => return Ok(middle),
        }
    }
    Err(low)
}
