// The entries of an array that is a component, with an index for each of its keys.
ghost use Rattle.std.specs.Prelude.{◌≡◌, ◌≤◌, ◌<◌, ◌+◌, ℕ, true, length, map as mapped, option_map, slice_get, IsTrue, Some, IfOk, OnOk, OnErr, if◌then◌else◌};
ghost use Rattle.std.specs.FinMap as map;
ghost use Rattle.std.specs.Ordering.{nat_cmp};
ghost use Rattle.fc_types.specs.declared.ty.KeyDecl.{KeyDecl as Keyed};
ghost use Rattle.fc_value.specs.Keys as keys_spec;
ghost use Rattle.fc_rows.specs.Columns as columns;
ghost use Rattle.fc_rows.specs.Columns.{AreWider, HaveRoom, LeadsBy, at_column, each_column, less_key, more_key};
ghost use Rattle.fc_rows.specs.Rowed as rowed;
ghost use Rattle.fc_rows.specs.Rowed.{CanSwap, KeysFit, Prepared, updated};

use crate::RowList;
use fc_base::{Duplicate, List, Memory, Octets};
use fc_keys::KeyIndex;
use fc_types::{Field, KeyDecl};
use fc_value::{Value, key_value};
use std::alloc::Global;
use std::marker::Model;

/// The entries of an array, which contracts see as a finite map from subscripts to values, with the number of entries for which
/// there is memory in all, and the fields and keys that tell them apart. For each key there is an index of the entries.
#[derive(Debug, Drop)]
pub struct Rows {
    fields: List<Field>,
    keys: List<KeyDecl>,
    entries: RowList,
    indexes: Vec<KeyIndex>,
    room: usize,
}

impl Model for Rows {
    ghost use Rattle.fc_rows.specs.Columns.{KeptRows};
    ghost use Rattle.fc_rows.specs.Rowed.{Seen, seen_code};

    ghost Value = { Seen };

    ghost coded = { seen_code };

    ghost view = { λ s. (s.entries.0, (s.room, (s.fields, s.keys))) };

    ghost invariant = { λ s. KeptRows s.entries s.room (s.fields, s.keys) s.indexes.items };
}

impl Rows {
    /// No entry, of an array with these fields and keys.
    pub fn new(alloc: Global, fields: List<Field>, keys: List<KeyDecl>) -> Result<Rows, Memory>
        ensures rows { IfOk result (λ rows. rows.0 ≡ map.empty) }
        ensures shape { IfOk result (λ rows. rows.1.1 ≡ (fields, keys)) }
    {
        let indexes = no_pairs(alloc, keys.len())?;
        Ok(Rows {
            fields,
            keys,
            entries: RowList::new(alloc),
            indexes,
            room: 0,
        })
    }

    /// The entries of an array with these fields and keys, by rising subscript.
    pub fn of(
        alloc: Global,
        fields: List<Field>,
        keys: List<KeyDecl>,
        entries: List<(u32, Value)>,
    ) -> Result<Rows, Memory>
        requires rising { IsTrue (map.is_sorted nat_cmp entries) }
        requires apart { keys_spec.keys_differ fields keys entries ≡ true }
        ensures rows { IfOk result (λ rows. rows.0 ≡ map.from_sorted entries) }
        ensures shape { IfOk result (λ rows. rows.1.1 ≡ (fields, keys)) }
    {
        let mut rows = Rows::new(alloc, fields, keys)?;
        rows.reserve(entries.len())?;
        fill(&mut rows, alloc, entries.into_vec())?;
        Ok(rows)
    }

    /// A copy, with room for at least as many entries.
    pub fn copy(&self, alloc: Global) -> Result<Rows, Memory>
        ensures rows { IfOk result (λ rows. rows.0 ≡ self.now.0) }
        ensures room { IfOk result (λ rows. self.now.1.0 ≤ rows.1.0) }
        ensures shape { IfOk result (λ rows. rows.1.1 ≡ self.now.1.1) }
    {
        let fields = self.fields.copy()?;
        let keys = self.keys.copy()?;
        let mut rows = Rows::of(alloc, fields, keys, self.to_list(alloc)?)?;
        rows.reserve(self.room.saturating_sub(rows.len()))?;
        Ok(rows)
    }

    /// A copy of the entries, by rising subscript.
    pub fn to_list(&self, alloc: Global) -> Result<List<(u32, Value)>, Memory>
        ensures { IfOk result (λ es. es ≡ map.entries self.now.0) }
    {
        copies(alloc, self.as_slice())
    }

    /// What stands at a subscript.
    pub fn get(&self, subscript: u32) -> Option<&Value>
        ensures { option_map (λ x. x.now) result ≡ map.get self.now.0 subscript }
    {
        self.entries.get(subscript)
    }

    /// The entries, by rising subscript.
    pub fn as_slice(&self) -> &[(u32, Value)]
        ensures { result.now ≡ map.entries self.now.0 }
    {
        self.entries.as_slice()
    }

    /// How many entries there are.
    pub fn len(&self) -> usize
        ensures { result ≡ map.len self.now.0 }
    {
        self.entries.len()
    }

    /// Makes room for so many entries more. After an `Err` the entries are as before, and the room is
    /// not less.
    pub fn reserve(&mut self, count: usize) -> Result<(), Memory>
        ensures same { self.new.0 ≡ self.old.0 }
        ensures ok { OnOk result (map.len self.old.0 + count ≤ self.new.1.0) }
        ensures room { self.old.1.0 ≤ self.new.1.0 }
        ensures shape { self.new.1.1 ≡ self.old.1.1 }
    {
        self.entries.reserve(count)?;
        let places = self.indexes.len();
        reserve_first(&mut self.indexes, places, count)?;
        let _capacity = self.entries.capacity();
        self.room = widened(self.room, self.entries.len() + count);
        Ok(())
    }

    /// The keys that enter and those that leave where a value, or none, gives way to another at a subscript; none exactly where
    /// another entry has a key of the new one.
    pub fn keys_for(
        &self,
        alloc: Global,
        subscript: u32,
        value: Option<&Value>,
    ) -> Result<Option<(List<Octets>, List<Octets>)>, Memory>
        ensures { IfOk result (λ o. Prepared self.now.1.1 self.now.0 subscript (option_map (λ x. x.now) value.entry) o) }
    {
        let fields = self.fields.as_slice();
        let keys = self.keys.as_slice();
        let leaving = keys_of(alloc, fields, keys, self.entries.get(subscript))?;
        let entering = keys_of(alloc, fields, keys, value)?;
        if !are_free(self.indexes.as_slice(), entering.as_slice(), subscript) {
            return Ok(None);
        }
        Ok(Some((entering, leaving)))
    }

    /// The subscript of the entry in which the key at a place has these bytes.
    pub fn find(&self, place: usize, bytes: &[u8]) -> Option<u32>
        ensures { LeadsBy self.now.1.1.0 (slice_get self.now.1.1.1 place) self.now.0 bytes.now result }
    {
        if place < self.indexes.len() {
            return self.indexes[place].find(bytes);
        }
        None
    }

    /// Puts a value, or none, in the place of what stands at a subscript, and gives that. The keys of the one enter, those of the
    /// other leave. What is given can be put back. It takes no memory.
    pub fn swap(
        &mut self,
        subscript: u32,
        value: Option<Value>,
        entering: List<Octets>,
        leaving: &[Octets],
    ) -> Option<Value>
        requires { CanSwap self.old subscript value entering leaving.now }
        ensures given { result ≡ map.get self.old.0 subscript }
        ensures rows { self.new.0 ≡ updated self.old.0 subscript value }
        ensures rest { self.new.1 ≡ self.old.1 }
        ensures back { CanSwap self.new subscript result leaving.now entering }
    {
        take_keys(&mut self.indexes, leaving);
        put_keys(&mut self.indexes, entering.into_vec(), subscript);
        self.entries.swap(subscript, value)
    }
}

impl Rows {
    /// Puts a value, or none, at a subscript. False exactly where two entries would have an equal key; then, and after an `Err`, the
    /// entries are as before.
    pub fn put(
        &mut self,
        alloc: Global,
        subscript: u32,
        value: Option<Value>,
    ) -> Result<bool, Memory>
        ensures done { IfOk result (λ done. done ≡ keys_spec.keys_differ self.old.1.1.0 self.old.1.1.1 (map.entries (updated self.old.0 subscript value))) }
        ensures rows { IfOk result (λ done. self.new.0 ≡ (if done then updated self.old.0 subscript value else self.old.0)) }
        ensures err { OnErr result (self.new.0 ≡ self.old.0) }
        ensures shape { self.new.1.1 ≡ self.old.1.1 }
    {
        match self.keys_for(alloc, subscript, value.as_ref())? {
            None => Ok(false),
            Some((entering, leaving)) => {
                self.put_row(subscript, value, entering, leaving)?;
                Ok(true)
            }
        }
    }

    // Puts a value, or none, at a subscript, with its keys and those of what stands there.
    fn put_row(
        &mut self,
        subscript: u32,
        value: Option<Value>,
        entering: List<Octets>,
        leaving: List<Octets>,
    ) -> Result<(), Memory>
        requires { KeysFit self.old.1.1 self.old.0 subscript value entering leaving }
        ensures rows { OnOk result (self.new.0 ≡ updated self.old.0 subscript value) }
        ensures err { OnErr result (self.new.0 ≡ self.old.0) }
        ensures shape { self.new.1.1 ≡ self.old.1.1 }
    {
        self.reserve(1)?;
        self.swap(subscript, value, entering, leaving.as_slice());
        Ok(())
    }
}

// Puts entries by rising subscript, no two of which have an equal key, where none stands yet.
fn fill(rows: &mut Rows, alloc: Global, entries: Vec<(u32, Value)>) -> Result<(), Memory>
    requires none { rows.old.0 ≡ map.empty }
    requires rising { IsTrue (map.is_sorted nat_cmp entries.items) }
    requires apart { keys_spec.keys_differ rows.old.1.1.0 rows.old.1.1.1 entries.items ≡ true }
    ensures rows { OnOk result (rows.new.0 ≡ map.from_sorted entries.items) }
    ensures shape { rows.new.1.1 ≡ rows.old.1.1 }
{
    for (subscript, value) in entries {
        rows.put(alloc, subscript, Some(value))?;
    }
    Ok(())
}

// Copies of entries, in their order.
fn copies(alloc: Global, entries: &[(u32, Value)]) -> Result<List<(u32, Value)>, Memory>
    ensures { IfOk result (λ es. es ≡ entries.now) }
{
    let mut others = Vec::with_capacity(alloc, entries.len())?;
    for (subscript, value) in entries {
        others.push((*subscript, value.copy()?))?;
    }
    Ok(List::from_vec(others))
}

// The greater of two numbers.
fn widened(room: usize, all: usize) -> usize
    ensures more { room ≤ result }
    ensures known { room < result → result ≤ all }
    ensures enough { all ≤ result }
{
    if room < all { all } else { room }
}

// So many indexes without a pair.
fn no_pairs(alloc: Global, count: usize) -> Result<Vec<KeyIndex>, Memory>
    ensures { IfOk result (λ indexes. columns.AreEmpty count indexes.items) }
{
    if count == 0 {
        return Ok(Vec::new(alloc));
    }
    let mut indexes = no_pairs(alloc, count - 1)?;
    indexes.push(KeyIndex::new(alloc))?;
    Ok(indexes)
}

// The values that the keys have in an entry, and none where there is no entry.
fn keys_of(
    alloc: Global,
    fields: &[Field],
    keys: &[KeyDecl],
    value: Option<&Value>,
) -> Result<List<Octets>, Memory>
    ensures { IfOk result (λ ks. ks ≡ rowed.values_of_keys fields.now keys.now (option_map (λ x. x.now) value.entry)) }
{
    match value {
        None => Ok(List::new(alloc)),
        Some(value) => keys_of_entry(alloc, fields, keys, value),
    }
}

// The values that the keys have in an entry.
fn keys_of_entry(
    alloc: Global,
    fields: &[Field],
    keys: &[KeyDecl],
    value: &Value,
) -> Result<List<Octets>, Memory>
    ensures { IfOk result (λ ks. ks ≡ mapped (λ (key : Keyed). keys_spec.key_value fields.now key value.now) keys.now) }
{
    let mut found = Vec::new(alloc);
    for key in keys {
        found.push(Octets::from_vec(key_value(alloc, fields, key, value)?))?;
    }
    Ok(List::from_vec(found))
}

// Whether no key leads to another entry.
fn are_free(indexes: &[KeyIndex], keys: &[Octets], subscript: u32) -> bool
    ensures { result ≡ columns.are_free subscript indexes.now keys.now }
{
    match indexes {
        [] => true,
        [index, others @ ..] => match keys {
            [] => true,
            [key, rest @ ..] => {
                leads_here(index.find(key.as_slice()), subscript)
                    && are_free(others, rest, subscript)
            }
        },
    }
}

// Whether a key leads nowhere else.
fn leads_here(found: Option<u32>, subscript: u32) -> bool
    ensures { result ≡ columns.leads_here subscript found }
{
    match found {
        None => true,
        Some(other) => other == subscript,
    }
}

// An index without a key.
fn take_key(indexes: &mut Vec<KeyIndex>, place: usize, key: &[u8])
    ensures { indexes.new.items ≡ at_column (less_key key.now) place indexes.old.items }
{
    if place < indexes.len() {
        indexes[place].remove(key);
    }
}

// The indexes without the keys at their places.
#[tactic(auto, using(crate::proofs::ColumnLaws::last_first))]
fn take_keys(indexes: &mut Vec<KeyIndex>, keys: &[Octets])
    ensures { indexes.new.items ≡ each_column less_key keys.now indexes.old.items }
{
    if let [rest @ .., key] = keys {
        take_key(indexes, rest.len(), key.as_slice());
        take_keys(indexes, rest);
    }
}

// An index with a key more, where there is room and the key is not there.
fn enter(index: &mut KeyIndex, key: Octets, subscript: u32)
    ensures { index.new ≡ more_key subscript key index.old }
{
    if index.spare() > 0 {
        index.insert_spare(key, subscript);
    }
}

fn put_key(indexes: &mut Vec<KeyIndex>, place: usize, key: Octets, subscript: u32)
    ensures { indexes.new.items ≡ at_column (more_key subscript key) place indexes.old.items }
{
    if place < indexes.len() {
        enter(&mut indexes[place], key, subscript);
    }
}

// The indexes with the keys at their places.
#[tactic(auto, using(crate::proofs::ColumnLaws::last_first))]
fn put_keys(indexes: &mut Vec<KeyIndex>, keys: Vec<Octets>, subscript: u32)
    ensures { indexes.new.items ≡ each_column (more_key subscript) keys.items indexes.old.items }
{
    let mut keys = keys;
    if let Some(key) = keys.pop() {
        put_key(indexes, keys.len(), key, subscript);
        put_keys(indexes, keys, subscript);
    }
}

// Makes room in one index.
fn reserve_at(indexes: &mut Vec<KeyIndex>, place: usize, count: usize) -> Result<(), Memory>
    requires { place < length indexes.old.items }
    ensures wider { AreWider indexes.old.items indexes.new.items }
    ensures ok { OnOk result (columns.HasRoomAt count (slice_get indexes.new.items place)) }
{
    indexes[place].reserve(count)
}

// Makes room in the first of the indexes.
fn reserve_first(indexes: &mut Vec<KeyIndex>, places: usize, count: usize) -> Result<(), Memory>
    requires { places ≤ length indexes.old.items }
    ensures wider { AreWider indexes.old.items indexes.new.items }
    ensures ok { OnOk result (HaveRoom count places indexes.new.items) }
{
    if places == 0 {
        return Ok(());
    }
    reserve_at(indexes, places - 1, count)?;
    reserve_first(indexes, places - 1, count)
}
