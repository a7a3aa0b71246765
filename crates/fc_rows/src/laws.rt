// Laws of the entries of an array.
ghost use Rattle.std.specs.Prelude.{◌≡◌, ◌==◌, position, option_and_then, ℕ, List, Option, option_map, bytes_eq, true, not, is_some, Some};
ghost use Rattle.fc_types.specs.Ids.{is_distinct};
ghost use Rattle.std.specs.FinMap as map;
ghost use Rattle.fc_keys.specs.Keys.{KeyMap};
ghost use Rattle.fc_value.specs.declared.value.Value.{Value as Valued};
ghost use Rattle.fc_keys.specs.Indexing.{Indexes, less_key};
ghost use Rattle.fc_rows.specs.Columns.{Leads};
ghost use Rattle.fc_rows.specs.Indexing.{keys_of};
ghost use Rattle.fc_rows.specs.Rowed.{RowMap, updated};

/// The entry to which a key leads by an index is the one that a search through all entries finds, and its place is that of its subscript.
pub fn a_key_leads_where_a_search_does()
    ensures { (key : Valued → List ℕ) (k : List ℕ) (m : RowMap) (o : Option ℕ) → Leads key m k o → position (λ (e : ℕ × Valued). bytes_eq (key e.1) k) (map.entries m) ≡ option_and_then (λ s. position (λ (e : ℕ × Valued). e.0 == s) (map.entries m)) o }
{}

/// Entries that have an index by a key differ in that key.
pub fn indexed_entries_differ()
    ensures { (key : Valued → List ℕ) (m : RowMap) (index : KeyMap) → Indexes key m index → is_distinct bytes_eq (keys_of key (map.entries m)) ≡ true }
{}

/// The test by an index is that by all entries: with another entry at a subscript they differ in the key exactly where the index,
/// without the key of what stood there, does not have the key of the new one.
pub fn an_index_tells()
    ensures { (key : Valued → List ℕ) (m : RowMap) (index : KeyMap) (s : ℕ) (w : Valued) (old : Option Valued) → Indexes key m index → map.get m s ≡ old → is_distinct bytes_eq (keys_of key (map.entries (updated m s (Some w)))) ≡ not (is_some (map.get (less_key index (option_map key old)) (key w))) }
{}
