// Laws of indexes and the entries that they are of.
ghost use Rattle.std.specs.Prelude.{◌≡◌, ℕ, List, Option, option_map, Some};
ghost use Rattle.std.specs.FinMap as map;
ghost use Rattle.fc_keys.specs.Keys.{KeyMap};
ghost use Rattle.fc_keys.specs.Indexing.{Entries, Indexes, IsFree, reindexed, updated};

/// The empty index is that of no entries.
pub fn no_entries_have_the_empty_index<X>()
    ensures { (key : X → List ℕ) → Indexes key map.empty map.empty }
{}

/// An index stays that of its entries where one of them is put, replaced or removed: the key of the one that stood there is taken
/// out of it, and that of the one that stands there now is put in.
pub fn index_stays_that_of_its_entries<X>()
    ensures { (key : X → List ℕ) (entries : Entries X) (index : KeyMap) (s : ℕ) (old new : Option X) → Indexes key entries index → map.get entries s ≡ old → IsFree key index old new → Indexes key (updated entries s new) (reindexed index s (option_map key old) (option_map key new)) }
{}

/// Entries that have an index have different keys.
pub fn indexed_entries_have_different_keys<X>()
    ensures { (key : X → List ℕ) (entries : Entries X) (index : KeyMap) (s t : ℕ) (x y : X) → Indexes key entries index → map.get entries s ≡ Some x → map.get entries t ≡ Some y → key x ≡ key y → s ≡ t }
{}

/// Entries have one index at most.
pub fn entries_have_one_index<X>()
    ensures { (key : X → List ℕ) (entries : Entries X) (index other : KeyMap) → Indexes key entries index → Indexes key entries other → index ≡ other }
{}
