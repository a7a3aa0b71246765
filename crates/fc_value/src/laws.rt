// Laws of the full form of values, and of the nodes in them.
ghost use Rattle.std.specs.Prelude.{◌≡◌, ◌≤◌, ◌++◌, ◌↔◌, List, ℕ, ℤ, length, true, Ok, Err, Some, None, option_map, unsigned_abs};
ghost use Rattle.std.specs.List.{AllByRecursion};
ghost use Rattle.fc_types.specs.Sound.{IsSound, IsSoundInside};
ghost use Rattle.fc_types.specs.Types.{full_size, throughout};
ghost use Rattle.fc_types.specs.declared.ty.Ty.{Ty};
ghost use Rattle.fc_wire.specs.Bytes.{AreBytes};
ghost use Rattle.fc_value.specs.Fits.{Fits};
ghost use Rattle.fc_value.specs.FullForm.{InRange, IsFull};
ghost use Rattle.fc_value.specs.Keys.{has_no_keys};
ghost use Rattle.fc_value.specs.Nodes.{are_apart, node_at, put_at};
ghost use Rattle.fc_value.specs.Opening.{nearest, opening};
ghost use Rattle.fc_value.specs.Reading.{full_in};
ghost use Rattle.fc_value.specs.Trials.{FirstFailed, IsPassed, full_trials};
ghost use Rattle.fc_value.specs.Writing.{full_bytes, inside_bytes};
ghost use Rattle.fc_value.specs.declared.value.Value.{Value};

/// Reading gives a value exactly where the bytes are a full form of it, and so bytes are the full form of one value at
/// most. A value that bytes are a full form of fits its type.
pub fn reading_is_the_form()
    ensures found { (ty : Ty) (v : Value) (bytes : List ℕ) → IsSound ty → AreBytes bytes → full_in ty bytes ≡ Ok v → IsFull ty v bytes }
    ensures only { (ty : Ty) (v : Value) (bytes : List ℕ) → IsFull ty v bytes → full_in ty bytes ≡ Ok v }
    ensures fits { (ty : Ty) (v : Value) (bytes : List ℕ) → AreBytes bytes → IsFull ty v bytes → Fits ty v }
    ensures one { (ty : Ty) (v w : Value) (bytes : List ℕ) → IsFull ty v bytes → IsFull ty w bytes → v ≡ w }
{}

/// The code that reading gives is that of the first test that fails in the list of all tests in reading order, whatever
/// the tests behind it say, and bytes are read exactly where none fails.
pub fn codes_are_in_reading_order()
    ensures first { (ty : Ty) (bytes : List ℕ) (code : ℕ) → (full_in ty bytes ≡ Err code) ↔ FirstFailed code (full_trials ty bytes) }
    ensures read { (ty : Ty) (bytes : List ℕ) → ((v : Value) × (full_in ty bytes ≡ Ok v)) ↔ AllByRecursion IsPassed (full_trials ty bytes) }
{}

/// An opening value fits its type, and no number of a range is nearer to 0 than the one that it begins with.
pub fn opening_values()
    ensures fits { (ty : Ty) → IsSound ty → Fits ty (opening ty) }
    ensures nearest { (min max z : ℤ) → InRange min max z → unsigned_abs (nearest min max) ≤ unsigned_abs z }
{}

/// What is written of a value that fits is one of its full forms, and is read again as it.
pub fn written_values_are_read()
    ensures form { (ty : Ty) (v : Value) → IsSound ty → Fits ty v → IsFull ty v (full_bytes ty v) }
    ensures again { (ty : Ty) (v : Value) → IsSound ty → Fits ty v → full_in ty (full_bytes ty v) ≡ Ok v }
{}

/// What is written of a value that fits, where it stands in a struct or an entry, is at most as long as the declared size of
/// its type, and some value reaches that size, unless an array has keys, which entries may be too many to differ in.
pub fn sizes_bound_what_is_written()
    ensures most { (ty : Ty) (v : Value) → IsSoundInside ty → Fits ty v → length (inside_bytes ty v) ≤ full_size ty }
    ensures reached { (ty : Ty) → IsSound ty → throughout has_no_keys ty ≡ true → (v : Value) × Fits ty v × (length (inside_bytes ty v) ≡ full_size ty) }
{}

/// What a node that is put leaves of a value: it stands at its places, with all that is in it; the nodes through which its
/// places lead have it within them; each other place is as it was. Where a place is not there the value is as it was.
pub fn other_places_stay()
    ensures there { (v w c : Value) (places : List ℕ) → node_at places v ≡ Some c → node_at places (put_at v places w) ≡ Some w }
    ensures within { (v w c : Value) (places below : List ℕ) → node_at places v ≡ Some c → node_at (places ++ below) (put_at v places w) ≡ node_at below w }
    ensures above { (v w : Value) (front places : List ℕ) → node_at front (put_at v (front ++ places) w) ≡ option_map (λ c. put_at c places w) (node_at front v) }
    ensures other { (v w : Value) (places others : List ℕ) → are_apart places others ≡ true → node_at others (put_at v places w) ≡ node_at others v }
    ensures nowhere { (v w : Value) (places : List ℕ) → node_at places v ≡ None → put_at v places w ≡ v }
{}
