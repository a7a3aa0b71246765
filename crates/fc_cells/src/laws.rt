// Laws of the cells of a component.
ghost use Rattle.std.specs.Prelude.{◌≡◌, ◌∷◌, ◌++◌, [], ℕ, List, true, false, Ok, Err, Some};
ghost use Rattle.std.specs.List.{AllByRecursion};
ghost use Rattle.fc_path.specs.declared.oper.Step.{Step};
ghost use Rattle.fc_tree.specs.Finding.{not_found, walked};
ghost use Rattle.fc_tree.specs.Merging.{merge_in};
ghost use Rattle.fc_tree.specs.Putting.{put_in};
ghost use Rattle.fc_tree.specs.Removing.{remove_in};
ghost use Rattle.fc_types.specs.Sound.{IsSound};
ghost use Rattle.fc_types.specs.declared.ty.Ty.{Ty};
ghost use Rattle.fc_value.specs.Fits.{Fits};
ghost use Rattle.fc_value.specs.Nodes.{are_apart};
ghost use Rattle.fc_value.specs.Reading.{full_in};
ghost use Rattle.fc_value.specs.declared.value.Value.{Value};
ghost use Rattle.fc_value.specs.SparseForm.{HoldBytes};
ghost use Rattle.fc_wire.specs.Bytes.{AreBytes};
ghost use Rattle.fc_wire.specs.declared.ilvs.Ilv.{Ilv};
ghost use Rattle.fc_cells.specs.Cells.{Node, by_ids, cell};
ghost use Rattle.fc_cells.specs.Places.{AreWords, HaveWords, IsFree, at_place, is_named, keys_of, leaves, place};

/// A value that fits its type is told by its cells: two with the same cell at each place are the same. The cells under a place are those
/// of what stands there.
pub fn cells_tell_the_value()
    ensures whole { (ty : Ty) (v w : Value) → IsSound ty → Fits ty v → Fits ty w → ((ids : List ℕ) → cell ids ty v ≡ cell ids ty w) → v ≡ w }
    ensures under { (ty part : Ty) (v node : Value) (front ids : List ℕ) → walked (by_ids front) ty v ≡ Ok (part, node) → cell (front ++ ids) ty v ≡ cell ids part node }
{}

/// A path, with keys or without, leads to one place at most, and what is found, put, merged or removed by it is what is found, put,
/// merged or removed by the path of IDs to that place, refusals with their codes too.
pub fn a_path_leads_to_one_place()
    ensures found { (ty : Ty) (v : Value) (path : List Step) → Fits ty v → walked path ty v ≡ at_place (λ ids. walked ids ty v) (place path ty v) }
    ensures put { (ty : Ty) (v : Value) (path : List Step) (bytes : List ℕ) → Fits ty v → put_in path bytes ty v ≡ at_place (λ ids. put_in ids bytes ty v) (place path ty v) }
    ensures merged { (ty : Ty) (v : Value) (path : List Step) (ilvs : List Ilv) → Fits ty v → merge_in path ilvs ty v ≡ at_place (λ ids. merge_in ids ilvs ty v) (place path ty v) }
    ensures removed { (ty : Ty) (v : Value) (path : List Step) → Fits ty v → remove_in path ty v ≡ at_place (λ ids. remove_in ids ty v) (place path ty v) }
    ensures own { (ty : Ty) (v : Value) (path : List Step) (ids : List ℕ) → Fits ty v → place path ty v ≡ Ok ids → place (by_ids ids) ty v ≡ Ok ids }
{}

/// A SET of FULLDATA at a place: what is found there is what the bytes are read as; where another place is neither above nor below it,
/// there is what was there, or as before nothing; above it structs and arrays stay. A path that leaves the way to the place, and of which
/// no key is made of a field in which something is put, leads where it led, and finds what it found.
pub fn a_set_changes_one_place()
    ensures put { (ty : Ty) (v w : Value) (ids bytes : List ℕ) → put_in (by_ids ids) bytes ty v ≡ Ok w → (part : Ty) × (node : Value) × (walked (by_ids ids) ty w ≡ Ok (part, node)) × (full_in part bytes ≡ Ok node) }
    ensures other { (ty : Ty) (v w : Value) (ids bytes others : List ℕ) → put_in (by_ids ids) bytes ty v ≡ Ok w → are_apart ids others ≡ true → walked (by_ids others) ty w ≡ walked (by_ids others) ty v }
    ensures above { (ty : Ty) (v w : Value) (front : List ℕ) (id : ℕ) (ids bytes : List ℕ) → put_in (by_ids (front ++ id ∷ ids)) bytes ty v ≡ Ok w → (cell front ty v ≡ Some Node) × (cell front ty w ≡ Some Node) }
    ensures path { (ty part : Ty) (v w node : Value) (ids bytes : List ℕ) (path : List Step) (others : List ℕ) → Fits ty v → put_in (by_ids ids) bytes ty v ≡ Ok w → place path ty v ≡ Ok others → walked path ty v ≡ Ok (part, node) → leaves ids path others ty ≡ true → (place path ty w ≡ Ok others) × (walked path ty w ≡ Ok (part, node)) }
{}

/// A merge at a place: at each field or entry that an ILV names, what is found is what its value is read as; at and under the others,
/// and where another place is neither above nor below, there is what was there, or as before nothing; at the place and above it structs
/// and arrays stay. A path that leaves the way to each place that is named, and of which no key is made of a field in which something is
/// changed, leads where it led, and finds what it found.
pub fn a_merge_changes_what_it_names()
    ensures put { (ty : Ty) (v w : Value) (ids : List ℕ) (ilvs : List Ilv) → Fits ty v → merge_in (by_ids ids) ilvs ty v ≡ Ok w → AllByRecursion (λ (ilv : Ilv). (part : Ty) × (node : Value) × (walked (by_ids (ids ++ ilv.ident ∷ [])) ty w ≡ Ok (part, node)) × (full_in part ilv.value ≡ Ok node)) ilvs }
    ensures unnamed { (ty : Ty) (v w : Value) (ids : List ℕ) (ilvs : List Ilv) (id : ℕ) (others : List ℕ) → merge_in (by_ids ids) ilvs ty v ≡ Ok w → is_named ilvs id ≡ false → walked (by_ids (ids ++ id ∷ others)) ty w ≡ walked (by_ids (ids ++ id ∷ others)) ty v }
    ensures other { (ty : Ty) (v w : Value) (ids : List ℕ) (ilvs : List Ilv) (others : List ℕ) → merge_in (by_ids ids) ilvs ty v ≡ Ok w → are_apart ids others ≡ true → walked (by_ids others) ty w ≡ walked (by_ids others) ty v }
    ensures above { (ty : Ty) (v w : Value) (front ids : List ℕ) (ilvs : List Ilv) → merge_in (by_ids (front ++ ids)) ilvs ty v ≡ Ok w → (cell front ty v ≡ Some Node) × (cell front ty w ≡ Some Node) }
    ensures path { (ty part : Ty) (v w node : Value) (ids : List ℕ) (first : Ilv) (more : List Ilv) (path : List Step) (others : List ℕ) → Fits ty v → merge_in (by_ids ids) (first ∷ more) ty v ≡ Ok w → place path ty v ≡ Ok others → walked path ty v ≡ Ok (part, node) → AllByRecursion (λ (ilv : Ilv). leaves (ids ++ ilv.ident ∷ []) path others ty ≡ true) (first ∷ more) → (place path ty w ≡ Ok others) × (walked path ty w ≡ Ok (part, node)) }
{}

/// A DEL of an entry: it is not found any more, by no path that led to it, with keys or without, and no entry of its array has one of its
/// keys; where another place is neither above nor below it, there is what was there, or as before nothing; above it structs and arrays
/// stay. Every path to another place, which does not lie above or below, leads where it led, and finds what it found.
pub fn a_removal_takes_one_entry()
    ensures gone { (ty : Ty) (v w : Value) (ids : List ℕ) (path : List Step) → IsSound ty → Fits ty v → remove_in (by_ids ids) ty v ≡ Ok w → place path ty v ≡ Ok ids → walked path ty w ≡ Err not_found }
    ensures free { (ty array entry : Ty) (v w node old : Value) (front : List ℕ) (id : ℕ) → IsSound ty → Fits ty v → remove_in (by_ids (front ++ id ∷ [])) ty v ≡ Ok w → walked (by_ids (front ++ id ∷ [])) ty v ≡ Ok (entry, old) → walked (by_ids front) ty w ≡ Ok (array, node) → AllByRecursion (IsFree entry old node) (keys_of array) }
    ensures other { (ty : Ty) (v w : Value) (ids others : List ℕ) → IsSound ty → Fits ty v → remove_in (by_ids ids) ty v ≡ Ok w → are_apart ids others ≡ true → walked (by_ids others) ty w ≡ walked (by_ids others) ty v }
    ensures above { (ty : Ty) (v w : Value) (front : List ℕ) (id : ℕ) (ids : List ℕ) → IsSound ty → Fits ty v → remove_in (by_ids (front ++ id ∷ ids)) ty v ≡ Ok w → (cell front ty v ≡ Some Node) × (cell front ty w ≡ Some Node) }
    ensures path { (ty part : Ty) (v w node : Value) (ids : List ℕ) (path : List Step) (others : List ℕ) → IsSound ty → Fits ty v → remove_in (by_ids ids) ty v ≡ Ok w → place path ty v ≡ Ok others → walked path ty v ≡ Ok (part, node) → are_apart ids others ≡ true → (place path ty w ≡ Ok others) × (walked path ty w ≡ Ok (part, node)) }
{}

/// A value that fits its type fits it after each SET, merge or DEL that is not refused, whose values are bytes and whose IDs have 32 bits.
pub fn changes_keep_the_type()
    ensures put { (ty : Ty) (v w : Value) (path : List Step) (bytes : List ℕ) → IsSound ty → Fits ty v → AreWords path → AreBytes bytes → put_in path bytes ty v ≡ Ok w → Fits ty w }
    ensures merged { (ty : Ty) (v w : Value) (path : List Step) (ilvs : List Ilv) → IsSound ty → Fits ty v → HaveWords ilvs → HoldBytes ilvs → merge_in path ilvs ty v ≡ Ok w → Fits ty w }
    ensures removed { (ty : Ty) (v w : Value) (path : List Step) → IsSound ty → Fits ty v → remove_in path ty v ≡ Ok w → Fits ty w }
{}
