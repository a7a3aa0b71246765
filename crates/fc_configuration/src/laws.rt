// Laws of a whole configuration.
ghost use Rattle.std.specs.Prelude.{◌≡◌, ◌∷◌, ◌++◌, [], ℕ, List, true, false, map, Ok, Err, Some, slice_get};
ghost use Rattle.std.specs.List.{AllByRecursion};
ghost use Rattle.fc_cells.specs.Cells.{Node};
ghost use Rattle.fc_cells.specs.Places.{AreWords, HaveWords, IsFree, is_named, keys_of, leaves, place};
ghost use Rattle.fc_path.specs.declared.oper.Spot.{Spot};
ghost use Rattle.fc_path.specs.declared.oper.Step.{Step};
ghost use Rattle.fc_store.specs.Stores.{AreApart, Change, Components, Found, Stored, Tree, changed, gone_back, is_in, merge_spot, opened, over_mark, put_spot, remove_spot, seen, settled, with_mark, without_mark};
ghost use Rattle.fc_store.specs.declared.spots.Purpose.{Purpose};
ghost use Rattle.fc_store.specs.declared.spots.Purpose.TheVariants as purpose;
ghost use Rattle.fc_tree.specs.Finding.{not_found};
ghost use Rattle.fc_types.specs.Libraries.{AreInstances, IsLibrary};
ghost use Rattle.fc_types.specs.declared.class.Class.{Class};
ghost use Rattle.fc_types.specs.declared.ty.Ty.{Ty};
ghost use Rattle.fc_value.specs.Nodes.{are_apart};
ghost use Rattle.fc_value.specs.SparseForm.{HoldBytes};
ghost use Rattle.fc_value.specs.declared.value.Value.{Value};
ghost use Rattle.fc_wire.specs.Bytes.{AreBytes};
ghost use Rattle.fc_wire.specs.declared.ilvs.Ilv.{Ilv};
ghost use Rattle.fc_configuration.specs.Fitting.{AreFitting, HasOpenings};
ghost use Rattle.fc_configuration.specs.Marking.{HasNoMarks, IsBeside, Marking, bare, marks_of_all};
ghost use Rattle.fc_configuration.specs.Sites.{AreElsewhere, Site, cell_at, spot_at, spot_by};

/// What is done and what is read at one instance does not depend on what was done at another: what was done stays possible, what was
/// refused is refused with the same code, and the same is read, or refused.
pub fn operations_do_not_depend()
    ensures same { (f g : Change) (a b : Spot) (s t u : Stored) → AreApart a b → changed f a s ≡ Ok t → changed g b s ≡ Ok u → (w : Stored) × (changed g b t ≡ Ok w) }
    ensures refused { (f g : Change) (a b : Spot) (s t : Stored) (code : ℕ) → AreApart a b → changed f a s ≡ Ok t → changed g b s ≡ Err code → changed g b t ≡ Err code }
    ensures read { (f : Change) (p : Purpose) (a b : Spot) (s t : Stored) → AreApart a b → changed f a s ≡ Ok t → seen p b t ≡ seen p b s }
{}

/// Of an instance, a settled copy has what it held when the first of the marks over it was set, where that mark still stands there, and
/// what it holds now where none of the marks is over it. No marks stand in the copy.
pub fn a_settled_copy_goes_back()
    ensures given { (now : Stored) (before after : List Marking) (m : Marking) (i : ℕ) (pair : ℕ × ℕ) (t u : Tree) (later : List Components) → AllByRecursion (IsBeside i pair) before → slice_get m.store.instances i ≡ Some pair → is_in m.scope pair ≡ true → slice_get m.store.trees i ≡ Some t → slice_get now.trees i ≡ Some u → u.held ≡ t.held ++ t.now ∷ later → slice_get (settled (marks_of_all (before ++ m ∷ after)) now).trees i ≡ Some (bare t) }
    ensures left { (now : Stored) (markings : List Marking) (i : ℕ) (pair : ℕ × ℕ) (u : Tree) → AllByRecursion (IsBeside i pair) markings → slice_get now.trees i ≡ Some u → slice_get (settled (marks_of_all markings) now).trees i ≡ Some (bare u) }
    ensures unmarked { (now : Stored) (markings : List Marking) → AllByRecursion HasNoMarks (settled (marks_of_all markings) now).trees }
{}

/// Each value of a store fits the type of its component, now and at each mark: those that it opens with, where each component that opens
/// with a number of its own has that number in its type, and then after each SET, merge or DEL that is not refused, whose values are
/// bytes and whose IDs have 32 bits, after each mark, at the end of each, on going back, and in a settled copy.
pub fn fits_everywhere()
    ensures opened { (library : List Class) (instances : List (ℕ × ℕ)) → IsLibrary library → HasOpenings library → AreFitting (opened library instances) }
    ensures put { (spot : Spot) (bytes : List ℕ) (s t : Stored) → IsLibrary s.library → AreFitting s → AreWords spot.steps → AreBytes bytes → put_spot spot bytes s ≡ Ok t → AreFitting t }
    ensures merged { (spot : Spot) (ilvs : List Ilv) (s t : Stored) → IsLibrary s.library → AreFitting s → HaveWords ilvs → HoldBytes ilvs → merge_spot spot ilvs s ≡ Ok t → AreFitting t }
    ensures removed { (spot : Spot) (s t : Stored) → IsLibrary s.library → AreFitting s → remove_spot spot s ≡ Ok t → AreFitting t }
    ensures marked { (mark : List (ℕ × ℕ)) (s : Stored) → AreFitting s → AreFitting (over_mark with_mark mark s) }
    ensures unmarked { (mark : List (ℕ × ℕ)) (s : Stored) → AreFitting s → AreFitting (over_mark without_mark mark s) }
    ensures back { (mark : List (ℕ × ℕ)) (s : Stored) → AreFitting s → AreFitting (over_mark gone_back mark s) }
    ensures settled { (marks : List (List (ℕ × ℕ))) (s : Stored) → AreFitting s → AreFitting (settled marks s) }
{}

/// A change of a component leaves every other component of its instance, and every other instance: each spot there leads to the same as
/// before, or is refused as before.
pub fn a_change_stays_in_its_component()
    ensures { (f : Change) (p : Purpose) (a b : Spot) (s t : Stored) → AreElsewhere a b → changed f a s ≡ Ok t → seen p b t ≡ seen p b s }
{}

/// A SET of FULLDATA at a place of a component: what is found there is what the bytes are read as; where another place of the component
/// is neither above nor below it, there is what was there, or as before nothing; above it structs and arrays stay. A spot that leaves the way
/// to the place, and of which no key is made of a field in which something is put, finds what it found.
pub fn a_set_changes_one_place()
    ensures put { (site : Site) (ids bytes : List ℕ) (s t : Stored) → AreFitting s → put_spot (spot_by site ids) bytes s ≡ Ok t → Found bytes (seen purpose.Look (spot_by site ids) t) }
    ensures other { (p : Purpose) (site : Site) (ids bytes others : List ℕ) (s t : Stored) → AreFitting s → put_spot (spot_by site ids) bytes s ≡ Ok t → are_apart ids others ≡ true → seen p (spot_by site others) t ≡ seen p (spot_by site others) s }
    ensures above { (site : Site) (front : List ℕ) (id : ℕ) (ids bytes : List ℕ) (s t : Stored) → AreFitting s → put_spot (spot_by site (front ++ id ∷ ids)) bytes s ≡ Ok t → (cell_at s site front ≡ Some Node) × (cell_at t site front ≡ Some Node) }
    ensures path { (p : Purpose) (site : Site) (ids bytes : List ℕ) (path : List Step) (others : List ℕ) (s t : Stored) (ty : Ty) (v : Value) (x : Ty × Value) → AreFitting s → put_spot (spot_by site ids) bytes s ≡ Ok t → seen purpose.Look (spot_at site []) s ≡ Ok (ty, v) → place path ty v ≡ Ok others → leaves ids path others ty ≡ true → seen purpose.Look (spot_at site path) s ≡ Ok x → seen p (spot_at site path) t ≡ seen p (spot_at site path) s }
{}

/// A merge at a place of a component: at each field or entry that an ILV names, what is found is what its value is read as; at and under
/// the others, and where another place is neither above nor below, there is what was there, or as before nothing; at the place and above
/// it structs and arrays stay. A spot that leaves the way to each place that is named, and of which no key is made of a field in which
/// something is changed, finds what it found.
pub fn a_merge_changes_what_it_names()
    ensures put { (site : Site) (ids : List ℕ) (ilvs : List Ilv) (s t : Stored) → AreFitting s → merge_spot (spot_by site ids) ilvs s ≡ Ok t → AllByRecursion (λ (ilv : Ilv). Found ilv.value (seen purpose.Look (spot_by site (ids ++ ilv.ident ∷ [])) t)) ilvs }
    ensures unnamed { (p : Purpose) (site : Site) (ids : List ℕ) (ilvs : List Ilv) (id : ℕ) (others : List ℕ) (s t : Stored) → AreFitting s → merge_spot (spot_by site ids) ilvs s ≡ Ok t → is_named ilvs id ≡ false → seen p (spot_by site (ids ++ id ∷ others)) t ≡ seen p (spot_by site (ids ++ id ∷ others)) s }
    ensures other { (p : Purpose) (site : Site) (ids : List ℕ) (ilvs : List Ilv) (others : List ℕ) (s t : Stored) → AreFitting s → merge_spot (spot_by site ids) ilvs s ≡ Ok t → are_apart ids others ≡ true → seen p (spot_by site others) t ≡ seen p (spot_by site others) s }
    ensures above { (site : Site) (front ids : List ℕ) (ilvs : List Ilv) (s t : Stored) → AreFitting s → merge_spot (spot_by site (front ++ ids)) ilvs s ≡ Ok t → (cell_at s site front ≡ Some Node) × (cell_at t site front ≡ Some Node) }
    ensures path { (p : Purpose) (site : Site) (ids : List ℕ) (first : Ilv) (more : List Ilv) (path : List Step) (others : List ℕ) (s t : Stored) (ty : Ty) (v : Value) (x : Ty × Value) → AreFitting s → merge_spot (spot_by site ids) (first ∷ more) s ≡ Ok t → seen purpose.Look (spot_at site []) s ≡ Ok (ty, v) → place path ty v ≡ Ok others → AllByRecursion (λ (ilv : Ilv). leaves (ids ++ ilv.ident ∷ []) path others ty ≡ true) (first ∷ more) → seen purpose.Look (spot_at site path) s ≡ Ok x → seen p (spot_at site path) t ≡ seen p (spot_at site path) s }
{}

/// A DEL: nothing is found any more at its spot, whether that led to an entry, with keys or without, or to a component that may be
/// absent. Of an entry that is taken, no entry of its array has one of the keys; where another place of the component is neither above
/// nor below it, there is what was there, or as before nothing; above it structs and arrays stay. Every spot of another place, which does
/// not lie above or below, finds what it found, with keys or without.
pub fn a_removal_takes_one_entry()
    ensures gone { (spot : Spot) (s t : Stored) → IsLibrary s.library → AreFitting s → remove_spot spot s ≡ Ok t → seen purpose.Look spot t ≡ Err not_found }
    ensures free { (site : Site) (front : List ℕ) (id : ℕ) (s t : Stored) (array entry : Ty) (node old : Value) → IsLibrary s.library → AreFitting s → remove_spot (spot_by site (front ++ id ∷ [])) s ≡ Ok t → seen purpose.Look (spot_by site (front ++ id ∷ [])) s ≡ Ok (entry, old) → seen purpose.Look (spot_by site front) t ≡ Ok (array, node) → AllByRecursion (IsFree entry old node) (keys_of array) }
    ensures other { (p : Purpose) (site : Site) (ids others : List ℕ) (s t : Stored) → IsLibrary s.library → AreFitting s → remove_spot (spot_by site ids) s ≡ Ok t → are_apart ids others ≡ true → seen p (spot_by site others) t ≡ seen p (spot_by site others) s }
    ensures above { (site : Site) (front : List ℕ) (id : ℕ) (ids : List ℕ) (s t : Stored) → IsLibrary s.library → AreFitting s → remove_spot (spot_by site (front ++ id ∷ ids)) s ≡ Ok t → (cell_at s site front ≡ Some Node) × (cell_at t site front ≡ Some Node) }
    ensures path { (p : Purpose) (site : Site) (ids : List ℕ) (path : List Step) (others : List ℕ) (s t : Stored) (ty : Ty) (v : Value) (x : Ty × Value) → IsLibrary s.library → AreFitting s → remove_spot (spot_by site ids) s ≡ Ok t → seen purpose.Look (spot_at site []) s ≡ Ok (ty, v) → place path ty v ≡ Ok others → are_apart ids others ≡ true → seen purpose.Look (spot_at site path) s ≡ Ok x → seen p (spot_at site path) t ≡ seen p (spot_at site path) s }
{}

/// The configuration is a map from the places of its components to cells: two stores of the same instances of one library, whose values
/// fit, hold the same now where they have the same cell at each place.
pub fn the_configuration_is_a_map()
    ensures { (s t : Stored) → s.library ≡ t.library → s.instances ≡ t.instances → IsLibrary s.library → AreInstances s.instances → AreFitting s → AreFitting t → ((site : Site) (ids : List ℕ) → cell_at s site ids ≡ cell_at t site ids) → map (λ (u : Tree). u.now) s.trees ≡ map (λ (u : Tree). u.now) t.trees }
{}

/// A spot whose steps, with keys or without, have a place in its component leads to that one: what is found, put, merged or removed
/// there is what is found, put, merged or removed at the spot of IDs to that place, refusals with their codes too.
pub fn a_spot_leads_to_one_place()
    ensures found { (p : Purpose) (site : Site) (path : List Step) (ids : List ℕ) (s : Stored) (ty : Ty) (v : Value) → AreFitting s → seen purpose.Look (spot_at site []) s ≡ Ok (ty, v) → place path ty v ≡ Ok ids → seen p (spot_at site path) s ≡ seen p (spot_by site ids) s }
    ensures put { (site : Site) (path : List Step) (ids bytes : List ℕ) (s : Stored) (ty : Ty) (v : Value) → AreFitting s → seen purpose.Look (spot_at site []) s ≡ Ok (ty, v) → place path ty v ≡ Ok ids → put_spot (spot_at site path) bytes s ≡ put_spot (spot_by site ids) bytes s }
    ensures merged { (site : Site) (path : List Step) (ids : List ℕ) (ilvs : List Ilv) (s : Stored) (ty : Ty) (v : Value) → AreFitting s → seen purpose.Look (spot_at site []) s ≡ Ok (ty, v) → place path ty v ≡ Ok ids → merge_spot (spot_at site path) ilvs s ≡ merge_spot (spot_by site ids) ilvs s }
    ensures removed { (site : Site) (path : List Step) (ids : List ℕ) (s : Stored) (ty : Ty) (v : Value) → AreFitting s → seen purpose.Look (spot_at site []) s ≡ Ok (ty, v) → place path ty v ≡ Ok ids → remove_spot (spot_at site path) s ≡ remove_spot (spot_by site ids) s }
{}
