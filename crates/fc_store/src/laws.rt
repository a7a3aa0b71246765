// Laws of the store.
ghost use Rattle.std.specs.Prelude.{◌≡◌, ◌∷◌, ◌++◌, [], ℕ, List, Some, Ok, true, false, slice_get};
ghost use Rattle.fc_path.specs.declared.oper.Spot.{Spot};
ghost use Rattle.fc_path.specs.declared.oper.Step.{Step};
ghost use Rattle.fc_types.specs.Components.{ComponentDecl};
ghost use Rattle.fc_types.specs.declared.class.Class.{Class};
ghost use Rattle.fc_store.specs.Spots.{resolved};
ghost use Rattle.fc_store.specs.Stores.{AreApart, AreBeside, AreIds, Change, Found, IsWhole, Stored, Tree, changed, declared_in, gone_back, is_in, mark_of, over_mark, put_spot, seen, then_changed};
ghost use Rattle.fc_store.specs.declared.spots.Purpose.{Purpose};
ghost use Rattle.fc_store.specs.declared.spots.Purpose.TheVariants as purpose;

/// A spot that is found leads to a component that its class declares.
pub fn found_components_are_declared()
    ensures { (p : Purpose) (library : List Class) (pairs : List (ℕ × ℕ)) (class instance : ℕ) (steps : List Step) (place : ℕ × ℕ) → resolved p library pairs class instance steps ≡ Ok place → (component : ComponentDecl) × (slice_get (declared_in library class) place.1 ≡ Some component) }
{}

/// What is done at one instance does not depend on what was done at another: it gives the same code, and both may be done in either
/// order.
pub fn instances_apart()
    ensures { (f g : Change) (a b : Spot) (s t : Stored) → AreApart a b → changed f a s ≡ Ok t → changed g b t ≡ then_changed f a (changed g b s) }
{}

/// What a SET of FULLDATA puts at a spot all of whose steps are IDs is found there.
pub fn what_is_put_is_found()
    ensures { (spot : Spot) (bytes : List ℕ) (s t : Stored) → AreIds spot.steps → IsWhole s → put_spot spot bytes s ≡ Ok t → Found bytes (seen purpose.Look spot t) }
{}

/// A SET of FULLDATA changes nothing at another instance, and nothing to which a spot leads whose way parts from that of its own at IDs
/// that differ: that spot leads to the same as before, or is refused as before.
pub fn what_is_beside_stays()
    ensures { (purpose : Purpose) (a b : Spot) (bytes : List ℕ) (s t : Stored) → AreBeside a b → IsWhole s → put_spot a bytes s ≡ Ok t → seen purpose b t ≡ seen purpose b s }
{}

/// Going back to a mark gives an instance of its scope what it held when the mark was set, where it is the newest mark that stands
/// there, and leaves every other instance.
pub fn marks_give_back()
    ensures given { (s now : Stored) (scope : List (ℕ × ℕ)) (i : ℕ) (pair : ℕ × ℕ) (t u : Tree) → slice_get s.instances i ≡ Some pair → is_in scope pair ≡ true → slice_get now.trees i ≡ Some u → u.held ≡ t.held ++ t.now ∷ [] → slice_get (over_mark gone_back (mark_of scope s) now).trees i ≡ Some t }
    ensures left { (s now : Stored) (scope : List (ℕ × ℕ)) (i : ℕ) (pair : ℕ × ℕ) → slice_get s.instances i ≡ Some pair → is_in scope pair ≡ false → slice_get (over_mark gone_back (mark_of scope s) now).trees i ≡ slice_get now.trees i }
{}
