// What the definitions of a library say, for the crates that stand on it.
ghost use Rattle.std.specs.Prelude.{◌≡◌, ◌++◌, ◌∷◌, Bool, true, false, List, ℕ, suc, Some, None, nat_eq, ◌≢◌};
ghost use Rattle.std.specs.List.{AllByRecursion, AllPairs, list_all};
ghost use Rattle.fc_types.specs.Ids.{is_distinct};
ghost use Rattle.fc_types.specs.Sound.{IsSound, SoundLayer};
ghost use Rattle.fc_types.specs.Types.{field_ty, inside, is_atom, nests, throughout};
ghost use Rattle.fc_types.specs.Libraries.{IsLibrary, first_broken, same_instance};
ghost use Rattle.fc_types.specs.declared.class.Class.{Class};
ghost use Rattle.fc_types.specs.declared.fault.CheckFault.{CheckFault};
ghost use Rattle.fc_types.specs.declared.ty.Field.{Field};
ghost use Rattle.fc_types.specs.declared.ty.KeyDecl.{KeyDecl};
ghost use Rattle.fc_types.specs.declared.ty.Ty.{Ty};
ghost use Rattle.fc_types.specs.declared.ty.Ty.TheVariants as type;
ghost use Rattle.fc_types.specs.declared.ty.Ty.TheViews.{out-Ty};

/// Each component of a library has a sound type.
pub fn sound_components()
    ensures { (classes : List Class) → IsLibrary classes → AllByRecursion (λ class. AllByRecursion (λ x. IsSound x.ty) class.components) classes }
{}

/// A sound type is sound at each level, down to those that have none inside them.
pub fn sound_level()
    ensures { (ty : Ty) → IsSound ty → SoundLayer (out-Ty ty) }
{}

/// What holds inside a struct is what holds throughout the type of each of its fields, and inside an array throughout that of
/// its entry; nothing stands inside another type.
pub fn inside_types()
    ensures fields { (test : Ty → Bool) (fields : List Field) → inside test (type.Struct fields) ≡ list_all (λ f. throughout test (field_ty f)) fields }
    ensures entry { (test : Ty → Bool) (entry : Ty) (entries : ℕ) (keys : List KeyDecl) → inside test (type.Array entry entries keys) ≡ throughout test entry }
    ensures atom { (test : Ty → Bool) (ty : Ty) → is_atom ty ≡ true → inside test ty ≡ true }
{}

/// A struct nests one level deeper than its fields may, and an array one deeper than its entry; another type is one deep.
pub fn nesting_types()
    ensures fields { (levels : ℕ) (fields : List Field) → nests (suc levels) (type.Struct fields) ≡ list_all (λ f. nests levels (field_ty f)) fields }
    ensures entry { (levels : ℕ) (entry : Ty) (entries : ℕ) (keys : List KeyDecl) → nests (suc levels) (type.Array entry entries keys) ≡ nests levels entry }
    ensures atom { (levels : ℕ) (ty : Ty) → is_atom ty ≡ true → nests (suc levels) ty ≡ true }
    ensures none { (ty : Ty) → nests 0 ty ≡ false }
{}

/// The fault of a declaration is that of a rule that is not kept, all before it being kept; there is none where all are.
pub fn first_fault_is_first()
    ensures broken { (rules : List (Bool × CheckFault)) (f : CheckFault) → first_broken rules ≡ Some f → (front : List (Bool × CheckFault)) × (back : List (Bool × CheckFault)) × (rules ≡ front ++ (false, f) ∷ back) × (list_all (λ rule. rule.0) front ≡ true) }
    ensures kept { (rules : List (Bool × CheckFault)) → first_broken rules ≡ None → list_all (λ rule. rule.0) rules ≡ true }
{}

/// IDs are different where no two places have the same one, and so are instances.
pub fn different_ids()
    ensures apart { (ids : List ℕ) → is_distinct nat_eq ids ≡ true → AllPairs (λ id other. id ≢ other) ids }
    ensures told { (ids : List ℕ) → AllPairs (λ id other. id ≢ other) ids → is_distinct nat_eq ids ≡ true }
    ensures instances_apart { (pairs : List (ℕ × ℕ)) → is_distinct same_instance pairs ≡ true → AllPairs (λ p q. p ≢ q) pairs }
    ensures instances_told { (pairs : List (ℕ × ℕ)) → AllPairs (λ p q. p ≢ q) pairs → is_distinct same_instance pairs ≡ true }
{}
