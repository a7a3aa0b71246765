// Laws of the classes that each element has of itself.
ghost use Rattle.std.specs.Prelude.{◌≡◌, ◌++◌, ℕ, List, true, Some, slice_get};
ghost use Rattle.std.specs.List.{list_all};
ghost use Rattle.fc_configuration.specs.Fitting.{AreFitting, HasOpenings};
ghost use Rattle.fc_lfbs.specs.BuiltIns.{built_in};
ghost use Rattle.fc_lfbs.specs.LiveValues.{IsTold, Told, told_value};
ghost use Rattle.fc_opening.specs.TellsWords.{TellsWords};
ghost use Rattle.fc_store.specs.Stores.{declared_in, opened};
ghost use Rattle.fc_types.specs.Components.{ComponentDecl};
ghost use Rattle.fc_types.specs.Libraries.{IsLibrary, is_own};
ghost use Rattle.fc_types.specs.declared.class.Class.{Class};
ghost use Rattle.fc_value.specs.Fits.{Fits};
ghost use Rattle.fc_value.specs.declared.value.Value.{Value};

/// The classes that each element has of itself, behind classes with other IDs, open with numbers that their components have: FEState, CEHDI
/// and FEHI. So each value of a store that is opened with such a library fits its type.
pub fn own_openings_fit()
    ensures openings { (classes : List Class) → list_all is_own classes ≡ true → HasOpenings (classes ++ built_in) }
    ensures opened { (classes : List Class) (instances : List (ℕ × ℕ)) → list_all is_own classes ≡ true → IsLibrary (classes ++ built_in) → AreFitting (opened (classes ++ built_in) instances) }
{}

/// Each value that an element tells fits the type of its component, where what it tells is made of numbers of 32 bits: the instances rise
/// and are at most 65,536, and of the transactions there are at most 4,096, no two of one epoch and number, with at most 64 participants
/// each.
pub fn told_values_fit()
    ensures { (classes : List Class) (s : Told) (class instance i : ℕ) (component : ComponentDecl) (v : Value) → list_all is_own classes ≡ true → IsTold s → TellsWords s → slice_get (declared_in (classes ++ built_in) class) i ≡ Some component → told_value s class instance component.id ≡ Some v → Fits component.ty v }
{}
