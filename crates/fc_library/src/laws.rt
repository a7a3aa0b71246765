// What the definitions of a document say, for the crates that stand on it.
ghost use Rattle.std.specs.Prelude.{◌≡◌, ◌≢◌, ◌↔◌, ℕ, List, [], Some, None, Ok, Err, false, true};
ghost use Rattle.std.specs.List.{AllByRecursion};
ghost use Rattle.std.specs.Ordering.{nat_cmp, is_gt};
ghost use Rattle.std.specs.Cmp.Lexicographic.{slice_cmp};
ghost use Rattle.toml.specs.Data.{Members};
ghost use Rattle.fc_types.specs.Libraries.{first_fault};
ghost use Rattle.fc_types.specs.Types.{span};
ghost use Rattle.fc_types.specs.declared.class.Class.{Class};
ghost use Rattle.fc_types.specs.declared.fault.CheckFault.{CheckFault};
ghost use Rattle.fc_types.specs.declared.fault.CheckFault.TheVariants as checks;
ghost use Rattle.fc_library.specs.Declarations.{declaration};
ghost use Rattle.fc_library.specs.Documents.{document, library_of};
ghost use Rattle.fc_library.specs.Keys.{is_among, only, unknown_keys};
ghost use Rattle.fc_library.specs.Names.{greatest, is_signed, least, width};
ghost use Rattle.fc_library.specs.Types.{type_in, type_of};
ghost use Rattle.fc_library.specs.declared.fault.DocumentRule.{DocumentRule};
ghost use Rattle.fc_library.specs.declared.fault.LibFault.TheVariants.{NotToml, Unknown, Check, Rule, StepText, Memory};
ghost use Rattle.fc_library.specs.declared.names.NumberName.{NumberName};
ghost use Rattle.fc_library.specs.declared.names.TypeName.{TypeName};

/// The unknown key that is told is an unknown one of the table, and none of them comes before it by its bytes. Where a table
/// has no unknown key, none is told.
pub fn unknown_keys_rise()
    ensures told { (known : List (List ℕ)) (ms : Members) (key : List ℕ) → only known ms ≡ Err (Unknown key) → (is_among key (unknown_keys known ms) ≡ true) × AllByRecursion (λ other. is_gt (slice_cmp nat_cmp key other) ≡ false) (unknown_keys known ms) }
    ensures none { (known : List (List ℕ)) (ms : Members) → only known ms ≡ Ok tt ↔ unknown_keys known ms ≡ [] }
{}

/// What a table's type is, is said by the types of the tables inside it, however deep they nest.
pub fn types_inside_types()
    ensures { (name : TypeName) (ms : Members) → type_of name ms ≡ type_in type_of name ms }
{}

/// A type of numbers goes by default from the least to the greatest number of its width and sign.
pub fn numbers_span_their_type()
    ensures { (name : NumberName) → span (width name) (is_signed name) ≡ Some (least name, greatest name) }
{}

/// The causes that are not of keys stand alone: a document is not TOML exactly where its bytes are none; the check refuses it
/// exactly where its tables declare classes and instances of which that is the first fault; and it means a library exactly
/// where its tables declare classes and instances that have none. No other rule refuses it and no
/// step, and want of memory is no meaning.
pub fn documents_are_judged_once()
    ensures not_toml { (bytes : List ℕ) → library_of bytes ≡ Err NotToml ↔ document bytes ≡ None }
    ensures refused { (bytes : List ℕ) (fault : CheckFault) → (library_of bytes ≡ Err (Check fault)) ↔ ((ms : Members) × (given : List Class × List (ℕ × ℕ)) × (document bytes ≡ Some ms) × (declaration ms ≡ Ok given) × (first_fault given.0 given.1 ≡ Some fault)) }
    ensures accepted { (bytes : List ℕ) (given : List Class × List (ℕ × ℕ)) → (library_of bytes ≡ Ok given) ↔ ((ms : Members) × (document bytes ≡ Some ms) × (declaration ms ≡ Ok given) × (first_fault given.0 given.1 ≡ None)) }
    ensures rule { (bytes : List ℕ) (rule : DocumentRule) → library_of bytes ≢ Err (Rule rule) }
    ensures step { (bytes : List ℕ) (place : ℕ) → library_of bytes ≢ Err (StepText place) }
    ensures memory { (bytes : List ℕ) → (library_of bytes ≢ Err Memory) × (library_of bytes ≢ Err (Check checks.Memory)) }
{}
