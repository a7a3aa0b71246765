// What the definitions of a script say, for the crates that stand on it.
ghost use Rattle.std.specs.Prelude.{◌≡◌, ◌≢◌, ◌↔◌, ℕ, List, map, length, Some, None, Ok, Err};
ghost use Rattle.toml.specs.Data.{Members};
ghost use Rattle.fc_types.specs.Libraries.{first_fault};
ghost use Rattle.fc_types.specs.declared.fault.CheckFault.{CheckFault};
ghost use Rattle.fc_library.specs.Documents.{document};
ghost use Rattle.fc_library.specs.declared.fault.DocumentRule.{DocumentRule};
ghost use Rattle.fc_library.specs.declared.fault.LibFault.{LibFault};
ghost use Rattle.fc_library.specs.declared.fault.LibFault.TheVariants.{NotToml, Check, Rule, StepText, Memory};
ghost use Rattle.fc_documents.specs.Causes.{IsOfKey, first_broken};
ghost use Rattle.fc_steps.specs.Steps.{step_of};
ghost use Rattle.fc_steps.specs.declared.step.Step.{Step};
ghost use Rattle.fc_scripts.specs.Tables.{script_table};
ghost use Rattle.fc_scripts.specs.Steps.{count, steps_from};
ghost use Rattle.fc_scripts.specs.Scripts.{Scripted, script_of};
ghost use Rattle.fc_scripts.specs.Kept.{IsScript};
ghost use Rattle.fc_scripts.specs.Causes.{IsFirstWrong, IsRead, script_rules};
ghost use Rattle.fc_scripts.specs.declared.tables.ScriptTable.{ScriptTable};

/// Each cause stands alone: a document is not TOML exactly where its bytes are none; a key refuses it exactly where its tables have
/// that fault of a key; the check of its library refuses it exactly where its tables can be read and that is the first fault of its
/// classes and instances; a rule refuses it exactly where these have none and that rule is the first that its tables break; a step
/// refuses it exactly where they break none and the first text that says no step stands at that place; and it means a script exactly
/// where its tables can be read, break no rule, and say it. Want of memory is no meaning.
pub fn scripts_are_judged_once()
    ensures not_toml { (bytes : List ℕ) → script_of bytes ≡ Err NotToml ↔ document bytes ≡ None }
    ensures key { (bytes key : List ℕ) (fault : LibFault) → IsOfKey key fault → (script_of bytes ≡ Err fault) ↔ ((ms : Members) × (document bytes ≡ Some ms) × (script_table ms ≡ Err fault)) }
    ensures check { (bytes : List ℕ) (fault : CheckFault) → (script_of bytes ≡ Err (Check fault)) ↔ ((ms : Members) × (table : ScriptTable) × (document bytes ≡ Some ms) × (script_table ms ≡ Ok table) × (first_fault table.classes table.instances ≡ Some fault)) }
    ensures rule { (bytes : List ℕ) (rule : DocumentRule) → (script_of bytes ≡ Err (Rule rule)) ↔ ((ms : Members) × (table : ScriptTable) × (document bytes ≡ Some ms) × (script_table ms ≡ Ok table) × (first_fault table.classes table.instances ≡ None) × (first_broken (script_rules table) ≡ Some rule)) }
    ensures step { (bytes : List ℕ) (place : ℕ) → (script_of bytes ≡ Err (StepText place)) ↔ ((ms : Members) × (table : ScriptTable) × (document bytes ≡ Some ms) × (script_table ms ≡ Ok table) × (first_fault table.classes table.instances ≡ None) × (first_broken (script_rules table) ≡ None) × IsFirstWrong table.steps place) }
    ensures accepted { (bytes : List ℕ) (s : Scripted) → (script_of bytes ≡ Ok s) ↔ ((ms : Members) × (table : ScriptTable) × (document bytes ≡ Some ms) × (script_table ms ≡ Ok table) × (first_fault table.classes table.instances ≡ None) × (first_broken (script_rules table) ≡ None) × IsRead table s) }
    ensures memory { (bytes : List ℕ) → script_of bytes ≢ Err Memory }
{}

/// Whatever a document means keeps the rules of a script.
pub fn scripts_keep_their_rules()
    ensures { (bytes : List ℕ) (s : Scripted) → script_of bytes ≡ Ok s → IsScript s }
{}

/// There are as many steps as the limit counts.
pub fn steps_are_counted()
    ensures { (texts : List (List ℕ)) (steps : List (ℕ × Step)) → steps_from 1 (map step_of texts) ≡ Ok steps → length steps ≡ count (map step_of texts) }
{}
