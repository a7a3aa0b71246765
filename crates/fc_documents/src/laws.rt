// What the definitions of a plan say, for the crates that stand on it.
ghost use Rattle.std.specs.Prelude.{◌≡◌, ◌≢◌, ◌↔◌, ◌&&◌, ℕ, nat_le, List, Some, None, Ok, Err, true, length, map};
ghost use Rattle.std.specs.List.{AllByRecursion, list_any};
ghost use Rattle.toml.specs.Data.{Members};
ghost use Rattle.fc_types.specs.declared.fault.CheckFault.{CheckFault};
ghost use Rattle.fc_library.specs.Documents.{document};
ghost use Rattle.fc_library.specs.declared.fault.DocumentRule.{DocumentRule};
ghost use Rattle.fc_library.specs.declared.fault.LibFault.{LibFault};
ghost use Rattle.fc_library.specs.declared.fault.LibFault.TheVariants.{NotToml, Check, Rule, StepText, Memory};
ghost use Rattle.fc_documents.specs.Tables.{plan_table};
ghost use Rattle.fc_documents.specs.Rules.{has_few, is_of, is_listed, participants};
ghost use Rattle.fc_documents.specs.Parts.{makes_plan, can_begin, each_of, element_of, HasOwn, transaction_of};
ghost use Rattle.fc_documents.specs.Plans.{Planned, plan_of};
ghost use Rattle.fc_documents.specs.Kept.{IsPlan};
ghost use Rattle.fc_documents.specs.Causes.{IsOfKey, first_broken, has_small_scopes, plan_rules};
ghost use Rattle.fc_documents.specs.declared.tables.ChangeTable.{ChangeTable};
ghost use Rattle.fc_documents.specs.declared.tables.TransactionTable.{TransactionTable};
ghost use Rattle.fc_documents.specs.declared.tables.PlanTable.{PlanTable};
ghost use Rattle.fc_documents.specs.declared.transaction.PlanTxn.{PlanTxn};

/// Each cause stands alone: a document is not TOML exactly where its bytes are none; a key refuses it exactly where its tables have
/// that fault of a key; a rule refuses it exactly where its tables can be read and that rule is the first that they break; and it
/// means a plan exactly where its tables can be read and break no rule: the plan's elements are those of its tables, and its
/// transactions what the tables of transactions write. The check of a library never refuses it, no step
/// does, and want of memory is no meaning.
pub fn plans_are_judged_once()
    ensures not_toml { (bytes : List ℕ) → plan_of bytes ≡ Err NotToml ↔ document bytes ≡ None }
    ensures key { (bytes key : List ℕ) (fault : LibFault) → IsOfKey key fault → (plan_of bytes ≡ Err fault) ↔ ((ms : Members) × (document bytes ≡ Some ms) × (plan_table ms ≡ Err fault)) }
    ensures rule { (bytes : List ℕ) (rule : DocumentRule) → (plan_of bytes ≡ Err (Rule rule)) ↔ ((ms : Members) × (table : PlanTable) × (document bytes ≡ Some ms) × (plan_table ms ≡ Ok table) × (first_broken (plan_rules table) ≡ Some rule)) }
    ensures accepted { (bytes : List ℕ) (plan : Planned) → (plan_of bytes ≡ Ok plan) ↔ ((ms : Members) × (table : PlanTable) × (document bytes ≡ Some ms) × (plan_table ms ≡ Ok table) × (first_broken (plan_rules table) ≡ None) × (plan.elements ≡ table.elements) × (each_of transaction_of table.transactions ≡ Ok plan.transactions)) }
    ensures step { (bytes : List ℕ) (place : ℕ) → plan_of bytes ≢ Err (StepText place) }
    ensures other { (bytes : List ℕ) (fault : CheckFault) → (plan_of bytes ≢ Err (Check fault)) × (plan_of bytes ≢ Err Memory) }
{}

/// Whatever a document means keeps the rules of a plan.
pub fn plans_keep_their_rules()
    ensures { (bytes : List ℕ) (plan : Planned) → plan_of bytes ≡ Ok plan → IsPlan plan }
{}

/// What is read of a transaction that has few changes of each element is no plan only where a scope is too large, and beside that only too
/// many participants keep a control element from beginning it.
pub fn only_size_forbids_beginning()
    ensures scopes { (t : TransactionTable) (x : PlanTxn) → has_few t ≡ true → transaction_of t ≡ Ok x → makes_plan x ≡ has_small_scopes x }
    ensures begun { (t : TransactionTable) (x : PlanTxn) → has_few t ≡ true → transaction_of t ≡ Ok x → can_begin x ≡ (has_small_scopes x && nat_le (length x.parts) 64) }
{}

/// The participants of a transaction are the elements that its changes are of, and each one's changes are what the bodies of its
/// own write, in the order of the document.
pub fn changes_keep_their_order()
    ensures participants { (cs : List ChangeTable) (e : ℕ) → is_listed (participants cs) e ≡ list_any (is_of e) cs }
    ensures changes { (t : TransactionTable) (x : PlanTxn) → transaction_of t ≡ Ok x → (map element_of x.parts ≡ participants t.changes) × AllByRecursion (HasOwn t.changes) x.parts }
{}
