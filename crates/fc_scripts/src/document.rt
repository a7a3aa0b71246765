// From the bytes of a document to a script.
ghost use Rattle.toml.specs.View.{table_view};
ghost use Rattle.fc_library.specs.Gives.{Gives};
ghost use Rattle.fc_scripts.specs.Scripts as spec;
ghost use Rattle.fc_scripts.specs.Scripts.{GivesScript};

use crate::rules::{keep_controllers, keep_counts, keep_plans};
use crate::script::Script;
use crate::steps::{read_steps, steps_of};
use crate::tables::{ScriptTable, ids_of, script_table};
use fc_base::{CeId, FeId, List};
use fc_documents::{
    PlanTxn, TransactionTable, keep_elements, keep_limits, keep_names, table_from_slice,
    transactions_of,
};
use fc_library::{LibFault, checked};
use fc_steps::{Step, StepText};
use std::alloc::Global;
use toml::Table;

/// The script that the bytes of a TOML document mean, or why they mean none.
///
/// The first of these faults is told: the bytes are not TOML in UTF-8; a key is unknown, missing or of the wrong kind, looked for
/// as in a library; the library is refused; and then, each in the whole script before the next one, the rules: more than 255 elements,
/// 16 controllers, 1,024 transactions, 100,000 steps, or 256 changes of an element in a transaction; an element that is listed twice, or
/// a change of one that is not listed; two controllers with one number, or an element with a controller that is not listed; a name that
/// is empty or repeated, or has another character than letters, digits and `_`; a body that is no change, or a transaction without one;
/// more than 4,096 LFB instances that a transaction with scopes changes at an element; and last the first text that is no step.
pub fn script_from_slice(alloc: Global, bytes: &[u8]) -> Result<Script, LibFault>
    ensures { GivesScript result (spec.script_of bytes.now) }
{
    let table = table_from_slice(alloc, bytes)?;
    script_of(alloc, &table)
}

// The script that a document's table means.
fn script_of(alloc: Global, table: &Table) -> Result<Script, LibFault>
    ensures { GivesScript result (spec.script (table_view table.now)) }
{
    let table = script_table(alloc, table)?;
    script_in(alloc, table)
}

// What the tables say as a script, where they keep its rules.
fn script_in(alloc: Global, table: ScriptTable) -> Result<Script, LibFault>
    ensures { GivesScript result (spec.script_in table) }
{
    let said = read_steps(alloc, table.steps.as_slice())?;
    let ScriptTable {
        classes,
        instances,
        elements,
        controllers,
        transactions,
        ..
    } = table;
    let (library, instances) = checked(classes, instances)?;
    keep_first(
        alloc,
        elements.as_slice(),
        controllers.as_slice(),
        transactions.as_slice(),
        said.as_slice(),
    )?;
    let (transactions, steps) = last_of(alloc, transactions, said)?;
    Ok(Script {
        library,
        instances,
        elements,
        controllers,
        transactions,
        steps,
    })
}

// Refuses what breaks one of the rules that are kept before the bodies are read.
fn keep_first(
    alloc: Global,
    elements: &[(FeId, CeId)],
    controllers: &[CeId],
    transactions: &[TransactionTable],
    said: &[Option<StepText>],
) -> Result<(), LibFault>
    ensures { Gives result (spec.first_kept elements.now controllers.now transactions.now said.now) }
{
    let ids = ids_of(alloc, elements)?;
    keep_limits(alloc, ids.as_slice(), transactions)?;
    keep_counts(controllers, said)?;
    keep_elements(ids.as_slice(), transactions)?;
    keep_controllers(elements, controllers)?;
    keep_names(transactions)
}

// The transactions of these tables and the steps that the texts say.
fn last_of(
    alloc: Global,
    tables: List<TransactionTable>,
    said: List<Option<StepText>>,
) -> Result<(List<PlanTxn>, List<(usize, Step)>), LibFault>
    ensures { Gives result (spec.last_of tables said) }
{
    let transactions = plans_of(alloc, tables)?;
    let steps = steps_of(alloc, said)?;
    Ok((transactions, steps))
}

// The transactions of these tables, each of which is a plan.
fn plans_of(alloc: Global, tables: List<TransactionTable>) -> Result<List<PlanTxn>, LibFault>
    ensures { Gives result (spec.plans_of tables) }
{
    let transactions = transactions_of(alloc, tables)?;
    keep_plans(transactions.as_slice())?;
    Ok(transactions)
}
