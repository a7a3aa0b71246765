// From the bytes of a document to a plan.
ghost use Rattle.toml.specs.View.{table_view};
ghost use Rattle.fc_library.specs.Gives.{Gives, GivesBy};
ghost use Rattle.fc_documents.specs.Plans as spec;
ghost use Rattle.fc_documents.specs.Tables.{table_of};

use crate::bodies::{keep_beginnings, transactions_of};
use crate::plan::Plan;
use crate::rules::{keep_elements, keep_limits, keep_names};
use crate::tables::{PlanTable, plan_table};
use fc_library::LibFault;
use std::alloc::Global;
use toml::Table;

/// The plan that the bytes of a TOML document mean, or why they mean none.
///
/// The first of these faults is told: the bytes are not TOML in UTF-8; a key is unknown, missing or of the wrong kind, looked for
/// as in a library; and then, each in the whole plan before the next one, the rules: more than 255 elements, 1,024 transactions
/// or 256 changes of an element in a transaction; an element that is listed twice, or a change of one that is not listed; a name
/// that is empty or repeated, or has another character than letters, digits and `_`; a body that is no change, or a transaction
/// without one; more than 64 participants in a transaction, or 4,096 LFB instances that one with scopes changes at an element.
pub fn plan_from_slice(alloc: Global, bytes: &[u8]) -> Result<Plan, LibFault>
    ensures { Gives result (spec.plan_of bytes.now) }
{
    let table = table_from_slice(alloc, bytes)?;
    plan_of(alloc, &table)
}

/// The table that the bytes of a document write.
pub fn table_from_slice(alloc: Global, bytes: &[u8]) -> Result<Table, LibFault>
    ensures { GivesBy table_view result (table_of bytes.now) }
{
    match toml::table_from_slice(alloc, bytes) {
        Ok(table) => Ok(table),
        Err(fault) => {
            if fault.is_memory() {
                Err(LibFault::Memory)
            } else {
                Err(LibFault::NotToml)
            }
        }
    }
}

// The plan that a document's table means.
fn plan_of(alloc: Global, table: &Table) -> Result<Plan, LibFault>
    ensures { Gives result (spec.plan (table_view table.now)) }
{
    let tables = plan_table(alloc, table)?;
    plan_in(alloc, tables)
}

// What the tables say as a plan, where they keep its rules.
fn plan_in(alloc: Global, tables: PlanTable) -> Result<Plan, LibFault>
    ensures { Gives result (spec.plan_in tables) }
{
    keep_limits(
        alloc,
        tables.elements.as_slice(),
        tables.transactions.as_slice(),
    )?;
    keep_elements(tables.elements.as_slice(), tables.transactions.as_slice())?;
    keep_names(tables.transactions.as_slice())?;
    let PlanTable {
        elements,
        transactions,
    } = tables;
    let transactions = transactions_of(alloc, transactions)?;
    keep_beginnings(transactions.as_slice())?;
    Ok(Plan {
        elements,
        transactions,
    })
}
