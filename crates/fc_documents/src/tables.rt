// What the tables of a plan say.
ghost use Rattle.std.specs.Prelude.{◌≡◌};
ghost use Rattle.toml.specs.View.{view, table_view, items_view};
ghost use Rattle.fc_library.specs.Gives.{Gives};
ghost use Rattle.fc_library.specs.Types.{each};
ghost use Rattle.fc_documents.specs.Tables as spec;

use fc_base::{FeId, List, Text};
use fc_library::{
    LibFault, find, number_at, only, tables_at, tables_or_none, text_at, truth_or, wrong_kind,
};
use std::alloc::Global;
use toml::{Table, Value};

/// A change as its table says it.
#[derive(Debug, Drop)]
pub struct ChangeTable {
    /// The element that is changed.
    pub element: FeId,
    /// The text of the changes.
    pub body: Text,
}

/// A transaction as its table says it.
#[derive(Debug, Drop)]
pub struct TransactionTable {
    pub name: Text,
    /// Whether it holds no more than the LFB instances that its changes name.
    pub scoped: bool,
    /// The moment from which on it is given up, where it is not decided by then.
    pub give_up: Option<u64>,
    /// The changes, in the order of the document.
    pub changes: List<ChangeTable>,
}

/// A plan as its tables say it.
#[derive(Debug, Drop)]
pub struct PlanTable {
    /// The elements, in the order of the document.
    pub elements: List<FeId>,
    /// The transactions, in the order of the document.
    pub transactions: List<TransactionTable>,
}

/// What the table of a plan and the tables in it say.
pub(crate) fn plan_table(alloc: Global, table: &Table) -> Result<PlanTable, LibFault>
    ensures { Gives result (spec.plan_table (table_view table.now)) }
{
    only(alloc, table, &["element", "transaction"], &[])?;
    let element_tables = tables_at(alloc, table, "element")?;
    let transaction_tables = tables_or_none(alloc, table, "transaction")?;
    let elements = elements(alloc, element_tables)?;
    let transactions = transactions(alloc, transaction_tables)?;
    Ok(PlanTable {
        elements,
        transactions,
    })
}

fn elements(alloc: Global, values: &[Value]) -> Result<List<FeId>, LibFault>
    ensures { Gives result (each spec.element (items_view values.now)) }
{
    let mut elements = List::new(alloc);
    'values: for value in values {
        let Value::Table(table) = value else {
            continue;
        };
        elements.push(element(alloc, table)?)?;
    }
    Ok(elements)
}

fn element(alloc: Global, table: &Table) -> Result<FeId, LibFault>
    ensures { Gives result (spec.element (table_view table.now)) }
{
    only(alloc, table, &["id"], &[])?;
    element_at(alloc, table, "id")
}

fn transactions(alloc: Global, values: &[Value]) -> Result<List<TransactionTable>, LibFault>
    ensures { Gives result (each spec.transaction (items_view values.now)) }
{
    let mut transactions = List::new(alloc);
    'values: for value in values {
        let Value::Table(table) = value else {
            continue;
        };
        transactions.push(transaction(alloc, table)?)?;
    }
    Ok(transactions)
}

fn transaction(alloc: Global, table: &Table) -> Result<TransactionTable, LibFault>
    ensures { Gives result (spec.transaction (table_view table.now)) }
{
    only(alloc, table, &["name", "scoped", "give_up", "change"], &[])?;
    let name = text_at(alloc, table, "name")?;
    let scoped = truth_or(alloc, table, "scoped", false)?;
    let give_up = moment_or_none(alloc, table, "give_up")?;
    let change_tables = tables_at(alloc, table, "change")?;
    let changes = changes(alloc, change_tables)?;
    Ok(TransactionTable {
        name,
        scoped,
        give_up,
        changes,
    })
}

/// The changes that tables say, in their order.
pub fn changes(alloc: Global, values: &[Value]) -> Result<List<ChangeTable>, LibFault>
    ensures { Gives result (each spec.change (items_view values.now)) }
{
    let mut changes = List::new(alloc);
    'values: for value in values {
        let Value::Table(table) = value else {
            continue;
        };
        changes.push(change(alloc, table)?)?;
    }
    Ok(changes)
}

fn change(alloc: Global, table: &Table) -> Result<ChangeTable, LibFault>
    ensures { Gives result (spec.change (table_view table.now)) }
{
    only(alloc, table, &["element", "body"], &[])?;
    let element = element_at(alloc, table, "element")?;
    let body = text_at(alloc, table, "body")?;
    Ok(ChangeTable { element, body })
}

/// The ID of an element, at a key that has to be there.
pub fn element_at(alloc: Global, table: &Table, key: &str) -> Result<FeId, LibFault>
    ensures { Gives result (spec.element_at key.now (table_view table.now)) }
{
    let id = number_at(alloc, table, key, 1, 0x3FFF_FFFF)?;
    match FeId::of(id) {
        Some(element) => Ok(element),
        None => unreachable!(),
    }
}

// A number of 64 bits at a key, or none.
fn moment_or_none(alloc: Global, table: &Table, key: &str) -> Result<Option<u64>, LibFault>
    ensures { Gives result (spec.moment_or_none key.now (table_view table.now)) }
{
    match find(table, key) {
        Some(value) => Ok(Some(moment(alloc, value, key)?)),
        None => Ok(None),
    }
}

fn moment(alloc: Global, value: &Value, key: &str) -> Result<u64, LibFault>
    ensures { Gives result (spec.moment key.now (view value.now)) }
{
    match value {
        Value::Integer(z) => match u64::try_from(*z) {
            Ok(n) => Ok(n),
            Err(_) => Err(wrong_kind(alloc, key)),
        },
        _ => Err(wrong_kind(alloc, key)),
    }
}
