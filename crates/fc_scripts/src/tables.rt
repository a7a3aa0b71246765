// What the tables of a script say.
ghost use Rattle.std.specs.Prelude.{◌≡◌, map, IfOk};
ghost use Rattle.toml.specs.View.{table_view, items_view};
ghost use Rattle.fc_library.specs.Gives.{Gives};
ghost use Rattle.fc_library.specs.Types.{each};
ghost use Rattle.fc_scripts.specs.Tables as spec;

use fc_base::{CeId, FeId, List, Memory, Text};
use fc_documents::{TransactionTable, changes, element_at};
use fc_library::{
    LibFault, classes, instances, number_at, only, tables_at, tables_or_none, text_at, texts_at,
    truth_or, wrong_kind,
};
use fc_types::Class;
use std::alloc::Global;
use toml::{Table, Value};

/// A script as its tables say it.
#[derive(Debug, Drop)]
pub struct ScriptTable {
    /// The classes, in the order of the document.
    pub classes: List<Class>,
    /// The instances, in the order of the document, each its class and its ID.
    pub instances: List<(u32, u32)>,
    /// The elements, in the order of the document, each with the controller that it has of itself.
    pub elements: List<(FeId, CeId)>,
    /// The controllers, in the order of the document.
    pub controllers: List<CeId>,
    /// The transactions, in the order of the document.
    pub transactions: List<TransactionTable>,
    /// The texts of the steps, in the order of the document.
    pub steps: List<Text>,
}

/// What the table of a script and the tables in it say.
pub(crate) fn script_table(alloc: Global, table: &Table) -> Result<ScriptTable, LibFault>
    ensures { Gives result (spec.script_table (table_view table.now)) }
{
    only(
        alloc,
        table,
        &[
            "class",
            "instance",
            "element",
            "controller",
            "transaction",
            "steps",
        ],
        &[],
    )?;
    let class_tables = tables_or_none(alloc, table, "class")?;
    let instance_tables = tables_or_none(alloc, table, "instance")?;
    let element_tables = tables_at(alloc, table, "element")?;
    let controller_tables = tables_at(alloc, table, "controller")?;
    let transaction_tables = tables_or_none(alloc, table, "transaction")?;
    let steps = texts_at(alloc, table, "steps")?;
    let classes = classes(alloc, class_tables)?;
    let instances = instances(alloc, instance_tables)?;
    let elements = elements(alloc, element_tables)?;
    let controllers = controllers(alloc, controller_tables)?;
    let transactions = transactions(alloc, transaction_tables)?;
    Ok(ScriptTable {
        classes,
        instances,
        elements,
        controllers,
        transactions,
        steps,
    })
}

fn elements(alloc: Global, values: &[Value]) -> Result<List<(FeId, CeId)>, LibFault>
    ensures { Gives result (each spec.element (items_view values.now)) }
{
    let mut elements = List::new(alloc);
    'values: for value in values {
        let Value::Table(table) = value else {
            continue;
        };
        elements.push(element(alloc, table)?)?;
    }
    Ok(elements)
}

fn element(alloc: Global, table: &Table) -> Result<(FeId, CeId), LibFault>
    ensures { Gives result (spec.element (table_view table.now)) }
{
    only(alloc, table, &["id", "ce"], &[])?;
    let id = element_at(alloc, table, "id")?;
    let ce = controller_at(alloc, table, "ce")?;
    Ok((id, ce))
}

fn controllers(alloc: Global, values: &[Value]) -> Result<List<CeId>, LibFault>
    ensures { Gives result (each spec.controller (items_view values.now)) }
{
    let mut controllers = List::new(alloc);
    'values: for value in values {
        let Value::Table(table) = value else {
            continue;
        };
        controllers.push(controller(alloc, table)?)?;
    }
    Ok(controllers)
}

fn controller(alloc: Global, table: &Table) -> Result<CeId, LibFault>
    ensures { Gives result (spec.controller (table_view table.now)) }
{
    only(alloc, table, &["id"], &[])?;
    controller_at(alloc, table, "id")
}

// The ID of a controller, at a key that has to be there.
fn controller_at(alloc: Global, table: &Table, key: &str) -> Result<CeId, LibFault>
    ensures { Gives result (spec.controller_at key.now (table_view table.now)) }
{
    let id = number_at(alloc, table, key, 0, u32::MAX)?;
    controller_of(alloc, id, key)
}

fn controller_of(alloc: Global, id: u32, key: &str) -> Result<CeId, LibFault>
    ensures { Gives result (spec.controller_of key.now id) }
{
    match CeId::of(id) {
        Some(controller) => Ok(controller),
        None => Err(wrong_kind(alloc, key)),
    }
}

fn transactions(alloc: Global, values: &[Value]) -> Result<List<TransactionTable>, LibFault>
    ensures { Gives result (each spec.transaction (items_view values.now)) }
{
    let mut transactions = List::new(alloc);
    'values: for value in values {
        let Value::Table(table) = value else {
            continue;
        };
        transactions.push(transaction(alloc, table)?)?;
    }
    Ok(transactions)
}

// A transaction, which a step of the script gives up where it is given up.
fn transaction(alloc: Global, table: &Table) -> Result<TransactionTable, LibFault>
    ensures { Gives result (spec.transaction (table_view table.now)) }
{
    only(alloc, table, &["name", "scoped", "change"], &[])?;
    let name = text_at(alloc, table, "name")?;
    let scoped = truth_or(alloc, table, "scoped", false)?;
    let change_tables = tables_at(alloc, table, "change")?;
    let changes = changes(alloc, change_tables)?;
    Ok(TransactionTable {
        name,
        scoped,
        give_up: None,
        changes,
    })
}

/// The IDs of the elements.
pub(crate) fn ids_of(alloc: Global, elements: &[(FeId, CeId)]) -> Result<List<FeId>, Memory>
    ensures { IfOk result (λ ids. ids ≡ map spec.id_of elements.now) }
{
    let mut ids = List::new(alloc);
    for element in elements {
        ids.push(element.0)?;
    }
    Ok(ids)
}
