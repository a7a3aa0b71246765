// The transactions of a large run.
ghost use Rattle.std.specs.Prelude.{◌≡◌, ◌≤◌, ◌<◌, ◌-◌, ◌++◌, ◌∷◌, [], decimal, map, IfOk};
ghost use Rattle.fc_scripts.specs.Steps.{numbers_from};
ghost use Rattle.fc_generated.specs.Transactions as spec;

use crate::table::TABLE;
use fc_base::{FeId, List, Memory, Octets, Shared, Text};
use fc_documents::PlanTxn;
use fc_path::{Body, Oper, OperKind, PathData, Select};
use fc_plans::{Change, ChangeFault};
use std::alloc::Global;

// How many rows a transaction sets at each element.
const ROWS: u32 = 16;

/// The ID of the element of this number, from 1 to 8.
pub(crate) fn fe_id(number: u32) -> FeId
    requires some { 0 < number }
    requires few { number ≤ 8 }
    ensures { result ≡ number }
{
    match FeId::of(number) {
        Some(id) => id,
        None => unreachable!(),
    }
}

/// A number in decimal.
pub(crate) fn decimal(alloc: Global, number: u32) -> Result<Text, Memory>
    ensures { IfOk result (λ text. text ≡ decimal number) }
{
    let text = format!(in alloc; "{number}")?;
    Ok(Text::from_string(text))
}

// The bytes of a row.
fn row(alloc: Global, element: u32, number: u32) -> Result<Octets, Memory>
    requires element { element ≤ 8 }
    requires number { number ≤ 16000 }
    ensures { IfOk result (λ bytes. bytes ≡ spec.row element number) }
{
    let name = number.wrapping_mul(2_654_435_761);
    let rate = element * number;
    let mut bytes = Vec::new(alloc);
    bytes.extend_from_slice(&name.to_be_bytes())?;
    bytes.extend_from_slice(&rate.to_be_bytes())?;
    Ok(Octets::from_vec(bytes))
}

fn row_path(alloc: Global, element: u32, number: u32) -> Result<PathData, Memory>
    requires element { element ≤ 8 }
    requires number { number ≤ 16000 }
    ensures { IfOk result (λ path. path ≡ spec.row_path element number) }
{
    let mut ids = List::new(alloc);
    ids.push(1)?;
    ids.push(number)?;
    let body = Body::Full(row(alloc, element, number)?);
    Ok(PathData {
        ids,
        key: None,
        body,
    })
}

// The rows of an element from one number to another.
fn paths(alloc: Global, element: u32, first: u32, behind: u32) -> Result<List<PathData>, Memory>
    requires element { element ≤ 8 }
    requires numbers { behind ≤ 16001 }
    ensures { IfOk result (λ paths. paths ≡ map (spec.row_path element) (numbers_from first (behind - first))) }
{
    let mut paths = List::new(alloc);
    for row in first..behind {
        paths.push(row_path(alloc, element, row)?)?;
    }
    Ok(paths)
}

// What a transaction sets at an element.
fn set(alloc: Global, number: u32, element: u32) -> Result<Oper, Memory>
    requires some { 1 ≤ number }
    requires few { number ≤ 1000 }
    requires element { element ≤ 8 }
    ensures { IfOk result (λ oper. oper ≡ spec.set number element) }
{
    let behind = ROWS * number + 1;
    let paths = paths(alloc, element, behind - ROWS, behind)?;
    Ok(Oper::Paths(OperKind::Set, Shared::of(paths)?))
}

fn selects(alloc: Global, number: u32, element: u32) -> Result<List<Select>, Memory>
    requires some { 1 ≤ number }
    requires few { number ≤ 1000 }
    requires element { element ≤ 8 }
    ensures { IfOk result (λ selects. selects ≡ spec.change number element) }
{
    let mut opers = List::new(alloc);
    opers.push(set(alloc, number, element)?)?;
    let mut selects = List::new(alloc);
    selects.push(Select {
        class: TABLE,
        instance: 1,
        opers,
    })?;
    Ok(selects)
}

fn change(alloc: Global, number: u32, element: u32) -> Result<Change, Memory>
    requires some { 1 ≤ number }
    requires few { number ≤ 1000 }
    requires element { element ≤ 8 }
    ensures { IfOk result (λ change. change ≡ spec.change number element) }
{
    match Change::of(selects(alloc, number, element)?) {
        Ok(change) => Ok(change),
        Err(fault) => {
            if fault != ChangeFault::Memory {
                unreachable!();
            }
            Err(Memory)
        }
    }
}

// An element with its change.
fn part(alloc: Global, number: u32, element: u32) -> Result<(FeId, List<Change>), Memory>
    requires some { 1 ≤ number }
    requires few { number ≤ 1000 }
    requires element { (0 < element) × (element ≤ 8) }
    ensures { IfOk result (λ part. part ≡ spec.part number element) }
{
    let mut changes = List::new(alloc);
    changes.push(change(alloc, number, element)?)?;
    Ok((fe_id(element), changes))
}

fn parts(alloc: Global, number: u32) -> Result<List<(FeId, List<Change>)>, Memory>
    requires some { 1 ≤ number }
    requires few { number ≤ 1000 }
    ensures { IfOk result (λ parts. parts ≡ map (spec.part number) spec.ids) }
{
    let mut parts = List::new(alloc);
    for element in 1..9u32 {
        parts.push(part(alloc, number, element)?)?;
    }
    Ok(parts)
}

fn transaction(alloc: Global, number: u32) -> Result<PlanTxn, Memory>
    requires some { 1 ≤ number }
    requires few { number ≤ 1000 }
    ensures { IfOk result (λ transaction. transaction ≡ spec.transaction number) }
{
    Ok(PlanTxn {
        name: decimal(alloc, number)?,
        give_up: None,
        scoped: false,
        parts: parts(alloc, number)?,
    })
}

/// The transactions from the first to the one before this number.
pub(crate) fn transactions(alloc: Global, behind: u32) -> Result<List<PlanTxn>, Memory>
    requires { behind ≤ 1001 }
    ensures { IfOk result (λ transactions. transactions ≡ map spec.transaction (numbers_from 1 (behind - 1))) }
{
    let mut transactions = List::new(alloc);
    for number in 1..behind {
        transactions.push(transaction(alloc, number)?)?;
    }
    Ok(transactions)
}
