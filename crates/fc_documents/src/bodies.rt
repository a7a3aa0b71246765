// What the bodies of changes write.
ghost use Rattle.std.specs.Prelude.{◌≡◌, ◌==◌, not, length, IfOk};
ghost use Rattle.std.specs.List.{list_all};
ghost use Rattle.fc_library.specs.Gives.{Gives};
ghost use Rattle.fc_documents.specs.Parts as spec;
ghost use Rattle.fc_documents.specs.Rules.{bodies_at, kept};
ghost use Rattle.fc_library.specs.declared.fault.DocumentRule.TheVariants as rules;

use crate::participants::participants_of;
use crate::rules::keep;
use crate::tables::{ChangeTable, TransactionTable};
use crate::transaction::PlanTxn;
use fc_base::{FeId, List, Memory};
use fc_library::{DocumentRule, LibFault};
use fc_lines::TextFault;
use fc_plans::{Change, ChangeFault};
use fc_text::read_body;
use std::alloc::Global;

// The most participants of a transaction of a plan.
const MOST_PARTICIPANTS: usize = 64;

// The change that a body writes.
fn change(alloc: Global, body: &str) -> Result<Change, LibFault>
    ensures { Gives result (spec.change_of body.now) }
{
    match read_body(alloc, body.as_bytes()) {
        Ok(selects) => match Change::of(selects) {
            Ok(change) => Ok(change),
            Err(ChangeFault::Memory) => Err(LibFault::Memory),
            Err(_) => Err(LibFault::Rule(DocumentRule::Body)),
        },
        Err(TextFault::Memory) => Err(LibFault::Memory),
        Err(TextFault::At { .. }) => Err(LibFault::Rule(DocumentRule::Body)),
    }
}

// The changes of an element, in the order of the document.
fn changes_of(
    alloc: Global,
    element: FeId,
    tables: &[ChangeTable],
) -> Result<List<Change>, LibFault>
    ensures { Gives result (spec.each_of spec.change_of (bodies_at element tables.now)) }
{
    let mut changes = List::new(alloc);
    'tables: for table in tables {
        if element != table.element {
            continue;
        }
        changes.push(change(alloc, table.body.as_str())?)?;
    }
    Ok(changes)
}

// The element with its changes.
fn part_of(
    alloc: Global,
    element: FeId,
    tables: &[ChangeTable],
) -> Result<(FeId, List<Change>), LibFault>
    ensures { Gives result (spec.part_of tables.now element) }
{
    let changes = changes_of(alloc, element, tables)?;
    Ok((element, changes))
}

// These elements with their changes.
fn each_part(
    alloc: Global,
    elements: &[FeId],
    tables: &[ChangeTable],
) -> Result<List<(FeId, List<Change>)>, LibFault>
    ensures { Gives result (spec.each_of (spec.part_of tables.now) elements.now) }
{
    let mut parts = List::new(alloc);
    'elements: for element in elements {
        parts.push(part_of(alloc, *element, tables)?)?;
    }
    Ok(parts)
}

// Refuses a transaction without a change.
fn keep_change(tables: &[ChangeTable]) -> Result<(), LibFault>
    ensures { Gives result (kept rules.Body (not (length tables.now == 0))) }
{
    keep(DocumentRule::Body, !tables.is_empty())
}

// The participants, by rising ID, each with its changes.
fn parts_of(alloc: Global, tables: &[ChangeTable]) -> Result<List<(FeId, List<Change>)>, LibFault>
    ensures { Gives result (spec.parts_of tables.now) }
{
    keep_change(tables)?;
    let elements = participants_of(alloc, tables)?;
    each_part(alloc, elements.as_slice(), tables)
}

fn transaction_of(alloc: Global, table: TransactionTable) -> Result<PlanTxn, LibFault>
    ensures { Gives result (spec.transaction_of table) }
{
    let parts = parts_of(alloc, table.changes.as_slice())?;
    Ok(PlanTxn {
        name: table.name,
        give_up: table.give_up,
        scoped: table.scoped,
        parts,
    })
}

/// The transactions of these tables.
pub fn transactions_of(
    alloc: Global,
    tables: List<TransactionTable>,
) -> Result<List<PlanTxn>, LibFault>
    ensures { Gives result (spec.each_of spec.transaction_of tables) }
{
    let mut transactions = List::new(alloc);
    for table in tables.into_vec() {
        transactions.push(transaction_of(alloc, table)?)?;
    }
    Ok(transactions)
}

// Whether a control element can begin the transaction.
fn can_begin(transaction: &PlanTxn) -> Result<bool, Memory>
    ensures { IfOk result (λ can. can ≡ spec.can_begin transaction.now) }
{
    Ok(transaction.makes_plan()? && transaction.parts.len() <= MOST_PARTICIPANTS)
}

/// Refuses a transaction that a control element can't begin.
pub(crate) fn keep_beginnings(transactions: &[PlanTxn]) -> Result<(), LibFault>
    ensures { Gives result (kept rules.TooMany (list_all spec.can_begin transactions.now)) }
{
    let is_kept = all_can_begin(transactions)?;
    keep(DocumentRule::TooMany, is_kept)
}

fn all_can_begin(transactions: &[PlanTxn]) -> Result<bool, Memory>
    ensures { IfOk result (λ can. can ≡ list_all spec.can_begin transactions.now) }
{
    for transaction in transactions {
        if !can_begin(transaction)? {
            return Ok(false);
        }
    }
    Ok(true)
}
