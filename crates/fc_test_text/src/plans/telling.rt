// The plan of a document as lines.
use fc_base::{Duplicate, FeId, List};
use fc_documents::{Plan, PlanTxn, plan_from_slice};
use fc_msg::{Message, MsgBody};
use fc_plans::Change;
use fc_showing::show;
use fc_wire::Flags;
use std::alloc::Global;
use std::test::Fail;

// The lines of the plan of a document.
pub(crate) fn told(alloc: Global, document: &[u8]) -> Result<Vec<u8>, Fail> {
    match plan_from_slice(alloc, document) {
        Ok(plan) => lines(alloc, &plan),
        Err(_) => Err(Fail::from("no plan")),
    }
}

// The elements, and each transaction with its changes.
fn lines(alloc: Global, plan: &Plan) -> Result<Vec<u8>, Fail> {
    let mut lines = Vec::new(alloc);
    for element in plan.elements() {
        let id = element.get();
        let line = format!(in alloc; "element {id}\n")?;
        lines.extend_from_slice(line.as_bytes())?;
    }
    for transaction in plan.transactions() {
        put_transaction(alloc, &mut lines, transaction)?;
    }
    Ok(lines)
}

fn put_transaction(alloc: Global, lines: &mut Vec<u8>, transaction: &PlanTxn) -> Result<(), Fail> {
    let name = transaction.name.as_str();
    let kind = if transaction.scoped {
        "scoped"
    } else {
        "whole"
    };
    let line = match transaction.give_up {
        Some(moment) => format!(in alloc; "{kind} {name} until {moment}\n")?,
        None => format!(in alloc; "{kind} {name}\n")?,
    };
    lines.extend_from_slice(line.as_bytes())?;
    for part in transaction.parts.as_slice() {
        put_changes(alloc, lines, part.0, part.1.as_slice())?;
    }
    Ok(())
}

// The changes of an element, each as a message to it.
fn put_changes(
    alloc: Global,
    lines: &mut Vec<u8>,
    element: FeId,
    changes: &[Change],
) -> Result<(), Fail> {
    for change in changes {
        show(&message(alloc, element, change)?, lines)?;
    }
    Ok(())
}

fn message(alloc: Global, element: FeId, change: &Change) -> Result<Message, Fail> {
    let mut selects = List::new(alloc);
    for select in change.selects() {
        selects.push(select.copy()?)?;
    }
    Ok(Message {
        source: 0,
        dest: element.get(),
        corr: 0,
        flags: Flags {
            ack: 0,
            pri: 0,
            em: 0,
            at: false,
            tp: 0,
        },
        body: MsgBody::Config(selects),
    })
}
