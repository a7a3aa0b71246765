// The script of a document as lines.
use crate::scripts::steps::step_line;
use fc_base::{CeId, FeId};
use fc_documents::PlanTxn;
use fc_scripts::{Script, script_from_slice};
use fc_steps::Step;
use fc_types::Class;
use std::alloc::Global;
use std::test::Fail;

// The lines of the script of a document.
pub(crate) fn told(alloc: Global, document: &[u8]) -> Result<Vec<u8>, Fail> {
    match script_from_slice(alloc, document) {
        Ok(script) => lines(alloc, &script),
        Err(_) => Err(Fail::from("no script")),
    }
}

fn lines(alloc: Global, script: &Script) -> Result<Vec<u8>, Fail> {
    let mut lines = Vec::new(alloc);
    put_classes(alloc, &mut lines, script.library().classes())?;
    put_instances(alloc, &mut lines, script.instances().pairs())?;
    put_elements(alloc, &mut lines, script.elements())?;
    put_controllers(alloc, &mut lines, script.controllers())?;
    for transaction in script.transactions() {
        put_transaction(alloc, &mut lines, transaction)?;
    }
    put_steps(alloc, &mut lines, script.steps())?;
    Ok(lines)
}

fn put_classes(alloc: Global, lines: &mut Vec<u8>, classes: &[Class]) -> Result<(), Fail> {
    for class in classes {
        let id = class.id;
        let name = class.name.as_str();
        let line = format!(in alloc; "class {id} {name}\n")?;
        lines.extend_from_slice(line.as_bytes())?;
    }
    Ok(())
}

fn put_instances(alloc: Global, lines: &mut Vec<u8>, pairs: &[(u32, u32)]) -> Result<(), Fail> {
    for pair in pairs {
        let class = pair.0;
        let id = pair.1;
        let line = format!(in alloc; "instance {class} {id}\n")?;
        lines.extend_from_slice(line.as_bytes())?;
    }
    Ok(())
}

fn put_elements(alloc: Global, lines: &mut Vec<u8>, elements: &[(FeId, CeId)]) -> Result<(), Fail> {
    for element in elements {
        let id = element.0.get();
        let ce = element.1.get();
        let line = format!(in alloc; "element {id} of {ce:08X}\n")?;
        lines.extend_from_slice(line.as_bytes())?;
    }
    Ok(())
}

fn put_controllers(alloc: Global, lines: &mut Vec<u8>, controllers: &[CeId]) -> Result<(), Fail> {
    for controller in controllers {
        let ce = controller.get();
        let line = format!(in alloc; "controller {ce:08X}\n")?;
        lines.extend_from_slice(line.as_bytes())?;
    }
    Ok(())
}

// The name, whether it has scopes, and how many changes of each participant.
fn put_transaction(alloc: Global, lines: &mut Vec<u8>, transaction: &PlanTxn) -> Result<(), Fail> {
    let name = transaction.name.as_str();
    let kind = if transaction.scoped {
        "scoped"
    } else {
        "whole"
    };
    let line = format!(in alloc; "{kind} {name}")?;
    lines.extend_from_slice(line.as_bytes())?;
    for part in transaction.parts.as_slice() {
        let id = part.0.get();
        let changes = part.1.len();
        let word = format!(in alloc; " {id}:{changes}")?;
        lines.extend_from_slice(word.as_bytes())?;
    }
    lines.extend_from_slice(b"\n")?;
    if transaction.give_up.is_some() {
        return Err(Fail::from("a transaction that is given up at a moment"));
    }
    Ok(())
}

// Each step with the place of its text; deliveries in a row of one text stand in one line.
fn put_steps(alloc: Global, lines: &mut Vec<u8>, steps: &[(usize, Step)]) -> Result<(), Fail> {
    let mut open: Option<(usize, usize, usize)> = None;
    for step in steps {
        let more = continued(open, step);
        if more.is_none() {
            put_row(alloc, lines, open)?;
        }
        open = match more {
            Some(row) => Some(row),
            None => begun(step),
        };
        if open.is_none() {
            put_step(alloc, lines, step)?;
        }
    }
    put_row(alloc, lines, open)
}

// The row of deliveries with one more, where it is the next one of the same text.
fn continued(
    row: Option<(usize, usize, usize)>,
    step: &(usize, Step),
) -> Option<(usize, usize, usize)> {
    let (place, first, last) = row?;
    match &step.1 {
        Step::Deliver(message) if step.0 == place && last.checked_add(1)? == *message => {
            Some((place, first, *message))
        }
        _ => None,
    }
}

// A row of one delivery.
fn begun(step: &(usize, Step)) -> Option<(usize, usize, usize)> {
    match &step.1 {
        Step::Deliver(message) => Some((step.0, *message, *message)),
        _ => None,
    }
}

fn put_row(
    alloc: Global,
    lines: &mut Vec<u8>,
    row: Option<(usize, usize, usize)>,
) -> Result<(), Fail> {
    if let Some((place, first, last)) = row {
        let line = format!(in alloc; "{place} deliver {first} to {last}\n")?;
        lines.extend_from_slice(line.as_bytes())?;
    }
    Ok(())
}

fn put_step(alloc: Global, lines: &mut Vec<u8>, step: &(usize, Step)) -> Result<(), Fail> {
    let place = step.0;
    let said = step_line(alloc, &step.1)?;
    let said = said.as_str();
    let line = format!(in alloc; "{place} {said}\n")?;
    lines.extend_from_slice(line.as_bytes())?;
    Ok(())
}
