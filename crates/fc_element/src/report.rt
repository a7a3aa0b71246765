// The report on an element: a line on itself, its floor, its records, and the lines of its settled configuration.
ghost use Rattle.std.specs.Prelude.{◌≡◌, ◌++◌, [], IfOk, OnOk, slice_get, string_bytes};
ghost use Rattle.std.specs.List.{flat_map};
ghost use Rattle.fc_element.specs.ElementState as states;
ghost use Rattle.fc_element.specs.Places.{of_some};
ghost use Rattle.fc_element.specs.Reports as spec;
ghost use Rattle.fc_element.specs.Reports.{bytes_text, component_text, config_line, config_lines, form_text};

use crate::configured::{Configured, settled_configuration};
use fc_base::{Memory, Octets, TxnId, eight_digits, push_hex};
use fc_transactions::{Ledger, Transactions};
use fc_tx::{Records, TxnEntry, TxnState};
use std::alloc::Global;

// Appends the line on an element.
#[tactic(auto, unfolding(crate::specs::Reports::head_line))]
fn push_head(transactions: &Transactions, into: &mut Vec<u8>) -> Result<(), Memory>
    ensures { OnOk result (into.new.items ≡ into.old.items ++ spec.head_line transactions.now) }
{
    let alloc = *into.allocator();
    let id = transactions.id().get();
    let fence = transactions.fence();
    let epoch = fence.epoch;
    let sequence = fence.sequence;
    let head = format!(in alloc; "element {id} epoch {epoch} ce ")?;
    let tail = format!(in alloc; " sequence {sequence}\n")?;
    into.extend_from_slice(head.as_bytes())?;
    into.extend_from_slice(&eight_digits(transactions.ce()))?;
    into.extend_from_slice(tail.as_bytes())?;
    Ok(())
}

// Appends the line on the floor, where one is set.
#[tactic(auto, unfolding(crate::specs::Reports::floor_line))]
fn push_floor(floor: Option<TxnId>, into: &mut Vec<u8>) -> Result<(), Memory>
    ensures { OnOk result (into.new.items ≡ into.old.items ++ spec.floor_line floor) }
{
    match floor {
        None => Ok(()),
        Some(floor) => {
            let line = format!(in *into.allocator(); "floor {floor}\n")?;
            into.extend_from_slice(line.as_bytes())?;
            Ok(())
        }
    }
}

// The line on a transaction.
#[tactic(auto, unfolding(crate::specs::Reports::record_line))]
fn record_line(alloc: Global, entry: &TxnEntry) -> Result<String, Memory>
    ensures { IfOk result (λ line. string_bytes line ≡ spec.record_line entry.now) }
{
    let txn = entry.txn;
    match entry.state {
        TxnState::Started => Ok(format!(in alloc; "record {txn} started\n")?),
        TxnState::Prepared => Ok(format!(in alloc; "record {txn} prepared\n")?),
        TxnState::Completed => Ok(format!(in alloc; "record {txn} completed\n")?),
        TxnState::Aborted => Ok(format!(in alloc; "record {txn} aborted\n")?),
    }
}

// Appends the line on a transaction.
fn push_record(entry: &TxnEntry, into: &mut Vec<u8>) -> Result<(), Memory>
    ensures { OnOk result (into.new.items ≡ into.old.items ++ spec.record_line entry.now) }
{
    let line = record_line(*into.allocator(), entry)?;
    into.extend_from_slice(line.as_bytes())?;
    Ok(())
}

// Appends the line on the record at a place, where there is one.
fn push_record_at(records: &Records, place: usize, into: &mut Vec<u8>) -> Result<(), Memory>
    ensures { OnOk result (into.new.items ≡ into.old.items ++ of_some spec.record_line (slice_get records.now.entries place)) }
{
    match records.entry(place) {
        Some(entry) => push_record(entry, into),
        None => Ok(()),
    }
}

// Appends the lines on all records, in order of entry.
fn push_records(records: &Records, into: &mut Vec<u8>) -> Result<(), Memory>
    ensures { OnOk result (into.new.items ≡ into.old.items ++ flat_map spec.record_line records.now.entries) }
{
    for place in 0..records.len() {
        push_record_at(records, place, into)?;
    }
    Ok(())
}

// Appends bytes as hexadecimal digits, and a dash where there are none.
fn push_bytes(bytes: &[u8], into: &mut Vec<u8>) -> Result<(), Memory>
    ensures { OnOk result (into.new.items ≡ into.old.items ++ bytes_text bytes.now) }
{
    match bytes {
        [] => {
            into.extend_from_slice(b"-")?;
            Ok(())
        }
        [_, ..] => push_hex(into, bytes),
    }
}

// Appends a full form, or that there is none.
fn push_form(form: &Option<Octets>, into: &mut Vec<u8>) -> Result<(), Memory>
    ensures { OnOk result (into.new.items ≡ into.old.items ++ form_text form.now) }
{
    match form {
        None => {
            into.extend_from_slice(b"absent")?;
            Ok(())
        }
        Some(bytes) => push_bytes(bytes.as_slice(), into),
    }
}

// Appends the class, the instance and the ID of a component.
#[tactic(auto, unfolding(crate::specs::Reports::component_text))]
fn push_place(change: &Configured, into: &mut Vec<u8>) -> Result<(), Memory>
    ensures { OnOk result (into.new.items ≡ into.old.items ++ component_text change.now) }
{
    let id = change.component;
    let number = format!(in *into.allocator(); "{id}")?;
    into.extend_from_slice(&eight_digits(change.class))?;
    into.extend_from_slice(b" ")?;
    into.extend_from_slice(&eight_digits(change.instance))?;
    into.extend_from_slice(b" ")?;
    into.extend_from_slice(number.as_bytes())?;
    Ok(())
}

// Appends the line of a component.
#[tactic(auto, unfolding(crate::specs::Reports::config_line))]
fn push_line(change: &Configured, into: &mut Vec<u8>) -> Result<(), Memory>
    ensures { OnOk result (into.new.items ≡ into.old.items ++ config_line change.now) }
{
    into.extend_from_slice(b"config ")?;
    push_place(change, into)?;
    into.extend_from_slice(b" ")?;
    push_form(&change.form, into)?;
    into.extend_from_slice(b"\n")?;
    Ok(())
}

// Appends the lines of components.
fn push_config(changes: &[Configured], into: &mut Vec<u8>) -> Result<(), Memory>
    ensures { OnOk result (into.new.items ≡ into.old.items ++ flat_map config_line changes.now) }
{
    for change in changes {
        push_line(change, into)?;
    }
    Ok(())
}

// Appends the lines of the settled configuration.
#[tactic(auto, unfolding(crate::specs::Reports::config_lines))]
fn push_settled(ledger: &Ledger, into: &mut Vec<u8>) -> Result<(), Memory>
    ensures { OnOk result (into.new.items ≡ into.old.items ++ config_lines (states.settled_store ledger.now)) }
{
    let changes = settled_configuration(*into.allocator(), ledger)?;
    push_config(changes.as_slice(), into)
}

/// Appends the report on an element by what Configs may change.
pub fn push_report(transactions: &Transactions, into: &mut Vec<u8>) -> Result<(), Memory>
    ensures { OnOk result (into.new.items ≡ into.old.items ++ spec.reported transactions.now) }
{
    let ledger = transactions.ledger();
    push_head(transactions, into)?;
    push_floor(ledger.records.floor(), into)?;
    push_records(&ledger.records, into)?;
    push_settled(ledger, into)
}
