// What the answers to Queries hold.
ghost use Rattle.std.specs.Prelude.{◌≡◌, IfOk, Option, Some, None, if◌then◌else◌};
ghost use Rattle.fc_base.specs.Ids.{Txn};
ghost use Rattle.fc_protocol.specs.Messages.{is_name};
ghost use Rattle.fc_asks.specs.Holdings as spec;

use fc_base::{Epoch, FeId, List, Memory, OpFault, TxnId};
use fc_protocol::{Seen, TxnEntry, TxnState};
use fc_types::Ty;
use fc_value::{Value, read_full};
use std::alloc::Global;

fn word_of(number: i128) -> Option<u32>
    ensures { result ≡ spec.word_of number }
{
    if number < 0 || number > 4_294_967_295 {
        return None;
    }
    Some(number as u32)
}

// A number of 32 bits.
fn word(value: &Value) -> Option<u32>
    ensures { result ≡ spec.word_in value.now }
{
    match value {
        Value::Number(number) => word_of(*number),
        Value::Truth(_) => None,
        Value::Text(_) => None,
        Value::Raw(_) => None,
        Value::Group(_) => None,
        Value::Table(_) => None,
    }
}

// An element's ID above a number.
fn next_id(last: u32, word: Option<u32>) -> Option<FeId>
    ensures { result ≡ spec.next_id last word }
{
    match word {
        None => None,
        Some(n) => { if last < n { FeId::of(n) } else { None } }
    }
}

// The IDs of elements that are the entries, each above the one before.
fn ids_from(alloc: Global, entries: &[(u32, Value)]) -> Result<Option<List<FeId>>, Memory>
    ensures { IfOk result (λ ids. ids ≡ spec.ids_from 0 entries.now) }
{
    let mut last = 0;
    let mut ids = List::new(alloc);
    for entry in entries {
        match next_id(last, word(&entry.1)) {
            None => return Ok(None),
            Some(id) => {
                last = id.get();
                ids.push(id)?;
            }
        }
    }
    Ok(Some(ids))
}

fn state(number: u32) -> Option<TxnState>
    ensures { result ≡ spec.state_of number }
{
    match number {
        1 => Some(TxnState::Started),
        2 => Some(TxnState::Prepared),
        3 => Some(TxnState::Completed),
        4 => Some(TxnState::Aborted),
        _ => None,
    }
}

fn name(epoch: u32, number: u32) -> Option<TxnId>
    ensures { result ≡ (if is_name (record { epoch = epoch; number = number }) then Some (record { epoch = epoch; number = number }) else None) }
{
    match Epoch::from_word(epoch) {
        None => None,
        Some(epoch) => TxnId::of(epoch, number),
    }
}

fn ids(alloc: Global, value: &Value) -> Result<Option<List<FeId>>, Memory>
    ensures { IfOk result (λ ids. ids ≡ spec.ids_in value.now) }
{
    match value {
        Value::Table(entries) => ids_from(alloc, entries.as_slice()),
        Value::Number(_) => Ok(None),
        Value::Truth(_) => Ok(None),
        Value::Text(_) => Ok(None),
        Value::Raw(_) => Ok(None),
        Value::Group(_) => Ok(None),
    }
}

fn whole_entry(
    txn: Option<TxnId>,
    state: Option<TxnState>,
    participants: List<FeId>,
) -> Option<TxnEntry>
    ensures { (x : Txn) → txn ≡ (if is_name x then Some x else None) → result ≡ spec.entry_if x participants state }
{
    match state {
        None => None,
        Some(state) => match txn {
            None => None,
            Some(txn) => {
                let scope = List::new(participants.alloc());
                Some(TxnEntry {
                    txn,
                    state,
                    participants,
                    scope,
                })
            }
        },
    }
}

// An entry of its four parts.
fn entry_of(
    alloc: Global,
    epoch: &Value,
    number: &Value,
    standing: &Value,
    participants: &Value,
) -> Result<Option<TxnEntry>, Memory>
    ensures { IfOk result (λ n. n ≡ spec.entry_by (spec.word_in epoch.now) (spec.word_in number.now) (spec.word_in standing.now) (spec.ids_in participants.now)) }
{
    let epoch = match word(epoch) {
        None => return Ok(None),
        Some(epoch) => epoch,
    };
    let number = match word(number) {
        None => return Ok(None),
        Some(number) => number,
    };
    let standing = match word(standing) {
        None => return Ok(None),
        Some(standing) => standing,
    };
    match ids(alloc, participants)? {
        None => Ok(None),
        Some(ids) => Ok(whole_entry(name(epoch, number), state(standing), ids)),
    }
}

fn fields_entry(alloc: Global, fields: &[Value]) -> Result<Option<TxnEntry>, Memory>
    ensures { IfOk result (λ n. n ≡ spec.fields_entry fields.now) }
{
    match fields {
        [epoch, number, standing, participants] => {
            entry_of(alloc, epoch, number, standing, participants)
        }
        _ => Ok(None),
    }
}

// The record that a value is.
fn entry(alloc: Global, value: &Value) -> Result<Option<TxnEntry>, Memory>
    ensures { IfOk result (λ n. n ≡ spec.entry_in value.now) }
{
    match value {
        Value::Group(fields) => fields_entry(alloc, fields.as_slice()),
        Value::Number(_) => Ok(None),
        Value::Truth(_) => Ok(None),
        Value::Text(_) => Ok(None),
        Value::Raw(_) => Ok(None),
        Value::Table(_) => Ok(None),
    }
}

fn is_held(state: TxnState) -> bool
    ensures { result ≡ spec.is_held state }
{
    match state {
        TxnState::Started | TxnState::Prepared => true,
        TxnState::Completed | TxnState::Aborted => false,
    }
}

fn held_only(entry: Option<TxnEntry>) -> Option<TxnEntry>
    ensures { result ≡ spec.held_only entry }
{
    match entry {
        None => None,
        Some(entry) => {
            if is_held(entry.state) {
                Some(entry)
            } else {
                None
            }
        }
    }
}

fn held_from(alloc: Global, entries: &[(u32, Value)]) -> Result<Option<List<TxnEntry>>, Memory>
    ensures { IfOk result (λ ns. ns ≡ spec.held_from entries.now) }
{
    let mut held = List::new(alloc);
    for item in entries {
        match held_only(entry(alloc, &item.1)?) {
            None => return Ok(None),
            Some(entry) => held.push(entry)?,
        }
    }
    Ok(Some(held))
}

fn held_in(alloc: Global, value: &Value) -> Result<Option<List<TxnEntry>>, Memory>
    ensures { IfOk result (λ ns. ns ≡ spec.held_in value.now) }
{
    match value {
        Value::Table(entries) => held_from(alloc, entries.as_slice()),
        Value::Number(_) => Ok(None),
        Value::Truth(_) => Ok(None),
        Value::Text(_) => Ok(None),
        Value::Raw(_) => Ok(None),
        Value::Group(_) => Ok(None),
    }
}

/// The list of held transactions that bytes are, by their type.
pub fn read_held_list(
    alloc: Global,
    ty: &Ty,
    bytes: &[u8],
) -> Result<Option<List<TxnEntry>>, Memory>
    ensures { IfOk result (λ ns. ns ≡ spec.held_by ty.now bytes.now) }
{
    match read_full(alloc, ty, bytes) {
        Ok(value) => held_in(alloc, &value),
        Err(OpFault::Refused(_)) => Ok(None),
        Err(OpFault::Memory) => Err(Memory),
    }
}

/// The record that bytes are, by its type.
pub fn read_entry(alloc: Global, ty: &Ty, bytes: &[u8]) -> Result<Option<TxnEntry>, Memory>
    ensures { IfOk result (λ n. n ≡ spec.entry_of_type ty.now bytes.now) }
{
    match read_full(alloc, ty, bytes) {
        Ok(value) => entry(alloc, &value),
        Err(OpFault::Refused(_)) => Ok(None),
        Err(OpFault::Memory) => Err(Memory),
    }
}

fn seen_of(state: TxnState) -> Seen
    ensures { result ≡ spec.seen_of state }
{
    match state {
        TxnState::Started => Seen::Started,
        TxnState::Prepared => Seen::Prepared,
        TxnState::Completed => Seen::Completed,
        TxnState::Aborted => Seen::Aborted,
    }
}

/// The state of a record.
pub fn seen_in(entry: Option<TxnEntry>) -> Option<Seen>
    ensures { result ≡ spec.seen_in entry }
{
    match entry {
        None => None,
        Some(entry) => Some(seen_of(entry.state)),
    }
}
