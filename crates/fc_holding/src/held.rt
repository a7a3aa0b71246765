// What records tell of the transactions that are held.
ghost use Rattle.std.specs.Prelude.{◌≡◌, ◌++◌, slice_get, IfOk, OnOk};
ghost use Rattle.fc_protocol.specs.Records as tables;
ghost use Rattle.fc_protocol.specs.Scopes.{covers};
ghost use Rattle.fc_tx.specs.Kept.{passes};
ghost use Rattle.fc_holding.specs.Held as spec;

use crate::naming::lists;
use fc_base::{Memory, TxnId};
use fc_path::{Oper, Select};
use fc_protocol::{TxnEntry, TxnState};
use fc_tx::Records;
use std::alloc::Global;

/// Whether a transaction of this state is held.
pub fn is_held(state: TxnState) -> bool
    ensures { result ≡ tables.is_held state }
{
    match state {
        TxnState::Started => true,
        TxnState::Prepared => true,
        TxnState::Completed => false,
        TxnState::Aborted => false,
    }
}

/// Whether a transaction of this state is started.
pub fn is_started(state: TxnState) -> bool
    ensures { result ≡ tables.still_started state }
{
    match state {
        TxnState::Started => true,
        TxnState::Prepared => false,
        TxnState::Completed => false,
        TxnState::Aborted => false,
    }
}

// The scope of the record at a place.
fn scope_at(records: &Records, at: usize) -> &[(u32, u32)]
    ensures { result.now ≡ spec.scope_in (slice_get records.now.entries at) }
{
    match records.entry(at) {
        Some(entry) => entry.scope.as_slice(),
        None => &[],
    }
}

/// The scope of the record of a transaction.
pub fn scope_of(records: &Records, txn: TxnId) -> &[(u32, u32)]
    ensures { result.now ≡ spec.scope_of txn records.now.entries }
{
    match records.place_of(txn) {
        Some(at) => scope_at(records, at),
        None => &[],
    }
}

// Whether an instance lies in a scope.
fn covers(scope: &[(u32, u32)], place: (u32, u32)) -> bool
    ensures { result ≡ covers scope.now place }
{
    match scope {
        [] => true,
        _ => lists(scope, place),
    }
}

// Whether a record is of something held in whose scope an instance lies.
fn takes(entry: &TxnEntry, place: (u32, u32)) -> bool
    ensures { result ≡ spec.takes place entry.now }
{
    is_held(entry.state) && covers(entry.scope.as_slice(), place)
}

// The same of the record at a place.
fn takes_at(records: &Records, at: usize, place: (u32, u32)) -> bool
    ensures { result ≡ passes (spec.takes place) (slice_get records.now.entries at) }
{
    match records.entry(at) {
        Some(entry) => takes(entry, place),
        None => false,
    }
}

// Whether an instance lies in the scope of something held.
fn is_taken(records: &Records, place: (u32, u32)) -> bool
    ensures { result ≡ tables.is_taken records.now.entries place }
{
    for at in records.first_held()..records.len() {
        if takes_at(records, at, place) {
            return true;
        }
    }
    false
}

// Whether an operation is on the place of some leaf.
fn has_leaves(oper: &Oper) -> bool
    ensures { result ≡ spec.has_leaves oper.now }
{
    match oper {
        Oper::Paths(_, _) => true,
        Oper::Commit => false,
        Oper::Trcomp => false,
        Oper::CommitResponse(_) => false,
    }
}

// Whether leaves lie at the instance of a select.
fn touches(select: &Select) -> bool
    ensures { result ≡ spec.touches select.now }
{
    select.opers.as_slice().iter().any(|oper| has_leaves(oper))
}

// Whether a leaf lies at an instance that is held.
fn is_in_the_way(records: &Records, select: &Select) -> bool
    ensures { result ≡ spec.is_in_the_way records.now.entries select.now }
{
    touches(select) && is_taken(records, (select.class, select.instance))
}

/// Whether a leaf of selects lies at an instance that is held.
pub fn waits(records: &Records, selects: &[Select]) -> bool
    ensures { result ≡ spec.waits records.now.entries selects.now }
{
    selects.iter().any(|select| is_in_the_way(records, select))
}

// Whether a record counts, where one transaction is left out.
fn counts(entry: &TxnEntry, but: &Option<TxnId>) -> bool
    ensures { result ≡ spec.counts but.now entry.now }
{
    match but {
        None => true,
        Some(txn) => *txn != entry.txn,
    }
}

// Appends the instances of a scope, among all that there are.
fn push_scope(
    held: &mut Vec<(u32, u32)>,
    all: &[(u32, u32)],
    scope: &[(u32, u32)],
) -> Result<(), Memory>
    ensures { OnOk result (held.new.items ≡ held.old.items ++ spec.instances_of all.now scope.now) }
{
    match scope {
        [] => held.extend_from_slice(all)?,
        _ => held.extend_from_slice(scope)?,
    }
    Ok(())
}

// Appends the instances that a record holds.
fn push_held(
    held: &mut Vec<(u32, u32)>,
    all: &[(u32, u32)],
    entry: &TxnEntry,
    but: &Option<TxnId>,
) -> Result<(), Memory>
    ensures { OnOk result (held.new.items ≡ held.old.items ++ spec.held_by all.now but.now entry.now) }
{
    if counts(entry, but) && is_held(entry.state) {
        push_scope(held, all, entry.scope.as_slice())
    } else {
        Ok(())
    }
}

// The same of the record at a place.
fn push_held_at(
    held: &mut Vec<(u32, u32)>,
    all: &[(u32, u32)],
    records: &Records,
    at: usize,
    but: &Option<TxnId>,
) -> Result<(), Memory>
    ensures { OnOk result (held.new.items ≡ held.old.items ++ spec.held_by_at all.now but.now (slice_get records.now.entries at)) }
{
    match records.entry(at) {
        Some(entry) => push_held(held, all, entry, but),
        None => Ok(()),
    }
}

/// The instances that are held, among all that there are, but for those of a transaction, where one is named.
pub fn held_instances(
    alloc: Global,
    all: &[(u32, u32)],
    records: &Records,
    but: &Option<TxnId>,
) -> Result<Vec<(u32, u32)>, Memory>
    ensures { IfOk result (λ held. held.items ≡ spec.held_instances all.now but.now records.now.entries) }
{
    let mut held = Vec::new(alloc);
    for at in records.first_held()..records.len() {
        push_held_at(&mut held, all, records, at, but)?;
    }
    Ok(held)
}
