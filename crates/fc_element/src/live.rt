// What an element tells in the components that stand in no configuration.
ghost use Rattle.std.specs.Prelude.{◌≡◌, ◌≤◌, ◌++◌, length, map, slice_get, IfOk, OnOk};
ghost use Rattle.fc_lfbs.specs.LiveValues.{told_value};
ghost use Rattle.fc_element.specs.ElementState as spec;
ghost use Rattle.fc_tx.specs.Whole.{AreRecords};
ghost use Rattle.fc_element.specs.Places.{of_some};

use fc_base::{FeId, List, Memory};
use fc_lfbs::{Live, LiveState, LiveTxn, is_live};
use fc_transactions::Transactions;
use fc_tx::{Records, TxnEntry, TxnState};
use fc_value::Value;
use std::alloc::Global;

// The number of a state of a transaction, as it is told.
fn state_number(state: TxnState) -> u32
    ensures { result ≡ spec.state_number state }
{
    match state {
        TxnState::Started => 1,
        TxnState::Prepared => 2,
        TxnState::Completed => 3,
        TxnState::Aborted => 4,
    }
}

// The numbers of elements.
fn numbers_of(alloc: Global, ids: &[FeId]) -> Result<List<u32>, Memory>
    ensures { IfOk result (λ numbers. numbers ≡ ids.now) }
{
    let mut numbers = List::new(alloc);
    for id in ids {
        numbers.push(id.get())?;
    }
    Ok(numbers)
}

// A record as it is told.
fn told_txn(alloc: Global, entry: &TxnEntry) -> Result<LiveTxn, Memory>
    requires few { length entry.now.participants ≤ 64 }
    ensures { IfOk result (λ txn. txn ≡ spec.told_txn entry.now) }
{
    Ok(LiveTxn {
        epoch: entry.txn.epoch.get(),
        number: entry.txn.number,
        state: state_number(entry.state),
        participants: numbers_of(alloc, entry.participants.as_slice())?,
    })
}

// Appends a record as it is told.
fn push_txn(txns: &mut List<LiveTxn>, entry: &TxnEntry) -> Result<(), Memory>
    requires few { length entry.now.participants ≤ 64 }
    ensures { OnOk result (txns.new ≡ txns.old ++ spec.told_one entry.now) }
{
    let txn = told_txn(txns.alloc(), entry)?;
    txns.push(txn)
}

// Appends the record at a place, where there is one.
fn push_txn_at(txns: &mut List<LiveTxn>, records: &Records, place: usize) -> Result<(), Memory>
    ensures { OnOk result (txns.new ≡ txns.old ++ of_some spec.told_one (slice_get records.now.entries place)) }
{
    match records.entry(place) {
        Some(entry) => push_txn(txns, entry),
        None => Ok(()),
    }
}

// The records as they are told.
fn told_txns(alloc: Global, records: &Records) -> Result<List<LiveTxn>, Memory>
    ensures exact { IfOk result (λ txns. txns ≡ map spec.told_txn records.now.entries) }
    ensures whole { AreRecords records.now.entries records.now.floor }
{
    let mut txns = List::new(alloc);
    for place in 0..records.len() {
        push_txn_at(&mut txns, records, place)?;
    }
    Ok(txns)
}

// All that is told.
fn told_of(alloc: Global, transactions: &Transactions) -> Result<LiveState, Memory>
    ensures { IfOk result (λ told. told ≡ spec.told_of transactions.now) }
{
    let ledger = transactions.ledger();
    let fence = transactions.fence();
    Ok(LiveState {
        id: transactions.id(),
        instances: List::from_slice(alloc, ledger.store.instances().pairs())?,
        ce: transactions.ce(),
        last_ce: transactions.last_ce(),
        epoch: fence.epoch,
        master: fence.master,
        transactions: told_txns(alloc, &ledger.records)?,
    })
}

/// Tells these components by what Configs may change.
#[derive(Drop)]
pub struct Telling<'a> {
    pub alloc: Global,
    pub transactions: &'a Transactions,
}

impl<'a> Live for Telling<'a> {
    ghost told = { λ s. told_value (spec.told_of s.transactions.now) };

    fn component(&self, class: u32, instance: u32, ident: u32) -> Result<Option<Value>, Memory> {
        if instance != 1 || !is_live(class, ident) {
            return Ok(None);
        }
        let told = told_of(self.alloc, self.transactions)?;
        told.component(class, instance, ident)
    }
}
