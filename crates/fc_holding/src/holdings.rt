// The transactions that are held, and the configuration in which their changes stand.
ghost use Rattle.std.specs.Prelude.{◌≡◌, ◌<◌, length, IfSome, OnOk, OnErr};
ghost use Rattle.fc_store.specs.Scopes.{at};
ghost use Rattle.fc_holding.specs.Holdings as spec;

use crate::held::is_started;
use crate::holding::Holding;
use fc_base::{List, Memory, TxnId};
use fc_path::Select;
use fc_store::Store;
use fc_tx::Records;
use std::mem;

// Takes the vector of a list out of it, and leaves it empty. It takes no memory.
fn vector_of(holdings: &mut List<Holding>) -> Vec<Holding>
    ensures { result.items ≡ holdings.old }
{
    let alloc = holdings.alloc();
    mem::replace(holdings, List::new(alloc)).into_vec()
}

// The place of what is kept of a transaction, if it is held.
fn place_of(holdings: &[Holding], txn: TxnId) -> Option<usize>
    ensures exact { result ≡ spec.place txn holdings.now }
    ensures within { IfSome result (λ at. at < length holdings.now) }
{
    match holdings {
        [] => None,
        [first, rest @ ..] => {
            if txn == first.txn {
                return Some(0);
            }
            match place_of(rest, txn) {
                Some(at) => Some(at + 1),
                None => None,
            }
        }
    }
}

// Takes out what is kept of a transaction, if it is held.
fn take_from(holdings: &mut Vec<Holding>, txn: TxnId) -> Option<Holding>
    ensures out { result ≡ spec.found txn holdings.old.items }
    ensures left { holdings.new.items ≡ spec.without txn holdings.old.items }
{
    match place_of(holdings.as_slice(), txn) {
        Some(at) => Some(holdings.remove(at)),
        None => None,
    }
}

// The same, of a list.
fn take_out(holdings: &mut List<Holding>, txn: TxnId) -> Option<Holding>
    ensures out { result ≡ spec.found txn holdings.old }
    ensures left { holdings.new ≡ spec.without txn holdings.old }
{
    let mut items = vector_of(holdings);
    let taken = take_from(&mut items, txn);
    *holdings = List::from_vec(items);
    taken
}

/// Undoes the changes of a transaction, if it is held; it is held no more then. It takes no memory.
pub fn undo(store: &mut Store, holdings: &mut List<Holding>, txn: TxnId)
    ensures undone { store.new ≡ spec.undone txn holdings.old store.old }
    ensures left { holdings.new ≡ spec.without txn holdings.old }
{
    if let Some(holding) = take_out(holdings, txn) {
        store.rollback(holding.mark);
    }
}

/// Settles the changes of a transaction, if it is held; it is held no more then. It takes no memory.
pub fn settle(store: &mut Store, holdings: &mut List<Holding>, txn: TxnId)
    ensures settled { store.new ≡ spec.settled_with txn holdings.old store.old }
    ensures left { holdings.new ≡ spec.without txn holdings.old }
{
    if let Some(holding) = take_out(holdings, txn) {
        store.release(holding.mark);
    }
}

// Whether a transaction that is held is started.
fn is_only_started(records: &Records, holding: &Holding) -> bool
    ensures { result ≡ spec.is_started records.now.entries holding.now }
{
    match records.state_of(holding.txn) {
        Some(state) => is_started(state),
        None => false,
    }
}

// Undoes the changes of each transaction that is started, in the order in which they were opened.
fn undo_each(store: &mut Store, holdings: &mut Vec<Holding>, records: &Records)
    ensures undone { store.new ≡ spec.all_undone records.now.entries holdings.old.items store.old }
    ensures left { holdings.new.items ≡ spec.not_started records.now.entries holdings.old.items }
{
    let mut at = 0;
    while at < holdings.len() {
        if is_only_started(records, &holdings[at]) {
            let holding = holdings.remove(at);
            store.rollback(holding.mark);
        } else {
            at += 1;
        }
    }
}

/// Undoes the changes of each transaction that is started; they are held no more then. It takes no memory.
pub fn undo_started(store: &mut Store, holdings: &mut List<Holding>, records: &Records)
    ensures undone { store.new ≡ spec.all_undone records.now.entries holdings.old store.old }
    ensures left { holdings.new ≡ spec.not_started records.now.entries holdings.old }
{
    let mut items = vector_of(holdings);
    undo_each(store, &mut items, records);
    *holdings = List::from_vec(items);
}

// The operations of a rest are accepted too.
fn extend_one(holding: &mut Holding, rest: List<Select>) -> Result<(), Memory>
    ensures ok { OnOk result (holding.new ≡ spec.extended rest holding.old) }
    ensures err { OnErr result (holding.new ≡ holding.old) }
{
    if rest.is_empty() {
        return Ok(());
    }
    holding.rests.push(rest)
}

// The operations of a rest are accepted too, of what stands at a place. After an `Err` nothing has changed.
fn extend_at(holdings: &mut Vec<Holding>, place: usize, rest: List<Select>) -> Result<(), Memory>
    ensures ok { OnOk result (holdings.new.items ≡ at (spec.extended rest) place holdings.old.items) }
    ensures err { OnErr result (holdings.new.items ≡ holdings.old.items) }
{
    match holdings.get_mut(place) {
        Some(holding) => extend_one(holding, rest),
        None => Ok(()),
    }
}

// The operations of a rest of a transaction are accepted, if it is held. After an `Err` nothing has changed.
fn extend_in(holdings: &mut Vec<Holding>, txn: TxnId, rest: List<Select>) -> Result<(), Memory>
    ensures ok { OnOk result (holdings.new.items ≡ spec.with_rest txn rest holdings.old.items) }
    ensures err { OnErr result (holdings.new.items ≡ holdings.old.items) }
{
    match place_of(holdings.as_slice(), txn) {
        Some(place) => extend_at(holdings, place, rest),
        None => Ok(()),
    }
}

/// The operations of a rest of a transaction are accepted, if it is held. After an `Err` nothing has changed.
pub fn extend(holdings: &mut List<Holding>, txn: TxnId, rest: List<Select>) -> Result<(), Memory>
    ensures ok { OnOk result (holdings.new ≡ spec.with_rest txn rest holdings.old) }
    ensures err { OnErr result (holdings.new ≡ holdings.old) }
{
    let mut items = vector_of(holdings);
    let extended = extend_in(&mut items, txn, rest);
    *holdings = List::from_vec(items);
    extended
}
