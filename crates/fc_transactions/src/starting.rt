// Phases that open a transaction, and that add to one.
ghost use Rattle.std.specs.Prelude.{◌≡◌, ◌≤◌, ◌+◌, ◌∷◌, ◌++◌, [], Some, None, IfErr, IfOk, OnOk, OnErr, true, length, vec_len, vec_capacity, if◌then◌else◌};
ghost use Rattle.fc_holding.specs.Held.{scope_of, state_at};
ghost use Rattle.fc_machine.specs.ElementState.{and_rest};
ghost use Rattle.fc_msg.specs.Messages.{IsProper};
ghost use Rattle.fc_msg.specs.declared.message.MsgBody.TheVariants.{Config};
ghost use Rattle.fc_path.specs.Results.{results_fit};
ghost use Rattle.fc_phases.specs.Asking.{txn_of};
ghost use Rattle.fc_protocol.specs.Messages.{is_name};
ghost use Rattle.fc_protocol.specs.Phases.{adding};
ghost use Rattle.fc_protocol.specs.Records.{write};
ghost use Rattle.fc_protocol.specs.Scopes.{is_rising};
ghost use Rattle.fc_protocol.specs.declared.states.TxnState.TheVariants.{Aborted};
ghost use Rattle.fc_store.specs.Stores.{gone_back, over_mark};
ghost use Rattle.fc_tx.specs.Records.{start_turn, turned};
ghost use Rattle.fc_transactions.specs.Done.{IsDone};
ghost use Rattle.fc_transactions.specs.Phases as spec;

use crate::Ledger;
use crate::resting::attempt;
use crate::saying::{is_success, refuse};
use fc_base::{Code, FeId, List, Memory, TxnId};
use fc_holding::{Holding, extend, has_all, is_scope, name, participants_of, scope_of, undo};
use fc_msg::Message;
use fc_path::Select;
use fc_performing::Answered;
use fc_phases::{Opening, Subject};
use fc_store::{Store, StoreMark};
use fc_tx::{Decision, Records, TxnState};
use fc_types::Instances;
use std::alloc::Global;
use std::mem;

/// A transaction in which an element may take part.
#[derive(Debug, Drop)]
pub struct Admission {
    pub txn: TxnId,
    pub participants: List<FeId>,
}

// The transaction that an opening names, where an element of this ID and epoch with these instances may take part in it.
fn admitted(
    alloc: Global,
    id: FeId,
    epoch: u32,
    instances: &Instances,
    opening: &Opening,
) -> Result<Option<Admission>, Memory>
    ensures { IfOk result (λ admitted. admitted ≡ (if spec.is_admitted id epoch instances.now opening.now then Some (record { txn = spec.opened_txn opening.now; participants = opening.now.participants }) else None)) }
{
    let txn = match name(opening.epoch, opening.number) {
        Some(txn) => txn,
        None => return Ok(None),
    };
    let scope = opening.instances.as_slice();
    if opening.epoch != epoch {
        return Ok(None);
    }
    if !has_all(instances.pairs(), scope) {
        return Ok(None);
    }
    if !is_scope(scope) {
        return Ok(None);
    }
    match participants_of(alloc, id, opening.participants.as_slice())? {
        Some(participants) => Ok(Some(Admission { txn, participants })),
        None => Ok(None),
    }
}

// The rests of a transaction that was just opened.
fn first_rests(alloc: Global, rest: List<Select>) -> Result<List<List<Select>>, Memory>
    ensures { IfOk result (λ rests. rests ≡ and_rest [] rest) }
{
    let mut rests = List::new(alloc);
    if !rest.is_empty() {
        rests.push(rest)?;
    }
    Ok(rests)
}

// Enters the record of a transaction that nothing keeps from being opened, and makes room for what is kept of it. After an `Err` no record
// has changed.
fn enter(
    records: &mut Records,
    holdings: &mut Vec<Holding>,
    admitted: Admission,
    scope: List<(u32, u32)>,
) -> Result<(), Memory>
    requires accepted { (start_turn admitted.txn scope records.old).code ≡ 0 }
    requires scope { is_rising scope ≡ true }
    requires few { length admitted.participants ≤ 64 }
    ensures ok { OnOk result (records.new ≡ turned admitted.txn admitted.participants scope (start_turn admitted.txn scope records.old) records.old) }
    ensures err { OnErr result (records.new ≡ records.old) }
    ensures same { holdings.new.items ≡ holdings.old.items }
    ensures room { OnOk result (vec_len holdings.new + 1 ≤ vec_capacity holdings.new) }
{
    holdings.reserve(1)?;
    match records.start(admitted.txn, admitted.participants, scope) {
        Ok(()) => Ok(()),
        Err(_) => Err(Memory),
    }
}

// The same, and what is kept of it is entered. After an `Err` nothing has changed.
fn enter_held(
    records: &mut Records,
    holdings: &mut Vec<Holding>,
    admitted: Admission,
    scope: List<(u32, u32)>,
    mark: StoreMark,
    rests: List<List<Select>>,
) -> Result<(), StoreMark>
    requires accepted { (start_turn admitted.txn scope records.old).code ≡ 0 }
    requires scope { is_rising scope ≡ true }
    requires few { length admitted.participants ≤ 64 }
    ensures records { OnOk result (records.new ≡ turned admitted.txn admitted.participants scope (start_turn admitted.txn scope records.old) records.old) }
    ensures holdings { OnOk result (holdings.new.items ≡ holdings.old.items ++ record { txn = admitted.txn; mark = mark; rests = rests } ∷ []) }
    ensures mark { IfErr result (λ other. other ≡ mark) }
    ensures err { OnErr result (records.new ≡ records.old) }
    ensures same { OnErr result (holdings.new.items ≡ holdings.old.items) }
{
    let txn = admitted.txn;
    match enter(records, holdings, admitted, scope) {
        Ok(()) => {
            holdings.push_reserved(Holding { txn, mark, rests });
            Ok(())
        }
        Err(_) => Err(mark),
    }
}

// Holds a transaction that nothing keeps from being opened, and whose rest was done while this mark stands. After an `Err` the mark has
// ended, what was done is undone, and nothing else has changed.
fn hold(
    store: &mut Store,
    records: &mut Records,
    holdings: &mut List<Holding>,
    mark: StoreMark,
    admitted: Admission,
    scope: List<(u32, u32)>,
    rest: List<Select>,
) -> Result<(), Memory>
    requires accepted { (start_turn admitted.txn scope records.old).code ≡ 0 }
    requires scope { is_rising scope ≡ true }
    requires few { length admitted.participants ≤ 64 }
    ensures records { OnOk result (records.new ≡ turned admitted.txn admitted.participants scope (start_turn admitted.txn scope records.old) records.old) }
    ensures holdings { OnOk result (holdings.new ≡ holdings.old ++ record { txn = admitted.txn; mark = mark; rests = and_rest [] rest } ∷ []) }
    ensures store { OnOk result (store.new ≡ store.old) }
    ensures undone { OnErr result (store.new ≡ over_mark gone_back mark store.old) }
    ensures err { OnErr result (records.new ≡ records.old) }
    ensures same { OnErr result (holdings.new ≡ holdings.old) }
{
    let alloc = holdings.alloc();
    let rests = match first_rests(alloc, rest) {
        Ok(rests) => rests,
        Err(fault) => {
            store.rollback(mark);
            return Err(fault);
        }
    };
    let mut items = mem::replace(holdings, List::new(alloc)).into_vec();
    let entered = enter_held(records, &mut items, admitted, scope, mark, rests);
    *holdings = List::from_vec(items);
    match entered {
        Ok(()) => Ok(()),
        Err(mark) => {
            store.rollback(mark);
            Err(Memory)
        }
    }
}

// Enters the record of a transaction that nothing keeps from being opened, as one that is aborted. After an `Err` nothing has changed.
fn enter_failed(
    records: &mut Records,
    admitted: Admission,
    scope: List<(u32, u32)>,
) -> Result<(), Memory>
    requires accepted { (start_turn admitted.txn scope records.old).code ≡ 0 }
    requires scope { is_rising scope ≡ true }
    requires few { length admitted.participants ≤ 64 }
    ensures ok { OnOk result (records.new ≡ record { entries = write admitted.txn admitted.participants scope Aborted records.old.entries; floor = records.old.floor }) }
    ensures err { OnErr result (records.new ≡ records.old) }
{
    let txn = admitted.txn;
    match records.start(txn, admitted.participants, scope) {
        Ok(()) => {
            records.settle(txn, Decision::Abort);
            Ok(())
        }
        Err(_) => Err(Memory),
    }
}

// Opens a transaction that nothing keeps from that. After an `Err` nothing has changed.
fn open(
    alloc: Global,
    id: FeId,
    ledger: &mut Ledger,
    peer: u32,
    request: &Message,
    selects: &[Select],
    opening: &Opening,
    admitted: Admission,
    rest: List<Select>,
) -> Result<Answered, Memory>
    requires proper { IsProper request.now }
    requires body { request.now.body ≡ Config selects.now }
    requires fits { results_fit selects.now ≡ true }
    requires named { admitted ≡ record { txn = spec.opened_txn opening.now; participants = opening.now.participants } }
    requires accepted { (start_turn admitted.txn opening.now.instances ledger.old.records).code ≡ 0 }
    requires scope { is_rising opening.now.instances ≡ true }
    requires few { length opening.now.participants ≤ 64 }
    ensures done { IfOk result (λ answered. IsDone id peer request.now selects.now (spec.started id ledger.old opening.now rest) answered) }
    ensures ok { OnOk result (ledger.new ≡ (spec.started id ledger.old opening.now rest).ledger) }
    ensures err { OnErr result (ledger.new ≡ ledger.old) }
{
    let scope = List::from_slice(alloc, opening.instances.as_slice())?;
    let trial = attempt(
        alloc,
        &mut ledger.store,
        opening.instances.as_slice(),
        peer,
        request,
        selects,
        rest.as_slice(),
    )?;
    if is_success(trial.code) {
        hold(
            &mut ledger.store,
            &mut ledger.records,
            &mut ledger.holdings,
            trial.mark,
            admitted,
            scope,
            rest,
        )?;
        Ok(trial.answered)
    } else {
        ledger.store.rollback(trial.mark);
        enter_failed(&mut ledger.records, admitted, scope)?;
        Ok(trial.answered)
    }
}

/// SOT, at an element of this ID and epoch, with these operations behind the first one. After an `Err` nothing has changed.
pub fn start(
    alloc: Global,
    id: FeId,
    epoch: u32,
    ledger: &mut Ledger,
    peer: u32,
    request: &Message,
    selects: &[Select],
    opening: &Opening,
    rest: List<Select>,
) -> Result<Answered, Memory>
    requires proper { IsProper request.now }
    requires body { request.now.body ≡ Config selects.now }
    requires fits { results_fit selects.now ≡ true }
    ensures done { IfOk result (λ answered. IsDone id peer request.now selects.now (spec.starts id epoch ledger.old opening.now rest) answered) }
    ensures ok { OnOk result (ledger.new ≡ (spec.starts id epoch ledger.old opening.now rest).ledger) }
    ensures err { OnErr result (ledger.new ≡ ledger.old) }
{
    let admitted = match admitted(alloc, id, epoch, ledger.store.instances(), opening)? {
        Some(admitted) => admitted,
        None => {
            return refuse(
                alloc,
                peer,
                request,
                selects,
                rest.as_slice(),
                Code::INVALID_PARAMETERS,
            );
        }
    };
    let code = ledger
        .records
        .start_code(admitted.txn, opening.instances.as_slice());
    if is_success(code) {
        open(
            alloc, id, ledger, peer, request, selects, opening, admitted, rest,
        )
    } else {
        refuse(alloc, peer, request, selects, rest.as_slice(), code)
    }
}

// The code of a change, by the state of the record of its transaction.
fn change_code(state: Option<TxnState>) -> Code
    ensures { result ≡ (adding 0 state).code }
{
    match state {
        None => Code::NOT_FOUND,
        Some(state) => match state {
            TxnState::Started => Code::SUCCESS,
            TxnState::Prepared => Code::INVALID_FLAGS,
            TxnState::Completed => Code::INVALID_FLAGS,
            TxnState::Aborted => Code::INVALID_FLAGS,
        },
    }
}

// Adds to a transaction that is started. After an `Err` nothing has changed.
fn add(
    alloc: Global,
    id: FeId,
    ledger: &mut Ledger,
    peer: u32,
    request: &Message,
    selects: &[Select],
    txn: TxnId,
    rest: List<Select>,
) -> Result<Answered, Memory>
    requires proper { IsProper request.now }
    requires body { request.now.body ≡ Config selects.now }
    requires fits { results_fit selects.now ≡ true }
    requires named { is_name txn ≡ true }
    requires started { (adding 0 (state_at txn ledger.old.records.entries)).code ≡ 0 }
    ensures done { IfOk result (λ answered. IsDone id peer request.now selects.now (spec.continued id ledger.old txn rest) answered) }
    ensures ok { OnOk result (ledger.new ≡ (spec.continued id ledger.old txn rest).ledger) }
    ensures err { OnErr result (ledger.new ≡ ledger.old) }
{
    let trial = attempt(
        alloc,
        &mut ledger.store,
        scope_of(&ledger.records, txn),
        peer,
        request,
        selects,
        rest.as_slice(),
    )?;
    if !is_success(trial.code) {
        ledger.store.rollback(trial.mark);
        undo(&mut ledger.store, &mut ledger.holdings, txn);
        ledger.records.settle(txn, Decision::Abort);
        return Ok(trial.answered);
    }
    match extend(&mut ledger.holdings, txn, rest) {
        Ok(()) => {
            ledger.store.release(trial.mark);
            Ok(trial.answered)
        }
        Err(fault) => {
            ledger.store.rollback(trial.mark);
            Err(fault)
        }
    }
}

/// MOT, with these operations behind the first one. After an `Err` nothing has changed.
pub fn change(
    alloc: Global,
    id: FeId,
    ledger: &mut Ledger,
    peer: u32,
    request: &Message,
    selects: &[Select],
    subject: Subject,
    rest: List<Select>,
) -> Result<Answered, Memory>
    requires proper { IsProper request.now }
    requires body { request.now.body ≡ Config selects.now }
    requires fits { results_fit selects.now ≡ true }
    ensures done { IfOk result (λ answered. IsDone id peer request.now selects.now (spec.continues id ledger.old (txn_of subject) rest) answered) }
    ensures ok { OnOk result (ledger.new ≡ (spec.continues id ledger.old (txn_of subject) rest).ledger) }
    ensures err { OnErr result (ledger.new ≡ ledger.old) }
{
    let txn = match name(subject.epoch, subject.number) {
        Some(txn) => txn,
        None => {
            return refuse(
                alloc,
                peer,
                request,
                selects,
                rest.as_slice(),
                Code::NOT_FOUND,
            );
        }
    };
    let code = change_code(ledger.records.state_of(txn));
    if is_success(code) {
        add(alloc, id, ledger, peer, request, selects, txn, rest)
    } else {
        refuse(alloc, peer, request, selects, rest.as_slice(), code)
    }
}
