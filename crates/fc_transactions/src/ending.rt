// Phases that end a transaction.
ghost use Rattle.std.specs.Prelude.{◌≡◌, Some, None, IfOk, OnOk, OnErr, true, false, if◌then◌else◌};
ghost use Rattle.fc_holding.specs.Holdings.{undone, without};
ghost use Rattle.fc_machine.specs.Transactions.{is_completed};
ghost use Rattle.fc_msg.specs.Messages.{IsProper};
ghost use Rattle.fc_msg.specs.declared.message.MsgBody.TheVariants.{Config};
ghost use Rattle.fc_path.specs.Results.{results_fit};
ghost use Rattle.fc_phases.specs.Asking.{txn_of};
ghost use Rattle.fc_protocol.specs.Messages.{is_name};
ghost use Rattle.fc_protocol.specs.Phases.{settling};
ghost use Rattle.fc_protocol.specs.Records.{is_held, state_of};
ghost use Rattle.fc_protocol.specs.declared.states.Decision.TheVariants.{Complete};
ghost use Rattle.fc_transactions.specs.Done.{IsDone};
ghost use Rattle.fc_transactions.specs.Phases as spec;

use crate::Ledger;
use crate::saying::{answer, is_success, route_back};
use fc_base::{Code, Duplicate, FeId, Memory, TxnId};
use fc_holding::{held_instances, is_held, name, settle, undo};
use fc_msg::Message;
use fc_path::Select;
use fc_performing::{Answered, tell};
use fc_phases::Subject;
use fc_tx::{Decision, TxnState};
use std::alloc::Global;

// The code of the second operation, which is done where the first is.
fn second_code(code: Code) -> Code
    ensures { result ≡ spec.second_code code }
{
    if is_success(code) {
        Code::SUCCESS
    } else {
        Code::UNSPECIFIED_ERROR
    }
}

// Whether changes are settled now, by the state of the record of their transaction.
fn settles(state: Option<TxnState>) -> bool
    ensures { result ≡ is_completed (settling Complete state).new }
{
    match state {
        None => false,
        Some(state) => match state {
            TxnState::Prepared => true,
            TxnState::Started => false,
            TxnState::Completed => false,
            TxnState::Aborted => false,
        },
    }
}

// Prepares a transaction. After an `Err` nothing has changed.
fn prepare(
    alloc: Global,
    id: FeId,
    ledger: &mut Ledger,
    peer: u32,
    request: &Message,
    selects: &[Select],
    txn: TxnId,
) -> Result<Answered, Memory>
    requires proper { IsProper request.now }
    requires body { request.now.body ≡ Config selects.now }
    requires fits { results_fit selects.now ≡ true }
    requires named { is_name txn ≡ true }
    ensures done { IfOk result (λ answered. IsDone id peer request.now selects.now (spec.prepares id ledger.old txn) answered) }
    ensures ok { OnOk result (ledger.new ≡ (spec.prepares id ledger.old txn).ledger) }
    ensures err { OnErr result (ledger.new ≡ ledger.old) }
{
    let code = ledger.records.prepare_code(txn);
    let answered = answer(alloc, peer, request, selects, &[code, code])?;
    ledger.records.prepare(txn);
    Ok(answered)
}

/// EOT with COMMIT. After an `Err` nothing has changed.
pub fn commit(
    alloc: Global,
    id: FeId,
    ledger: &mut Ledger,
    peer: u32,
    request: &Message,
    selects: &[Select],
    subject: Subject,
) -> Result<Answered, Memory>
    requires proper { IsProper request.now }
    requires body { request.now.body ≡ Config selects.now }
    requires fits { results_fit selects.now ≡ true }
    ensures done { IfOk result (λ answered. IsDone id peer request.now selects.now (spec.prepares id ledger.old (txn_of subject)) answered) }
    ensures ok { OnOk result (ledger.new ≡ (spec.prepares id ledger.old (txn_of subject)).ledger) }
    ensures err { OnErr result (ledger.new ≡ ledger.old) }
{
    match name(subject.epoch, subject.number) {
        Some(txn) => prepare(alloc, id, ledger, peer, request, selects, txn),
        None => answer(
            alloc,
            peer,
            request,
            selects,
            &[Code::NOT_FOUND, Code::NOT_FOUND],
        ),
    }
}

// Settles the changes of a transaction that is prepared. After an `Err` nothing has changed.
fn settle_prepared(
    alloc: Global,
    id: FeId,
    ledger: &mut Ledger,
    peer: u32,
    request: &Message,
    selects: &[Select],
    txn: TxnId,
) -> Result<Answered, Memory>
    requires proper { IsProper request.now }
    requires body { request.now.body ≡ Config selects.now }
    requires fits { results_fit selects.now ≡ true }
    requires named { is_name txn ≡ true }
    requires prepared { is_completed (settling Complete (state_of txn ledger.old.records.entries)).new ≡ true }
    ensures done { IfOk result (λ answered. IsDone id peer request.now selects.now (spec.completes id ledger.old txn) answered) }
    ensures ok { OnOk result (ledger.new ≡ (spec.completes id ledger.old txn).ledger) }
    ensures err { OnErr result (ledger.new ≡ ledger.old) }
{
    let all = ledger.store.instances().pairs();
    let held = held_instances(alloc, all, &ledger.records, &Some(txn))?;
    let route = route_back(id, peer, request);
    let mut others = ledger.subscriptions.copy()?;
    let answered = tell(
        alloc,
        &ledger.store,
        &held,
        &mut others,
        route,
        request,
        selects,
        &[Code::SUCCESS, Code::SUCCESS],
    )?;
    settle(&mut ledger.store, &mut ledger.holdings, txn);
    ledger.records.settle(txn, Decision::Complete);
    ledger.subscriptions = others;
    Ok(answered)
}

// Answers for a transaction whose changes are not settled now.
fn settle_nothing(
    alloc: Global,
    id: FeId,
    ledger: &Ledger,
    peer: u32,
    request: &Message,
    selects: &[Select],
    txn: TxnId,
) -> Result<Answered, Memory>
    requires proper { IsProper request.now }
    requires body { request.now.body ≡ Config selects.now }
    requires fits { results_fit selects.now ≡ true }
    requires named { is_name txn ≡ true }
    requires ended { is_completed (settling Complete (state_of txn ledger.now.records.entries)).new ≡ false }
    ensures done { IfOk result (λ answered. IsDone id peer request.now selects.now (spec.completes id ledger.now txn) answered) }
    ensures same { ledger.now ≡ (spec.completes id ledger.now txn).ledger }
{
    let code = ledger.records.settle_code(txn, Decision::Complete);
    answer(alloc, peer, request, selects, &[code, second_code(code)])
}

/// EOT with TRCOMP. After an `Err` nothing has changed.
pub fn complete(
    alloc: Global,
    id: FeId,
    ledger: &mut Ledger,
    peer: u32,
    request: &Message,
    selects: &[Select],
    subject: Subject,
) -> Result<Answered, Memory>
    requires proper { IsProper request.now }
    requires body { request.now.body ≡ Config selects.now }
    requires fits { results_fit selects.now ≡ true }
    ensures done { IfOk result (λ answered. IsDone id peer request.now selects.now (spec.completes id ledger.old (txn_of subject)) answered) }
    ensures ok { OnOk result (ledger.new ≡ (spec.completes id ledger.old (txn_of subject)).ledger) }
    ensures err { OnErr result (ledger.new ≡ ledger.old) }
{
    let txn = match name(subject.epoch, subject.number) {
        Some(txn) => txn,
        None => {
            return answer(
                alloc,
                peer,
                request,
                selects,
                &[Code::NOT_FOUND, Code::UNSPECIFIED_ERROR],
            );
        }
    };
    if settles(ledger.records.state_of(txn)) {
        settle_prepared(alloc, id, ledger, peer, request, selects, txn)
    } else {
        settle_nothing(alloc, id, ledger, peer, request, selects, txn)
    }
}

// Undoes the changes of a transaction whose record has this state, where it is held.
fn let_go(ledger: &mut Ledger, txn: TxnId, state: TxnState)
    ensures { ledger.new ≡ (if is_held state then record { records = ledger.old.records; holdings = without txn ledger.old.holdings; store = undone txn ledger.old.holdings ledger.old.store; subscriptions = ledger.old.subscriptions } else ledger.old) }
{
    if is_held(state) {
        undo(&mut ledger.store, &mut ledger.holdings, txn);
    }
}

// Aborts a transaction that has a record with this state. After an `Err` nothing has changed.
fn abort_known(
    alloc: Global,
    id: FeId,
    ledger: &mut Ledger,
    peer: u32,
    request: &Message,
    selects: &[Select],
    txn: TxnId,
    state: TxnState,
) -> Result<Answered, Memory>
    requires proper { IsProper request.now }
    requires body { request.now.body ≡ Config selects.now }
    requires fits { results_fit selects.now ≡ true }
    requires named { is_name txn ≡ true }
    requires known { state_of txn ledger.old.records.entries ≡ Some state }
    ensures done { IfOk result (λ answered. IsDone id peer request.now selects.now (spec.aborts id ledger.old txn) answered) }
    ensures ok { OnOk result (ledger.new ≡ (spec.aborts id ledger.old txn).ledger) }
    ensures err { OnErr result (ledger.new ≡ ledger.old) }
{
    let code = ledger.records.settle_code(txn, Decision::Abort);
    let answered = answer(alloc, peer, request, selects, &[code])?;
    let_go(ledger, txn, state);
    ledger.records.settle(txn, Decision::Abort);
    Ok(answered)
}

// Aborts a transaction that has no record. After an `Err` nothing has changed.
fn abort_unknown(
    alloc: Global,
    id: FeId,
    ledger: &mut Ledger,
    peer: u32,
    request: &Message,
    selects: &[Select],
    txn: TxnId,
) -> Result<Answered, Memory>
    requires proper { IsProper request.now }
    requires body { request.now.body ≡ Config selects.now }
    requires fits { results_fit selects.now ≡ true }
    requires named { is_name txn ≡ true }
    requires unknown { state_of txn ledger.old.records.entries ≡ None }
    ensures done { IfOk result (λ answered. IsDone id peer request.now selects.now (spec.aborts id ledger.old txn) answered) }
    ensures ok { OnOk result (ledger.new ≡ (spec.aborts id ledger.old txn).ledger) }
    ensures err { OnErr result (ledger.new ≡ ledger.old) }
{
    let code = ledger.records.abort_unknown_code(txn);
    let answered = answer(alloc, peer, request, selects, &[code])?;
    if is_success(code) {
        match ledger.records.abort_unknown(txn) {
            Ok(()) => Ok(answered),
            Err(_) => Err(Memory),
        }
    } else {
        Ok(answered)
    }
}

/// ABT. After an `Err` nothing has changed.
pub fn abort(
    alloc: Global,
    id: FeId,
    ledger: &mut Ledger,
    peer: u32,
    request: &Message,
    selects: &[Select],
    subject: Subject,
) -> Result<Answered, Memory>
    requires proper { IsProper request.now }
    requires body { request.now.body ≡ Config selects.now }
    requires fits { results_fit selects.now ≡ true }
    ensures done { IfOk result (λ answered. IsDone id peer request.now selects.now (spec.aborts id ledger.old (txn_of subject)) answered) }
    ensures ok { OnOk result (ledger.new ≡ (spec.aborts id ledger.old (txn_of subject)).ledger) }
    ensures err { OnErr result (ledger.new ≡ ledger.old) }
{
    let txn = match name(subject.epoch, subject.number) {
        Some(txn) => txn,
        None => return answer(alloc, peer, request, selects, &[Code::NOT_FOUND]),
    };
    match ledger.records.state_of(txn) {
        Some(state) => abort_known(alloc, id, ledger, peer, request, selects, txn, state),
        None => abort_unknown(alloc, id, ledger, peer, request, selects, txn),
    }
}
