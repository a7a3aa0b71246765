// Plain changes and floors.
ghost use Rattle.std.specs.Prelude.{◌≡◌, ◌&&◌, ◌==◌, Some, None, IfOk, OnOk, OnErr, true, not, if◌then◌else◌};
ghost use Rattle.fc_msg.specs.Messages.{IsProper};
ghost use Rattle.fc_msg.specs.declared.message.MsgBody.TheVariants.{Config};
ghost use Rattle.fc_path.specs.Results.{results_fit};
ghost use Rattle.fc_phases.specs.Asking.{txn_of};
ghost use Rattle.fc_protocol.specs.Messages.{is_name};
ghost use Rattle.fc_transactions.specs.Done.{IsDone};
ghost use Rattle.fc_transactions.specs.Phases as spec;

use crate::Ledger;
use crate::saying::{all_get, route_back};
use fc_base::{Code, FeId, Memory, TxnId};
use fc_holding::{held_instances, name, waits};
use fc_msg::Message;
use fc_path::Select;
use fc_performing::{Answered, execute};
use fc_phases::Subject;
use std::alloc::Global;

/// Performs the operations of a Config. After an `Err` nothing has changed.
pub fn perform(
    alloc: Global,
    id: FeId,
    ledger: &mut Ledger,
    peer: u32,
    request: &Message,
    selects: &[Select],
) -> Result<Answered, Memory>
    requires proper { IsProper request.now }
    requires body { request.now.body ≡ Config selects.now }
    requires fits { results_fit selects.now ≡ true }
    ensures done { IfOk result (λ answered. IsDone id peer request.now selects.now (spec.executes id ledger.old request.now selects.now) answered) }
    ensures ok { OnOk result (ledger.new ≡ (spec.executes id ledger.old request.now selects.now).ledger) }
    ensures err { OnErr result (ledger.new ≡ ledger.old) }
{
    let all = ledger.store.instances().pairs();
    let held = held_instances(alloc, all, &ledger.records, &None)?;
    let route = route_back(id, peer, request);
    execute(
        alloc,
        &mut ledger.store,
        &held,
        &mut ledger.subscriptions,
        route,
        request,
        selects,
    )
}

/// A plain change, which waits while a leaf of it lies at an instance that is held. After an `Err` nothing has changed.
pub fn change_plainly(
    alloc: Global,
    id: FeId,
    ledger: &mut Ledger,
    peer: u32,
    request: &Message,
    selects: &[Select],
) -> Result<Answered, Memory>
    requires proper { IsProper request.now }
    requires body { request.now.body ≡ Config selects.now }
    requires fits { results_fit selects.now ≡ true }
    ensures done { IfOk result (λ answered. IsDone id peer request.now selects.now (spec.plain id ledger.old request.now selects.now) answered) }
    ensures ok { OnOk result (ledger.new ≡ (spec.plain id ledger.old request.now selects.now).ledger) }
    ensures err { OnErr result (ledger.new ≡ ledger.old) }
{
    if waits(&ledger.records, selects) {
        all_get(alloc, peer, request, selects, Code::INVALID_FLAGS)
    } else {
        perform(alloc, id, ledger, peer, request, selects)
    }
}

// The floor that a subject names, where it is of the life that has claimed the element.
fn own_floor(epoch: u32, subject: Subject) -> Option<TxnId>
    ensures { result ≡ (if subject.epoch == epoch && not (subject.number == 0) then (if is_name (txn_of subject) then Some (txn_of subject) else None) else None) }
{
    if subject.epoch == epoch && subject.number != 0 {
        name(subject.epoch, subject.number)
    } else {
        None
    }
}

/// A floor, below which records are forgotten, at an element of this epoch. After an `Err` nothing has changed.
pub fn set_floor(
    alloc: Global,
    id: FeId,
    epoch: u32,
    ledger: &mut Ledger,
    peer: u32,
    request: &Message,
    selects: &[Select],
    subject: Subject,
) -> Result<Answered, Memory>
    requires proper { IsProper request.now }
    requires body { request.now.body ≡ Config selects.now }
    requires fits { results_fit selects.now ≡ true }
    ensures done { IfOk result (λ answered. IsDone id peer request.now selects.now (spec.floors epoch ledger.old selects.now (txn_of subject)) answered) }
    ensures ok { OnOk result (ledger.new ≡ (spec.floors epoch ledger.old selects.now (txn_of subject)).ledger) }
    ensures err { OnErr result (ledger.new ≡ ledger.old) }
{
    let floor = match own_floor(epoch, subject) {
        Some(floor) => floor,
        None => {
            return all_get(alloc, peer, request, selects, Code::INVALID_PARAMETERS);
        }
    };
    let code = ledger.records.forget_code(floor);
    let answered = all_get(alloc, peer, request, selects, code)?;
    ledger.records.forget(floor);
    Ok(answered)
}
