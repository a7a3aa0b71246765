// The report on a world.
ghost use Rattle.std.specs.Prelude.{◌≡◌, ◌++◌, IfOk, OnOk, map, string_bytes};
ghost use Rattle.std.specs.List.{flat_map};
ghost use Rattle.fc_world.specs.Reports as spec;
ghost use Rattle.fc_world.specs.declared.faults.Refused.TheVariants.{Begin, GiveUp, Forget};
ghost use Rattle.fc_world.specs.Stages.{IsSound, placed_refusal, refusal_in, standing_of, state_of};

use crate::controllers::Controller;
use crate::faults::Refused;
use crate::nodes::put_nodes;
use crate::sent::count;
use crate::stage::Stage;
use fc_base::{FeId, Memory, TxnId};
use fc_master::{BeginFault, ForgetFault, GiveUpFault};
use std::alloc::Global;

// What is in the way at an element.
fn busy_text(alloc: Global, element: FeId, txn: Option<TxnId>) -> Result<String, Memory>
    ensures { IfOk result (λ text. string_bytes text ≡ spec.busy_at element txn) }
{
    let id = element.get();
    match txn {
        None => Ok(format!(in alloc; "busy {id} plain")?),
        Some(txn) => Ok(format!(in alloc; "busy {id} {txn}")?),
    }
}

fn number_text(alloc: Global, word: &str, number: u64) -> Result<String, Memory>
    ensures { IfOk result (λ text. string_bytes text ≡ spec.number_text word.now number) }
{
    Ok(format!(in alloc; "{word} {number}")?)
}

fn begin_text(alloc: Global, fault: BeginFault) -> Result<String, Memory>
    ensures { IfOk result (λ text. string_bytes text ≡ spec.refusal_text (refusal_in (Begin fault))) }
{
    match fault {
        BeginFault::Deposed { seen } => number_text(alloc, "deposed", u64::from(seen)),
        BeginFault::TooMany { count } => number_text(alloc, "toomany", count as u64),
        BeginFault::Stranger { element } => {
            number_text(alloc, "stranger", u64::from(element.get()))
        }
        BeginFault::NotReady { element } => {
            number_text(alloc, "notready", u64::from(element.get()))
        }
        BeginFault::Busy { element, txn } => busy_text(alloc, element, txn),
        BeginFault::Spent => Ok(String::from_str(alloc, "spent")?),
        BeginFault::Memory => Ok(String::from_str(alloc, "spent")?),
    }
}

fn give_up_text(alloc: Global, fault: GiveUpFault) -> Result<String, Memory>
    ensures { IfOk result (λ text. string_bytes text ≡ spec.refusal_text (refusal_in (GiveUp fault))) }
{
    match fault {
        GiveUpFault::Deposed { seen } => number_text(alloc, "deposed", u64::from(seen)),
        GiveUpFault::Unknown => Ok(String::from_str(alloc, "unknown")?),
        GiveUpFault::Decided { .. } => Ok(String::from_str(alloc, "decided")?),
        GiveUpFault::Memory => Ok(String::from_str(alloc, "spent")?),
    }
}

fn forget_text(alloc: Global, fault: ForgetFault) -> Result<String, Memory>
    ensures { IfOk result (λ text. string_bytes text ≡ spec.refusal_text (refusal_in (Forget fault))) }
{
    match fault {
        ForgetFault::Deposed { seen } => number_text(alloc, "deposed", u64::from(seen)),
        ForgetFault::NotReady { element } => {
            number_text(alloc, "notready", u64::from(element.get()))
        }
        ForgetFault::Busy { element, txn } => busy_text(alloc, element, txn),
        ForgetFault::Unsettled { txn } => Ok(format!(in alloc; "unsettled {txn}")?),
        ForgetFault::Spent => Ok(String::from_str(alloc, "spent")?),
        ForgetFault::Memory => Ok(String::from_str(alloc, "spent")?),
    }
}

fn refusal_text(alloc: Global, refused: Refused) -> Result<String, Memory>
    ensures { IfOk result (λ text. string_bytes text ≡ spec.refusal_text (refusal_in refused)) }
{
    match refused {
        Refused::Begin(fault) => begin_text(alloc, fault),
        Refused::GiveUp(fault) => give_up_text(alloc, fault),
        Refused::Forget(fault) => forget_text(alloc, fault),
    }
}

// Appends the line of a refused call.
#[tactic(auto, unfolding(crate::specs::Reports::refusal_line))]
fn put_refusal(
    alloc: Global,
    place: usize,
    refused: Refused,
    into: &mut Vec<u8>,
) -> Result<(), Memory>
    ensures { OnOk result (into.new.items ≡ into.old.items ++ spec.refusal_line (place, refusal_in refused)) }
{
    let text = refusal_text(alloc, refused)?;
    let line = format!(in alloc; "step {place} {text}\n")?;
    into.extend_from_slice(line.as_bytes())?;
    Ok(())
}

fn put_refusals(
    alloc: Global,
    refused: &[(usize, Refused)],
    into: &mut Vec<u8>,
) -> Result<(), Memory>
    ensures { OnOk result (into.new.items ≡ into.old.items ++ flat_map spec.refusal_line (map placed_refusal refused.now)) }
{
    for entry in refused {
        put_refusal(alloc, entry.0, entry.1, into)?;
    }
    Ok(())
}

// The line of a control element that stands still.
#[tactic(auto, unfolding(crate::specs::Reports::stopped_line))]
fn stopped_line(alloc: Global, number: u8) -> Result<String, Memory>
    ensures { IfOk result (λ line. string_bytes line ≡ spec.stopped_line number) }
{
    Ok(format!(in alloc; "controller {number} stopped\n")?)
}

// Appends the report on a control element.
fn put_controller(alloc: Global, controller: &Controller, into: &mut Vec<u8>) -> Result<(), Memory>
    ensures { OnOk result (into.new.items ≡ into.old.items ++ spec.controller_lines (standing_of controller.now)) }
{
    match &controller.master {
        Some(master) => master.report(into),
        None => {
            let line = stopped_line(alloc, controller.ce.number())?;
            into.extend_from_slice(line.as_bytes())?;
            Ok(())
        }
    }
}

fn put_controllers(
    alloc: Global,
    controllers: &[Controller],
    into: &mut Vec<u8>,
) -> Result<(), Memory>
    ensures { OnOk result (into.new.items ≡ into.old.items ++ flat_map spec.controller_lines (map standing_of controllers.now)) }
{
    for controller in controllers {
        put_controller(alloc, controller, into)?;
    }
    Ok(())
}

// The line with how many messages were sent.
#[tactic(auto, unfolding(crate::specs::Reports::sent_line))]
fn sent_line(alloc: Global, sent: usize) -> Result<String, Memory>
    ensures { IfOk result (λ line. string_bytes line ≡ spec.sent_line sent) }
{
    Ok(format!(in alloc; "sent {sent}\n")?)
}

/// Appends the lines of the report.
pub fn put_report(alloc: Global, stage: &Stage, into: &mut Vec<u8>) -> Result<(), Memory>
    requires { IsSound stage.now }
    ensures { OnOk result (into.new.items ≡ into.old.items ++ spec.world_report (state_of stage.now)) }
{
    put_refusals(alloc, stage.refused.as_slice(), into)?;
    put_nodes(stage.nodes.as_slice(), into)?;
    put_controllers(alloc, stage.controllers.as_slice(), into)?;
    let line = sent_line(alloc, count(stage.sent.as_slice()))?;
    into.extend_from_slice(line.as_bytes())?;
    Ok(())
}
