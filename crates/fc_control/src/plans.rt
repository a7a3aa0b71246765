// The transactions of the plan.
ghost use Rattle.std.specs.Prelude.{◌≡◌, drop, length, IfOk};
ghost use Rattle.fc_documents.specs.Parts.{begun};
ghost use Rattle.fc_control.specs.ControlNode as spec;
ghost use Rattle.fc_control.specs.Controls.{control_of};
ghost use Rattle.fc_control.specs.Planning.{AreOf, next_parts, whole_plan};

use crate::control::Control;
use fc_base::{List, Memory, TxnId};
use fc_documents::PlanTxn;
use fc_master::{PlanFault, TxnPlan};
use std::alloc::Global;

// The plan that was made, if one was.
fn made(given: Result<TxnPlan, PlanFault>) -> Result<Option<TxnPlan>, Memory>
    ensures { AreOf given result }
{
    match given {
        Ok(plan) => Ok(Some(plan)),
        Err(PlanFault::Memory) => Err(Memory),
        Err(PlanFault::Empty) => Ok(None),
        Err(PlanFault::Order) => Ok(None),
        Err(PlanFault::Changes) => Ok(None),
    }
}

// The plan of a transaction, if it is one.
fn plan_of(transaction: &PlanTxn) -> Result<Option<TxnPlan>, Memory>
    ensures { IfOk result (λ plan. plan ≡ whole_plan (begun transaction.now)) }
{
    made(transaction.plan())
}

// Whether a transaction is to be given up at this moment.
fn has_come(now: u64, give_up: Option<u64>) -> bool
    ensures { result ≡ spec.has_come now give_up }
{
    match give_up {
        None => false,
        Some(give_up) => give_up <= now,
    }
}

// The transactions begun whose moment has come, in the order of the plan.
fn come(alloc: Global, now: u64, plan: &[PlanTxn], begun: &[TxnId]) -> Result<List<TxnId>, Memory>
    ensures { IfOk result (λ txns. txns ≡ spec.come now plan.now begun.now) }
{
    let mut txns = List::new(alloc);
    let mut rest = plan;
    for txn in begun {
        let [planned, others @ ..] = rest else {
            return Ok(txns);
        };
        if has_come(now, planned.give_up) {
            txns.push(*txn)?;
        }
        rest = others;
    }
    Ok(txns)
}

impl Control {
    // The plan of the next transaction that is not begun. None where all are begun; and where it is no plan, of which a document has none.
    pub(crate) fn next_plan(&self) -> Result<Option<TxnPlan>, Memory>
        ensures { IfOk result (λ plan. plan ≡ next_parts (drop (length self.now.begun) (control_of self.now).plan)) }
    {
        match self.transactions().get(self.begun.len()) {
            Some(transaction) => plan_of(transaction),
            None => Ok(None),
        }
    }

    // The transactions begun whose moment has come, in the order of the plan.
    pub(crate) fn come(&self, now: u64) -> Result<List<TxnId>, Memory>
        ensures { IfOk result (λ txns. txns ≡ spec.come now (control_of self.now).plan self.now.begun) }
    {
        come(self.alloc, now, self.transactions(), self.begun.as_slice())
    }
}
