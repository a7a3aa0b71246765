// Transactions of a document.
ghost use Rattle.std.specs.Prelude.{◌≡◌, ◌≢◌, None, Some, IfOk, IfErr, OnOk};
ghost use Rattle.fc_plans.specs.Plans.{plan_fault};
ghost use Rattle.fc_plans.specs.declared.fault.PlanFault.TheVariants as fault;
ghost use Rattle.fc_documents.specs.Parts as spec;

use fc_base::{Duplicate, FeId, List, Memory, Text};
use fc_plans::{Change, PlanFault, TxnPlan, whole_fault};
use std::alloc::Global;

/// A transaction of a document.
#[derive(Debug, Drop)]
pub struct PlanTxn {
    /// Its name in the document: letters and digits of ASCII, and `_`.
    pub name: Text,
    /// The moment in milliseconds from which on it is given up, where it is not decided by then.
    pub give_up: Option<u64>,
    /// Whether it holds no more than the LFB instances that its changes name.
    pub scoped: bool,
    /// The participants, by rising ID, each with its changes in the order of the document.
    pub parts: List<(FeId, List<Change>)>,
}

// The participant with its changes once more.
fn copy_part(part: &(FeId, List<Change>)) -> Result<(FeId, List<Change>), Memory>
    ensures { IfOk result (λ other. other ≡ part.now) }
{
    let changes = part.1.copy()?;
    Ok((part.0, changes))
}

// The participants once more.
fn copy_parts(
    alloc: Global,
    parts: &[(FeId, List<Change>)],
) -> Result<List<(FeId, List<Change>)>, Memory>
    ensures { IfOk result (λ others. others ≡ parts.now) }
{
    let mut others = List::new(alloc);
    for part in parts {
        others.push(copy_part(part)?)?;
    }
    Ok(others)
}

impl Duplicate for PlanTxn {
    fn copy(&self) -> Result<Self, Memory> {
        let name = self.name.copy()?;
        let parts = copy_parts(self.parts.alloc(), self.parts.as_slice())?;
        Ok(PlanTxn {
            name,
            give_up: self.give_up,
            scoped: self.scoped,
            parts,
        })
    }
}

impl PlanTxn {
    /// Whether it is a plan: whether `plan` refuses nothing of it.
    pub fn makes_plan(&self) -> Result<bool, Memory>
        ensures { IfOk result (λ makes. makes ≡ spec.makes_plan self.now) }
    {
        if !self.scoped {
            return Ok(whole_fault(self.parts.as_slice()).is_none());
        }
        match self.plan() {
            Ok(_) => Ok(true),
            Err(PlanFault::Memory) => Err(Memory),
            Err(_) => Ok(false),
        }
    }

    /// The transaction as a control element begins it. The faults are those of [`TxnPlan::scoped`] where it has scopes, and else those
    /// of [`TxnPlan::of`].
    pub fn plan(&self) -> Result<TxnPlan, PlanFault>
        ensures refused { IfErr result (λ e. e ≢ fault.Memory → plan_fault (spec.begun self.now) ≡ Some e) }
        ensures accepted { OnOk result (plan_fault (spec.begun self.now) ≡ None) }
        ensures same { IfOk result (λ plan. plan ≡ spec.begun self.now) }
    {
        let parts = copy_parts(self.parts.alloc(), self.parts.as_slice())?;
        if self.scoped {
            TxnPlan::scoped(parts)
        } else {
            TxnPlan::of(parts)
        }
    }
}
