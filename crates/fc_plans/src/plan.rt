// Plans of transactions.
ghost use Rattle.std.specs.Prelude.{◌≡◌, ◌≢◌, ◌<◌, None, Some, IfOk, IfErr, OnOk, nat_lt, map};
ghost use Rattle.std.specs.List.{list_all};
ghost use Rattle.fc_plans.specs.Plans as spec;
ghost use Rattle.fc_plans.specs.Plans.{plan_fault};
ghost use Rattle.fc_plans.specs.declared.fault.PlanFault.TheVariants as fault;

use crate::change::Change;
use crate::fault::PlanFault;
use crate::scopes::scoped_parts;
use fc_base::{FeId, List, Memory};
use std::marker::Model;

/// The most changes of a participant.
pub const MOST_CHANGES: usize = 256;

/// A participant of a transaction, with its changes.
#[derive(Debug, Drop)]
pub struct Part {
    /// The participant.
    pub element: FeId,
    /// Its changes, in the order in which they are sent, each in one message.
    pub changes: List<Change>,
    /// What the transaction may change there: class and instance of each LFB instance, which rise; none stands for all of them.
    pub scope: List<(u32, u32)>,
}

/// A transaction over several elements, which contracts see as the list of its participants.
#[derive(Debug, Drop)]
pub struct TxnPlan {
    parts: List<Part>,
}

impl Model for TxnPlan {
    ghost use Rattle.std.specs.Prelude.{List, None, ◌≡◌};
    ghost use Rattle.std.specs.Coded.{codes};
    ghost use Rattle.fc_plans.specs.declared.plan.Part.{Part};
    ghost use Rattle.fc_plans.specs.contracts.plan.Part as contracts;
    ghost use Rattle.fc_plans.specs.Plans.{plan_fault};

    ghost Value = { List Part };

    ghost coded = { Prim.hlevel (codes, contracts.the_row.coded) };

    ghost view = { λ s. s.parts };

    ghost invariant = { λ s. plan_fault s.parts ≡ None };
}

fn is_rising(parts: &[Part]) -> bool
    ensures { result ≡ spec.is_rising parts.now }
{
    match parts {
        [] => true,
        [first, rest @ ..] => rises_after(first.element, rest),
    }
}

fn rises_after(element: FeId, parts: &[Part]) -> bool
    ensures { result ≡ spec.rises_after element parts.now }
{
    let mut last = element;
    for part in parts {
        if last >= part.element {
            return false;
        }
        last = part.element;
    }
    true
}

fn has_changes(part: &Part) -> bool
    ensures { result ≡ spec.has_changes part.now }
{
    let count = part.changes.len();
    1 <= count && count <= MOST_CHANGES
}

fn all_have_changes(parts: &[Part]) -> bool
    ensures { result ≡ list_all spec.has_changes parts.now }
{
    for part in parts {
        if !has_changes(part) {
            return false;
        }
    }
    true
}

// Why parts are no plan, but for their scopes.
fn fault_of(parts: &[Part]) -> Option<PlanFault>
    ensures { result ≡ spec.order_fault parts.now }
{
    if parts.is_empty() {
        return Some(PlanFault::Empty);
    }
    if !is_rising(parts) {
        return Some(PlanFault::Order);
    }
    if !all_have_changes(parts) {
        return Some(PlanFault::Changes);
    }
    None
}

// The parts of these participants with their changes, each of which may change everything.
fn whole_parts(parts: List<(FeId, List<Change>)>) -> Result<List<Part>, Memory>
    ensures { IfOk result (λ others. others ≡ map spec.whole parts) }
{
    let alloc = parts.alloc();
    let mut others = List::new(alloc);
    for (element, changes) in parts.into_vec() {
        others.push(Part {
            element,
            changes,
            scope: List::new(alloc),
        })?;
    }
    Ok(others)
}

fn whole_rise_after(element: FeId, parts: &[(FeId, List<Change>)]) -> bool
    ensures { result ≡ spec.rises_after element (map spec.whole parts.now) }
{
    match parts {
        [] => true,
        [first, rest @ ..] => element < first.0 && whole_rise_after(first.0, rest),
    }
}

fn whole_have_changes(parts: &[(FeId, List<Change>)]) -> bool
    ensures { result ≡ list_all spec.has_changes (map spec.whole parts.now) }
{
    match parts {
        [] => true,
        [first, rest @ ..] => {
            let count = first.1.len();
            1 <= count && count <= MOST_CHANGES && whole_have_changes(rest)
        }
    }
}

fn whole_rise(parts: &[(FeId, List<Change>)]) -> bool
    ensures { result ≡ spec.is_rising (map spec.whole parts.now) }
{
    match parts {
        [] => true,
        [first, rest @ ..] => whole_rise_after(first.0, rest),
    }
}

fn whole_order(parts: &[(FeId, List<Change>)]) -> Option<PlanFault>
    ensures { result ≡ spec.order_fault (map spec.whole parts.now) }
{
    if parts.is_empty() {
        return Some(PlanFault::Empty);
    }
    if !whole_rise(parts) {
        return Some(PlanFault::Order);
    }
    if !whole_have_changes(parts) {
        return Some(PlanFault::Changes);
    }
    None
}

/// Why these participants with their changes are no plan that may change everything at each of them: what [`TxnPlan::of`] tells of them.
pub fn whole_fault(parts: &[(FeId, List<Change>)]) -> Option<PlanFault>
    ensures { result ≡ plan_fault (map spec.whole parts.now) }
{
    whole_order(parts)
}

impl TxnPlan {
    /// The transaction of these participants with their changes, which may change everything at each of them. The faults are looked for in
    /// the order of [`PlanFault`].
    pub fn of(parts: List<(FeId, List<Change>)>) -> Result<TxnPlan, PlanFault>
        ensures refused { IfErr result (λ e. e ≢ fault.Memory → plan_fault (map spec.whole parts) ≡ Some e) }
        ensures accepted { OnOk result (plan_fault (map spec.whole parts) ≡ None) }
        ensures same { IfOk result (λ plan. plan ≡ map spec.whole parts) }
    {
        let parts = whole_parts(parts)?;
        match fault_of(parts.as_slice()) {
            Some(fault) => Err(fault),
            None => Ok(TxnPlan { parts }),
        }
    }

    /// The transaction of these participants with their changes, which may change at each of them the LFB instances that its changes name
    /// there and nothing else. The faults are looked for in the order of [`PlanFault`].
    pub fn scoped(parts: List<(FeId, List<Change>)>) -> Result<TxnPlan, PlanFault>
        ensures refused { IfErr result (λ e. e ≢ fault.Memory → plan_fault (map spec.scoped parts) ≡ Some e) }
        ensures accepted { OnOk result (plan_fault (map spec.scoped parts) ≡ None) }
        ensures same { IfOk result (λ plan. plan ≡ map spec.scoped parts) }
    {
        let parts = whole_parts(parts)?;
        match fault_of(parts.as_slice()) {
            Some(fault) => Err(fault),
            None => match scoped_parts(parts)? {
                None => Err(PlanFault::Changes),
                Some(parts) => Ok(TxnPlan { parts }),
            },
        }
    }

    /// The participants, by rising ID, each with its changes and its scope.
    pub fn parts(&self) -> &[Part]
        ensures same { result.now ≡ self.now }
        ensures whole { plan_fault self.now ≡ None }
    {
        self.parts.as_slice()
    }
}
