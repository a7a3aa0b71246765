// What stays with a world from its first step to its last.
ghost use Rattle.std.specs.Prelude.{◌≡◌, true, map, IfOk, OnOk};
ghost use Rattle.std.specs.List.{AllByRecursion, list_all};
ghost use Rattle.fc_base.specs.Ids.{IsCe};
ghost use Rattle.fc_documents.specs.Parts.{makes_plan};
ghost use Rattle.fc_plans.specs.Plans.{whole};
ghost use Rattle.fc_numbering.specs.Numbering.{AreInstances};
ghost use Rattle.fc_wellformed.specs.WellFormed.{TxnHolds};
ghost use Rattle.fc_world.specs.Played.{setting_of};
ghost use Rattle.fc_world.specs.Settings.{FitsWords, IsNetwork, IsPlanned};

use crate::numbers::word;
use fc_base::{CeId, Duplicate, FeId, List, Memory};
use fc_documents::PlanTxn;
use fc_plans::{Change, Part};
use fc_scripts::Script;
use fc_types::{Instances, Library};
use std::alloc::Global;

/// A script but for its steps.
#[derive(Debug, Drop)]
pub struct Setting {
    pub library: Library,
    pub instances: Instances,
    pub elements: List<(FeId, CeId)>,
    pub controllers: List<CeId>,
    pub transactions: List<PlanTxn>,
}

// Transactions once more.
fn copy_all(alloc: Global, transactions: &[PlanTxn]) -> Result<List<PlanTxn>, Memory>
    ensures { IfOk result (λ others. others ≡ transactions.now) }
{
    let mut others = List::new(alloc);
    for transaction in transactions {
        others.push(transaction.copy()?)?;
    }
    Ok(others)
}

// Both numbers of each LFB instance fit in 32 bits.
fn instances_fit(scope: &[(u32, u32)])
    ensures { AreInstances scope.now }
{
    match scope {
        [] => {}
        [first, rest @ ..] => {
            let _class = word(first.0);
            let _instance = word(first.1);
            instances_fit(rest);
        }
    }
}

// Each participant has an ID of an element, and the numbers of its scope fit in 32 bits.
fn parts_fit(parts: &[Part])
    ensures { AllByRecursion FitsWords parts.now }
{
    match parts {
        [] => {}
        [first, rest @ ..] => {
            let _number = first.element.get();
            instances_fit(first.scope.as_slice());
            parts_fit(rest);
        }
    }
}

// The same of participants at which everything may be changed.
fn whole_parts_fit(parts: &[(FeId, List<Change>)])
    ensures { AllByRecursion FitsWords (map whole parts.now) }
{
    match parts {
        [] => {}
        [first, rest @ ..] => {
            let _number = first.0.get();
            whole_parts_fit(rest);
        }
    }
}

// A control element can begin the transaction, in numbers that fit.
fn is_planned(transaction: &PlanTxn) -> Result<(), Memory>
    requires makes { makes_plan transaction.now ≡ true }
    requires holds { TxnHolds transaction.now }
    ensures { OnOk result (IsPlanned transaction.now) }
{
    if !transaction.scoped {
        whole_parts_fit(transaction.parts.as_slice());
        return Ok(());
    }
    match transaction.plan() {
        Ok(plan) => {
            parts_fit(plan.parts());
            Ok(())
        }
        Err(_) => Err(Memory),
    }
}

// Each of them can be begun.
fn are_planned(transactions: &[PlanTxn]) -> Result<(), Memory>
    requires make { list_all makes_plan transactions.now ≡ true }
    requires hold { AllByRecursion TxnHolds transactions.now }
    ensures { OnOk result (AllByRecursion IsPlanned transactions.now) }
{
    match transactions {
        [] => Ok(()),
        [first, rest @ ..] => {
            is_planned(first)?;
            are_planned(rest)
        }
    }
}

// Each control element has an ID of one.
fn are_controls(controllers: &[CeId])
    ensures { AllByRecursion IsCe controllers.now }
{
    match controllers {
        [] => {}
        [first, rest @ ..] => {
            let _number = first.get();
            are_controls(rest);
        }
    }
}

// The setting of a script once more.
fn copy_of(alloc: Global, script: &Script) -> Result<Setting, Memory>
    ensures { IfOk result (λ setting. setting ≡ setting_of script.now) }
{
    Ok(Setting {
        library: script.library().copy()?,
        instances: script.instances().copy()?,
        elements: List::from_slice(alloc, script.elements())?,
        controllers: List::from_slice(alloc, script.controllers())?,
        transactions: copy_all(alloc, script.transactions())?,
    })
}

/// The setting of a script, which makes a network.
pub fn setting_of(alloc: Global, script: &Script) -> Result<Setting, Memory>
    ensures same { IfOk result (λ setting. setting ≡ setting_of script.now) }
    ensures network { IfOk result IsNetwork }
{
    are_controls(script.controllers());
    are_planned(script.transactions())?;
    copy_of(alloc, script)
}
