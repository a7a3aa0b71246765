// What stays with one life of a control element.
ghost use Rattle.std.specs.Prelude.{◌≡◌, ◌-◌, slice_get, option_map};
ghost use Rattle.std.specs.Option.{option_copied};
ghost use Rattle.fc_asks.specs.Plans.{changes_of, changes_in, numbered, change_at, selects_of};
ghost use Rattle.fc_asks.specs.Tables.{found};

use fc_base::{CeId, Epoch, FeId, List, TxnId};
use fc_plans::{Change, Part, TxnPlan};
use std::alloc::Global;

/// What stays with one life of a control element, from its start to its stop, whatever it hears.
#[derive(Debug, Drop)]
pub struct Life {
    /// Its ID.
    pub ce: CeId,
    /// Its epoch.
    pub epoch: Epoch,
    /// The plans of the transactions that it has begun, in their order: the one at place n is that of the number n + 1.
    pub plans: List<TxnPlan>,
    /// The last plain change to each element that was sent one.
    pub plains: List<(FeId, Change)>,
    /// Where its messages find memory.
    pub alloc: Global,
}

// The changes of a participant.
fn changes_for(element: FeId, parts: &[Part]) -> &[Change]
    ensures { result.now ≡ changes_of element parts.now }
{
    for part in parts {
        if element == part.element {
            return part.changes.as_slice();
        }
    }
    &[]
}

// The last plain change to an element.
fn plain_for(element: FeId, plains: &[(FeId, Change)]) -> Option<&Change>
    ensures { option_copied result ≡ found element plains.now }
{
    for plain in plains {
        if element == plain.0 {
            return Some(&plain.1);
        }
    }
    None
}

impl Life {
    /// The change of this number, counted from 1, in an own transaction at an element; none where there is none.
    pub fn change(&self, txn: TxnId, element: FeId, number: u32) -> Option<&Change>
        ensures { selects_of (option_copied result) ≡ change_at self.now.plans txn element number }
    {
        let plan = self.plans.get((txn.number as usize).saturating_sub(1))?;
        let changes = changes_for(element, plan.parts());
        changes.get((number as usize).saturating_sub(1))
    }

    /// The last plain change to an element; none where it was sent none.
    pub fn plain(&self, element: FeId) -> Option<&Change>
        ensures { option_copied result ≡ found element self.now.plains }
    {
        plain_for(element, self.plains.as_slice())
    }
}
