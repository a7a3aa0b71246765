// A control element with its plan.
ghost use Rattle.std.specs.Prelude.{◌≡◌, ◌≤◌, length};
ghost use Rattle.fc_control.specs.ControlNode.{element_of as element_of_it};
ghost use Rattle.fc_control.specs.Controls.{control_of};

use crate::elements::element_of;
use fc_base::{CeId, FeId, List, TxnId};
use fc_documents::{Plan, PlanTxn};
use fc_master::Master;
use std::alloc::Global;

/// One life of a control element, with the plan that it carries out.
#[derive(Debug, Drop)]
pub struct Control {
    pub(crate) master: Master,
    // Its ID.
    pub(crate) ce: CeId,
    pub(crate) plan: Plan,
    // The first transactions of the plan, as they were begun.
    pub(crate) begun: List<TxnId>,
    // Whether the elements were told to forget.
    pub(crate) forgot: bool,
    pub(crate) alloc: Global,
}

impl Control {
    // The elements, in the order of the plan: the k-th of them is the peer k.
    pub(crate) fn elements(&self) -> &[FeId]
        ensures same { result.now ≡ (control_of self.now).elements }
        ensures few { length result.now ≤ 255 }
    {
        self.plan.elements()
    }

    // The transactions of the plan.
    pub(crate) fn transactions(&self) -> &[PlanTxn]
        ensures { result.now ≡ (control_of self.now).plan }
    {
        self.plan.transactions()
    }

    // The element of a peer, if it is the peer of one.
    pub(crate) fn element_of(&self, peer: u32) -> Option<FeId>
        ensures { result ≡ element_of_it (control_of self.now).elements peer }
    {
        element_of(self.elements(), peer)
    }
}
