// A control element that begins.
ghost use Rattle.std.specs.Prelude.{◌≡◌, [], IfOk};
ghost use Rattle.fc_control.specs.ControlNode.{first_control, has_ended as has_ended_it};
ghost use Rattle.fc_control.specs.Controls.{control_of};

use crate::control::Control;
use fc_base::{CeId, Epoch, List, Memory};
use fc_documents::Plan;
use fc_master::Master;
use std::alloc::Global;

impl Control {
    // A life of this control element, of this epoch, with this plan, of which nothing is begun yet.
    pub(crate) fn new(alloc: Global, ce: CeId, epoch: Epoch, plan: Plan) -> Result<Control, Memory>
        ensures control { IfOk result (λ c. control_of c ≡ first_control ce c.master.life plan.elements plan.transactions) }
        ensures ce { IfOk result (λ c. c.master.life.ce ≡ ce) }
        ensures epoch { IfOk result (λ c. c.master.life.epoch ≡ epoch) }
        ensures plans { IfOk result (λ c. c.master.life.plans ≡ []) }
        ensures plains { IfOk result (λ c. c.master.life.plains ≡ []) }
    {
        let master = Master::new(alloc, ce, plan.elements(), epoch)?;
        Ok(Control {
            master,
            ce,
            plan,
            begun: List::new(alloc),
            forgot: false,
            alloc,
        })
    }

    /// The master.
    pub fn master(&self) -> &Master
        ensures { result.now ≡ self.now.master }
    {
        &self.master
    }

    /// Whether it has ended: an answer has held a greater epoch.
    pub fn has_ended(&self) -> bool
        ensures { result ≡ has_ended_it (control_of self.now) }
    {
        self.master.deposed().is_some()
    }
}
