// The calls of the master, and the acts that they make.
ghost use Rattle.std.specs.Prelude.{◌≡◌, is_none, OnOk, IfOk, IfErr};
ghost use Rattle.fc_master.specs.Refusals.{begin_told, forget_told, give_up_told};
ghost use Rattle.fc_peers.specs.Acting.{Acts, ActsUntil, HubCount};
ghost use Rattle.fc_control.specs.ControlNode.{begins_one, forgets_last, gives_up_one, may_forget as may_forget_it, refusal_of, sent, takes, tells_to_forget};
ghost use Rattle.fc_control.specs.Beginning.{Stops, begins_if};
ghost use Rattle.fc_control.specs.Controls.{control_of};

use crate::control::Control;
use crate::sending::send_all;
use fc_base::{List, TxnId};
use fc_hub::Hub;
use fc_master::{BeginFault, CeIn, CeOut, ForgetFault, GiveUpFault, TxnPlan};
use fc_peers::NodeStop;

// Whether memory was wanting.
fn begin_lacks(fault: &BeginFault) -> bool
    ensures { result ≡ is_none (begin_told fault.now) }
{
    match fault {
        BeginFault::Memory => true,
        BeginFault::Deposed { .. } => false,
        BeginFault::TooMany { .. } => false,
        BeginFault::Stranger { .. } => false,
        BeginFault::NotReady { .. } => false,
        BeginFault::Busy { .. } => false,
        BeginFault::Spent => false,
    }
}

fn give_up_lacks(fault: &GiveUpFault) -> bool
    ensures { result ≡ is_none (give_up_told fault.now) }
{
    match fault {
        GiveUpFault::Memory => true,
        GiveUpFault::Deposed { .. } => false,
        GiveUpFault::Unknown => false,
        GiveUpFault::Decided { .. } => false,
    }
}

fn forget_lacks(fault: &ForgetFault) -> bool
    ensures { result ≡ is_none (forget_told fault.now) }
{
    match fault {
        ForgetFault::Memory => true,
        ForgetFault::Deposed { .. } => false,
        ForgetFault::NotReady { .. } => false,
        ForgetFault::Busy { .. } => false,
        ForgetFault::Unsettled { .. } => false,
        ForgetFault::Spent => false,
    }
}

impl Control {
    // Sends what the master gave, each message to the peer of its element. After an `Err` a front of them was sent, and where the hub failed
    // not all.
    fn send<H: Hub>(&self, hub: &mut H, outs: List<CeOut>) -> Result<(), NodeStop>
        ensures ok { OnOk result (Acts (H.held hub.old) (H.held hub.new) (sent (control_of self.now).elements outs)) }
        ensures err { IfErr result (λ stop. ActsUntil stop (H.held hub.old) (H.held hub.new) (sent (control_of self.now).elements outs)) }
        ensures count { HubCount result (H.faults hub.old) (H.faults hub.new) }
    {
        send_all(self.alloc, hub, self.elements(), outs.as_slice())
    }

    // Gives an input to the master. After an `Err` a front of the acts was done, and where the hub failed not all.
    pub(crate) fn take<H: Hub>(&mut self, hub: &mut H, input: CeIn) -> Result<(), NodeStop>
        ensures ok { OnOk result (control_of self.new ≡ (takes input (control_of self.old)).state) }
        ensures acts { OnOk result (Acts (H.held hub.old) (H.held hub.new) (takes input (control_of self.old)).acts) }
        ensures err { IfErr result (λ stop. ActsUntil stop (H.held hub.old) (H.held hub.new) (takes input (control_of self.old)).acts) }
        ensures count { HubCount result (H.faults hub.old) (H.faults hub.new) }
    {
        match self.master.step(input) {
            Ok(outs) => self.send(hub, outs),
            Err(_) => Err(NodeStop::NoMemory),
        }
    }

    // Gives a transaction up, unless the master refuses that. After an `Err` a front of the acts was done, and where the hub failed not all.
    pub(crate) fn give_up<H: Hub>(&mut self, hub: &mut H, txn: TxnId) -> Result<(), NodeStop>
        ensures ok { OnOk result (control_of self.new ≡ (gives_up_one txn (control_of self.old)).state) }
        ensures acts { OnOk result (Acts (H.held hub.old) (H.held hub.new) (gives_up_one txn (control_of self.old)).acts) }
        ensures err { IfErr result (λ stop. ActsUntil stop (H.held hub.old) (H.held hub.new) (gives_up_one txn (control_of self.old)).acts) }
        ensures count { HubCount result (H.faults hub.old) (H.faults hub.new) }
    {
        let fault = match self.master.give_up(txn) {
            Ok(outs) => return self.send(hub, outs),
            Err(fault) => fault,
        };
        if give_up_lacks(&fault) {
            return Err(NodeStop::NoMemory);
        }
        Ok(())
    }

    // Begins a transaction, and says whether the master did not refuse it. After an `Err` a front of the acts was done, and where the hub
    // failed not all.
    pub(crate) fn begin<H: Hub>(&mut self, hub: &mut H, plan: TxnPlan) -> Result<bool, NodeStop>
        ensures begun { IfOk result (λ begun. begun ≡ is_none (refusal_of plan (control_of self.old))) }
        ensures ok { IfOk result (λ begun. control_of self.new ≡ (begins_if begun plan (control_of self.old)).state) }
        ensures acts { IfOk result (λ begun. Acts (H.held hub.old) (H.held hub.new) (begins_if begun plan (control_of self.old)).acts) }
        ensures err { IfErr result (λ stop. Stops stop (H.held hub.old) (H.held hub.new) (refusal_of plan (control_of self.old)) (begins_one plan (control_of self.old)).acts) }
        ensures count { HubCount result (H.faults hub.old) (H.faults hub.new) }
    {
        let fault = match self.master.begin(plan) {
            Ok((txn, outs)) => {
                match self.begun.push(txn) {
                    Ok(()) => {}
                    Err(_) => return Err(NodeStop::NoMemory),
                }
                match self.send(hub, outs) {
                    Ok(()) => return Ok(true),
                    Err(stop) => return Err(stop),
                }
            }
            Err(fault) => fault,
        };
        if begin_lacks(&fault) {
            return Err(NodeStop::NoMemory);
        }
        Ok(false)
    }

    // Whether there is a plan, all of it is begun, and the elements were not told to forget yet.
    fn may_forget(&self) -> bool
        ensures { result ≡ may_forget_it (control_of self.now) }
    {
        let transactions = self.transactions().len();
        transactions >= 1 && self.begun.len() >= transactions && !self.forgot
    }

    // Tells the elements to forget, unless the master refuses that. After an `Err` a front of the acts was done, and where the hub failed
    // not all.
    fn tell_to_forget<H: Hub>(&mut self, hub: &mut H) -> Result<(), NodeStop>
        ensures ok { OnOk result (control_of self.new ≡ (tells_to_forget (control_of self.old)).state) }
        ensures acts { OnOk result (Acts (H.held hub.old) (H.held hub.new) (tells_to_forget (control_of self.old)).acts) }
        ensures err { IfErr result (λ stop. ActsUntil stop (H.held hub.old) (H.held hub.new) (tells_to_forget (control_of self.old)).acts) }
        ensures count { HubCount result (H.faults hub.old) (H.faults hub.new) }
    {
        let fault = match self.master.forget() {
            Ok(outs) => {
                self.forgot = true;
                return self.send(hub, outs);
            }
            Err(fault) => fault,
        };
        if forget_lacks(&fault) {
            return Err(NodeStop::NoMemory);
        }
        Ok(())
    }

    // Tells the elements to forget, once all of the plan is begun. After an `Err` a front of the acts was done, and where the hub failed not
    // all.
    pub(crate) fn forget<H: Hub>(&mut self, hub: &mut H) -> Result<(), NodeStop>
        ensures ok { OnOk result (control_of self.new ≡ (forgets_last (control_of self.old)).state) }
        ensures acts { OnOk result (Acts (H.held hub.old) (H.held hub.new) (forgets_last (control_of self.old)).acts) }
        ensures err { IfErr result (λ stop. ActsUntil stop (H.held hub.old) (H.held hub.new) (forgets_last (control_of self.old)).acts) }
        ensures count { HubCount result (H.faults hub.old) (H.faults hub.new) }
    {
        if self.may_forget() {
            self.tell_to_forget(hub)
        } else {
            Ok(())
        }
    }
}
