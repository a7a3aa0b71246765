// What follows an input of the master.
ghost use Rattle.std.specs.Prelude.{◌≡◌, OnOk, IfErr};
ghost use Rattle.fc_master.specs.declared.input.CeIn.TheVariants.{Moment};
ghost use Rattle.fc_peers.specs.Acting.{Acts, ActsUntil, HubCount};
ghost use Rattle.fc_control.specs.ControlNode.{and_then, arrives, begins_next, gives_up_all, gives_up_come, goes_on, passes, takes};
ghost use Rattle.fc_control.specs.Controls.{control_of};

use crate::control::Control;
use fc_base::{FeId, TxnId};
use fc_hub::Hub;
use fc_master::CeIn;
use fc_msg::Message;
use fc_peers::NodeStop;

impl Control {
    // Begins the next transactions of the plan, until one is refused. After an `Err` a front of the acts was done, and where the hub failed
    // not all.
    fn begin_next<H: Hub>(&mut self, hub: &mut H) -> Result<(), NodeStop>
        ensures ok { OnOk result (control_of self.new ≡ (begins_next (control_of self.old)).state) }
        ensures acts { OnOk result (Acts (H.held hub.old) (H.held hub.new) (begins_next (control_of self.old)).acts) }
        ensures err { IfErr result (λ stop. ActsUntil stop (H.held hub.old) (H.held hub.new) (begins_next (control_of self.old)).acts) }
        ensures count { HubCount result (H.faults hub.old) (H.faults hub.new) }
    {
        'plans: loop {
            let plan = match self.next_plan() {
                Ok(Some(plan)) => plan,
                Ok(None) => return Ok(()),
                Err(_) => return Err(NodeStop::NoMemory),
            };
            match self.begin(hub, plan) {
                Ok(true) => {}
                Ok(false) => return Ok(()),
                Err(stop) => return Err(stop),
            }
        }
    }

    // Gives these transactions up, unless the master refuses that. After an `Err` a front of the acts was done, and where the hub failed
    // not all.
    fn give_up_all<H: Hub>(&mut self, hub: &mut H, txns: &[TxnId]) -> Result<(), NodeStop>
        ensures ok { OnOk result (control_of self.new ≡ (gives_up_all txns.now (control_of self.old)).state) }
        ensures acts { OnOk result (Acts (H.held hub.old) (H.held hub.new) (gives_up_all txns.now (control_of self.old)).acts) }
        ensures err { IfErr result (λ stop. ActsUntil stop (H.held hub.old) (H.held hub.new) (gives_up_all txns.now (control_of self.old)).acts) }
        ensures count { HubCount result (H.faults hub.old) (H.faults hub.new) }
    {
        for txn in txns {
            match self.give_up(hub, *txn) {
                Ok(()) => {}
                Err(stop) => return Err(stop),
            }
        }
        Ok(())
    }

    // Gives up what is begun and undecided and whose moment has come.
    fn give_up_come<H: Hub>(&mut self, hub: &mut H, now: u64) -> Result<(), NodeStop>
        ensures ok { OnOk result (control_of self.new ≡ (gives_up_come now (control_of self.old)).state) }
        ensures acts { OnOk result (Acts (H.held hub.old) (H.held hub.new) (gives_up_come now (control_of self.old)).acts) }
        ensures err { IfErr result (λ stop. ActsUntil stop (H.held hub.old) (H.held hub.new) (gives_up_come now (control_of self.old)).acts) }
        ensures count { HubCount result (H.faults hub.old) (H.faults hub.new) }
    {
        match self.come(now) {
            Ok(txns) => self.give_up_all(hub, txns.as_slice()),
            Err(_) => Err(NodeStop::NoMemory),
        }
    }

    // After an input of the master: begins what can be begun of the plan, and tells the elements to forget once all of it is begun.
    fn go_on<H: Hub>(&mut self, hub: &mut H) -> Result<(), NodeStop>
        ensures ok { OnOk result (control_of self.new ≡ (goes_on (control_of self.old)).state) }
        ensures acts { OnOk result (Acts (H.held hub.old) (H.held hub.new) (goes_on (control_of self.old)).acts) }
        ensures err { IfErr result (λ stop. ActsUntil stop (H.held hub.old) (H.held hub.new) (goes_on (control_of self.old)).acts) }
        ensures count { HubCount result (H.faults hub.old) (H.faults hub.new) }
    {
        match self.begin_next(hub) {
            Ok(()) => self.forget(hub),
            Err(stop) => Err(stop),
        }
    }

    // A message of an element has come.
    pub(crate) fn arrived<H: Hub>(
        &mut self,
        hub: &mut H,
        element: FeId,
        message: Message,
    ) -> Result<(), NodeStop>
        ensures ok { OnOk result (control_of self.new ≡ (arrives element message (control_of self.old)).state) }
        ensures acts { OnOk result (Acts (H.held hub.old) (H.held hub.new) (arrives element message (control_of self.old)).acts) }
        ensures err { IfErr result (λ stop. ActsUntil stop (H.held hub.old) (H.held hub.new) (arrives element message (control_of self.old)).acts) }
        ensures count { HubCount result (H.faults hub.old) (H.faults hub.new) }
    {
        match self.take(hub, CeIn::Arrived(element, message)) {
            Ok(()) => self.go_on(hub),
            Err(stop) => Err(stop),
        }
    }

    // It is this moment: what is begun and undecided is given up where its moment has come.
    fn pass<H: Hub>(&mut self, hub: &mut H, now: u64) -> Result<(), NodeStop>
        ensures ok { OnOk result (control_of self.new ≡ (and_then (takes (Moment now) (control_of self.old)) (gives_up_come now)).state) }
        ensures acts { OnOk result (Acts (H.held hub.old) (H.held hub.new) (and_then (takes (Moment now) (control_of self.old)) (gives_up_come now)).acts) }
        ensures err { IfErr result (λ stop. ActsUntil stop (H.held hub.old) (H.held hub.new) (and_then (takes (Moment now) (control_of self.old)) (gives_up_come now)).acts) }
        ensures count { HubCount result (H.faults hub.old) (H.faults hub.new) }
    {
        match self.take(hub, CeIn::Moment(now)) {
            Ok(()) => self.give_up_come(hub, now),
            Err(stop) => Err(stop),
        }
    }

    // It is this moment.
    pub(crate) fn passed<H: Hub>(&mut self, hub: &mut H, now: u64) -> Result<(), NodeStop>
        ensures ok { OnOk result (control_of self.new ≡ (passes now (control_of self.old)).state) }
        ensures acts { OnOk result (Acts (H.held hub.old) (H.held hub.new) (passes now (control_of self.old)).acts) }
        ensures err { IfErr result (λ stop. ActsUntil stop (H.held hub.old) (H.held hub.new) (passes now (control_of self.old)).acts) }
        ensures count { HubCount result (H.faults hub.old) (H.faults hub.new) }
    {
        match self.pass(hub, now) {
            Ok(()) => self.go_on(hub),
            Err(stop) => Err(stop),
        }
    }
}
