// A control element behind a hub.
ghost use Rattle.std.specs.Prelude.{◌≡◌, [], IfOk, OnOk, IfErr};
ghost use Rattle.std.specs.FinMap.{insert};
ghost use Rattle.fc_peers.specs.Acting.{Acts, ActsUntil, HubCount};
ghost use Rattle.fc_peers.specs.declared.acting.NodeStop.TheVariants.{NoMemory};
ghost use Rattle.fc_control.specs.ControlNode.{element_of as element_of_it, first_node, has_ended as has_ended_it, node, node_step, on_bytes, on_event, on_opened};
ghost use Rattle.fc_control.specs.Controls.{node_of};

use crate::control::Control;
use crate::delivery::deliver;
use fc_base::{CeId, Epoch, Memory};
use fc_documents::Plan;
use fc_hub::{Hub, HubEvent};
use fc_msg::Splitter;
use fc_peers::{NodeStop, Peers};
use std::alloc::Global;

/// A control element with its plan, and the peers that are open.
#[derive(Drop)]
pub struct ControlNode {
    pub(crate) control: Control,
    pub(crate) peers: Peers,
}

impl ControlNode {
    /// The node of a life of this control element, of this epoch, with this plan. The k-th element of the plan is the peer k.
    pub fn new(alloc: Global, ce: CeId, epoch: Epoch, plan: Plan) -> Result<ControlNode, Memory>
        ensures node { IfOk result (λ n. node_of n ≡ first_node ce n.control.master.life plan.elements plan.transactions) }
        ensures ce { IfOk result (λ n. n.control.master.life.ce ≡ ce) }
        ensures epoch { IfOk result (λ n. n.control.master.life.epoch ≡ epoch) }
        ensures plans { IfOk result (λ n. n.control.master.life.plans ≡ []) }
        ensures plains { IfOk result (λ n. n.control.master.life.plains ≡ []) }
    {
        Ok(ControlNode {
            control: Control::new(alloc, ce, epoch, plan)?,
            peers: Peers::new(alloc),
        })
    }

    /// The control element.
    pub fn control(&self) -> &Control
        ensures { result.now ≡ self.now.control }
    {
        &self.control
    }

    /// Whether it has ended: an answer has held a greater epoch. It takes no events then.
    pub fn has_ended(&self) -> bool
        ensures { result ≡ has_ended_it (node_of self.now).control }
    {
        self.control.has_ended()
    }

    /// Takes an event, and does its acts. After an `Err` a front of them was done, and where the hub failed not all.
    pub fn take<H: Hub>(&mut self, hub: &mut H, event: HubEvent) -> Result<(), NodeStop>
        ensures ok { OnOk result (node_of self.new ≡ (node_step (node_of self.old) event).state) }
        ensures acts { OnOk result (Acts (H.held hub.old) (H.held hub.new) (node_step (node_of self.old) event).acts) }
        ensures err { IfErr result (λ stop. ActsUntil stop (H.held hub.old) (H.held hub.new) (node_step (node_of self.old) event).acts) }
        ensures count { HubCount result (H.faults hub.old) (H.faults hub.new) }
    {
        if self.control.has_ended() {
            return Ok(());
        }
        self.on_event(hub, event)
    }

    // Takes an event, before it has ended.
    fn on_event<H: Hub>(&mut self, hub: &mut H, event: HubEvent) -> Result<(), NodeStop>
        ensures ok { OnOk result (node_of self.new ≡ (on_event event (node_of self.old)).state) }
        ensures acts { OnOk result (Acts (H.held hub.old) (H.held hub.new) (on_event event (node_of self.old)).acts) }
        ensures err { IfErr result (λ stop. ActsUntil stop (H.held hub.old) (H.held hub.new) (on_event event (node_of self.old)).acts) }
        ensures count { HubCount result (H.faults hub.old) (H.faults hub.new) }
    {
        match event {
            HubEvent::Opened(peer) => self.opened(peer),
            HubEvent::Bytes(peer, piece) => self.bytes(hub, peer, piece.as_slice()),
            HubEvent::Closed(peer) => {
                self.peers.close(peer);
                Ok(())
            }
            HubEvent::Moment(now) => self.control.passed(hub, now),
            HubEvent::Over => Ok(()),
        }
    }

    // A peer was opened.
    fn opened(&mut self, peer: u32) -> Result<(), NodeStop>
        ensures ok { OnOk result (node_of self.new ≡ (on_opened (element_of_it (node_of self.old).control.elements peer) peer (node_of self.old)).state) }
        ensures acts { (on_opened (element_of_it (node_of self.old).control.elements peer) peer (node_of self.old)).acts ≡ [] }
        ensures err { IfErr result (λ stop. stop ≡ NoMemory) }
    {
        match self.control.element_of(peer) {
            None => Ok(()),
            Some(_) => self.begin_anew(peer),
        }
    }

    // Of a peer nothing came yet.
    fn begin_anew(&mut self, peer: u32) -> Result<(), NodeStop>
        ensures ok { OnOk result (node_of self.new ≡ node (node_of self.old).control (insert (node_of self.old).peers peer [])) }
        ensures err { IfErr result (λ stop. stop ≡ NoMemory) }
    {
        match self.peers.open(self.control.alloc, peer) {
            Ok(()) => Ok(()),
            Err(_) => Err(NodeStop::NoMemory),
        }
    }

    // Bytes came from a peer.
    fn bytes<H: Hub>(&mut self, hub: &mut H, peer: u32, piece: &[u8]) -> Result<(), NodeStop>
        ensures ok { OnOk result (node_of self.new ≡ (on_bytes peer piece.now (node_of self.old)).state) }
        ensures acts { OnOk result (Acts (H.held hub.old) (H.held hub.new) (on_bytes peer piece.now (node_of self.old)).acts) }
        ensures err { IfErr result (λ stop. ActsUntil stop (H.held hub.old) (H.held hub.new) (on_bytes peer piece.now (node_of self.old)).acts) }
        ensures count { HubCount result (H.faults hub.old) (H.faults hub.new) }
    {
        let Some(element) = self.control.element_of(peer) else {
            return Ok(());
        };
        let Some(mut splitter) = self.peers.put(peer, Splitter::new(self.control.alloc)) else {
            return Ok(());
        };
        match splitter.feed(piece) {
            Ok(()) => {}
            Err(_) => return Err(NodeStop::NoMemory),
        }
        match deliver(hub, &mut self.control, peer, element, &mut splitter) {
            Ok(true) => {
                self.peers.put(peer, splitter);
                Ok(())
            }
            Ok(false) => {
                self.peers.close(peer);
                Ok(())
            }
            Err(stop) => Err(stop),
        }
    }
}
