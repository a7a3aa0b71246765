// A message of a peer.
ghost use Rattle.std.specs.Prelude.{◌≡◌, OnOk, IfErr};
ghost use Rattle.fc_peers.specs.Acting.{Acts, ActsUntil, HubCount};
ghost use Rattle.fc_control.specs.ControlNode.{comes, refused_setup, refusing};
ghost use Rattle.fc_control.specs.Controls.{control_of};

use crate::control::Control;
use fc_base::{CeId, FeId};
use fc_hub::Hub;
use fc_msg::{Message, MsgBody};
use fc_peers::{NodeStop, send};
use fc_wire::Flags;

// What says to a sender that it gets no association.
fn refusal_to(ce: CeId, message: &Message) -> Message
    ensures { result ≡ refused_setup ce message.now }
{
    Message {
        source: ce.get(),
        dest: message.source,
        corr: message.corr,
        flags: Flags {
            ack: 0,
            pri: 0,
            em: 0,
            at: false,
            tp: 0,
        },
        body: MsgBody::SetupResponse(1),
    }
}

impl Control {
    // A message of another sender than the element of its peer has come. After an `Err` nothing was done.
    fn refuse<H: Hub>(&self, hub: &mut H, peer: u32, message: &Message) -> Result<(), NodeStop>
        ensures acts { OnOk result (Acts (H.held hub.old) (H.held hub.new) (refusing (control_of self.now).ce peer message.now message.now.body)) }
        ensures err { IfErr result (λ stop. ActsUntil stop (H.held hub.old) (H.held hub.new) (refusing (control_of self.now).ce peer message.now message.now.body)) }
        ensures count { HubCount result (H.faults hub.old) (H.faults hub.new) }
    {
        match &message.body {
            MsgBody::Setup(_) => {
                let refusal = refusal_to(self.ce, message);
                send(self.alloc, hub, peer, &refusal)
            }
            MsgBody::SetupResponse(_) => Ok(()),
            MsgBody::Teardown(_) => Ok(()),
            MsgBody::Config(_) => Ok(()),
            MsgBody::ConfigResponse(_) => Ok(()),
            MsgBody::Query(_) => Ok(()),
            MsgBody::QueryResponse(_) => Ok(()),
            MsgBody::Event(_) => Ok(()),
            MsgBody::Heartbeat => Ok(()),
        }
    }

    // A message of the peer of this element has come. After an `Err` a front of the acts was done, and where the hub failed not all.
    pub(crate) fn hear<H: Hub>(
        &mut self,
        hub: &mut H,
        peer: u32,
        element: FeId,
        message: Message,
    ) -> Result<(), NodeStop>
        ensures ok { OnOk result (control_of self.new ≡ (comes peer element message (control_of self.old)).state) }
        ensures acts { OnOk result (Acts (H.held hub.old) (H.held hub.new) (comes peer element message (control_of self.old)).acts) }
        ensures err { IfErr result (λ stop. ActsUntil stop (H.held hub.old) (H.held hub.new) (comes peer element message (control_of self.old)).acts) }
        ensures count { HubCount result (H.faults hub.old) (H.faults hub.new) }
    {
        if message.source == element.get() {
            self.arrived(hub, element, message)
        } else {
            self.refuse(hub, peer, &message)
        }
    }
}
