// What a control element sends, on its hub.
ghost use Rattle.std.specs.Prelude.{◌≤◌, length, OnOk, IfErr};
ghost use Rattle.fc_peers.specs.Acting.{Acts, ActsUntil, HubCount};
ghost use Rattle.fc_control.specs.ControlNode.{sent};

use crate::elements::peer_of;
use fc_base::FeId;
use fc_hub::Hub;
use fc_master::CeOut;
use fc_peers::{NodeStop, send};
use std::alloc::Global;

// Sends messages in their order, each to the peer of its element. After an `Err` a front of them was sent, and where the hub failed not
// all.
pub(crate) fn send_all<H: Hub>(
    alloc: Global,
    hub: &mut H,
    elements: &[FeId],
    outs: &[CeOut],
) -> Result<(), NodeStop>
    requires { length elements.now ≤ 255 }
    ensures ok { OnOk result (Acts (H.held hub.old) (H.held hub.new) (sent elements.now outs.now)) }
    ensures err { IfErr result (λ stop. ActsUntil stop (H.held hub.old) (H.held hub.new) (sent elements.now outs.now)) }
    ensures count { HubCount result (H.faults hub.old) (H.faults hub.new) }
{
    for out in outs {
        let peer = peer_of(out.to, elements);
        match send(alloc, hub, peer, &out.message) {
            Ok(()) => {}
            Err(stop) => return Err(stop),
        }
    }
    Ok(())
}
