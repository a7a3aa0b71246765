// The frames of a peer as messages of its element.
ghost use Rattle.std.specs.Prelude.{◌≡◌, IfOk, IfErr, OnOk};
ghost use Rattle.fc_peers.specs.Acting.{Acts, ActsUntil, HubCount};
ghost use Rattle.fc_peers.specs.Streams.{frames, rest};
ghost use Rattle.fc_control.specs.ControlNode.{hears};
ghost use Rattle.fc_control.specs.Controls.{control_of};
ghost use Rattle.fc_control.specs.Leaving.{left_of};

use crate::control::Control;
use fc_base::FeId;
use fc_hub::Hub;
use fc_msg::Splitter;
use fc_peers::{Next, NodeStop, next_message, shut};

// Hears each whole frame of a peer as a message, with what it makes sent before the next, and says whether the peer stays open: the first
// frame that is no message shuts it. Nothing is heard behind the message that ends the control element. After an `Err` a front of the acts
// was done, and where the hub failed not all.
pub(crate) fn deliver<H: Hub>(
    hub: &mut H,
    control: &mut Control,
    peer: u32,
    element: FeId,
    splitter: &mut Splitter,
) -> Result<bool, NodeStop>
    ensures left { IfOk result (λ stays. left_of stays splitter.new ≡ (hears peer element (frames splitter.old) (rest splitter.old) (control_of control.old)).left) }
    ensures control { OnOk result (control_of control.new ≡ (hears peer element (frames splitter.old) (rest splitter.old) (control_of control.old)).state) }
    ensures acts { OnOk result (Acts (H.held hub.old) (H.held hub.new) (hears peer element (frames splitter.old) (rest splitter.old) (control_of control.old)).acts) }
    ensures err { IfErr result (λ stop. ActsUntil stop (H.held hub.old) (H.held hub.new) (hears peer element (frames splitter.old) (rest splitter.old) (control_of control.old)).acts) }
    ensures count { HubCount result (H.faults hub.old) (H.faults hub.new) }
{
    'frames: loop {
        match next_message(control.alloc, splitter) {
            Ok(Next::Nothing) => return Ok(true),
            Ok(Next::Arrived(message)) => {
                match control.hear(hub, peer, element, message) {
                    Ok(()) => {}
                    Err(stop) => return Err(stop),
                }
                if control.has_ended() {
                    *splitter = Splitter::new(control.alloc);
                    return Ok(true);
                }
            }
            Ok(Next::NoMessage) => match shut(hub, peer) {
                Ok(()) => return Ok(false),
                Err(stop) => return Err(stop),
            },
            Err(_) => return Err(NodeStop::NoMemory),
        }
    }
}
