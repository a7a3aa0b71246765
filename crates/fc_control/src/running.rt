// The node of a control element over the events of its hub.
ghost use Rattle.std.specs.Prelude.{◌≡◌, ◌↔◌, IsTrue, false};
ghost use Rattle.fc_hub.specs.declared.event.HubEvent.TheVariants.{Over};
ghost use Rattle.fc_peers.specs.Acting.{HubCount};
ghost use Rattle.fc_control.specs.ControlNode.{has_ended};
ghost use Rattle.fc_control.specs.Controls.{node_of};
ghost use Rattle.fc_control.specs.Serving.{ServeEnds};

use crate::node::ControlNode;
use fc_base::Trouble;
use fc_hub::{Hub, HubEvent};
use fc_peers::NodeStop;

/// How a node ended that did not stop.
#[derive(Clone, Copy, Debug, PartialEq, Eq)]
pub enum Served {
    /// The hub has no more events.
    Over,
    /// An answer has held a greater epoch.
    Deposed,
    /// So many events were taken as were to be taken.
    Turns,
}

/// Takes events of the hub, at most so many, and does the acts of each before it takes the next. The event that deposes the control
/// element is the last.
pub fn serve<H: Hub>(node: &mut ControlNode, hub: &mut H, turns: u32) -> Result<Served, NodeStop>
    requires { has_ended (node_of node.old).control ≡ false }
    ensures ends { ServeEnds result turns (node_of node.old) (node_of node.new) (H.held hub.old) (H.held hub.new) }
    ensures count { HubCount result (H.faults hub.old) (H.faults hub.new) }
{
    'turns: for _ in 0..turns {
        let event = match hub.next() {
            Ok(event) => event,
            Err(Trouble::Failed) => return Err(NodeStop::HubFault),
            Err(Trouble::Memory) => return Err(NodeStop::NoMemory),
        };
        if is_over(&event) {
            return Ok(Served::Over);
        }
        match node.take(hub, event) {
            Ok(()) => {}
            Err(stop) => return Err(stop),
        }
        if node.has_ended() {
            return Ok(Served::Deposed);
        }
    }
    Ok(Served::Turns)
}

// Whether the hub has no more events.
fn is_over(event: &HubEvent) -> bool
    ensures { IsTrue result ↔ (event.now ≡ Over) }
{
    matches!(event, HubEvent::Over)
}
