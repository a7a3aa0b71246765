// A node over the events of its hub.
ghost use Rattle.std.specs.Prelude.{◌≡◌, ◌↔◌, IsTrue};
ghost use Rattle.fc_hub.specs.declared.event.HubEvent.TheVariants.{Over};
ghost use Rattle.fc_peers.specs.Acting.{HubCount};
ghost use Rattle.fc_serving.specs.Serving.{ServeEnds};

use crate::node::Node;
use fc_base::Trouble;
use fc_hub::{Hub, HubEvent};
use fc_peers::NodeStop;

/// How a node ended that did not stop.
#[derive(Clone, Copy, Debug, PartialEq, Eq)]
pub enum Served {
    /// The hub has no more events.
    Over,
    /// So many events were taken as were to be taken.
    Turns,
}

/// Takes events of the hub, at most so many, and does the acts of each before it takes the next.
pub fn serve<H: Hub>(node: &mut Node, hub: &mut H, turns: u32) -> Result<Served, NodeStop>
    ensures ends { ServeEnds result turns node.old node.new (H.held hub.old) (H.held hub.new) }
    ensures count { HubCount result (H.faults hub.old) (H.faults hub.new) }
{
    'turns: for _ in 0..turns {
        let event = match hub.next() {
            Ok(event) => event,
            Err(Trouble::Failed) => return Err(NodeStop::HubFault),
            Err(Trouble::Memory) => return Err(NodeStop::NoMemory),
        };
        if is_over(&event) {
            return Ok(Served::Over);
        }
        match node.take(hub, event) {
            Ok(()) => {}
            Err(stop) => return Err(stop),
        }
    }
    Ok(Served::Turns)
}

// Whether the hub has no more events.
fn is_over(event: &HubEvent) -> bool
    ensures { IsTrue result ↔ (event.now ≡ Over) }
{
    matches!(event, HubEvent::Over)
}
