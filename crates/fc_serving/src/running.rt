// An element over the events of its hub.
ghost use Rattle.std.specs.Prelude.{◌≡◌, true};
ghost use Rattle.std.specs.List.{list_all};
ghost use Rattle.fc_endings.specs.Endings.{EndCount};
ghost use Rattle.fc_endings.specs.Stops.{SinkCount};
ghost use Rattle.fc_types.specs.Libraries.{AreKnown, is_own};
ghost use Rattle.fc_serving.specs.ElementNode.{first_node};
ghost use Rattle.fc_serving.specs.ElementRun.{RunEnds, end_by, is_unserved};

use crate::end::ElementEnd;
use crate::node::Node;
use crate::serve::{Served, serve};
use crate::telling::report;
use fc_base::{CeId, FeId, Sink};
use fc_endings::Stop;
use fc_hub::Hub;
use fc_peers::NodeStop;
use fc_types::{Instances, Library};
use std::alloc::Global;

// How an element ended whose node did so.
fn ended(served: Served) -> ElementEnd
    ensures { result ≡ end_by served }
{
    match served {
        Served::Over => ElementEnd::Done,
        Served::Turns => ElementEnd::Turns,
    }
}

// Runs the element over the events of the hub, and writes its report.
pub(crate) fn run_element<K: Sink, H: Hub>(
    alloc: Global,
    fe: FeId,
    ce: CeId,
    library: Library,
    instances: Instances,
    turns: u32,
    out: &mut K,
    hub: &mut H,
) -> Result<ElementEnd, Stop>
    requires absent { list_all is_own library ≡ true }
    requires known { AreKnown library instances }
    ensures ends { RunEnds (first_node fe ce library instances) turns (H.faults hub.old, H.faults hub.new) result (H.held hub.old) (H.held hub.new) (K.written out.old) (K.written out.new) }
    ensures unflushed { K.flushed out.new ≡ K.flushed out.old }
    ensures hub { EndCount is_unserved result (H.faults hub.old) (H.faults hub.new) }
    ensures sink { SinkCount result (K.faults out.old) (K.faults out.new) }
{
    let Ok(mut node) = Node::new(alloc, fe, ce, library, instances) else {
        return Err(Stop::NoMemory);
    };
    match serve(&mut node, hub, turns) {
        Ok(served) => report(alloc, ended(served), node.element(), out),
        Err(NodeStop::HubFault) => Ok(ElementEnd::HubFault),
        Err(NodeStop::NoMemory) => Err(Stop::NoMemory),
    }
}
