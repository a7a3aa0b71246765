// A control element over the events of its hub.
ghost use Rattle.std.specs.Prelude.{◌≡◌, IfOk};
ghost use Rattle.fc_control.specs.ControlNode.{first_node};
ghost use Rattle.fc_control.specs.Controls.{control_of, node_of};
ghost use Rattle.fc_endings.specs.Endings.{EndCount};
ghost use Rattle.fc_endings.specs.Stops.{SinkCount};
ghost use Rattle.fc_controlling.specs.ControlRun.{RunEnds, end_by, if_done, is_unserved};
ghost use Rattle.fc_controlling.specs.Meanings.{first_life};

use crate::asked::{Asked, ControlEnd};
use crate::telling::report;
use fc_base::{CeId, Epoch, Memory, Sink};
use fc_control::{Control, ControlNode, NodeStop, Served, serve};
use fc_documents::Plan;
use fc_endings::Stop;
use fc_hub::Hub;
use std::alloc::Global;

// The node that begins with a plan.
fn begin(alloc: Global, ce: CeId, epoch: Epoch, plan: Plan) -> Result<ControlNode, Memory>
    ensures { IfOk result (λ n. node_of n ≡ first_node ce (first_life ce epoch) plan.elements plan.transactions) }
{
    ControlNode::new(alloc, ce, epoch, plan)
}

// How a control element ended whose node did so.
fn ended(control: &Control, served: Served) -> ControlEnd
    ensures { result ≡ end_by served (control_of control.now) }
{
    match served {
        Served::Over => over(control.is_done()),
        Served::Deposed => ControlEnd::Deposed,
        Served::Turns => ControlEnd::Turns,
    }
}

// How one ended that was not deposed and whose hub has no more events.
fn over(is_done: bool) -> ControlEnd
    ensures { result ≡ if_done is_done }
{
    if is_done {
        ControlEnd::Done
    } else {
        ControlEnd::Unfinished
    }
}

// Runs a life of a control element over the events of the hub, and writes its report.
pub(crate) fn run<K: Sink, H: Hub>(
    alloc: Global,
    asked: &Asked,
    epoch: Epoch,
    plan: Plan,
    out: &mut K,
    hub: &mut H,
) -> Result<ControlEnd, Stop>
    ensures ends { RunEnds (first_node asked.now.ce (first_life asked.now.ce epoch) plan.elements plan.transactions) asked.now.turns (H.faults hub.old, H.faults hub.new) result (H.held hub.old) (H.held hub.new) (K.written out.old) (K.written out.new) }
    ensures unflushed { K.flushed out.new ≡ K.flushed out.old }
    ensures hub { EndCount is_unserved result (H.faults hub.old) (H.faults hub.new) }
    ensures sink { SinkCount result (K.faults out.old) (K.faults out.new) }
{
    let Ok(mut node) = begin(alloc, asked.ce, epoch, plan) else {
        return Err(Stop::NoMemory);
    };
    match serve(&mut node, hub, asked.turns) {
        Ok(served) => {
            let control = node.control();
            report(alloc, ended(control, served), control, out)
        }
        Err(NodeStop::HubFault) => Ok(ControlEnd::HubFault),
        Err(NodeStop::NoMemory) => Err(Stop::NoMemory),
    }
}
