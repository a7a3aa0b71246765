// The command `element`.
ghost use Rattle.std.specs.Prelude.{◌≡◌};
ghost use Rattle.fc_endings.specs.Endings.{EndCount};
ghost use Rattle.fc_endings.specs.Limits.{most_bytes};
ghost use Rattle.fc_endings.specs.Stops.{FlushedAt, SinkCount};
ghost use Rattle.fc_serving.specs.ElementRun.{DocumentEnds, ElementEnds, is_unread, is_unserved};

use crate::end::ElementEnd;
use crate::running::run_element;
use crate::telling::refuse;
use fc_base::{CeId, FeId, Sink, Source};
use fc_endings::{Look, Stop, finished, look_over};
use fc_hub::Hub;
use fc_library::{LibFault, library_from_slice};
use std::alloc::Global;

/// Runs a forwarding element over the events of the hub, at most so many, writes its report, and flushes it.
pub fn element<S: Source, K: Sink, H: Hub>(
    alloc: Global,
    fe: FeId,
    ce: CeId,
    turns: u32,
    input: &mut S,
    out: &mut K,
    hub: &mut H,
) -> Result<ElementEnd, Stop>
    ensures ends { ElementEnds most_bytes fe ce turns (S.faults input.old, S.faults input.new) (H.faults hub.old, H.faults hub.new) result (S.left input.old) (S.left input.new) (H.held hub.old) (H.held hub.new) (K.written out.old) (K.written out.new) }
    ensures flushed { FlushedAt result (K.written out.new) (K.flushed out.old) (K.flushed out.new) }
    ensures source { EndCount is_unread result (S.faults input.old) (S.faults input.new) }
    ensures hub { EndCount is_unserved result (H.faults hub.old) (H.faults hub.new) }
    ensures sink { SinkCount result (K.faults out.old) (K.faults out.new) }
{
    match element_ends(alloc, fe, ce, turns, input, out, hub) {
        Ok(end) => finished(end, out),
        Err(stop) => Err(stop),
    }
}

// Reads the library of the element, and runs it.
fn element_ends<S: Source, K: Sink, H: Hub>(
    alloc: Global,
    fe: FeId,
    ce: CeId,
    turns: u32,
    input: &mut S,
    out: &mut K,
    hub: &mut H,
) -> Result<ElementEnd, Stop>
    ensures ends { ElementEnds most_bytes fe ce turns (S.faults input.old, S.faults input.new) (H.faults hub.old, H.faults hub.new) result (S.left input.old) (S.left input.new) (H.held hub.old) (H.held hub.new) (K.written out.old) (K.written out.new) }
    ensures unflushed { K.flushed out.new ≡ K.flushed out.old }
    ensures source { EndCount is_unread result (S.faults input.old) (S.faults input.new) }
    ensures hub { EndCount is_unserved result (H.faults hub.old) (H.faults hub.new) }
    ensures sink { SinkCount result (K.faults out.old) (K.faults out.new) }
{
    let mut held = Vec::new(alloc);
    match look_over(input, &mut held) {
        Ok(Look::Whole) => declared_element(alloc, fe, ce, turns, held.as_slice(), out, hub),
        Ok(Look::TooLong) => Ok(ElementEnd::TooLong),
        Ok(Look::ReadFault) => Ok(ElementEnd::ReadFault),
        Err(_) => Err(Stop::NoMemory),
    }
}

// Runs the element, if its document means a library. Else it writes why it means none.
fn declared_element<K: Sink, H: Hub>(
    alloc: Global,
    fe: FeId,
    ce: CeId,
    turns: u32,
    document: &[u8],
    out: &mut K,
    hub: &mut H,
) -> Result<ElementEnd, Stop>
    ensures ends { DocumentEnds fe ce turns document.now (H.faults hub.old, H.faults hub.new) result (H.held hub.old) (H.held hub.new) (K.written out.old) (K.written out.new) }
    ensures unflushed { K.flushed out.new ≡ K.flushed out.old }
    ensures hub { EndCount is_unserved result (H.faults hub.old) (H.faults hub.new) }
    ensures sink { SinkCount result (K.faults out.old) (K.faults out.new) }
{
    match library_from_slice(alloc, document) {
        Ok((library, instances)) => {
            run_element(alloc, fe, ce, library, instances, turns, out, hub)
        }
        Err(LibFault::Memory) => Err(Stop::NoMemory),
        Err(fault) => refuse(alloc, &fault, out),
    }
}
