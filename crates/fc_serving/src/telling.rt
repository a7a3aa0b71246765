// What `element` writes.
ghost use Rattle.std.specs.Prelude.{◌≡◌, ◌≢◌, codes, IfOk, OnOk, OnErr};
ghost use Rattle.std.specs.Io.KnownBytes.{Appends};
ghost use Rattle.fc_base.specs.Content.{AppendsFront};
ghost use Rattle.fc_element.specs.Reports.{report_of};
ghost use Rattle.fc_endings.specs.Stops.{SinkCount};
ghost use Rattle.fc_library.specs.Refusals.{refusal_text};
ghost use Rattle.fc_library.specs.declared.fault.LibFault.TheVariants as faults;
ghost use Rattle.fc_serving.specs.declared.end.ElementEnd.TheVariants.{Refused};

use crate::end::ElementEnd;
use fc_base::Sink;
use fc_element::Element;
use fc_endings::{Stop, ending};
use fc_library::{LibFault, refusal};
use std::alloc::Global;

// Writes why a document means no library. After an `Err` a front of it was written.
pub(crate) fn refuse<K: Sink>(
    alloc: Global,
    fault: &LibFault,
    out: &mut K,
) -> Result<ElementEnd, Stop>
    requires { fault.now ≢ faults.Memory }
    ensures end { IfOk result (λ end. end ≡ Refused) }
    ensures ok { OnOk result (Appends (K.written out.old) (K.written out.new) (refusal_text (codes "library") fault.now)) }
    ensures err { OnErr result (AppendsFront (K.written out.old) (K.written out.new) (refusal_text (codes "library") fault.now)) }
    ensures unflushed { K.flushed out.new ≡ K.flushed out.old }
    ensures count { SinkCount result (K.faults out.old) (K.faults out.new) }
{
    match refusal(alloc, "library", fault) {
        Ok(line) => ending(ElementEnd::Refused, line.as_slice(), out),
        Err(_) => Err(Stop::NoMemory),
    }
}

// Writes the report on an element that came to this end. After an `Err` a front of it was written.
pub(crate) fn report<K: Sink>(
    alloc: Global,
    end: ElementEnd,
    element: &Element,
    out: &mut K,
) -> Result<ElementEnd, Stop>
    ensures end { IfOk result (λ last. last ≡ end) }
    ensures ok { OnOk result (Appends (K.written out.old) (K.written out.new) (report_of element.now)) }
    ensures err { OnErr result (AppendsFront (K.written out.old) (K.written out.new) (report_of element.now)) }
    ensures unflushed { K.flushed out.new ≡ K.flushed out.old }
    ensures count { SinkCount result (K.faults out.old) (K.faults out.new) }
{
    let mut text = Vec::new(alloc);
    match element.report(&mut text) {
        Ok(()) => ending(end, text.as_slice(), out),
        Err(_) => Err(Stop::NoMemory),
    }
}
