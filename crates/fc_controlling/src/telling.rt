// What `control` writes.
ghost use Rattle.std.specs.Prelude.{◌≡◌, ◌≢◌, codes, IfOk, OnOk, OnErr, string_bytes};
ghost use Rattle.std.specs.Io.KnownBytes.{Appends};
ghost use Rattle.fc_base.specs.Content.{AppendsFront};
ghost use Rattle.fc_library.specs.Refusals.{refusal_text};
ghost use Rattle.fc_library.specs.declared.fault.LibFault.TheVariants as faults;
ghost use Rattle.fc_control.specs.Controls.{control_of};
ghost use Rattle.fc_control.specs.Reports.{report_of};
ghost use Rattle.fc_endings.specs.Stops.{SinkCount};
ghost use Rattle.fc_controlling.specs.ControlRun.{no_round_text};
ghost use Rattle.fc_controlling.specs.declared.asked.ControlEnd.TheVariants.{NoRound, Refused};

use crate::asked::ControlEnd;
use fc_base::{Memory, Sink};
use fc_control::Control;
use fc_endings::{Stop, ending};
use fc_library::{LibFault, refusal};
use std::alloc::Global;

// Writes why a document means no plan. After an `Err` a front of it was written.
pub(crate) fn refuse<K: Sink>(
    alloc: Global,
    fault: &LibFault,
    out: &mut K,
) -> Result<ControlEnd, Stop>
    requires { fault.now ≢ faults.Memory }
    ensures end { IfOk result (λ end. end ≡ Refused) }
    ensures ok { OnOk result (Appends (K.written out.old) (K.written out.new) (refusal_text (codes "plan") fault.now)) }
    ensures err { OnErr result (AppendsFront (K.written out.old) (K.written out.new) (refusal_text (codes "plan") fault.now)) }
    ensures unflushed { K.flushed out.new ≡ K.flushed out.old }
    ensures count { SinkCount result (K.faults out.old) (K.faults out.new) }
{
    match refusal(alloc, "plan", fault) {
        Ok(line) => ending(ControlEnd::Refused, line.as_slice(), out),
        Err(_) => Err(Stop::NoMemory),
    }
}

// The line of a number that is no round.
#[tactic(auto, unfolding(crate::specs::ControlRun::no_round_text))]
fn no_round_line(alloc: Global, round: u32) -> Result<String, Memory>
    ensures { IfOk result (λ line. string_bytes line ≡ no_round_text round) }
{
    Ok(format!(in alloc; "no round {round}\n")?)
}

// Writes that a number is no round. After an `Err` a front of it was written.
pub(crate) fn refuse_round<K: Sink>(
    alloc: Global,
    round: u32,
    out: &mut K,
) -> Result<ControlEnd, Stop>
    ensures end { IfOk result (λ end. end ≡ NoRound) }
    ensures ok { OnOk result (Appends (K.written out.old) (K.written out.new) (no_round_text round)) }
    ensures err { OnErr result (AppendsFront (K.written out.old) (K.written out.new) (no_round_text round)) }
    ensures unflushed { K.flushed out.new ≡ K.flushed out.old }
    ensures count { SinkCount result (K.faults out.old) (K.faults out.new) }
{
    match no_round_line(alloc, round) {
        Ok(line) => ending(ControlEnd::NoRound, line.as_bytes(), out),
        Err(_) => Err(Stop::NoMemory),
    }
}

// Writes the report on a control element that came to this end. After an `Err` a front of it was written.
pub(crate) fn report<K: Sink>(
    alloc: Global,
    end: ControlEnd,
    control: &Control,
    out: &mut K,
) -> Result<ControlEnd, Stop>
    ensures end { IfOk result (λ last. last ≡ end) }
    ensures ok { OnOk result (Appends (K.written out.old) (K.written out.new) (report_of (control_of control.now))) }
    ensures err { OnErr result (AppendsFront (K.written out.old) (K.written out.new) (report_of (control_of control.now))) }
    ensures unflushed { K.flushed out.new ≡ K.flushed out.old }
    ensures count { SinkCount result (K.faults out.old) (K.faults out.new) }
{
    let mut text = Vec::new(alloc);
    match control.report(&mut text) {
        Ok(()) => ending(end, text.as_slice(), out),
        Err(_) => Err(Stop::NoMemory),
    }
}
