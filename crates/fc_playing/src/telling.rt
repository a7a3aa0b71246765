// What `world` writes.
ghost use Rattle.std.specs.Prelude.{◌≡◌, ◌≢◌, codes, IfOk, OnOk, OnErr, string_bytes};
ghost use Rattle.std.specs.Io.KnownBytes.{Appends};
ghost use Rattle.fc_base.specs.Content.{AppendsFront};
ghost use Rattle.fc_endings.specs.Stops.{SinkCount};
ghost use Rattle.fc_library.specs.Refusals.{refusal_text};
ghost use Rattle.fc_library.specs.declared.fault.LibFault.TheVariants as faults;
ghost use Rattle.fc_playing.specs.Playing as spec;
ghost use Rattle.fc_playing.specs.declared.end.PlayEnd.TheVariants.{Done, Refused};
ghost use Rattle.fc_world.specs.Played.{report_of};

use crate::end::PlayEnd;
use crate::playing::StepFault;
use fc_base::{Memory, Sink};
use fc_endings::{Stop, ending};
use fc_library::{LibFault, refusal};
use fc_world::{World, WorldFault};
use std::alloc::Global;

// Writes why a document means no script. After an `Err` a front of it was written.
pub(crate) fn refuse<K: Sink>(alloc: Global, fault: &LibFault, out: &mut K) -> Result<PlayEnd, Stop>
    requires { fault.now ≢ faults.Memory }
    ensures end { IfOk result (λ end. end ≡ Refused) }
    ensures ok { OnOk result (Appends (K.written out.old) (K.written out.new) (refusal_text (codes "script") fault.now)) }
    ensures err { OnErr result (AppendsFront (K.written out.old) (K.written out.new) (refusal_text (codes "script") fault.now)) }
    ensures unflushed { K.flushed out.new ≡ K.flushed out.old }
    ensures count { SinkCount result (K.faults out.old) (K.faults out.new) }
{
    match refusal(alloc, "script", fault) {
        Ok(line) => ending(PlayEnd::Refused, line.as_slice(), out),
        Err(_) => Err(Stop::NoMemory),
    }
}

// The word of a fault of a step.
fn fault_word(fault: WorldFault) -> &'static str
    ensures { result.now ≡ spec.fault_word fault }
{
    match fault {
        WorldFault::NoSuchName => "name",
        WorldFault::NoSuchMessage => "message",
        WorldFault::RoundUsed => "round",
        WorldFault::NotRunning => "notrunning",
        WorldFault::Running => "running",
        WorldFault::Memory => "memory",
    }
}

// The line of a step that can't be made.
#[tactic(auto, unfolding(crate::specs::Playing::fault_text))]
fn fault_line(alloc: Global, fault: StepFault) -> Result<String, Memory>
    ensures { IfOk result (λ line. string_bytes line ≡ spec.fault_text fault) }
{
    let word = fault_word(fault.fault);
    let place = fault.place;
    Ok(format!(in alloc; "refused script {word} {place}\n")?)
}

// Writes why a step can't be made. After an `Err` a front of it was written.
pub(crate) fn refuse_step<K: Sink>(
    alloc: Global,
    fault: StepFault,
    out: &mut K,
) -> Result<PlayEnd, Stop>
    ensures end { IfOk result (λ end. end ≡ Refused) }
    ensures ok { OnOk result (Appends (K.written out.old) (K.written out.new) (spec.fault_text fault)) }
    ensures err { OnErr result (AppendsFront (K.written out.old) (K.written out.new) (spec.fault_text fault)) }
    ensures unflushed { K.flushed out.new ≡ K.flushed out.old }
    ensures count { SinkCount result (K.faults out.old) (K.faults out.new) }
{
    match fault_line(alloc, fault) {
        Ok(line) => ending(PlayEnd::Refused, line.as_bytes(), out),
        Err(_) => Err(Stop::NoMemory),
    }
}

// Writes the report on a world. After an `Err` a front of it was written.
pub(crate) fn report<K: Sink>(alloc: Global, world: &World, out: &mut K) -> Result<PlayEnd, Stop>
    ensures end { IfOk result (λ end. end ≡ Done) }
    ensures ok { OnOk result (Appends (K.written out.old) (K.written out.new) (report_of world.now)) }
    ensures err { OnErr result (AppendsFront (K.written out.old) (K.written out.new) (report_of world.now)) }
    ensures unflushed { K.flushed out.new ≡ K.flushed out.old }
    ensures count { SinkCount result (K.faults out.old) (K.faults out.new) }
{
    let mut text = Vec::new(alloc);
    match world.report(&mut text) {
        Ok(()) => ending(PlayEnd::Done, text.as_slice(), out),
        Err(_) => Err(Stop::NoMemory),
    }
}
