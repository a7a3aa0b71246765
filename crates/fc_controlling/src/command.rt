// The command `control`.
ghost use Rattle.std.specs.Prelude.{◌≡◌, ◌<◌, ◌≤◌, ◌+◌, ◌-◌, ◌^◌, Ok};
ghost use Rattle.fc_endings.specs.Endings.{EndCount};
ghost use Rattle.fc_endings.specs.Limits.{most_bytes};
ghost use Rattle.fc_endings.specs.Stops.{FlushedAt, SinkCount};
ghost use Rattle.fc_controlling.specs.ControlRun.{ControlEnds, MeantEnds, is_ungiven, is_unread, is_unserved};
ghost use Rattle.fc_controlling.specs.Meanings.{plan_for};

use crate::asked::{Asked, ControlEnd};
use crate::judging::plan_for;
use crate::running::run;
use crate::telling::{refuse, refuse_round};
use fc_base::{Epoch, Sink, Source, Trouble};
use fc_documents::Plan;
use fc_endings::{Look, Stop, finished, look_over};
use fc_hub::{Hub, Rounds};
use fc_library::LibFault;
use std::alloc::Global;

/// Runs a life of a control element over the events of the hub, at most so many, writes its report, and flushes it. The plan is the input,
/// and the life has the next round, which is asked for once the plan was read.
pub fn control<S: Source, K: Sink, H: Hub, R: Rounds>(
    alloc: Global,
    asked: &Asked,
    input: &mut S,
    out: &mut K,
    hub: &mut H,
    rounds: &mut R,
) -> Result<ControlEnd, Stop>
    requires few { (R.given rounds.old).count < 2 ^ 64 - 1 }
    ensures ends { ControlEnds most_bytes asked.now (S.faults input.old, S.faults input.new) (H.faults hub.old, H.faults hub.new) (R.faults rounds.old, R.faults rounds.new) result (S.left input.old) (S.left input.new) (R.given rounds.old) (R.given rounds.new) (H.held hub.old) (H.held hub.new) (K.written out.old) (K.written out.new) }
    ensures flushed { FlushedAt result (K.written out.new) (K.flushed out.old) (K.flushed out.new) }
    ensures source { EndCount is_unread result (S.faults input.old) (S.faults input.new) }
    ensures rounds { EndCount is_ungiven result (R.faults rounds.old) (R.faults rounds.new) }
    ensures one { (R.given rounds.new).count ≤ (R.given rounds.old).count + 1 }
    ensures hub { EndCount is_unserved result (H.faults hub.old) (H.faults hub.new) }
    ensures sink { SinkCount result (K.faults out.old) (K.faults out.new) }
{
    match control_ends(alloc, asked, input, out, hub, rounds) {
        Ok(end) => finished(end, out),
        Err(stop) => Err(stop),
    }
}

// Reads the plan of the control element, and runs it.
fn control_ends<S: Source, K: Sink, H: Hub, R: Rounds>(
    alloc: Global,
    asked: &Asked,
    input: &mut S,
    out: &mut K,
    hub: &mut H,
    rounds: &mut R,
) -> Result<ControlEnd, Stop>
    requires few { (R.given rounds.old).count < 2 ^ 64 - 1 }
    ensures ends { ControlEnds most_bytes asked.now (S.faults input.old, S.faults input.new) (H.faults hub.old, H.faults hub.new) (R.faults rounds.old, R.faults rounds.new) result (S.left input.old) (S.left input.new) (R.given rounds.old) (R.given rounds.new) (H.held hub.old) (H.held hub.new) (K.written out.old) (K.written out.new) }
    ensures unflushed { K.flushed out.new ≡ K.flushed out.old }
    ensures source { EndCount is_unread result (S.faults input.old) (S.faults input.new) }
    ensures rounds { EndCount is_ungiven result (R.faults rounds.old) (R.faults rounds.new) }
    ensures one { (R.given rounds.new).count ≤ (R.given rounds.old).count + 1 }
    ensures hub { EndCount is_unserved result (H.faults hub.old) (H.faults hub.new) }
    ensures sink { SinkCount result (K.faults out.old) (K.faults out.new) }
{
    let mut held = Vec::new(alloc);
    match look_over(input, &mut held) {
        Ok(Look::Whole) => declared_control(alloc, asked, held.as_slice(), out, hub, rounds),
        Ok(Look::TooLong) => Ok(ControlEnd::TooLong),
        Ok(Look::ReadFault) => Ok(ControlEnd::ReadFault),
        Err(_) => Err(Stop::NoMemory),
    }
}

// Runs the control element, if its document means a plan. Else it writes why it means none.
fn declared_control<K: Sink, H: Hub, R: Rounds>(
    alloc: Global,
    asked: &Asked,
    document: &[u8],
    out: &mut K,
    hub: &mut H,
    rounds: &mut R,
) -> Result<ControlEnd, Stop>
    requires few { (R.given rounds.old).count < 2 ^ 64 - 1 }
    ensures ends { MeantEnds asked.now (plan_for asked.now.addresses document.now) (H.faults hub.old, H.faults hub.new) (R.faults rounds.old, R.faults rounds.new) result (R.given rounds.old) (R.given rounds.new) (H.held hub.old) (H.held hub.new) (K.written out.old) (K.written out.new) }
    ensures unflushed { K.flushed out.new ≡ K.flushed out.old }
    ensures rounds { EndCount is_ungiven result (R.faults rounds.old) (R.faults rounds.new) }
    ensures one { (R.given rounds.new).count ≤ (R.given rounds.old).count + 1 }
    ensures hub { EndCount is_unserved result (H.faults hub.old) (H.faults hub.new) }
    ensures sink { SinkCount result (K.faults out.old) (K.faults out.new) }
{
    match plan_for(alloc, asked.addresses, document) {
        Ok(plan) => planned_control(alloc, asked, plan, out, hub, rounds),
        Err(LibFault::Memory) => Err(Stop::NoMemory),
        Err(fault) => refuse(alloc, &fault, out),
    }
}

// Runs the control element with its plan, if it is given a round. Else it writes which number is none.
fn planned_control<K: Sink, H: Hub, R: Rounds>(
    alloc: Global,
    asked: &Asked,
    plan: Plan,
    out: &mut K,
    hub: &mut H,
    rounds: &mut R,
) -> Result<ControlEnd, Stop>
    requires few { (R.given rounds.old).count < 2 ^ 64 - 1 }
    ensures ends { MeantEnds asked.now (Ok plan) (H.faults hub.old, H.faults hub.new) (R.faults rounds.old, R.faults rounds.new) result (R.given rounds.old) (R.given rounds.new) (H.held hub.old) (H.held hub.new) (K.written out.old) (K.written out.new) }
    ensures unflushed { K.flushed out.new ≡ K.flushed out.old }
    ensures rounds { EndCount is_ungiven result (R.faults rounds.old) (R.faults rounds.new) }
    ensures one { (R.given rounds.new).count ≤ (R.given rounds.old).count + 1 }
    ensures hub { EndCount is_unserved result (H.faults hub.old) (H.faults hub.new) }
    ensures sink { SinkCount result (K.faults out.old) (K.faults out.new) }
{
    let round = match rounds.next() {
        Ok(round) => round,
        Err(Trouble::Failed) => return Ok(ControlEnd::RoundsFault),
        Err(Trouble::Memory) => return Err(Stop::NoMemory),
    };
    match Epoch::of(round, asked.ce) {
        Some(epoch) => run(alloc, asked, epoch, plan, out, hub),
        None => refuse_round(alloc, round, out),
    }
}
