// The command `world`.
ghost use Rattle.std.specs.Prelude.{◌≡◌};
ghost use Rattle.fc_base.specs.Causes.{Rose};
ghost use Rattle.fc_endings.specs.Endings.{EndCount};
ghost use Rattle.fc_endings.specs.Limits.{most_bytes};
ghost use Rattle.fc_endings.specs.Stops.{FlushedAt, SinkCount};
ghost use Rattle.fc_playing.specs.WorldRun.{DocumentEnds, PlayEnds, SettingEnds, is_unread};
ghost use Rattle.fc_world.specs.Played.{begins_with, setting_of};

use crate::end::PlayEnd;
use crate::playing::play;
use crate::telling::{refuse, refuse_step, report};
use fc_base::{Sink, Source};
use fc_endings::{Look, Stop, finished, look_over};
use fc_library::LibFault;
use fc_rounds::{clean_rounds_complete, headline};
use fc_scripts::{Script, script_from_slice};
use fc_world::World;
use std::alloc::Global;
use std::mem;

/// Plays the script that the input means, writes the report on what it comes to, and flushes it. Where the input means no script, or a step
/// can't be made, the line of that is written alone. The memory of the world is not given back: the program ends behind it.
pub fn world<S: Source, K: Sink>(alloc: Global, input: &mut S, out: &mut K) -> Result<PlayEnd, Stop>
    ensures ends { PlayEnds most_bytes (Rose (S.faults input.old) (S.faults input.new)) result (S.left input.old) (S.left input.new) (K.written out.old) (K.written out.new) }
    ensures flushed { FlushedAt result (K.written out.new) (K.flushed out.old) (K.flushed out.new) }
    ensures source { EndCount is_unread result (S.faults input.old) (S.faults input.new) }
    ensures sink { SinkCount result (K.faults out.old) (K.faults out.new) }
{
    match world_ends(alloc, input, out) {
        Ok(end) => finished(end, out),
        Err(stop) => Err(stop),
    }
}

// Reads the script, and plays it.
fn world_ends<S: Source, K: Sink>(
    alloc: Global,
    input: &mut S,
    out: &mut K,
) -> Result<PlayEnd, Stop>
    ensures ends { PlayEnds most_bytes (Rose (S.faults input.old) (S.faults input.new)) result (S.left input.old) (S.left input.new) (K.written out.old) (K.written out.new) }
    ensures unflushed { K.flushed out.new ≡ K.flushed out.old }
    ensures source { EndCount is_unread result (S.faults input.old) (S.faults input.new) }
    ensures sink { SinkCount result (K.faults out.old) (K.faults out.new) }
{
    let mut held = Vec::new(alloc);
    match look_over(input, &mut held) {
        Ok(Look::Whole) => declared_world(alloc, held.as_slice(), out),
        Ok(Look::TooLong) => Ok(PlayEnd::TooLong),
        Ok(Look::ReadFault) => Ok(PlayEnd::ReadFault),
        Err(_) => Err(Stop::NoMemory),
    }
}

// Plays the script that a document means. Else it writes why it means none.
fn declared_world<K: Sink>(alloc: Global, document: &[u8], out: &mut K) -> Result<PlayEnd, Stop>
    ensures ends { DocumentEnds document.now result (K.written out.old) (K.written out.new) }
    ensures unflushed { K.flushed out.new ≡ K.flushed out.old }
    ensures sink { SinkCount result (K.faults out.old) (K.faults out.new) }
{
    match script_from_slice(alloc, document) {
        Ok(script) => scripted_world(alloc, &script, out),
        Err(LibFault::Memory) => Err(Stop::NoMemory),
        Err(fault) => refuse(alloc, &fault, out),
    }
}

// Makes the steps of a script in its world, and writes the report. Where a step can't be made it writes why.
fn played_world<K: Sink>(
    alloc: Global,
    script: &Script,
    world: &mut World,
    out: &mut K,
) -> Result<PlayEnd, Stop>
    requires { world.old ≡ begins_with (setting_of script.now) }
    ensures ends { SettingEnds (setting_of script.now) script.now.steps result (K.written out.old) (K.written out.new) }
    ensures unflushed { K.flushed out.new ≡ K.flushed out.old }
    ensures sink { SinkCount result (K.faults out.old) (K.faults out.new) }
{
    world.keeps();
    match play(world, script.steps()) {
        Ok(None) => {
            // What is promised of every network is so at each of its steps; and where all of a clean round is delivered, it completes.
            headline(world);
            clean_rounds_complete();
            report(alloc, world, out)
        }
        Ok(Some(fault)) => {
            headline(world);
            refuse_step(alloc, fault, out)
        }
        Err(_) => Err(Stop::NoMemory),
    }
}

// Plays a script in a new world, which is then left as it is: nothing comes behind a run but the end of the program, and to take a world of
// many messages apart takes time.
fn scripted_world<K: Sink>(alloc: Global, script: &Script, out: &mut K) -> Result<PlayEnd, Stop>
    ensures ends { SettingEnds (setting_of script.now) script.now.steps result (K.written out.old) (K.written out.new) }
    ensures unflushed { K.flushed out.new ≡ K.flushed out.old }
    ensures sink { SinkCount result (K.faults out.old) (K.faults out.new) }
{
    let Ok(mut world) = World::new(alloc, script) else {
        return Err(Stop::NoMemory);
    };
    let end = played_world(alloc, script, &mut world, out);
    mem::forget(world);
    end
}
