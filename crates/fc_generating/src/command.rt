// The command `gen`.
ghost use Rattle.std.specs.Prelude.{◌≡◌, ◌≤◌, IfOk};
ghost use Rattle.fc_endings.specs.Stops.{FlushedAt, SinkCount};
ghost use Rattle.fc_generating.specs.Runs.{GenEnds, TextEnds, told};
ghost use Rattle.fc_generating.specs.Summaries as spec;
ghost use Rattle.fc_world.specs.Played.{world_of};

use crate::summary::summary;
use crate::trying::{Run, played};
use fc_base::{Memory, Sink};
use fc_endings::{Stop, finish, put};
use fc_generated::generated;
use std::alloc::Global;
use std::mem;

// What is written of a run that was made. Nothing comes behind a run but the end of the program, and to take a world of many messages apart takes time.
fn text_of(alloc: Global, count: u32, run: Run) -> Result<Vec<u8>, Memory>
    requires { count ≤ 1000 }
    ensures { IfOk result (λ text. text.items ≡ spec.summary count (world_of run.world)) }
{
    let text = summary(alloc, count, &run);
    mem::forget(run);
    text
}

// What is written of a run of so many transactions.
fn told(alloc: Global, count: u32) -> Result<Vec<u8>, Memory>
    requires { count ≤ 1000 }
    ensures { IfOk result (λ text. text.items ≡ told count) }
{
    let script = generated(alloc, count)?;
    let run = played(alloc, script)?;
    text_of(alloc, count, run)
}

// Writes all of a text, and flushes it.
fn write<K: Sink>(text: &[u8], out: &mut K) -> Result<(), Stop>
    ensures ends { TextEnds text.now result (K.written out.old) (K.written out.new) }
    ensures flushed { FlushedAt result (K.written out.new) (K.flushed out.old) (K.flushed out.new) }
    ensures sink { SinkCount result (K.faults out.old) (K.faults out.new) }
{
    put(out, text)?;
    finish(out)
}

/// Makes a run of so many transactions, at most 1,000, writes its summary, and flushes it. After an `Err` memory was wanting, or the sink has failed and a
/// front of the summary was written. The memory of a run is not given back: the program ends behind it.
pub fn generate<K: Sink>(alloc: Global, count: u32, out: &mut K) -> Result<(), Stop>
    requires { count ≤ 1000 }
    ensures ends { GenEnds count result (K.written out.old) (K.written out.new) }
    ensures flushed { FlushedAt result (K.written out.new) (K.flushed out.old) (K.flushed out.new) }
    ensures sink { SinkCount result (K.faults out.old) (K.faults out.new) }
{
    match told(alloc, count) {
        Ok(text) => write(text.as_slice(), out),
        Err(_) => Err(Stop::NoMemory),
    }
}
