// Reads frames and writes the text of each.
ghost use Rattle.std.specs.Prelude.{◌≡◌, ◌≢◌, ◌≤◌, ◌<◌, ◌^◌, ◌++◌, ◌+◌, ◌-◌, is_ok, if◌then◌else◌, None, length, IfOk};
ghost use Rattle.fc_wire.specs.Frames.{IsPartial};
ghost use Rattle.fc_endings.specs.Endings.{EndCount};
ghost use Rattle.fc_endings.specs.Limits.{most_bytes};
ghost use Rattle.fc_tool.specs.Show.{PieceEnds, RestEnds, ShowEnds, is_unread};
ghost use Rattle.fc_endings.specs.Stops.{FlushedAt, SinkCount};

use crate::frames::push_frames;
use crate::line::refusal_line;
use fc_base::{Memory, Sink, Source, Trouble};
use fc_endings::{LIMIT, READS, Stop, finished, next_piece, put};
use fc_msg::{Refusal, Splitter, headed};
use std::alloc::Global;

/// How `show` ended, where all was written.
#[derive(Clone, Copy, Debug, PartialEq, Eq)]
pub enum Shown {
    /// The input is messages, and no more.
    Done,
    /// The input can't be read.
    ReadFault,
    /// A frame is no message, or the input ends within a frame.
    Refused,
    /// The input is longer than is looked at.
    TooLong,
}

/// Shows the frames of the input, and flushes what it wrote.
pub fn show<S: Source, K: Sink>(alloc: Global, input: &mut S, out: &mut K) -> Result<Shown, Stop>
    ensures ends { ShowEnds most_bytes result (S.left input.old) (S.left input.new) (K.written out.old) (K.written out.new) }
    ensures flushed { FlushedAt result (K.written out.new) (K.flushed out.old) (K.flushed out.new) }
    ensures source { EndCount is_unread result (S.faults input.old) (S.faults input.new) }
    ensures sink { SinkCount result (K.faults out.old) (K.faults out.new) }
{
    match show_all(alloc, input, out) {
        Ok(shown) => finished(shown, out),
        Err(stop) => Err(stop),
    }
}

// Shows all frames up to the end of the input.
fn show_all<S: Source, K: Sink>(alloc: Global, input: &mut S, out: &mut K) -> Result<Shown, Stop>
    ensures ends { ShowEnds most_bytes result (S.left input.old) (S.left input.new) (K.written out.old) (K.written out.new) }
    ensures unflushed { K.flushed out.new ≡ K.flushed out.old }
    ensures source { EndCount is_unread result (S.faults input.old) (S.faults input.new) }
    ensures sink { SinkCount result (K.faults out.old) (K.faults out.new) }
{
    let mut splitter = Splitter::new(alloc);
    let mut text = Vec::new(alloc);
    let mut count = 0usize;
    'reads: for _ in 0..READS {
        let left = LIMIT - count;
        let given = match splitter.feed_from(input, next_piece(left)) {
            Ok(given) => given,
            Err(Trouble::Failed) => return Ok(Shown::ReadFault),
            Err(Trouble::Memory) => return Err(Stop::NoMemory),
        };
        if given == 0 {
            return show_rest(alloc, count, splitter.rest(), out);
        }
        if left == 0 {
            return Ok(Shown::TooLong);
        }
        count += given;
        match show_piece(alloc, &mut splitter, &mut text, count, out) {
            Ok(None) => {}
            Ok(Some(_)) => return Ok(Shown::Refused),
            Err(stop) => return Err(stop),
        }
    }
    unreachable!()
}

// Shows each whole frame of what was fed, up to the first that is refused: their lines are gathered, and written at once.
// What was fed ends at a place of the input.
fn show_piece<K: Sink>(
    alloc: Global,
    splitter: &mut Splitter,
    text: &mut Vec<u8>,
    fed: usize,
    out: &mut K,
) -> Result<Option<Refusal>, Stop>
    requires room { fed < 2 ^ 62 }
    requires fed { length splitter.old ≤ fed }
    ensures ends { PieceEnds fed splitter.old splitter.new result (K.written out.old) (K.written out.new) }
    ensures unflushed { K.flushed out.new ≡ K.flushed out.old }
    ensures few { IfOk result (λ refused. refused ≡ None → length splitter.new < 262144) }
    ensures count { SinkCount result (K.faults out.old) (K.faults out.new) }
{
    text.clear();
    let cut = push_frames(splitter.rest(), text)?;
    match cut.refused {
        None => {
            put(out, text.as_slice())?;
            splitter.take(cut.taken);
            Ok(None)
        }
        Some(fault) => {
            let place = fed - (splitter.rest().len() - cut.taken);
            let line = refusal_line(alloc, place, fault)?;
            push_bytes(text, line.as_bytes())?;
            put(out, text.as_slice())?;
            Ok(Some(fault))
        }
    }
}

// Appends bytes. After an `Err` nothing has changed.
fn push_bytes(text: &mut Vec<u8>, bytes: &[u8]) -> Result<(), Memory>
    ensures { text.new.items ≡ (if is_ok result then text.old.items ++ bytes.now else text.old.items) }
{
    text.extend_from_slice(bytes)?;
    Ok(())
}

// Refuses what is left at the end of the input, unless that is nothing. So many bytes were fed.
fn show_rest<K: Sink>(alloc: Global, fed: usize, rest: &[u8], out: &mut K) -> Result<Shown, Stop>
    requires room { fed < 2 ^ 62 }
    requires fed { length rest.now ≤ fed }
    requires partial { IsPartial rest.now }
    ensures ends { RestEnds (fed - length rest.now) rest.now result (K.written out.old) (K.written out.new) }
    ensures unflushed { K.flushed out.new ≡ K.flushed out.old }
    ensures count { SinkCount result (K.faults out.old) (K.faults out.new) }
{
    if rest.is_empty() {
        return Ok(Shown::Done);
    }
    match headed(rest) {
        Ok(_) => unreachable!(),
        Err(refusal) => {
            let line = refusal_line(alloc, fed - rest.len(), refusal)?;
            put(out, line.as_bytes())?;
            Ok(Shown::Refused)
        }
    }
}
