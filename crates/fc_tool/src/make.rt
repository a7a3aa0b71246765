// The command `make`.
ghost use Rattle.std.specs.Prelude.{◌≡◌, OnOk, OnErr, IfOk, string_bytes};
ghost use Rattle.std.specs.Io.KnownBytes.{Appends};
ghost use Rattle.fc_base.specs.Content.{AppendsFront};
ghost use Rattle.fc_lines.specs.TextPlaces.{place};
ghost use Rattle.fc_endings.specs.Endings.{EndCount};
ghost use Rattle.fc_endings.specs.Limits.{most_bytes};
ghost use Rattle.fc_tool.specs.Make.{MakeEnds, TextEnds, is_unread, text_refusal};
ghost use Rattle.fc_endings.specs.Stops.{FlushedAt, SinkCount};

use fc_base::{Memory, Sink, Source};
use fc_endings::{Look, Stop, finished, look_over, put};
use fc_lines::TextFault;
use fc_making::make_bytes;
use std::alloc::Global;

/// How `make` ended, where all was written.
#[derive(Clone, Copy, Debug, PartialEq, Eq)]
pub enum Made {
    /// The input is the text of messages, and no more.
    Done,
    /// The input can't be read.
    ReadFault,
    /// The input is the text of no messages.
    Refused,
    /// The input is longer than is looked at.
    TooLong,
}

/// Writes the canonical bytes of the messages of the text that comes in, or why it is the text of none, and flushes it.
pub fn make<S: Source, K: Sink>(alloc: Global, input: &mut S, out: &mut K) -> Result<Made, Stop>
    ensures ends { MakeEnds most_bytes result (S.left input.old) (S.left input.new) (K.written out.old) (K.written out.new) }
    ensures flushed { FlushedAt result (K.written out.new) (K.flushed out.old) (K.flushed out.new) }
    ensures source { EndCount is_unread result (S.faults input.old) (S.faults input.new) }
    ensures sink { SinkCount result (K.faults out.old) (K.faults out.new) }
{
    match make_all(alloc, input, out) {
        Ok(made) => finished(made, out),
        Err(stop) => Err(stop),
    }
}

// Reads the text whole, and writes what is made of it.
fn make_all<S: Source, K: Sink>(alloc: Global, input: &mut S, out: &mut K) -> Result<Made, Stop>
    ensures ends { MakeEnds most_bytes result (S.left input.old) (S.left input.new) (K.written out.old) (K.written out.new) }
    ensures unflushed { K.flushed out.new ≡ K.flushed out.old }
    ensures source { EndCount is_unread result (S.faults input.old) (S.faults input.new) }
    ensures sink { SinkCount result (K.faults out.old) (K.faults out.new) }
{
    let mut held = Vec::new(alloc);
    match look_over(input, &mut held) {
        Ok(Look::Whole) => make_text(alloc, held.as_slice(), out),
        Ok(Look::TooLong) => Ok(Made::TooLong),
        Ok(Look::ReadFault) => Ok(Made::ReadFault),
        Err(_) => Err(Stop::NoMemory),
    }
}

// Writes the bytes of the messages of a text, or why it has none.
fn make_text<K: Sink>(alloc: Global, text: &[u8], out: &mut K) -> Result<Made, Stop>
    ensures ends { TextEnds text.now result (K.written out.old) (K.written out.new) }
    ensures unflushed { K.flushed out.new ≡ K.flushed out.old }
    ensures sink { SinkCount result (K.faults out.old) (K.faults out.new) }
{
    let mut bytes = Vec::new(alloc);
    match make_bytes(alloc, text, &mut bytes) {
        Ok(()) => match put(out, bytes.as_slice()) {
            Ok(()) => Ok(Made::Done),
            Err(stop) => Err(stop),
        },
        Err(TextFault::At { line, column }) => match put_refusal(alloc, line, column, out) {
            Ok(()) => Ok(Made::Refused),
            Err(stop) => Err(stop),
        },
        Err(TextFault::Memory) => Err(Stop::NoMemory),
    }
}

// Writes where a text is refused. After an `Err` a front of that was written.
fn put_refusal<K: Sink>(alloc: Global, line: usize, column: usize, out: &mut K) -> Result<(), Stop>
    ensures ok { OnOk result (Appends (K.written out.old) (K.written out.new) (text_refusal (place line column))) }
    ensures err { OnErr result (AppendsFront (K.written out.old) (K.written out.new) (text_refusal (place line column))) }
    ensures unflushed { K.flushed out.new ≡ K.flushed out.old }
    ensures count { SinkCount result (K.faults out.old) (K.faults out.new) }
{
    match refusal_text(alloc, line, column) {
        Ok(text) => put(out, text.as_bytes()),
        Err(_) => Err(Stop::NoMemory),
    }
}

// The line of a text that is refused at a place.
#[tactic(auto, unfolding(crate::specs::Make::text_refusal))]
fn refusal_text(alloc: Global, line: usize, column: usize) -> Result<String, Memory>
    ensures { IfOk result (λ text. string_bytes text ≡ text_refusal (place line column)) }
{
    Ok(format!(in alloc; "refused text {line} {column}\n")?)
}
