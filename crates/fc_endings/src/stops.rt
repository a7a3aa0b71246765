// Writing to the sink, and why it stops.
ghost use Rattle.std.specs.Prelude.{◌≡◌, IfOk, OnOk, OnErr};
ghost use Rattle.std.specs.Io.KnownBytes.{Appends, Keeps};
ghost use Rattle.fc_base.specs.Content.{AppendsFront};
ghost use Rattle.fc_endings.specs.Stops.{FlushedAt, SinkCount};

use fc_base::{Memory, Sink, Trouble, write_all};

/// Why not all was written.
#[derive(Clone, Copy, Debug, PartialEq, Eq)]
pub enum Stop {
    /// The sink failed.
    WriteFault,
    /// Out of memory.
    NoMemory,
}

impl From<Memory> for Stop {
    ghost use Rattle.fc_endings.specs.declared.stops.Stop.TheVariants.{NoMemory};

    ghost from_gives = { λ _ e. e ≡ NoMemory };

    fn from(_: Memory) -> Self {
        Stop::NoMemory
    }
}

/// Writes all of a text. After an `Err` a front of it was written.
pub fn put<K: Sink>(out: &mut K, text: &[u8]) -> Result<(), Stop>
    ensures ok { OnOk result (Appends (K.written out.old) (K.written out.new) text.now) }
    ensures err { OnErr result (AppendsFront (K.written out.old) (K.written out.new) text.now) }
    ensures unflushed { K.flushed out.new ≡ K.flushed out.old }
    ensures count { SinkCount result (K.faults out.old) (K.faults out.new) }
{
    match write_all(out, text) {
        Ok(()) => Ok(()),
        Err(Trouble::Failed) => Err(Stop::WriteFault),
        Err(Trouble::Memory) => Err(Stop::NoMemory),
    }
}

/// Flushes what was written.
pub fn finish<K: Sink>(out: &mut K) -> Result<(), Stop>
    ensures same { Keeps (K.written out.old) (K.written out.new) }
    ensures flushed { FlushedAt result (K.written out.new) (K.flushed out.old) (K.flushed out.new) }
    ensures count { SinkCount result (K.faults out.old) (K.faults out.new) }
{
    match out.flush() {
        Ok(()) => Ok(()),
        Err(Trouble::Failed) => Err(Stop::WriteFault),
        Err(Trouble::Memory) => Err(Stop::NoMemory),
    }
}

/// Writes the text of the end that a command came to, and gives that end. After an `Err` a front of it was written.
pub fn ending<E: Copy, K: Sink>(end: E, text: &[u8], out: &mut K) -> Result<E, Stop>
    ensures end { IfOk result (λ last. last ≡ end) }
    ensures ok { OnOk result (Appends (K.written out.old) (K.written out.new) text.now) }
    ensures err { OnErr result (AppendsFront (K.written out.old) (K.written out.new) text.now) }
    ensures unflushed { K.flushed out.new ≡ K.flushed out.old }
    ensures count { SinkCount result (K.faults out.old) (K.faults out.new) }
{
    match put(out, text) {
        Ok(()) => Ok(end),
        Err(stop) => Err(stop),
    }
}

/// Flushes what was written, and gives the end that a command came to.
pub fn finished<E: Copy, K: Sink>(end: E, out: &mut K) -> Result<E, Stop>
    ensures end { IfOk result (λ last. last ≡ end) }
    ensures same { Keeps (K.written out.old) (K.written out.new) }
    ensures flushed { FlushedAt result (K.written out.new) (K.flushed out.old) (K.flushed out.new) }
    ensures count { SinkCount result (K.faults out.old) (K.faults out.new) }
{
    match finish(out) {
        Ok(()) => Ok(end),
        Err(stop) => Err(stop),
    }
}
