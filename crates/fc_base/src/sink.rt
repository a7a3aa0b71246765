// Where bytes go.
ghost use Rattle.std.specs.Prelude.{◌≡◌, ◌≤◌, ◌<◌, List, ℕ, Option, length, IfOk, OnOk, OnErr};
ghost use Rattle.std.specs.Io.KnownBytes.{WriteAppends, Keeps, Appends};
ghost use Rattle.fc_base.specs.Causes.{HasCause};
ghost use Rattle.fc_base.specs.Content.{IsFlushed, AppendsFront};

use crate::Trouble;

/// A sink of bytes.
pub trait Sink {
    /// The bytes that were written, where the sink tells them.
    ghost written: { Self → Option (List ℕ) };

    /// How many of them are flushed.
    ghost flushed: { Self → ℕ };

    /// How often it has failed.
    ghost faults: { Self → ℕ };

    /// Writes a front of the piece, and says how many bytes: at least one of a piece that has one. After an `Err`
    /// nothing was written.
    fn write(&mut self, piece: &[u8]) -> Result<usize, Trouble>
        ensures bound { IfOk result (λ n. n ≤ length piece.now) }
        ensures progress { IfOk result (λ n. 0 < length piece.now → 0 < n) }
        ensures bytes { WriteAppends (written self.old) (written self.new) result piece.now }
        ensures flushed { flushed self.new ≡ flushed self.old }
        ensures cause { HasCause (faults self.old) (faults self.new) result };

    /// Flushes all that was written.
    fn flush(&mut self) -> Result<(), Trouble>
        ensures bytes { Keeps (written self.old) (written self.new) }
        ensures flushed { OnOk result (IsFlushed (written self.new) (flushed self.new)) }
        ensures err { OnErr result (flushed self.new ≡ flushed self.old) }
        ensures cause { HasCause (faults self.old) (faults self.new) result };
}

/// Writes all the bytes, by as many calls as it takes. After an `Err` a front of them was written.
pub fn write_all<K: Sink>(sink: &mut K, bytes: &[u8]) -> Result<(), Trouble>
    ensures all { OnOk result (Appends (K.written sink.old) (K.written sink.new) bytes.now) }
    ensures front { OnErr result (AppendsFront (K.written sink.old) (K.written sink.new) bytes.now) }
    ensures flushed { K.flushed sink.new ≡ K.flushed sink.old }
    ensures cause { HasCause (K.faults sink.old) (K.faults sink.new) result }
{
    let mut rest = bytes;
    while !rest.is_empty() {
        let count = sink.write(rest)?;
        rest = &rest[count..];
    }
    Ok(())
}
