// Sources and sinks over std's readers and writers. What passes through them no contract can say: they are trusted, and
// tested.
ghost use Rattle.std.specs.Prelude.{◌≡◌, ℕ, None};

use crate::{Sink, Source, Trouble};
use std::io::{Read, Write};

/// A source over a reader.
#[derive(Drop)]
pub struct StdSource<R> {
    reader: R,
    faults: u64,
}

impl<R> StdSource<R> {
    /// Nothing was read, and nothing has failed.
    pub fn new(reader: R) -> Self
        ensures { result.faults ≡ 0 }
    {
        StdSource { reader, faults: 0 }
    }
}

impl<R: Read> Source for StdSource<R> {
    ghost left = { λ _. None };

    ghost faults = { λ s. s.faults };

    fn read(&mut self, into: &mut [u8]) -> Result<usize, Trouble> {
        match self.reader.read(into) {
            Ok(count) => Ok(count),
            Err(_) => {
                self.faults = self.faults.saturating_add(1);
                Err(Trouble::Failed)
            }
        }
    }
}

/// A sink over a writer.
#[derive(Drop)]
pub struct StdSink<W> {
    writer: W,
    faults: u64,
}

impl<W> StdSink<W> {
    /// Nothing was written, and nothing has failed.
    pub fn new(writer: W) -> Self
        ensures { result.faults ≡ 0 }
    {
        StdSink { writer, faults: 0 }
    }
}

impl<W: Write> Sink for StdSink<W> {
    ghost written = { λ _. None };

    ghost flushed = { λ _. 0 };

    ghost faults = { λ s. s.faults };

    fn write(&mut self, piece: &[u8]) -> Result<usize, Trouble> {
        match self.writer.write(piece) {
            // A writer that takes nothing has failed.
            Ok(count) if count > 0 || piece.is_empty() => Ok(count),
            _ => {
                self.faults = self.faults.saturating_add(1);
                Err(Trouble::Failed)
            }
        }
    }

    fn flush(&mut self) -> Result<(), Trouble> {
        match self.writer.flush() {
            Ok(()) => Ok(()),
            Err(_) => {
                self.faults = self.faults.saturating_add(1);
                Err(Trouble::Failed)
            }
        }
    }
}
