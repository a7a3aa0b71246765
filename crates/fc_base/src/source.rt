// Where bytes come from.
ghost use Rattle.std.specs.Prelude.{◌≤◌, List, ℕ, Option, length, IfOk};
ghost use Rattle.std.specs.Io.KnownBytes.{ReadConsumes};
ghost use Rattle.fc_base.specs.Causes.{HasCause};

use crate::Trouble;

/// A source of bytes.
pub trait Source {
    /// The bytes that are left, where the source tells them.
    ghost left: { Self → Option (List ℕ) };

    /// How often it has failed.
    ghost faults: { Self → ℕ };

    /// Reads some of the bytes that are left into the front of the buffer, and says how many. Zero means that none are
    /// left, or that the buffer is empty. After an `Err` the bytes that are left are as before.
    fn read(&mut self, into: &mut [u8]) -> Result<usize, Trouble>
        ensures bound { IfOk result (λ n. n ≤ length into.new) }
        ensures bytes { ReadConsumes (left self.old) (left self.new) result into.new }
        ensures cause { HasCause (faults self.old) (faults self.new) result };
}
