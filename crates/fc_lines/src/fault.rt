// Why a text is refused.
ghost use Rattle.std.specs.Prelude.{◌≡◌};
ghost use Rattle.fc_lines.specs.declared.fault.TextFault.TheVariants.{Memory as no_memory};

use fc_base::Memory;
use std::alloc::{AllocError, AllocFailed};
use thiserror::Error;

/// Why a text is refused: the first line that does not fit, and in it the first word that does not; or out of memory.
#[derive(Clone, Copy, Debug, PartialEq, Eq, Error)]
pub enum TextFault {
    /// The line, from 1, and the column, from 1 and in bytes: that of the word, the one after the line's end where a word is
    /// missing, or 1 where the indentation is wrong. Where the text ends too early, the line after the last one and column 1.
    /// Where a message can't be encoded, its first line and column 1.
    #[error("the text does not fit at line {line}, column {column}")]
    At { line: usize, column: usize },
    /// Out of memory.
    #[error("there is no memory")]
    Memory,
}

impl From<AllocError> for TextFault {
    ghost from_gives = { λ _ e. e ≡ no_memory };

    fn from(_: AllocError) -> Self {
        TextFault::Memory
    }
}

impl<T: Drop> From<AllocFailed<T>> for TextFault {
    ghost from_gives = { λ _ e. e ≡ no_memory };

    fn from(_: AllocFailed<T>) -> Self {
        TextFault::Memory
    }
}

impl From<Memory> for TextFault {
    ghost from_gives = { λ _ e. e ≡ no_memory };

    fn from(_: Memory) -> Self {
        TextFault::Memory
    }
}
