// Why a document is refused.
ghost use Rattle.std.specs.Prelude.{◌≡◌, ◌≢◌};
ghost use Rattle.fc_library.specs.declared.fault.LibFault.TheVariants as faults;

use fc_base::{Memory, Text};
use fc_types::CheckFault;
use std::alloc::{AllocError, Global};
use thiserror::Error;

/// The rules of a document that says more than a library, each with what breaks it.
#[derive(Clone, Copy, Debug, PartialEq, Eq)]
pub enum DocumentRule {
    /// There is more of something than there may be.
    TooMany,
    /// An element is listed twice, or a change is of one that is not listed.
    Element,
    /// Two control elements have one number, or an element's is not listed.
    Controller,
    /// The name of a transaction is empty, that of another one too, or has another character than letters, digits and `_`.
    Name,
    /// A body is no change, or a transaction has none.
    Body,
    /// There are not as many addresses as elements.
    Addresses,
}

/// Why a document means nothing. A key is told by its name alone, as it stands in the document.
#[derive(Debug, Drop, Error)]
pub enum LibFault {
    /// The bytes are not TOML.
    #[error("the document is not TOML")]
    NotToml,
    /// A table has a key that does not belong to it.
    #[error("the key `{}` does not belong there", .0.as_str())]
    Unknown(Text),
    /// A table has no value at a key that it needs.
    #[error("the key `{}` is missing", .0.as_str())]
    Missing(Text),
    /// The value at a key is of another type, out of range, or a word that names nothing.
    #[error("the value at the key `{}` is none that may stand there", .0.as_str())]
    WrongKind(Text),
    /// The classes and instances keep not every rule of a library. The fault is never `Memory`.
    #[error("the declaration is no library: {0:?}")]
    Check(CheckFault),
    /// What the tables say does not keep this rule.
    #[error("a rule of the document is not kept: {0:?}")]
    Rule(DocumentRule),
    /// The text at this place, counted from 1, is no step of a script.
    #[error("the text at place {0} is no step")]
    StepText(usize),
    /// There was no memory.
    #[error("there is no memory")]
    Memory,
}

impl From<AllocError> for LibFault {
    ghost from_gives = { λ _ e. e ≡ faults.Memory };

    fn from(_: AllocError) -> Self {
        LibFault::Memory
    }
}

impl From<Memory> for LibFault {
    ghost from_gives = { λ _ e. e ≡ faults.Memory };

    fn from(_: Memory) -> Self {
        LibFault::Memory
    }
}

/// The fault of a table that has no value at the key.
pub(crate) fn missing(alloc: Global, key: &str) -> LibFault
    ensures { result ≢ faults.Memory → result ≡ faults.Missing key.now }
{
    match Text::from_str(alloc, key) {
        Ok(name) => LibFault::Missing(name),
        Err(_) => LibFault::Memory,
    }
}

/// The fault of a value that may not stand at the key.
pub fn wrong_kind(alloc: Global, key: &str) -> LibFault
    ensures { result ≢ faults.Memory → result ≡ faults.WrongKind key.now }
{
    match Text::from_str(alloc, key) {
        Ok(name) => LibFault::WrongKind(name),
        Err(_) => LibFault::Memory,
    }
}

/// The fault of a table to which the key does not belong.
pub(crate) fn unknown(alloc: Global, key: &str) -> LibFault
    ensures { result ≢ faults.Memory → result ≡ faults.Unknown key.now }
{
    match Text::from_str(alloc, key) {
        Ok(name) => LibFault::Unknown(name),
        Err(_) => LibFault::Memory,
    }
}
