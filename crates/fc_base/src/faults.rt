// Want of memory, and what a call may answer in place of its value.
ghost use Rattle.std.specs.Prelude.{◌≡◌};

use crate::Code;
use std::alloc::{AllocError, AllocFailed};

/// There was no memory for what was asked.
#[derive(Clone, Copy, Debug, PartialEq, Eq)]
pub struct Memory;

impl From<AllocError> for Memory {
    fn from(_: AllocError) -> Self {
        Memory
    }
}

impl<T: Drop> From<AllocFailed<T>> for Memory {
    fn from(_: AllocFailed<T>) -> Self {
        Memory
    }
}

/// What a call on a source, a sink or another carrier of the outside may answer in place of its value.
#[derive(Clone, Copy, Debug, PartialEq, Eq)]
pub enum Trouble {
    /// The carrier failed, and counted that.
    Failed,
    /// There was no memory.
    Memory,
}

impl From<AllocError> for Trouble {
    ghost use Rattle.fc_base.specs.declared.faults.Trouble.TheVariants.{Memory};

    ghost from_gives = { λ _ e. e ≡ Memory };

    fn from(_: AllocError) -> Self {
        Trouble::Memory
    }
}

impl<T: Drop> From<AllocFailed<T>> for Trouble {
    ghost use Rattle.fc_base.specs.declared.faults.Trouble.TheVariants.{Memory};

    ghost from_gives = { λ _ e. e ≡ Memory };

    fn from(_: AllocFailed<T>) -> Self {
        Trouble::Memory
    }
}

impl From<Memory> for Trouble {
    ghost use Rattle.fc_base.specs.declared.faults.Trouble.TheVariants.{Memory};

    ghost from_gives = { λ _ e. e ≡ Memory };

    fn from(_: Memory) -> Self {
        Trouble::Memory
    }
}

/// What an operation on a configuration may answer in place of its value.
#[derive(Clone, Copy, Debug, PartialEq, Eq)]
pub enum OpFault {
    /// The operation is refused with this result code, and has changed nothing.
    Refused(Code),
    /// There was no memory.
    Memory,
}

impl From<AllocError> for OpFault {
    ghost use Rattle.fc_base.specs.declared.faults.OpFault.TheVariants.{Memory};

    ghost from_gives = { λ _ e. e ≡ Memory };

    fn from(_: AllocError) -> Self {
        OpFault::Memory
    }
}

impl<T: Drop> From<AllocFailed<T>> for OpFault {
    ghost use Rattle.fc_base.specs.declared.faults.OpFault.TheVariants.{Memory};

    ghost from_gives = { λ _ e. e ≡ Memory };

    fn from(_: AllocFailed<T>) -> Self {
        OpFault::Memory
    }
}

impl From<Memory> for OpFault {
    ghost use Rattle.fc_base.specs.declared.faults.OpFault.TheVariants.{Memory};

    ghost from_gives = { λ _ e. e ≡ Memory };

    fn from(_: Memory) -> Self {
        OpFault::Memory
    }
}

impl From<Code> for OpFault {
    ghost use Rattle.fc_base.specs.declared.faults.OpFault.TheVariants.{Refused};

    ghost from_gives = { λ code e. e ≡ Refused code };

    fn from(code: Code) -> Self {
        OpFault::Refused(code)
    }
}

/// What a call that writes in the format of the wire may answer in place of its value.
#[derive(Clone, Copy, Debug, PartialEq, Eq)]
pub enum WriteFault {
    /// A length field can't hold the length.
    TooLong,
    /// There was no memory.
    Memory,
}

impl From<AllocError> for WriteFault {
    ghost use Rattle.fc_base.specs.declared.faults.WriteFault.TheVariants.{Memory};

    ghost from_gives = { λ _ e. e ≡ Memory };

    fn from(_: AllocError) -> Self {
        WriteFault::Memory
    }
}

impl<T: Drop> From<AllocFailed<T>> for WriteFault {
    ghost use Rattle.fc_base.specs.declared.faults.WriteFault.TheVariants.{Memory};

    ghost from_gives = { λ _ e. e ≡ Memory };

    fn from(_: AllocFailed<T>) -> Self {
        WriteFault::Memory
    }
}

impl From<Memory> for WriteFault {
    ghost use Rattle.fc_base.specs.declared.faults.WriteFault.TheVariants.{Memory};

    ghost from_gives = { λ _ e. e ≡ Memory };

    fn from(_: Memory) -> Self {
        WriteFault::Memory
    }
}
