// Why a message was not written while it was read.
ghost use Rattle.std.specs.Prelude.{◌≡◌};
ghost use Rattle.fc_making.specs.Writes.{unwritten_by};
ghost use Rattle.fc_making.specs.declared.unwritten.Unwritten.TheVariants.{Fault};
ghost use Rattle.fc_lines.specs.declared.fault.TextFault.TheVariants.{Memory as no_memory};

use fc_base::{Memory, WriteFault};
use fc_lines::TextFault;

/// Why a message was not written while it was read.
#[derive(Clone, Copy, Debug)]
pub enum Unwritten {
    /// The text is refused here, or there was no memory.
    Fault(TextFault),
    /// A length passes its field, so that the message is refused: at the first fault of its lines, or else at its first line.
    TooLong,
}

impl From<TextFault> for Unwritten {
    ghost from_gives = { λ fault e. e ≡ Fault fault };

    fn from(fault: TextFault) -> Self {
        Unwritten::Fault(fault)
    }
}

impl From<Memory> for Unwritten {
    ghost from_gives = { λ _ e. e ≡ Fault no_memory };

    fn from(_: Memory) -> Self {
        Unwritten::Fault(TextFault::Memory)
    }
}

impl From<WriteFault> for Unwritten {
    ghost from_gives = { λ fault e. e ≡ unwritten_by fault };

    fn from(fault: WriteFault) -> Self {
        match fault {
            WriteFault::TooLong => Unwritten::TooLong,
            WriteFault::Memory => Unwritten::Fault(TextFault::Memory),
        }
    }
}
