// Why steps can't be made, and why calls in them are refused.
ghost use Rattle.std.specs.Prelude.{◌≡◌};

use fc_base::Memory;
use fc_master::{BeginFault, ForgetFault, GiveUpFault};
use std::alloc::AllocError;

/// Why a step can't be made. Nothing changes then.
#[derive(Clone, Copy, Debug, PartialEq, Eq)]
pub enum WorldFault {
    /// It names an element, a control element or a transaction that is not in the script, or asks for a plain change by the name of a
    /// transaction that does not have exactly one change in all.
    NoSuchName,
    /// So many messages were not sent, or the number is 0.
    NoSuchMessage,
    /// The control element has used the round.
    RoundUsed,
    /// The control element stands still.
    NotRunning,
    /// The control element runs.
    Running,
    /// Memory was wanting.
    Memory,
}

impl From<Memory> for WorldFault {
    ghost use Rattle.fc_world.specs.declared.faults.WorldFault.TheVariants.{Memory};

    ghost from_gives = { λ _ e. e ≡ Memory };

    fn from(_: Memory) -> Self {
        WorldFault::Memory
    }
}

impl From<AllocError> for WorldFault {
    ghost use Rattle.fc_world.specs.declared.faults.WorldFault.TheVariants.{Memory};

    ghost from_gives = { λ _ e. e ≡ Memory };

    fn from(_: AllocError) -> Self {
        WorldFault::Memory
    }
}

/// Why a control element refuses what a step asks of it. None of these is want of memory.
#[derive(Clone, Copy, Debug, PartialEq, Eq)]
pub enum Refused {
    /// A transaction is not begun, or a plain change not sent.
    Begin(BeginFault),
    /// A transaction is not given up.
    GiveUp(GiveUpFault),
    /// The elements may not forget.
    Forget(ForgetFault),
}
