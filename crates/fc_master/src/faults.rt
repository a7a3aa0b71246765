// Why calls of a master are refused.
ghost use Rattle.std.specs.Prelude.{◌≡◌};

use fc_base::{FeId, Memory, TxnId};
use fc_protocol::Decision;

/// Why a transaction is not begun, or a plain change not sent, in the order in which it is looked for: of the participants the first one
/// at which it may not be, and there the first of `Stranger`, `NotReady` and `Busy`.
#[derive(Clone, Copy, Debug, PartialEq, Eq)]
pub enum BeginFault {
    /// An answer has held this epoch, which is greater than the master's own.
    Deposed { seen: u32 },
    /// There are this many participants, more than 64.
    TooMany { count: usize },
    /// It is no element of this master.
    Stranger { element: FeId },
    /// It has not answered under this epoch, or is in doubt or lost.
    NotReady { element: FeId },
    /// An unsettled transaction that names it may change there what this one may, the first such one; or, where there is none, a plain
    /// change or a floor is not answered there.
    Busy { element: FeId, txn: Option<TxnId> },
    /// Its number, or a sequence that it may need, would pass 4,294,967,295.
    Spent,
    /// Memory was wanting.
    Memory,
}

impl From<Memory> for BeginFault {
    ghost use Rattle.fc_master.specs.declared.faults.BeginFault.TheVariants.{Memory};

    ghost from_gives = { λ _ e. e ≡ Memory };

    fn from(_: Memory) -> Self {
        BeginFault::Memory
    }
}

/// Why a transaction is not given up, in the order in which it is looked for.
#[derive(Clone, Copy, Debug, PartialEq, Eq)]
pub enum GiveUpFault {
    /// An answer has held this epoch, which is greater than the master's own.
    Deposed { seen: u32 },
    /// This master has not begun it.
    Unknown,
    /// It is decided.
    Decided { decision: Decision },
    /// Memory was wanting.
    Memory,
}

impl From<Memory> for GiveUpFault {
    ghost use Rattle.fc_master.specs.declared.faults.GiveUpFault.TheVariants.{Memory};

    ghost from_gives = { λ _ e. e ≡ Memory };

    fn from(_: Memory) -> Self {
        GiveUpFault::Memory
    }
}

/// Why elements may not forget, in the order in which it is looked for.
#[derive(Clone, Copy, Debug, PartialEq, Eq)]
pub enum ForgetFault {
    /// An answer has held this epoch, which is greater than the master's own.
    Deposed { seen: u32 },
    /// The first element that has not answered under this epoch, or is lost.
    NotReady { element: FeId },
    /// The first element at which a plain change or an earlier floor is not answered; it names no transaction.
    Busy { element: FeId, txn: Option<TxnId> },
    /// The first transaction that is not settled.
    Unsettled { txn: TxnId },
    /// The sequence of an element, or the number of transactions begun, is 4,294,967,295.
    Spent,
    /// Memory was wanting.
    Memory,
}

impl From<Memory> for ForgetFault {
    ghost use Rattle.fc_master.specs.declared.faults.ForgetFault.TheVariants.{Memory};

    ghost from_gives = { λ _ e. e ≡ Memory };

    fn from(_: Memory) -> Self {
        ForgetFault::Memory
    }
}
