// Why bytes are no select.
ghost use Rattle.std.specs.Prelude.{◌≡◌};
ghost use Rattle.fc_path.specs.declared.fault.PathFault.TheVariants.{Wire, Memory as no_memory};

use fc_base::Memory;
use fc_wire::WireFault;
use std::alloc::{AllocError, AllocFailed};

/// Why a TLV is no select: the first rule in reading order that its bytes break, and the place of that; or want of memory.
#[derive(Clone, Copy, Debug, PartialEq, Eq)]
pub enum PathFault {
    /// A TLV or ILV is too short for its head or passes the end of what holds it.
    Wire(WireFault),
    /// The type of a TLV is in no table.
    UnknownTlv { place: usize },
    /// There is no room for the flags and the count of a PATH-DATA, or its IDs pass its end.
    CountPast { place: usize },
    /// The key flag is set and no KEYINFO follows, or it is clear and one does. The place is that of the flags.
    KeyFlag { place: usize },
    /// A TLV follows the body of a PATH-DATA.
    TwoBodies { place: usize },
    /// PATH-DATA nest more than 16 deep.
    Deep { place: usize },
    /// A known TLV may not stand here, has a wrong length, or something needed is missing at the end of its container.
    WrongBody { place: usize },
    /// A TLV follows the only one that may stand here.
    Trailing { place: usize },
    /// There was no memory.
    Memory,
}

impl From<AllocError> for PathFault {
    ghost from_gives = { λ _ e. e ≡ no_memory };

    fn from(_: AllocError) -> Self {
        PathFault::Memory
    }
}

impl<T: Drop> From<AllocFailed<T>> for PathFault {
    ghost from_gives = { λ _ e. e ≡ no_memory };

    fn from(_: AllocFailed<T>) -> Self {
        PathFault::Memory
    }
}

impl From<Memory> for PathFault {
    ghost from_gives = { λ _ e. e ≡ no_memory };

    fn from(_: Memory) -> Self {
        PathFault::Memory
    }
}

impl From<WireFault> for PathFault {
    ghost from_gives = { λ fault e. e ≡ Wire fault };

    fn from(fault: WireFault) -> Self {
        PathFault::Wire(fault)
    }
}
