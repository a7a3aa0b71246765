// Why a declaration is no library.
ghost use Rattle.std.specs.Prelude.{◌≡◌};

use std::alloc::AllocError;

/// Why classes and instances are no library.
#[derive(Clone, Copy, Debug, PartialEq, Eq)]
pub enum CheckFault {
    /// There are more than 256 classes, more than 4,096 instances, or more than 1,024 components in a class, with the fields
    /// in them at any depth and its events.
    TooMany,
    /// Two classes, two instances of a class, two components or a component and the event base of a class, two of its
    /// events, two fields of a struct or two keys of an array have one ID, or a class has that of a built-in one.
    DuplicateId,
    /// A type nests more than 8 deep.
    TooDeep,
    /// A range is empty or beyond its type, a length or a number of entries is 0 or over its limit, or an array inside a
    /// struct or an entry does not fit the value of a TLV when it is full.
    BadRange,
    /// A key has no field, has one twice, or has one that is no field of the entry, or that is a struct or an array.
    KeyNotAtomic,
    /// The target of an event is not there, or is none that the event suits.
    BadTarget,
    /// The class of an instance is not declared.
    UnknownClass,
    /// There was no memory.
    Memory,
}

impl From<AllocError> for CheckFault {
    ghost use Rattle.fc_types.specs.declared.fault.CheckFault.TheVariants.{Memory};

    ghost from_gives = { λ _ e. e ≡ Memory };

    fn from(_: AllocError) -> Self {
        CheckFault::Memory
    }
}
