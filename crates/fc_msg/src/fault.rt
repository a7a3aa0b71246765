// Why bytes spell no message.
ghost use Rattle.std.specs.Prelude.{◌≡◌};
ghost use Rattle.fc_msg.specs.Decoding.{fault_from};
ghost use Rattle.fc_msg.specs.Faults.{reason_text, refusal_of};

use fc_base::Memory;
use fc_path::PathFault;
use fc_wire::WireFault;

/// The reason of a refusal: the first rule that the bytes break (RFC 5810, sections 6 and 7; the order is this
/// profile's own).
#[derive(Clone, Copy, Debug, PartialEq, Eq)]
pub enum Reason {
    /// There are fewer bytes than a header has, or than its length says.
    Truncated,
    /// The version of the header is not 1.
    Version,
    /// The length in the header is less than that of a header.
    ShortLength,
    /// There are more bytes than the length says, or a TLV beyond the one that may stand there.
    Trailing,
    /// Messages of this kind are not taken yet.
    NotBuilt,
    /// The type of the message is in no table.
    UnknownType,
    /// There is no room for the head of a TLV or ILV, or its length does not count its head; or an LFBselect or KEYINFO has
    /// no room for its numbers.
    TlvShort,
    /// A TLV or ILV is longer than what holds it.
    TlvPast,
    /// The type of a TLV is in no table.
    UnknownTlv,
    /// A PATH-DATA has two bodies.
    TwoBodies,
    /// A TLV that may not stand there, of a wrong length, or missing.
    WrongBody,
    /// A PATH-DATA has fewer bytes than its IDs take.
    CountPast,
    /// The key flag of a PATH-DATA and its KEYINFO do not agree.
    KeyFlag,
    /// PATH-DATA nest too deep.
    Deep,
}

impl Reason {
    /// The word for the reason in texts.
    pub fn name(self) -> &'static str
        ensures { result.now ≡ reason_text self }
    {
        match self {
            Reason::Truncated => "truncated",
            Reason::Version => "version",
            Reason::ShortLength => "short-length",
            Reason::Trailing => "trailing",
            Reason::NotBuilt => "not-built",
            Reason::UnknownType => "unknown-type",
            Reason::TlvShort => "tlv-short",
            Reason::TlvPast => "tlv-past",
            Reason::UnknownTlv => "unknown-tlv",
            Reason::TwoBodies => "two-bodies",
            Reason::WrongBody => "wrong-body",
            Reason::CountPast => "count-past",
            Reason::KeyFlag => "key-flag",
            Reason::Deep => "deep",
        }
    }
}

/// A refusal, at a place counted from the start of the message.
#[derive(Clone, Copy, Debug, PartialEq, Eq)]
pub struct Refusal {
    pub place: usize,
    pub reason: Reason,
}

impl Refusal {
    /// The refusal of a reason at a place.
    pub fn at(place: usize, reason: Reason) -> Refusal
        ensures { result ≡ record { place = place; reason = reason } }
    {
        Refusal { place, reason }
    }

    /// The refusal of a fault of the wire.
    pub fn of(fault: WireFault) -> Refusal
        ensures { result ≡ refusal_of fault }
    {
        match fault {
            WireFault::Version { place } => Refusal::at(place, Reason::Version),
            WireFault::ShortLength { place } => Refusal::at(place, Reason::ShortLength),
            WireFault::TlvShort { place } => Refusal::at(place, Reason::TlvShort),
            WireFault::TlvPast { place } => Refusal::at(place, Reason::TlvPast),
        }
    }
}

/// What `decode` may answer in place of a message.
#[derive(Clone, Copy, Debug, PartialEq, Eq)]
pub enum MsgFault {
    /// The bytes spell no message.
    At(Refusal),
    /// Out of memory.
    Memory,
}

impl From<Refusal> for MsgFault {
    ghost use Rattle.fc_msg.specs.declared.fault.MsgFault.TheVariants.{At};

    ghost from_gives = { λ refusal e. e ≡ At refusal };

    fn from(refusal: Refusal) -> Self {
        MsgFault::At(refusal)
    }
}

impl From<Memory> for MsgFault {
    ghost use Rattle.fc_msg.specs.declared.fault.MsgFault.TheVariants.{Memory};

    ghost from_gives = { λ _ e. e ≡ Memory };

    fn from(_: Memory) -> Self {
        MsgFault::Memory
    }
}

impl From<PathFault> for MsgFault {
    ghost from_gives = { λ fault e. e ≡ fault_from fault };

    fn from(fault: PathFault) -> Self {
        match fault {
            PathFault::Wire(fault) => MsgFault::At(Refusal::of(fault)),
            PathFault::UnknownTlv { place } => MsgFault::At(Refusal::at(place, Reason::UnknownTlv)),
            PathFault::CountPast { place } => MsgFault::At(Refusal::at(place, Reason::CountPast)),
            PathFault::KeyFlag { place } => MsgFault::At(Refusal::at(place, Reason::KeyFlag)),
            PathFault::TwoBodies { place } => MsgFault::At(Refusal::at(place, Reason::TwoBodies)),
            PathFault::Deep { place } => MsgFault::At(Refusal::at(place, Reason::Deep)),
            PathFault::WrongBody { place } => MsgFault::At(Refusal::at(place, Reason::WrongBody)),
            PathFault::Trailing { place } => MsgFault::At(Refusal::at(place, Reason::Trailing)),
            PathFault::Memory => MsgFault::Memory,
        }
    }
}
