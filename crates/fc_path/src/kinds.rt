// The types of operations, and where each may stand.
ghost use Rattle.std.specs.Prelude.{◌≡◌};
ghost use Rattle.fc_path.specs.Kinds.{operation_of, number_of, holds_selects as holds, takes_nothing as nothing, takes_full as full, takes_sparse as sparse, takes_outcome as outcome};

use crate::OperKind;

/// What a TLV inside an LFBselect is.
#[derive(Clone, Copy, Debug, PartialEq, Eq)]
pub enum Operation {
    /// An operation that holds PATH-DATA.
    Paths(OperKind),
    /// The end of a transaction's first phase, which is empty.
    Commit,
    /// The end of a transaction, which is empty.
    Trcomp,
    /// How the first phase ended, with one RESULT.
    CommitResponse,
}

/// The operation of a type that may stand in a message of a type.
pub fn operation_for(message: u8, kind: u16) -> Option<Operation>
    ensures { result ≡ operation_of message kind }
{
    match message {
        0x01 | 0x05 => match kind {
            0x0b => Some(Operation::Paths(OperKind::Report)),
            _ => None,
        },
        0x03 => match kind {
            0x01 => Some(Operation::Paths(OperKind::Set)),
            0x02 => Some(Operation::Paths(OperKind::SetProp)),
            0x05 => Some(Operation::Paths(OperKind::Del)),
            0x0c => Some(Operation::Commit),
            0x0e => Some(Operation::Trcomp),
            _ => None,
        },
        0x13 => match kind {
            0x03 => Some(Operation::Paths(OperKind::SetResponse)),
            0x04 => Some(Operation::Paths(OperKind::SetPropResponse)),
            0x06 => Some(Operation::Paths(OperKind::DelResponse)),
            0x0d => Some(Operation::CommitResponse),
            _ => None,
        },
        0x04 => match kind {
            0x07 => Some(Operation::Paths(OperKind::Get)),
            0x08 => Some(Operation::Paths(OperKind::GetProp)),
            _ => None,
        },
        0x14 => match kind {
            0x09 => Some(Operation::Paths(OperKind::GetResponse)),
            0x0a => Some(Operation::Paths(OperKind::GetPropResponse)),
            _ => None,
        },
        _ => None,
    }
}

/// Whether messages of a type hold LFBselects.
pub(crate) fn holds_selects(message: u8) -> bool
    ensures { result ≡ holds message }
{
    message == 1
        || message == 3
        || message == 4
        || message == 5
        || message == 0x13
        || message == 0x14
}

impl OperKind {
    /// The type of the operation's TLV.
    pub fn number(self) -> u16
        ensures { result ≡ number_of self }
    {
        match self {
            OperKind::Set => 1,
            OperKind::SetProp => 2,
            OperKind::SetResponse => 3,
            OperKind::SetPropResponse => 4,
            OperKind::Del => 5,
            OperKind::DelResponse => 6,
            OperKind::Get => 7,
            OperKind::GetProp => 8,
            OperKind::GetResponse => 9,
            OperKind::GetPropResponse => 10,
            OperKind::Report => 11,
        }
    }

    /// Whether the leaves of the operation have no body.
    pub fn takes_nothing(self) -> bool
        ensures { result ≡ nothing self }
    {
        match self {
            OperKind::Del | OperKind::Get | OperKind::GetProp => true,
            OperKind::Set
            | OperKind::SetProp
            | OperKind::SetResponse
            | OperKind::SetPropResponse
            | OperKind::DelResponse
            | OperKind::GetResponse
            | OperKind::GetPropResponse
            | OperKind::Report => false,
        }
    }

    /// Whether the leaves of the operation may have a whole value.
    pub fn takes_full(self) -> bool
        ensures { result ≡ full self }
    {
        match self {
            OperKind::Set | OperKind::GetResponse | OperKind::GetPropResponse | OperKind::Report =>
                { true }
            OperKind::SetProp
            | OperKind::Del
            | OperKind::SetResponse
            | OperKind::SetPropResponse
            | OperKind::DelResponse
            | OperKind::Get
            | OperKind::GetProp => false,
        }
    }

    /// Whether the leaves of the operation may have parts of a value.
    pub fn takes_sparse(self) -> bool
        ensures { result ≡ sparse self }
    {
        match self {
            OperKind::Set | OperKind::SetProp | OperKind::GetResponse | OperKind::GetPropResponse =>
                { true }
            OperKind::Del
            | OperKind::SetResponse
            | OperKind::SetPropResponse
            | OperKind::DelResponse
            | OperKind::Get
            | OperKind::GetProp
            | OperKind::Report => false,
        }
    }

    /// Whether the leaves of the operation may have a result.
    pub fn takes_outcome(self) -> bool
        ensures { result ≡ outcome self }
    {
        match self {
            OperKind::SetResponse
            | OperKind::SetPropResponse
            | OperKind::DelResponse
            | OperKind::GetResponse
            | OperKind::GetPropResponse => true,
            OperKind::Set
            | OperKind::SetProp
            | OperKind::Del
            | OperKind::Get
            | OperKind::GetProp
            | OperKind::Report => false,
        }
    }
}
