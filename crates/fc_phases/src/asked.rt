// What a Config asks.
use crate::values::{Opening, Subject};

/// What a Config asks of an element. The phases of a transaction are those of RFC 5810, section 4.3.1.2.2; claims and floors are this
/// profile's own.
#[derive(Debug, Drop)]
pub enum Asked {
    /// It claims the element by this word, and asks nothing else.
    Claim(u32),
    /// It sets the floor below which transactions are forgotten, and asks nothing else.
    Floor(Subject),
    /// It has no flag of a transaction, and is neither of these.
    Plain,
    /// It opens a transaction.
    Start(Opening),
    /// It adds changes to a transaction.
    Change(Subject),
    /// All changes of a transaction are in, and it is to be prepared.
    Commit(Subject),
    /// The changes of a transaction are to stand.
    Complete(Subject),
    /// The changes of a transaction are to be undone.
    Abort(Subject),
    /// It has the flag of a transaction, and the shape of no phase.
    Malformed,
}
