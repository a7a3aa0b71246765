// The components of Mastership of which a control element speaks, and the key of its records (this profile's own).

/// The epoch of the control element that is master.
pub const EPOCH: u32 = 1;

/// The records of transactions.
pub const TRANSACTIONS: u32 = 3;

/// The key that finds a record by the epoch and the number of its transaction.
pub const TRANSACTION_KEY: u32 = 1;

/// What begins a transaction.
pub const OPENING: u32 = 4;

/// The transaction of which an operation is.
pub const SUBJECT: u32 = 5;

/// The transaction before which an element forgets all others.
pub const FLOOR: u32 = 6;

/// The records of those transactions that are neither completed nor aborted.
pub const HELD: u32 = 7;
