// How `element` ends.

/// How `element` ended, where all was written.
#[derive(Clone, Copy, Debug, PartialEq, Eq)]
pub enum ElementEnd {
    /// The hub has no more events.
    Done,
    /// The input can't be read.
    ReadFault,
    /// The hub failed.
    HubFault,
    /// The input means no library.
    Refused,
    /// So many events were taken as are to be taken.
    Turns,
    /// The input is longer than is looked at.
    TooLong,
}
