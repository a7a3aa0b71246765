// How `world` ends.

/// How `world` ended, where all was written.
#[derive(Clone, Copy, Debug, PartialEq, Eq)]
pub enum PlayEnd {
    /// The input means a script, and each of its steps was made.
    Done,
    /// The input can't be read.
    ReadFault,
    /// The input means no script, or one with a step that can't be made.
    Refused,
    /// The input is longer than is looked at.
    TooLong,
}
