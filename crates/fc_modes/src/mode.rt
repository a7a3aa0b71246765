// The execution modes.

/// How a list of operations goes on where one of them is refused (RFC 5810, section 4.3.1.1).
#[derive(Clone, Copy, Debug, PartialEq, Eq)]
pub enum Mode {
    /// All operations are done, or none is.
    AllOrNone,
    /// Operations are done up to the first that is refused.
    UntilFailure,
    /// Each operation is done for itself.
    Continue,
}
