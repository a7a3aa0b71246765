// What an element remembers of one control element.

/// When a control element was last heard, in milliseconds, and over which peer.
#[derive(Clone, Copy, Debug, PartialEq, Eq)]
pub struct Heard {
    /// The moment at which it was last heard, in milliseconds.
    pub last: u64,
    /// The peer over which it was heard: the number of one byte carrier.
    pub peer: u32,
}
