// What an element takes.
use fc_msg::Message;

/// What comes to an element. A peer is the number of a byte carrier.
#[derive(Debug, PartialEq, Eq, Drop)]
pub enum ElIn {
    /// A peer was opened.
    Opened(u32),
    /// A message came from a peer.
    Arrived(u32, Message),
    /// A peer was closed.
    Closed(u32),
    /// It is this moment, in milliseconds.
    Moment(u64),
}
