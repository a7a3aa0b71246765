// What an element sends, and to whom.
use fc_msg::Message;

/// A message to a peer. A peer is the number of a byte carrier.
#[derive(Debug, PartialEq, Eq, Drop)]
pub struct Out {
    pub peer: u32,
    pub message: Message,
}

/// Who tells what happened, who is told, and over which peer.
#[derive(Clone, Copy, Debug)]
pub struct Route {
    /// The ID of the element.
    pub from: u32,
    /// The ID of the control element.
    pub to: u32,
    pub peer: u32,
}
