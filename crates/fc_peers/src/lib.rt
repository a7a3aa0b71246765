//! What the node of any machine behind a hub has: the peers that are open, each with the bytes of it that are left, their
//! frames as messages, and the acts on the hub.
#![tactic(auto)]

mod acting;
mod arriving;
mod peers;

pub use acting::{NodeStop, send, shut};
pub use arriving::{Next, next_message};
pub use peers::Peers;
