//! What an element keeps of the transactions that it holds: which instances they may change, the marks in the configuration that stand over
//! these, and the operations that were accepted. This profile's own, over two-phase commit of RFC 5810, section 4.3.1.2.
#![tactic(auto)]

mod held;
mod holding;
mod holdings;
mod naming;

pub use held::{held_instances, is_held, scope_of, waits};
pub use holding::Holding;
pub use holdings::{extend, settle, undo, undo_started};
pub use naming::{has_all, is_scope, name, participants_of};
