//! Executing the operations of a Config on a store in an execution mode.
#![tactic(auto)]

mod bounded;
mod executing;
mod operations;
mod running;

pub use executing::{exec, exec_within};
pub use operations::{Operation, PlacedLeaf};
