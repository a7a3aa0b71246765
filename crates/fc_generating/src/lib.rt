//! The command `gen`: a large run that is made without an input, and a summary of what it comes to.
#![tactic(auto)]

mod command;
mod counting;
mod laws;
mod summary;
mod trying;

pub use command::generate;
pub use laws::{steps_are_made_in_order, trails_go_on};
