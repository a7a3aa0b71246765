//! Performing the operations of a Config at an element: what they change, which events are told of that, and the messages that are sent
//! (RFC 5810, sections 7.6 and 7.8).
#![tactic(auto)]

mod answering;
mod notices;
mod out;
mod performing;

pub use answering::{Answered, can_be_answered, refusals, repeated, responses};
pub use notices::push_notices;
pub use out::{Out, Route};
pub use performing::{are_props, execute, tell};
