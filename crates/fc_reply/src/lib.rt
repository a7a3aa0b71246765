//! The response to a Config: the same selects with the codes of its operations, and whether it is sent.
#![tactic(auto)]

mod answering;
mod counting;
mod laws;
mod response;

pub use answering::answered_selects;
pub use counting::each_gets;
pub use laws::{answers_are_proper, responses_are_proper, responses_fit};
pub use response::reply;
