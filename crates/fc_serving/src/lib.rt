//! The command `element`: a forwarding element with the library that it reads, over the hub that it is handed.
#![tactic(auto)]

mod command;
mod delivery;
mod end;
mod giving;
mod laws;
mod node;
mod running;
mod sending;
mod serve;
mod telling;

pub use command::element;
pub use end::ElementEnd;
pub use laws::{bytes_may_be_cut, element_ends_once, node_takes_the_frames};
