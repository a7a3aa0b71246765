//! The command `control`: one life of a control element with the plan that it reads, over the rounds and the hub that it is handed.
#![tactic(auto)]

mod asked;
mod command;
mod judging;
mod laws;
mod running;
mod telling;

pub use asked::{Asked, ControlEnd};
pub use command::control;
pub use laws::{bytes_may_be_cut, control_ends_once};
