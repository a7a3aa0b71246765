//! The command `world`: a network element as a whole, played step by step from the script that is read.
#![tactic(auto)]

mod command;
mod end;
mod laws;
mod playing;
mod telling;

pub use command::world;
pub use end::PlayEnd;
pub use laws::{steps_are_played, world_ends_once};
