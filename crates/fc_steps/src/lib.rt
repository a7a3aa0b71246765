//! The steps of a script, and the texts that say them.
#![tactic(auto)]

mod laws;
mod reading;
mod step;
mod words;

pub use laws::texts_say_what_is_written;
pub use reading::read_step;
pub use step::{Step, StepText};
