//! What the program `forces` does, over the source and the sink that it is handed.
#![tactic(auto)]

mod command;
mod frames;
mod laws;
mod line;
mod make;
mod show;
mod status;

pub use command::run;
pub use fc_endings::Stop;
pub use laws::{frame_is_judged_once, input_ends_once, make_ends_once, text_is_unique};
pub use make::Made;
pub use show::Shown;
