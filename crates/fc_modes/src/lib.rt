//! The execution modes of RFC 5810 over anything that can apply an operation, mark a state and go back to it.
#![tactic(auto)]

mod copying_map;
mod failure;
mod laws;
mod mode;
mod run;
mod runner;

pub use copying_map::{CopyMark, CopyingMap, EntryOp};
pub use laws::done_is_what_is_kept;
pub use mode::Mode;
pub use run::run_mode;
pub use runner::Runner;
