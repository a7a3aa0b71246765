//! What every command has: it reads its input whole, writes to its output, and ends for a reason that it can tell.
#![tactic(auto)]

mod input;
mod stops;

pub use input::{LIMIT, Look, READS, look_over, next_piece};
pub use stops::{Stop, ending, finish, finished, put};
