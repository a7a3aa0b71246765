//! The associations of a forwarding element with control elements: from each of them, when it was last heard and over
//! which peer, until it tears its association down or stays silent for too long.
#![tactic(auto)]

mod associations;
mod heard;
mod silence;

pub use associations::Associations;
pub use heard::Heard;
