//! Messages and frames as text (this profile's own).
#![tactic(auto)]

mod append;
mod decimal;
mod frames;
mod hexes;
mod message;
mod names;
mod show_path;
mod showing;

pub use frames::show_bytes;
pub use message::show;
