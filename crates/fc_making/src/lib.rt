//! The text of messages as their bytes, which are written while the text is read (this profile's own).
#![tactic(auto)]

mod making;
mod unwritten;
mod words;
mod write_message;
mod write_path;
mod write_select;

pub use fc_lines::TextFault;
pub use making::make_bytes;
