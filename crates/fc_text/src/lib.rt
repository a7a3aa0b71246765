//! What the text of messages is (this profile's own), and text to messages.
#![tactic(auto)]

mod body;
mod laws;
mod read_path;
mod read_select;
mod reading;

pub use body::read_body;
pub use fc_lines::TextFault;
pub use laws::{
    decoded_text_is_read, first_misfit_is_where_text_is_refused, shown_text_is_read,
    shown_text_is_spelled, text_is_its_messages, text_is_its_selects,
    text_is_refused_at_its_first_misfit,
};
pub use read_select::DEPTH;
pub use reading::{read_text, read_whole};
