//! The lines of a text of messages, and what each kind of line says (this profile's own).
#![tactic(auto)]

mod fault;
mod front;
mod hex_word;
mod label;
mod lines;
mod named;
mod numbers;
mod said;
mod values;
mod words;

pub use fault::TextFault;
pub use hex_word::HexWord;
pub use lines::Lines;
pub use numbers::Numbers;
pub use said::{
    BodyLine, Head, LeafLine, Numbered, PathLine, body_line, code_line, head_line, ilv_line,
    is_bare, leaf_line, number_line, operation_line, path_line, select_line,
};
