//! What several crates of tests use: hexadecimal digits, the words of a row, a small library of ports, and whether a hub may tell some events.
#![tactic(auto)]

mod hub;
mod library;
mod words;

pub use hub::are_given;
pub use library::PORTS;
pub use words::{bytes_of, cut, push_digits, words_of};
