//! What the words of a command line mean: the commands of the program with their values.
#![tactic(auto)]

mod commands;
mod control;
mod element;
mod generate;
mod laws;
mod positionals;
mod reading;
mod values;

pub use commands::{Command, WordFault};
pub use laws::{
    controller_words, decimal_words, words_of_control, words_of_element, words_of_gen,
    words_of_make, words_of_show, words_of_world,
};
pub use reading::command;
