//! Laws that bind what an element reads in a Config to what the control element that sends it asks.
#![tactic(auto)]

mod laws;

pub use laws::{configs_ask_what_was_said, numbers_of_changes_are_not_read};
