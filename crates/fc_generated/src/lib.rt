//! The script of a large run: eight elements with a table of rates each, and a control element that fills it by so many transactions.
#![tactic(auto)]

mod script;
mod steps;
mod table;
mod transactions;

pub use script::{generated, large_runs_are_scripts};
pub use table::TABLE;
