//! Laws on the numbers in what a master says: each of them fits in the 32 bits that it has in a message, and transactions are named as transactions are.
#![tactic(auto)]

mod laws;

pub use laws::{masters_begin_in_numbers, masters_stay_in_numbers};
