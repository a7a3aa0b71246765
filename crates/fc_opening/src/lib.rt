//! What the classes that each element has of itself are to its configuration: what they open with fits their types, and so does each value
//! that the element tells in them.
#![tactic(auto)]

mod laws;

pub use laws::{own_openings_fit, told_values_fit};
