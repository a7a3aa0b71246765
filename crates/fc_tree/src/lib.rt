//! Nodes within the value of a component: finding them by steps, and what a SET and a DEL make of the value (RFC 5810, section 7.1).
#![tactic(auto)]

mod find;
mod merging;
mod putting;
mod removing;
mod walking;

pub use find::key_bytes;
pub use merging::merge_value;
pub use putting::put_value;
pub use removing::remove_value;
pub use walking::walk;
