//! The classes that each element has of itself: what they declare, and the values that the element tells in them.
#![tactic(auto)]

mod classes;
mod kinds;
mod live;

pub use classes::built_in;
pub use fc_types::is_live;
pub use fc_value::Live;
pub use kinds::{Mastership, mastership_types};
pub use live::{LiveState, LiveTxn};
