//! In which order an element tells of its events: what is registered stands in its order whatever comes, and so does what is told.
#![tactic(auto)]

mod laws;

pub use laws::{an_element_tells_in_order, registered_events_always_rise};
