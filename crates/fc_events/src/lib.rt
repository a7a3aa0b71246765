//! What control elements register for events of an element's instances: properties, subscriptions, and what is told of the registered
//! events (RFC 5812, section 4.8).
#![tactic(auto)]

mod evaluate;
mod exec;
mod finding;
mod laws;
mod nodes;
mod operations;
mod props;
mod reports;
mod setting;
mod subscriptions;
mod targets;
mod telling;

pub use laws::{
    a_second_report_tells_nothing, held_events_tell_nothing, notices_never_fall,
    registered_events_rise,
};
pub use subscriptions::{EventPlace, Notice, Subscription, Subscriptions};
