//! A forwarding element as a machine: what comes in, what goes out, and what it holds in between (RFC 5810, section 4,
//! and RFC 7121). It associates with control elements and holds the associations by heartbeats, answers queries, is configured, also by
//! transactions, and tells of events.
#![tactic(auto)]

mod configured;
mod element;
mod input;
mod laws;
mod live;
mod notices;
mod replies;
mod report;
mod settled;

pub use configured::Configured;
pub use element::Element;
pub use fc_blocks::HeartbeatSettings;
pub use fc_performing::Out;
pub use input::ElIn;
pub use laws::{
    associations_are_accepted_and_heard, configs_alone_configure, heartbeats_are_answered,
    instances_come_in_any_order, nothing_else_is_sent, silent_associations_end,
};
