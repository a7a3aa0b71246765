//! The node of a control element: one life of it as a machine behind a hub, with a splitter for each element, and the plan that it
//! carries out at them (this profile's own, over the messages of RFC 5810).
#![tactic(auto)]

mod calls;
mod control;
mod delivery;
mod elements;
mod going_on;
mod hearing;
mod laws;
mod node;
mod opening;
mod plans;
mod reporting;
mod running;
mod sending;

pub use control::Control;
pub use fc_peers::NodeStop;
pub use laws::bytes_may_be_cut;
pub use node::ControlNode;
pub use running::{Served, serve};
