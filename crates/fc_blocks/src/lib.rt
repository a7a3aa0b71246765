//! What an element tells and holds: its instances when it was just made, the settings of heartbeats in its configuration, and what it
//! answers to a query.
#![tactic(auto)]

mod laws;
mod opening;
mod query;
mod settings;

pub use laws::properties_stand_in_their_leaves;
pub use opening::open_store;
pub use query::{foreign_selects, told_selects};
pub use settings::{HeartbeatSettings, settings_in};
