//! One event of an instance: its properties, what is remembered of its target, and when it is told (RFC 5812, section 4.8.5, in this
//! profile).
#![tactic(auto)]

mod entries;
mod evaluate;
mod laws;
mod settings;
mod watch;

pub use laws::{an_equal_value_tells_nothing, arms_beyond_the_hysteresis};
pub use settings::{Settings, event_props, push_prop, read_settings};
pub use watch::{Condition, Seen, Told, Watch};
