//! What an instance of a class holds: its components, what undoes their changes, and marks to go back to.
#![tactic(auto)]

mod changes;
mod components;
mod copies;
mod instance;
mod laws;
mod leading;
mod looking;
mod nodes;
mod slots;

pub use components::EntryPath;
pub use instance::{Instance, Inverse, Row, Slot};
pub use laws::array_changes_by_its_entries;
pub use nodes::Node;
