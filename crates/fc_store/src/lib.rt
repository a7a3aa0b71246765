//! The configuration of an element: the components of all its instances, found by spots, with marks over some instances.
#![tactic(auto)]

mod changes;
mod copies;
mod laws;
mod looks;
mod opening;
mod scopes;
mod spots;
mod store;

pub use changes::{component_at, further};
pub use fc_tree::walk;
pub use laws::{
    found_components_are_declared, instances_apart, marks_give_back, what_is_beside_stays,
    what_is_put_is_found,
};
pub use spots::{Purpose, resolve};
pub use store::{Store, StoreMark};
