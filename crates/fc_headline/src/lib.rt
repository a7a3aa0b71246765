//! The laws of the machine of an element and of the world, over any configuration whose operations at different instances commute, and any masters that do what the protocol says.
#![tactic(auto)]

mod basis;
mod laws;
mod pairs;

pub use basis::Grounds;
pub use laws::{
    a_configuration_by_instances_is_a_store, clean_rounds, element_folds,
    element_goes_by_the_protocol, headline,
};
pub use pairs::{Pairs, first_life};
