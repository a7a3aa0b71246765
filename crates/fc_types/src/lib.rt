//! What the maker of a forwarding element declares: types, components, events and classes, and the library of classes
//! that is checked once, so that everything above may rely on its rules (RFC 5812, section 4).
#![tactic(auto)]

mod built_in;
mod check;
mod class;
mod class_rules;
mod copies;
mod depth;
mod fault;
mod ids;
mod laws;
mod library;
mod size;
mod ty;
mod type_rules;

pub use built_in::{FE_OBJECT, FE_PROTOCOL, MASTERSHIP, is_built_in, is_live};
pub use class::{Class, Component, EventDecl, When};
pub use class_rules::target_type;
pub use fault::CheckFault;
pub use ids::{Identified, are_apart, are_distinct, has_id, with_id};
pub use laws::{
    different_ids, first_fault_is_first, inside_types, nesting_types, sound_components, sound_level,
};
pub use library::{Instances, Library};
pub use ty::{Field, KeyDecl, Ty};
pub use type_rules::{fields_of, is_atom};
