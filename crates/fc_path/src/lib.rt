//! Paths, operations and selects: what the messages of ForCES say of the components of LFBs (RFC 5810, section 7.1).
#![tactic(auto)]

mod body_heads;
mod fault;
mod heads;
mod kinds;
mod laws;
mod leaves;
mod measuring;
mod oper;
mod outcomes;
mod path;
mod read_path;
mod read_select;
mod results;
mod select_heads;
mod stray;
mod write;

pub use body_heads::{BodyRef, LeafRef};
pub use fault::PathFault;
pub use heads::{Ids, KeyRef, PathHead};
pub use kinds::{Operation, operation_for};
pub use laws::{
    a_path_is_its_head_and_its_body, faults_are_in_reading_order, reading_is_the_grammar,
    selects_and_operations_are_their_heads_and_what_they_hold, selects_are_unique,
    written_selects_are_read,
};
pub use measuring::written_select;
pub use oper::{Leaf, Oper, OperKind, Select, Spot, Step};
pub use path::{Body, Key, PathData};
pub use results::{fits_results, oper_size, path_size, select_size};
pub use select_heads::{OperHead, SelectHead};
pub use stray::{misplaced, must_be_nested, must_be_path, no_more, no_more_bodies};
pub use write::{write_leaf, write_outcome, write_response};
