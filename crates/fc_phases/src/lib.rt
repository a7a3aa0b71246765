//! What a Config asks of an element, read from its flags and its LFBselects: a claim, a floor, a phase of a transaction, or a plain
//! change (RFC 5810, sections 4.3.1.2 and 7.6; claims and floors are this profile's own).
#![tactic(auto)]

mod asked;
mod reading;
mod shapes;
mod values;

pub use asked::Asked;
pub use reading::read_config;
pub use shapes::rest_of;
pub use values::{Opening, Subject};
