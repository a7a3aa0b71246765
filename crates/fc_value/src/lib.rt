//! Values of the declared types, and their bytes in the full and in the sparse form (RFC 5810, section 7.1; RFC 5812,
//! section 4.5).
#![tactic(auto)]

mod key;
mod laws;
mod live;
mod nodes;
mod number;
mod opening;
mod parts;
mod read;
mod sparse;
mod value;
mod write;

pub use key::{key_value, keys_differ};
pub use laws::{
    codes_are_in_reading_order, opening_values, other_places_stay, reading_is_the_form,
    sizes_bound_what_is_written, written_values_are_read,
};
pub use live::Live;
pub use nodes::{node, replace_node};
pub use opening::first;
pub use read::read_full;
pub use sparse::read_sparse;
pub use value::Value;
pub use write::{write_full, write_full_entries};
