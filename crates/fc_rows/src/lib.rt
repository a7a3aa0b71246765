//! The entries of an array that is a component, with an index for each of its keys.
#![tactic(auto)]

mod columns;
mod laws;
mod rows;

pub use columns::Rows;
pub use laws::{a_key_leads_where_a_search_does, an_index_tells, indexed_entries_differ};
pub use rows::RowList;
