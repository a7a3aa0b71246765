//! Libraries of classes as TOML documents: a document means a checked library, or is refused by the first rule that it
//! breaks, with the key.
#![tactic(auto)]

mod declarations;
mod document;
mod fault;
mod keys;
mod laws;
mod names;
mod refusals;
mod types;

pub use declarations::{classes, instances};
pub use document::{checked, library_from_slice};
pub use fault::{DocumentRule, LibFault, wrong_kind};
pub use keys::{find, number_at, only, tables_at, tables_or_none, text_at, texts_at, truth_or};
pub use laws::{
    documents_are_judged_once, numbers_span_their_type, types_inside_types, unknown_keys_rise,
};
pub use refusals::refusal;
