//! Scripts as TOML documents: a document means a script, which is a library, elements, controllers, transactions and the steps that
//! happen among them, or is refused by the first rule that it breaks.
#![tactic(auto)]

mod document;
mod laws;
mod rules;
mod script;
mod steps;
mod tables;

pub use document::script_from_slice;
pub use laws::{scripts_are_judged_once, scripts_keep_their_rules, steps_are_counted};
pub use script::Script;
pub use tables::ScriptTable;
