//! Plans as TOML documents: a document means a plan, which is elements and transactions over them, or is refused by the first
//! rule that it breaks.
#![tactic(auto)]

mod bodies;
mod document;
mod laws;
mod participants;
mod plan;
mod rules;
mod tables;
mod transaction;

pub use bodies::transactions_of;
pub use document::{plan_from_slice, table_from_slice};
pub use laws::{
    changes_keep_their_order, only_size_forbids_beginning, plans_are_judged_once,
    plans_keep_their_rules,
};
pub use plan::Plan;
pub use rules::{keep, keep_elements, keep_limits, keep_names};
pub use tables::{ChangeTable, PlanTable, TransactionTable, changes, element_at};
pub use transaction::PlanTxn;
