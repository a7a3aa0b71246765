//! What a control element is to change: the changes of an element, and the plans of transactions over several elements (this profile's
//! own, over RFC 5810, sections 4.3.1.2 and 7.6.1).
#![tactic(auto)]

mod change;
mod components;
mod fault;
mod mastership;
mod plan;
mod scopes;

pub use change::Change;
pub use components::{EPOCH, FLOOR, HELD, OPENING, SUBJECT, TRANSACTION_KEY, TRANSACTIONS};
pub use fault::{ChangeFault, PlanFault};
pub use mastership::{
    on_mastership, one, path, push_selects, put_number, put_subject, set, set_selects, subject,
    with_subject,
};
pub use plan::{MOST_CHANGES, Part, TxnPlan, whole_fault};
pub use scopes::MOST_INSTANCES;
