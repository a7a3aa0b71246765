//! What a control element sends to the elements that it is master of, and what it reads in their answers (this profile's own, over
//! the messages of RFC 5810, sections 7.5 to 7.7).
#![tactic(auto)]

mod asks;
mod codes;
mod holdings;
mod life;
mod queries;
mod requests;

pub use asks::{Asks, Question};
pub use codes::read_code;
pub use fc_plans::{Change, ChangeFault, Part, PlanFault, TxnPlan};
pub use life::Life;
pub use queries::{HeldAnswer, RecordAnswer, read_held, read_record};
pub use requests::{plain_request, request};
