//! One life of a control element as a machine (this profile's own, over the messages of RFC 5810): it claims elements, drives
//! transactions to their end at all of them, and recovers those that it finds.
#![tactic(auto)]

mod beginning;
mod busy;
mod calls;
mod faults;
mod finishing;
mod forgetting;
mod input;
mod master;
mod opening;
mod plain;
mod refusals;
mod reporting;
mod resending;
mod resting;
mod seats;
mod spending;
mod stepping;

pub use faults::{BeginFault, ForgetFault, GiveUpFault};
pub use fc_asks::{Change, ChangeFault, Life, Part, PlanFault, TxnPlan};
pub use fc_jobs::{Answer, CeOut, Decision, Job, Seen, decide};
pub use input::CeIn;
pub use master::Master;
pub use refusals::MOST_PARTICIPANTS;
