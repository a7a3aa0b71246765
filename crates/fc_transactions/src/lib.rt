//! What Configs do at an element that is claimed by one life of a control element after the other, and goes by its fence: plain changes, floors,
//! and two-phase commits, of which several may be held at once, each over instances of its own (RFC 5810, sections 4.3.1.2 and 7.6; the
//! fence, claims, scopes and floors are this profile's own).
#![tactic(auto)]

mod ending;
mod ledger;
mod order;
mod plain;
mod resting;
mod saying;
mod starting;
mod transactions;

pub use fc_performing::Out;
pub use ledger::Ledger;
pub use order::Taken;
pub use transactions::Transactions;
