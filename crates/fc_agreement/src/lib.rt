//! The laws of the protocol: what holds of one transaction alone, of one element, and of a world of elements and controllers over every list of steps; and runs that compute.
#![tactic(auto)]

mod examples;
mod laws;

pub use examples::{
    clean_round, failover_aborts, failover_completes, forgetting_forgets, late_give_up_completes,
    refused_calls, refused_change_aborts, repeated_claim_claims_once, repeated_end_prepares_once,
    replaced_master_is_deposed, restart_completes, two_at_once_complete,
};
pub use laws::{agreement, clean_rounds, core_laws, fenced, one_element};
