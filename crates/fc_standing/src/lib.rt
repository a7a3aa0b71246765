//! The store of an element is what the machine of an element stands on, and what transactions that are held on it leave, give back and
//! settle.
#![tactic(auto)]

mod laws;

pub use laws::{
    a_rest_is_done_or_leaves_all, a_store_is_lawful, held_transactions_stand_apart,
    the_store_follows_the_records,
};
