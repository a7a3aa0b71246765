//! Laws on what a control element says: each message is one that the grammar of RFC 5810 has, and each of its lengths fits its field. Where
//! messages become bytes, none that is so is left out.
#![tactic(auto)]

mod laws;

pub use laws::{
    all_is_sent, control_elements_stay_clear, masters_begin_clear, masters_stay_clear,
    planned_changes_are_changes, turns_stay_clear, what_is_well_formed_is_proper,
};
