//! What SET, DEL and a merge do to the value of a component, said of its flat map of cells.
#![tactic(auto)]

mod laws;

pub use laws::{
    a_merge_changes_what_it_names, a_path_leads_to_one_place, a_removal_takes_one_entry,
    a_set_changes_one_place, cells_tell_the_value, changes_keep_the_type,
};
