//! What SET, DEL, a merge and marks do to the whole configuration of an element, instance by instance and cell by cell.
#![tactic(auto)]

mod laws;

pub use laws::{
    a_change_stays_in_its_component, a_merge_changes_what_it_names, a_removal_takes_one_entry,
    a_set_changes_one_place, a_settled_copy_goes_back, a_spot_leads_to_one_place, fits_everywhere,
    operations_do_not_depend, the_configuration_is_a_map,
};
