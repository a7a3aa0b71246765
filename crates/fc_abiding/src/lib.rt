//! Laws on what Configs do at an element that goes by its fence: that it is what the protocol of transactions says, that what a life
//! sends that was replaced does nothing, and what so holds of an element over every list of Configs.
#![tactic(auto)]

mod laws;

pub use laws::{
    configs_abide, names_stay, new_elements_are_named, one_element, replaced_lives_do_nothing,
    responses_are_read, responses_are_told, stale_configs_do_nothing,
};
