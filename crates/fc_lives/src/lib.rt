//! Laws of a whole element, over every list of inputs from any peers: what it settles and works on is what its transactions make of it, and what it
//! has registered and tells goes by what it has settled.
#![tactic(auto)]

mod events;
mod laws;

pub use events::{
    an_element_tells_of_its_settled_configuration, notices_are_the_reports,
    registered_events_are_settled, registered_events_are_sound, registered_events_pass,
};
pub use laws::{
    elements_fold, elements_keep_to_the_protocol, kept_rests_can_be_sent,
    replaced_lives_change_no_element, stale_configs_change_no_element,
};
