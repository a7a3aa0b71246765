//! Laws that bind what a control element hears in what an element sends to what the protocol of transactions says: each message is heard as one of those
//! of the protocol, whatever the control element has asked.
#![tactic(auto)]

mod laws;

pub use laws::{
    answers_are_heard, configs_are_heard, elements_are_heard, heartbeats_are_heard,
    notices_are_heard, questions_are_heard, responses_are_heard, responses_show_codes,
    wishes_are_heard,
};
