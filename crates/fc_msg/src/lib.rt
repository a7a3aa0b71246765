//! Messages of the ForCES protocol (RFC 5810, section 7) and their bytes, both ways, and how a stream is cut into frames.
#![tactic(auto)]

mod body;
mod decoding;
mod encoding;
mod fault;
mod fitting;
mod heads;
mod laws;
mod message;
mod splitter;

pub use decoding::{decode, headed};
pub use encoding::{Encoder, MOST_BODY, append_framed, encode, write_number};
pub use fault::{MsgFault, Reason, Refusal};
pub use fitting::{fits, selects_fit};
pub use heads::{BodyHead, FrameHead};
pub use laws::{
    a_body_is_its_head_and_its_selects, any_pieces, body_faults_are_in_reading_order,
    canonical_is_spelled, first_broken_rule_is_told, judged_once, message_is_unique,
    no_spelling_is_a_front_of_another,
};
pub use message::{
    AS_REASON, AS_RESULT, CONFIG, CONFIG_RESPONSE, EVENT, HEARTBEAT, Message, MsgBody, QUERY,
    QUERY_RESPONSE, SETUP, SETUP_RESPONSE, TEARDOWN,
};
pub use splitter::{Splitter, read_behind, whole_frame};
