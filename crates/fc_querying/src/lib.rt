//! Laws that bind all of what an element does with a Config, and what it answers to the two questions of a master, to the protocol of transactions:
//! what it becomes, what it keeps to answer the same Config again, and what it says.
#![tactic(auto)]

mod configs;
mod questions;

pub use configs::{
    configs_go_by_the_protocol, elements_have_mastership, elements_keep_the_reply,
    lives_keep_the_reply,
};
pub use questions::{
    answers_are_read, elements_answer_questions, elements_can_be_asked, questions_are_answered,
};
