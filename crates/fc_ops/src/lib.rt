//! What a query is answered with: the contents of its leaves, those of them that its response has room for, and the response with them.
#![tactic(auto)]

mod asking;
mod choose;
mod filling;
mod laws;
mod offers;
mod questions;
mod selects;

pub use asking::{Prop, query};
pub use fc_path::fits_results;
pub use fc_value::Live;
pub use filling::{fill, oper_filled};
pub use laws::answers_fit;
pub use offers::{Content, Offers, content_size};
pub use questions::{Question, questions_of};
pub use selects::{answer_query, answer_selects};
