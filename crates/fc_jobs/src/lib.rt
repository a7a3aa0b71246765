//! What a life of a control element keeps of its elements and of its transactions, what is due at an element and how it is sent, and
//! what a response does to both (this profile's own, over the messages of RFC 5810).
#![tactic(auto)]

mod answers;
mod beginning;
mod deciding;
mod effects;
mod job;
mod needs;
mod progress;
mod recovery;
mod replies;
mod seat;
mod sending;
mod table;

pub use answers::{Heard, after_answer};
pub use deciding::decide;
pub use effects::{decided, is_same};
pub use fc_protocol::{Answer, Decision, Seen};
pub use job::{Job, Scoped};
pub use needs::LAST;
pub use replies::{Next, after_reply, place_of};
pub use seat::{Seat, Waits};
pub use sending::{CeOut, after_sending, send_due};
pub use table::{among, place};
