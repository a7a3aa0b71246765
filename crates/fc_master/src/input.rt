// What comes to a control element.

use fc_base::FeId;
use fc_msg::Message;

/// What comes to a control element.
#[derive(Debug, PartialEq, Eq, Drop)]
pub enum CeIn {
    /// A message of an element.
    Arrived(FeId, Message),
    /// A moment, in milliseconds.
    Moment(u64),
}
