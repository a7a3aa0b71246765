// Whether a message can be encoded, without encoding it.
ghost use Rattle.std.specs.Prelude.{◌≡◌, ◌&&◌, length, nat_lt};
ghost use Rattle.fc_msg.specs.Messages.{message_fits, selects_written};

use crate::encoding::MOST_BODY;
use crate::message::{Message, MsgBody};
use fc_path::{Select, written_select};

/// Whether `encode` refuses no message of these selects: they have no more bytes than a body may have, and no TLV in them has more than 65,535.
pub fn selects_fit(selects: &[Select]) -> bool
    ensures { result ≡ (nat_lt (length (selects_written selects.now).text) 262117 && (selects_written selects.now).fits) }
{
    let mut sum = 0usize;
    for select in selects {
        match written_select(select) {
            Some(size) => {
                if sum + size > MOST_BODY {
                    return false;
                }
                sum += size;
            }
            None => return false,
        }
    }
    true
}

/// Whether `encode` does not refuse the message: no TLV has more than 65,535 bytes, and the message no more than 65,535 words.
pub fn fits(message: &Message) -> bool
    ensures { result ≡ message_fits message.now }
{
    match &message.body {
        MsgBody::Setup(selects) => selects_fit(selects.as_slice()),
        MsgBody::SetupResponse(_) => true,
        MsgBody::Teardown(_) => true,
        MsgBody::Config(selects) => selects_fit(selects.as_slice()),
        MsgBody::ConfigResponse(selects) => selects_fit(selects.as_slice()),
        MsgBody::Query(selects) => selects_fit(selects.as_slice()),
        MsgBody::QueryResponse(selects) => selects_fit(selects.as_slice()),
        MsgBody::Event(selects) => selects_fit(selects.as_slice()),
        MsgBody::Heartbeat => true,
    }
}
