// The response to a Config.
ghost use Rattle.std.specs.Prelude.{◌≡◌, IfOk};
ghost use Rattle.fc_reply.specs.Replies as spec;

use crate::answering::answered_selects;
use fc_base::{Code, List, Memory};
use fc_msg::{Message, MsgBody};
use fc_path::Select;
use fc_wire::Flags;
use std::alloc::Global;

fn all_succeeded(codes: &[Code]) -> bool
    ensures { result ≡ spec.all_succeeded codes.now }
{
    for code in codes {
        if code.0 != 0 {
            return false;
        }
    }
    true
}

// Whether a response with these codes is sent, by the acknowledgement that is asked for.
fn is_wanted(ack: u8, codes: &[Code]) -> bool
    ensures { result ≡ spec.is_wanted ack codes.now }
{
    match ack {
        0 => false,
        1 => all_succeeded(codes),
        2 => !all_succeeded(codes),
        _ => true,
    }
}

fn no_flags() -> Flags
    ensures { result ≡ spec.no_flags }
{
    Flags {
        ack: 0,
        pri: 0,
        em: 0,
        at: false,
        tp: 0,
    }
}

// The response to a request that holds these selects.
fn response(request: &Message, selects: List<Select>) -> Message
    ensures { result ≡ spec.response request.now selects }
{
    Message {
        source: request.dest,
        dest: request.source,
        corr: request.corr,
        flags: no_flags(),
        body: MsgBody::ConfigResponse(selects),
    }
}

/// The response to a Config with these selects, whose operations have these codes, in their order; none where it is not sent. ACK 0 sends
/// none, ACK 1 where all codes are 00, ACK 2 where some code is not, and ACK 3 always; one that is left without a select is never sent.
pub fn reply(
    alloc: Global,
    request: &Message,
    selects: &[Select],
    codes: &[Code],
) -> Result<Option<Message>, Memory>
    ensures { IfOk result (λ sent. sent ≡ spec.reply request.now selects.now codes.now) }
{
    let others = answered_selects(alloc, selects, codes)?;
    if others.is_empty() || !is_wanted(request.flags.ack, codes) {
        return Ok(None);
    }
    Ok(Some(response(request, others)))
}
