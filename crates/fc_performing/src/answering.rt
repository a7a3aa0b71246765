// The response to a Config.
ghost use Rattle.std.specs.Prelude.{◌≡◌, ◌∷◌, ◌&&◌, [], IfOk, true};
ghost use Rattle.std.specs.List.{AllByRecursion};
ghost use Rattle.fc_msg.specs.Messages.{IsProper, message_fits};
ghost use Rattle.fc_msg.specs.declared.message.MsgBody.TheVariants.{Config};
ghost use Rattle.fc_path.specs.Results.{results_fit};
ghost use Rattle.fc_reply.specs.Counting as counting;
ghost use Rattle.fc_reply.specs.Replies as replies;
ghost use Rattle.fc_performing.specs.Sending as spec;

use crate::Out;
use fc_base::{Code, Duplicate, List, Memory};
use fc_msg::{Message, fits};
use fc_path::{Select, fits_results};
use fc_reply::{each_gets, reply};
use std::alloc::Global;

/// What is sent for a Config, and the response in it, if there is one.
#[derive(Debug, Drop)]
pub struct Answered {
    pub outs: List<Out>,
    pub reply: Option<Message>,
}

/// Whether the response to a Config may be sent: that of results alone passes no length field, and neither does the Config itself.
pub fn can_be_answered(request: &Message, selects: &[Select]) -> bool
    ensures { result ≡ (results_fit selects.now && message_fits request.now) }
{
    fits_results(selects) && fits(request)
}

// A list of one message to a peer.
fn one(alloc: Global, peer: u32, message: Message) -> Result<List<Out>, Memory>
    requires { IsProper message }
    ensures sent { IfOk result (λ outs. outs ≡ spec.out peer message ∷ []) }
    ensures proper { IfOk result (λ outs. AllByRecursion spec.IsSaid outs) }
{
    let mut outs = List::new(alloc);
    outs.push(Out { peer, message })?;
    Ok(outs)
}

/// A response once more, if there is one.
pub fn repeated(alloc: Global, peer: u32, reply: &Option<Message>) -> Result<List<Out>, Memory>
    requires { spec.IsAnswer reply.now }
    ensures outs { IfOk result (λ outs. outs ≡ spec.responses peer reply.now) }
    ensures proper { IfOk result (λ outs. AllByRecursion spec.IsSaid outs) }
{
    match reply {
        Some(message) => one(alloc, peer, message.copy()?),
        None => Ok(List::new(alloc)),
    }
}

// The response to a Config whose operations have these codes, if one is sent.
fn answer(
    alloc: Global,
    request: &Message,
    selects: &[Select],
    codes: &[Code],
) -> Result<Option<Message>, Memory>
    requires proper { IsProper request.now }
    requires body { request.now.body ≡ Config selects.now }
    requires fits { results_fit selects.now ≡ true }
    ensures exact { IfOk result (λ sent. sent ≡ replies.reply request.now selects.now codes.now) }
    ensures proper { IfOk result (λ sent. spec.IsAnswer sent) }
{
    reply(alloc, request, selects, codes)
}

/// The response to a Config whose operations have these codes, if one is sent.
pub fn responses(
    alloc: Global,
    peer: u32,
    request: &Message,
    selects: &[Select],
    codes: &[Code],
) -> Result<Answered, Memory>
    requires proper { IsProper request.now }
    requires body { request.now.body ≡ Config selects.now }
    requires fits { results_fit selects.now ≡ true }
    ensures outs { IfOk result (λ answered. answered.outs ≡ spec.responses peer (replies.reply request.now selects.now codes.now)) }
    ensures said { IfOk result (λ answered. AllByRecursion spec.IsSaid answered.outs) }
    ensures reply { IfOk result (λ answered. answered.reply ≡ replies.reply request.now selects.now codes.now) }
    ensures proper { IfOk result (λ answered. spec.IsAnswer answered.reply) }
{
    let reply = answer(alloc, request, selects, codes)?;
    let outs = repeated(alloc, peer, &reply)?;
    Ok(Answered { outs, reply })
}

/// The response to a Config none of whose operations is done, and which all get one code.
pub fn refusals(
    alloc: Global,
    peer: u32,
    request: &Message,
    selects: &[Select],
    code: Code,
) -> Result<Answered, Memory>
    requires proper { IsProper request.now }
    requires body { request.now.body ≡ Config selects.now }
    requires fits { results_fit selects.now ≡ true }
    ensures outs { IfOk result (λ answered. answered.outs ≡ spec.responses peer (replies.reply request.now selects.now (counting.each_gets code selects.now))) }
    ensures said { IfOk result (λ answered. AllByRecursion spec.IsSaid answered.outs) }
    ensures reply { IfOk result (λ answered. answered.reply ≡ replies.reply request.now selects.now (counting.each_gets code selects.now)) }
    ensures proper { IfOk result (λ answered. spec.IsAnswer answered.reply) }
{
    let codes = each_gets(alloc, selects, code)?;
    responses(alloc, peer, request, selects, codes.as_slice())
}
