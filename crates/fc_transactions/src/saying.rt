// Responses to Configs of which no event is told.
ghost use Rattle.std.specs.Prelude.{◌≡◌, ◌==◌, ◌∷◌, IfOk, true};
ghost use Rattle.fc_msg.specs.Messages.{IsProper};
ghost use Rattle.fc_msg.specs.declared.message.MsgBody.TheVariants.{Config};
ghost use Rattle.fc_path.specs.Results.{results_fit};
ghost use Rattle.fc_performing.specs.Notices.{route};
ghost use Rattle.fc_reply.specs.Counting.{each_gets as gets};
ghost use Rattle.fc_transactions.specs.Done.{IsAnswered};

use fc_base::{Code, FeId, List, Memory};
use fc_msg::Message;
use fc_path::Select;
use fc_performing::{Answered, Route, responses};
use fc_reply::each_gets;
use std::alloc::Global;

/// Whether a code is that of success.
pub fn is_success(code: Code) -> bool
    ensures { result ≡ (code == 0) }
{
    code.0 == 0
}

/// The way of what is sent to the sender of a Config, by an element of this ID.
pub fn route_back(id: FeId, peer: u32, request: &Message) -> Route
    ensures { result ≡ route id request.now.source peer }
{
    Route {
        from: id.get(),
        to: request.source,
        peer,
    }
}

/// The response to a Config whose operations have these codes.
pub fn answer(
    alloc: Global,
    peer: u32,
    request: &Message,
    selects: &[Select],
    codes: &[Code],
) -> Result<Answered, Memory>
    requires proper { IsProper request.now }
    requires body { request.now.body ≡ Config selects.now }
    requires fits { results_fit selects.now ≡ true }
    ensures { IfOk result (λ answered. IsAnswered peer request.now selects.now codes.now answered) }
{
    responses(alloc, peer, request, selects, codes)
}

/// The response to a Config each of whose operations gets this code, and nothing is done.
pub fn all_get(
    alloc: Global,
    peer: u32,
    request: &Message,
    selects: &[Select],
    code: Code,
) -> Result<Answered, Memory>
    requires proper { IsProper request.now }
    requires body { request.now.body ≡ Config selects.now }
    requires fits { results_fit selects.now ≡ true }
    ensures { IfOk result (λ answered. IsAnswered peer request.now selects.now (gets code selects.now) answered) }
{
    let codes = each_gets(alloc, selects, code)?;
    answer(alloc, peer, request, selects, codes.as_slice())
}

// The code of the first operation, and those of the others.
fn with_first(alloc: Global, first: Code, others: &[Code]) -> Result<List<Code>, Memory>
    ensures { IfOk result (λ codes. codes ≡ first ∷ others.now) }
{
    let mut codes = Vec::new(alloc);
    codes.push(first)?;
    codes.extend_from_slice(others)?;
    Ok(List::from_vec(codes))
}

/// The response to a Config whose first operation has this code, and whose others have these.
pub fn answer_first(
    alloc: Global,
    peer: u32,
    request: &Message,
    selects: &[Select],
    first: Code,
    others: &[Code],
) -> Result<Answered, Memory>
    requires proper { IsProper request.now }
    requires body { request.now.body ≡ Config selects.now }
    requires fits { results_fit selects.now ≡ true }
    ensures { IfOk result (λ answered. IsAnswered peer request.now selects.now (first ∷ others.now) answered) }
{
    let codes = with_first(alloc, first, others)?;
    answer(alloc, peer, request, selects, codes.as_slice())
}

/// The response to a Config whose first operation is refused with this code, and so is all that comes with it.
pub fn refuse(
    alloc: Global,
    peer: u32,
    request: &Message,
    selects: &[Select],
    rest: &[Select],
    code: Code,
) -> Result<Answered, Memory>
    requires proper { IsProper request.now }
    requires body { request.now.body ≡ Config selects.now }
    requires fits { results_fit selects.now ≡ true }
    ensures { IfOk result (λ answered. IsAnswered peer request.now selects.now (code ∷ gets 255 rest.now) answered) }
{
    let others = each_gets(alloc, rest, Code::UNSPECIFIED_ERROR)?;
    answer_first(alloc, peer, request, selects, code, others.as_slice())
}
