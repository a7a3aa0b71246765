// From a text to the step that it says.
ghost use Rattle.std.specs.Prelude.{◌≡◌, IfOk, option_map};
ghost use Rattle.fc_steps.specs.Steps as spec;
ghost use Rattle.fc_steps.specs.Words as words;
ghost use Rattle.fc_steps.specs.declared.step.Step.TheVariants as step;

use crate::step::{Step, StepText};
use crate::words::{at_hyphen, at_space, controller, element, is_name, long, round, txn};
use fc_base::{Memory, Text};
use std::alloc::Global;

/// What the text of a step says, or that it says none.
///
/// A text is the name of a step, and behind single spaces its words: `open ELEMENT CONTROLLER`, `deliver PLACE`, `deliver FIRST-LAST`,
/// `moment ELEMENT MILLISECONDS`, `start CONTROLLER ROUND`, `stop CONTROLLER`, `begin CONTROLLER NAME`, `plain CONTROLLER NAME`,
/// `giveup CONTROLLER EPOCH.NUMBER`, `resend CONTROLLER ELEMENT`, `forget CONTROLLER` or `restart ELEMENT`, with all numbers in decimal,
/// without a sign or leading zeros.
pub fn read_step(alloc: Global, text: &str) -> Result<Option<StepText>, Memory>
    ensures { IfOk result (λ said. said ≡ spec.step_of text.now) }
{
    match at_space(text) {
        Some((name, rest)) => of_name(alloc, name, rest),
        None => Ok(None),
    }
}

fn of_name(alloc: Global, name: &str, rest: &str) -> Result<Option<StepText>, Memory>
    ensures { IfOk result (λ said. said ≡ spec.of_name name.now rest.now) }
{
    match name {
        "open" => Ok(open(rest)),
        "deliver" => Ok(deliveries(rest)),
        "moment" => Ok(moment(rest)),
        "start" => Ok(start(rest)),
        "stop" => Ok(stop(rest)),
        "begin" => begin(alloc, rest),
        "plain" => plain(alloc, rest),
        "giveup" => Ok(give_up(rest)),
        "resend" => Ok(resend(rest)),
        "forget" => Ok(forget(rest)),
        "restart" => Ok(restart(rest)),
        _ => Ok(None),
    }
}

fn open(rest: &str) -> Option<StepText>
    ensures { result ≡ spec.of_two words.element words.controller step.Open rest.now }
{
    let (first, second) = at_space(rest)?;
    let fe = element(first)?;
    Some(StepText::One(Step::Open(fe, controller(second)?)))
}

fn deliveries(rest: &str) -> Option<StepText>
    ensures { result ≡ spec.deliveries rest.now }
{
    match long(rest) {
        Some(place) => Some(StepText::One(Step::Deliver(place as usize))),
        None => range(rest),
    }
}

fn range(rest: &str) -> Option<StepText>
    ensures { result ≡ spec.range rest.now }
{
    let (first, last) = at_hyphen(rest)?;
    let first = long(first)?;
    from_to(first, long(last)?)
}

fn from_to(first: u64, last: u64) -> Option<StepText>
    ensures { result ≡ spec.from_to first last }
{
    if first <= last {
        Some(StepText::Deliveries(first as usize, last as usize))
    } else {
        None
    }
}

fn moment(rest: &str) -> Option<StepText>
    ensures { result ≡ spec.of_two words.element words.long step.Moment rest.now }
{
    let (first, second) = at_space(rest)?;
    let fe = element(first)?;
    Some(StepText::One(Step::Moment(fe, long(second)?)))
}

fn start(rest: &str) -> Option<StepText>
    ensures { result ≡ spec.of_two words.controller words.round step.Start rest.now }
{
    let (first, second) = at_space(rest)?;
    let number = controller(first)?;
    Some(StepText::One(Step::Start(number, round(second)?)))
}

fn stop(rest: &str) -> Option<StepText>
    ensures { result ≡ spec.of_one words.controller step.Stop rest.now }
{
    Some(StepText::One(Step::Stop(controller(rest)?)))
}

// A controller's number, and a name behind it.
fn named(rest: &str) -> Option<(u8, &str)>
    ensures { option_map (λ p. (p.0, p.1.now)) result ≡ spec.named rest.now }
{
    let (first, name) = at_space(rest)?;
    let number = controller(first)?;
    if is_name(name) {
        Some((number, name))
    } else {
        None
    }
}

fn begin(alloc: Global, rest: &str) -> Result<Option<StepText>, Memory>
    ensures { IfOk result (λ said. said ≡ spec.of_two words.controller spec.name step.Begin rest.now) }
{
    match named(rest) {
        Some((number, name)) => Ok(Some(StepText::One(Step::Begin(
            number,
            Text::from_str(alloc, name)?,
        )))),
        None => Ok(None),
    }
}

fn plain(alloc: Global, rest: &str) -> Result<Option<StepText>, Memory>
    ensures { IfOk result (λ said. said ≡ spec.of_two words.controller spec.name step.Plain rest.now) }
{
    match named(rest) {
        Some((number, name)) => Ok(Some(StepText::One(Step::Plain(
            number,
            Text::from_str(alloc, name)?,
        )))),
        None => Ok(None),
    }
}

fn give_up(rest: &str) -> Option<StepText>
    ensures { result ≡ spec.of_two words.controller words.txn step.GiveUp rest.now }
{
    let (first, second) = at_space(rest)?;
    let number = controller(first)?;
    Some(StepText::One(Step::GiveUp(number, txn(second)?)))
}

fn resend(rest: &str) -> Option<StepText>
    ensures { result ≡ spec.of_two words.controller words.element step.Resend rest.now }
{
    let (first, second) = at_space(rest)?;
    let number = controller(first)?;
    Some(StepText::One(Step::Resend(number, element(second)?)))
}

fn forget(rest: &str) -> Option<StepText>
    ensures { result ≡ spec.of_one words.controller step.Forget rest.now }
{
    Some(StepText::One(Step::Forget(controller(rest)?)))
}

fn restart(rest: &str) -> Option<StepText>
    ensures { result ≡ spec.of_one words.element step.Restart rest.now }
{
    Some(StepText::One(Step::Restart(element(rest)?)))
}
