// What the text of a step says.
use crate::scripts::texts::TEXTS;
use fc_steps::{Step, StepText, read_step};
use std::alloc::Global;
use std::test::Fail;

// A step as its text.
pub(crate) fn step_line(alloc: Global, step: &Step) -> Result<String, Fail> {
    match step {
        Step::Open(element, controller) => {
            let id = element.get();
            Ok(format!(in alloc; "open {id} {controller}")?)
        }
        Step::Deliver(place) => Ok(format!(in alloc; "deliver {place}")?),
        Step::Moment(element, moment) => {
            let id = element.get();
            Ok(format!(in alloc; "moment {id} {moment}")?)
        }
        Step::Start(controller, round) => Ok(format!(in alloc; "start {controller} {round}")?),
        Step::Stop(controller) => Ok(format!(in alloc; "stop {controller}")?),
        _ => other_line(alloc, step),
    }
}

fn other_line(alloc: Global, step: &Step) -> Result<String, Fail> {
    match step {
        Step::Begin(controller, name) => {
            let name = name.as_str();
            Ok(format!(in alloc; "begin {controller} {name}")?)
        }
        Step::Plain(controller, name) => {
            let name = name.as_str();
            Ok(format!(in alloc; "plain {controller} {name}")?)
        }
        Step::GiveUp(controller, txn) => Ok(format!(in alloc; "giveup {controller} {txn}")?),
        Step::Resend(controller, element) => {
            let id = element.get();
            Ok(format!(in alloc; "resend {controller} {id}")?)
        }
        Step::Forget(controller) => Ok(format!(in alloc; "forget {controller}")?),
        Step::Restart(element) => {
            let id = element.get();
            Ok(format!(in alloc; "restart {id}")?)
        }
        _ => Err(Fail::from("a step of the first ones")),
    }
}

// What a text says, or `none`.
fn said(alloc: Global, text: &str) -> Result<String, Fail> {
    let said = read_step(alloc, text).ok().ok_or("memory")?;
    match &said {
        Some(StepText::One(step)) => step_line(alloc, step),
        Some(StepText::Deliveries(first, last)) => {
            Ok(format!(in alloc; "deliver {first} to {last}")?)
        }
        None => Ok(format!(in alloc; "none")?),
    }
}

#[test]
fn texts_say_their_steps(rt: HostRuntime) -> Result<(), Fail> {
    let alloc = rt.alloc();
    for line in TEXTS.split("\n") {
        let (text, wanted) = line.split_once(" => ").ok_or(line)?;
        let said = said(alloc, text)?;
        assert_eq!(rt; said.as_str(), wanted, "{line}");
    }
    Ok(())
}

#[test]
fn what_a_table_can_not_hold_says_nothing(rt: HostRuntime) -> Result<(), Fail> {
    for text in ["", " ", "open\t1 1", "stop 1\n", "stop\u{a0}1"] {
        let said = said(rt.alloc(), text)?;
        assert_eq!(rt; said.as_str(), "none");
    }
    Ok(())
}
