// The steps that the texts of a script say, each with the place of its text.
ghost use Rattle.std.specs.Prelude.{◌≡◌, ◌++◌, nat_le, map, IfOk, OnOk};
ghost use Rattle.fc_library.specs.Gives.{Gives};
ghost use Rattle.fc_steps.specs.Steps.{step_of};
ghost use Rattle.fc_scripts.specs.Steps as spec;

use fc_base::{List, Memory, Text};
use fc_library::LibFault;
use fc_steps::{Step, StepText, read_step};
use std::alloc::Global;

// The most steps of a script, each delivery of a range counted.
const MOST_STEPS: usize = 100_000;

/// What each of the texts says.
pub(crate) fn read_steps(alloc: Global, texts: &[Text]) -> Result<List<Option<StepText>>, Memory>
    ensures { IfOk result (λ said. said ≡ map step_of texts.now) }
{
    let mut said = List::new(alloc);
    for text in texts {
        said.push(read_step(alloc, text.as_str())?)?;
    }
    Ok(said)
}

// How many deliveries a text says behind a first step.
fn behind_first(said: &Option<StepText>) -> usize
    ensures { result ≡ spec.behind_first said.now }
{
    match said {
        Some(StepText::Deliveries(first, last)) if *first <= *last => *last - *first,
        _ => 0,
    }
}

/// Whether there are not too many steps. A text that says none counts as one.
pub(crate) fn are_few(said: &[Option<StepText>]) -> bool
    ensures { result ≡ nat_le (spec.count said.now) 100000 }
{
    let mut left = MOST_STEPS;
    for text in said {
        let more = behind_first(text);
        if left <= more {
            return false;
        }
        left -= more + 1;
    }
    true
}

// Appends the deliveries of the messages from one place to another.
#[tactic(auto, using(crate::proofs::Stepping::last_delivery))]
fn put_deliveries(
    steps: &mut Vec<(usize, Step)>,
    place: usize,
    first: usize,
    last: usize,
) -> Result<(), Memory>
    ensures { OnOk result (steps.new.items ≡ steps.old.items ++ spec.deliveries place first last) }
{
    for message in first..last {
        steps.push((place, Step::Deliver(message)))?;
    }
    steps.push((place, Step::Deliver(last)))?;
    Ok(())
}

// Appends the steps that the text at a place says.
fn put(steps: &mut Vec<(usize, Step)>, place: usize, text: StepText) -> Result<(), Memory>
    ensures { OnOk result (steps.new.items ≡ steps.old.items ++ spec.steps_at place text) }
{
    match text {
        StepText::One(step) => {
            steps.push((place, step))?;
            Ok(())
        }
        StepText::Deliveries(first, last) => put_deliveries(steps, place, first, last),
    }
}

/// The steps of all texts, where each one says some.
#[tactic(auto, using(crate::proofs::Stepping::steps_go))]
pub(crate) fn steps_of(
    alloc: Global,
    said: List<Option<StepText>>,
) -> Result<List<(usize, Step)>, LibFault>
    ensures { Gives result (spec.steps_from 1 said) }
{
    let mut steps = Vec::new(alloc);
    let mut place = 1;
    for text in said.into_vec() {
        match text {
            Some(text) => put(&mut steps, place, text)?,
            None => return Err(LibFault::StepText(place)),
        }
        place += 1;
    }
    Ok(List::from_vec(steps))
}
