// The steps of a script, made one after the other.
ghost use Rattle.std.specs.Prelude.{IfOk};
ghost use Rattle.fc_world.specs.Stages.{HasRound};

use crate::network::{first, script_of};
use fc_base::Duplicate;
use fc_scripts::Script;
use fc_world::{Refused, Step, World, WorldFault};
use std::alloc::Global;
use std::test::Fail;

// A step again, of the kinds that these tests make.
pub(crate) fn again(step: &Step) -> Result<Step, Fail>
    ensures { IfOk result HasRound }
{
    match step {
        Step::Start(number, 1) => Ok(Step::Start(*number, 1)),
        Step::Start(number, 16_777_215) => Ok(Step::Start(*number, 16_777_215)),
        Step::Stop(number) => Ok(Step::Stop(*number)),
        Step::Open(id, number) => Ok(Step::Open(*id, *number)),
        Step::Moment(id, moment) => Ok(Step::Moment(*id, *moment)),
        Step::Deliver(message) => Ok(Step::Deliver(*message)),
        Step::Begin(number, name) => {
            let name = name.copy().ok().ok_or("memory")?;
            Ok(Step::Begin(*number, name))
        }
        Step::Plain(number, name) => {
            let name = name.copy().ok().ok_or("memory")?;
            Ok(Step::Plain(*number, name))
        }
        Step::Resend(number, id) => Ok(Step::Resend(*number, *id)),
        Step::GiveUp(number, txn) => Ok(Step::GiveUp(*number, *txn)),
        Step::Forget(number) => Ok(Step::Forget(*number)),
        _ => Err(Fail::from("a step of another kind")),
    }
}

// A step was made, and no call of it is refused.
fn made(ended: Result<Option<Refused>, WorldFault>) -> Result<(), Fail> {
    match ended {
        Ok(None) => Ok(()),
        Ok(Some(_)) => Err(Fail::from("a call that is refused")),
        Err(_) => Err(Fail::from("a step that can't be made")),
    }
}

// Makes a step at its place in the script.
pub(crate) fn make(world: &mut World, place: usize, step: &Step) -> Result<(), Fail> {
    let step = again(step)?;
    made(world.step(place, step))
}

// Makes all steps.
fn make_all(world: &mut World, steps: &[(usize, Step)]) -> Result<(), Fail> {
    for step in steps {
        make(world, step.0, &step.1)?;
    }
    Ok(())
}

// The world of a script behind its last step.
pub(crate) fn played(alloc: Global, script: &Script) -> Result<World, Fail> {
    let mut world = first(alloc, script)?;
    make_all(&mut world, script.steps())?;
    Ok(world)
}

// The world behind these steps, one a line.
pub(crate) fn behind(alloc: Global, steps: &str) -> Result<World, Fail> {
    let script = script_of(alloc, steps)?;
    played(alloc, &script)
}
