// The steps of a script, one after the other.
ghost use Rattle.std.specs.Prelude.{◌≡◌, IfOk};
ghost use Rattle.std.specs.List.{AllByRecursion};
ghost use Rattle.fc_scripts.specs.Kept.{CanBeSaid};
ghost use Rattle.fc_world.specs.Played.{world_of};
ghost use Rattle.fc_world.specs.Stages.{HasRound};
ghost use Rattle.fc_playing.specs.Playing.{IsMade, PlaysTo, played};

use fc_base::{Duplicate, Memory};
use fc_steps::Step;
use fc_world::{World, WorldFault};

/// A step that can't be made: the place of its text, counted from 1, and why.
#[derive(Clone, Copy, Debug, PartialEq, Eq)]
pub struct StepFault {
    pub place: usize,
    pub fault: WorldFault,
}

// The step once more.
fn copy_of(step: &Step) -> Result<Step, Memory>
    ensures { IfOk result (λ other. other ≡ step.now) }
{
    match step {
        Step::Open(id, number) => Ok(Step::Open(*id, *number)),
        Step::Deliver(message) => Ok(Step::Deliver(*message)),
        Step::Moment(id, moment) => Ok(Step::Moment(*id, *moment)),
        Step::Start(number, round) => Ok(Step::Start(*number, *round)),
        Step::Stop(number) => Ok(Step::Stop(*number)),
        Step::Begin(number, name) => Ok(Step::Begin(*number, name.copy()?)),
        Step::Plain(number, name) => Ok(Step::Plain(*number, name.copy()?)),
        Step::GiveUp(number, txn) => Ok(Step::GiveUp(*number, *txn)),
        Step::Resend(number, id) => Ok(Step::Resend(*number, *id)),
        Step::Forget(number) => Ok(Step::Forget(*number)),
        Step::Restart(id) => Ok(Step::Restart(*id)),
    }
}

// Makes a step, if it can be made. A call of it that is refused is no fault: the world keeps it for its report.
fn make_step(world: &mut World, place: usize, step: &Step) -> Result<Option<StepFault>, Memory>
    requires { HasRound step.now }
    ensures { IfOk result (λ fault. IsMade fault world.old place step.now world.new) }
{
    let step = copy_of(step)?;
    match world.step(place, step) {
        Ok(_) => Ok(None),
        Err(WorldFault::Memory) => Err(Memory),
        Err(fault) => Ok(Some(StepFault { place, fault })),
    }
}

/// Makes the steps in their order, up to the first that can't be made.
pub fn play(world: &mut World, steps: &[(usize, Step)]) -> Result<Option<StepFault>, Memory>
    requires { AllByRecursion CanBeSaid steps.now }
    ensures { IfOk result (λ fault. PlaysTo fault (played world.old.setting.transactions (world_of world.old) steps.now) (world_of world.new)) }
{
    for step in steps {
        if let Some(fault) = make_step(world, step.0, &step.1)? {
            return Ok(Some(fault));
        }
    }
    Ok(None)
}
