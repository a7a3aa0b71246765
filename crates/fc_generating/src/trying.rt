// The steps of a large run, one after the other.
ghost use Rattle.std.specs.Prelude.{◌≡◌, ◌≢◌, ◌∷◌, ℕ, List, IfOk, OnOk};
ghost use Rattle.std.specs.List.{AllByRecursion};
ghost use Rattle.fc_scripts.specs.Kept.{CanBeSaid};
ghost use Rattle.fc_steps.specs.declared.step.Step.{Step};
ghost use Rattle.fc_world.specs.Played.{world_of};
ghost use Rattle.fc_world.specs.Stages.{HasRound};
ghost use Rattle.fc_world.specs.Trails.{trail_of};
ghost use Rattle.fc_world.specs.declared.faults.WorldFault.TheVariants as faults;
ghost use Rattle.fc_generating.specs.Trying.{Follows, last_world, tried, tried_behind};

use fc_base::Memory;
use fc_scripts::Script;
use fc_steps::Step;
use fc_world::{Trail, World, WorldFault};
use std::alloc::Global;
use std::mem;

/// A world, and the trail of all messages that were sent in it.
#[derive(Drop)]
pub(crate) struct Run {
    pub world: World,
    pub trail: u32,
    ghost all: { trail ≡ trail_of (world_of world).sent },
}

// Whatever fault it was, it was not want of memory.
fn not_memory(fault: WorldFault) -> Result<(), Memory>
    ensures { OnOk result (fault ≢ faults.Memory) }
{
    match fault {
        WorldFault::Memory => Err(Memory),
        _ => Ok(()),
    }
}

// Makes a step, if it can be made, and tells whether it was. The trail goes past what was sent while that is still at hand.
fn try_step(world: &mut World, trail: &mut Trail, place: usize, step: Step) -> Result<bool, Memory>
    requires round { HasRound step }
    requires follows { Follows trail.old (world_of world.old) }
    ensures setting { OnOk result (world.new.setting ≡ world.old.setting) }
    ensures tried { IfOk result (λ made. (rest : List (ℕ × Step)) → tried world.old.setting.transactions (world_of world.old) ((place, step) ∷ rest) ≡ tried_behind made world.old.setting.transactions (world_of world.new) rest) }
    ensures follows { OnOk result (Follows trail.new (world_of world.new)) }
{
    match world.step(place, step) {
        Ok(_) => {
            trail.go_on(world)?;
            Ok(true)
        }
        Err(fault) => {
            not_memory(fault)?;
            Ok(false)
        }
    }
}

// Makes the steps in their order, up to the first that can't be made.
fn try_all(world: &mut World, trail: &mut Trail, steps: Vec<(usize, Step)>) -> Result<(), Memory>
    requires said { AllByRecursion CanBeSaid steps.items }
    requires follows { Follows trail.old (world_of world.old) }
    ensures tried { OnOk result (world_of world.new ≡ tried world.old.setting.transactions (world_of world.old) steps.items) }
    ensures follows { OnOk result (Follows trail.new (world_of world.new)) }
{
    for (place, step) in steps {
        if !try_step(world, trail, place, step)? {
            return Ok(());
        }
    }
    Ok(())
}

/// The last world of a script, and its trail.
pub(crate) fn played(alloc: Global, script: Script) -> Result<Run, Memory>
    ensures { IfOk result (λ run. world_of run.world ≡ last_world script) }
{
    let mut world = World::new(alloc, &script)?;
    let mut trail = Trail::new(alloc);
    let Script {
        steps,
        transactions,
        ..
    } = script;
    // The world has its own, and nothing asks for the room of these again before the program ends.
    mem::forget(transactions);
    try_all(&mut world, &mut trail, steps.into_vec())?;
    Ok(Run {
        world,
        trail: trail.number(),
    })
}
