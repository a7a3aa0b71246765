// That a network which wants memory is as it was before, and makes the same step afterwards: `rt try --test --fail-alloc N` lets the Nth allocation
// fail.
use crate::cases::is_reported;
use crate::network::{first, reported, script_of};
use crate::steps::{again, make};
use fc_world::{Step, World, WorldFault};
use std::alloc::Global;
use std::test::Fail;

// The control element starts, both elements have a connection, a transaction completes at both, the floor rises past it, and a plain change is
// refused, of which the element is asked.
const STEPS: &str = "start 1 1
open 1 1
open 2 1
deliver 1-12
begin 1 t
deliver 13-28
forget 1
deliver 29-32
plain 1 ro
deliver 33-36";

// What is reported in the end.
const REPORT: &str = "element 1 epoch 257 ce 40000001 sequence 6
floor 257.2
config 00001001 00000001 1 0000000A
element 2 epoch 257 ce 40000001 sequence 5
floor 257.2
config 00001001 00000001 1 00000014
controller 1 round 1 epoch 257
txn 257.1 completed
controller 2 stopped
sent 36
";

// Whether a step is made at once, or has changed nothing where it wanted memory, and is made then.
fn is_made(alloc: Global, world: &mut World, place: usize, step: &Step) -> Result<bool, Fail> {
    let before = reported(alloc, world)?;
    let same = again(step)?;
    match world.step(place, same) {
        Ok(None) => return Ok(true),
        Err(WorldFault::Memory) => {}
        _ => return Ok(false),
    }
    let after = reported(alloc, world)?;
    make(world, place, step)?;
    Ok(before.as_slice() == after.as_slice())
}

#[test]
fn a_refused_allocation_changes_nothing(rt: HostRuntime) -> Result<(), Fail> {
    let alloc = rt.alloc();
    let script = script_of(alloc, STEPS)?;
    let mut world = first(alloc, &script)?;
    for step in script.steps() {
        assert!(rt; is_made(alloc, &mut world, step.0, &step.1)?);
    }
    assert!(rt; is_reported(alloc, &world, REPORT)?);
    Ok(())
}
