// What a network element tells of itself where no report says it: its messages by number, its elements, its jobs, and its trail.
use crate::cases::is_reported;
use crate::steps::{behind, make};
use fc_base::FeId;
use fc_world::{Step, World, WorldFault};
use std::alloc::Global;
use std::test::Fail;

// Both elements belong to control element 1, which has begun a transaction.
const BEGUN: &str = "start 1 1
open 1 1
open 2 1
deliver 1-12
begin 1 t";

// And both have completed it.
const COMPLETED: &str = "start 1 1
open 1 1
open 2 1
deliver 1-12
begin 1 t
deliver 13-28";

#[test]
fn messages_are_counted_from_one(rt: HostRuntime) -> Result<(), Fail> {
    let world = behind(rt.alloc(), BEGUN)?;
    let found = (
        world.message(0).is_some(),
        world.message(14).is_some(),
        world.message(15).is_some(),
        world.message(usize::MAX).is_some(),
    );
    assert!(rt; found == (false, true, false, false));
    Ok(())
}

// The report on the element of this ID.
fn reported_of(alloc: Global, world: &World, id: u32) -> Result<Vec<u8>, Fail> {
    let id = FeId::of(id).ok_or("an element")?;
    let mut text = Vec::new(alloc);
    let element = world.element(id).ok_or("no such element")?;
    element.report(&mut text).ok().ok_or("memory")?;
    Ok(text)
}

const SECOND: &str = "element 2 epoch 257 ce 40000001 sequence 4
record 257.1 completed
config 00001001 00000001 1 00000014
";

#[test]
fn an_element_is_reported_alone(rt: HostRuntime) -> Result<(), Fail> {
    let alloc = rt.alloc();
    let world = behind(alloc, COMPLETED)?;
    let text = reported_of(alloc, &world, 2)?;
    assert!(rt; text.as_slice() == SECOND.as_bytes());
    Ok(())
}

// How many transactions a control element drives, where it runs.
fn jobs(world: &World, number: u8) -> Option<usize> {
    let master = world.master(number)?;
    Some(master.jobs().len())
}

#[test]
fn a_control_element_has_its_jobs_while_it_runs(rt: HostRuntime) -> Result<(), Fail> {
    let world = behind(rt.alloc(), BEGUN)?;
    let found = (jobs(&world, 1), jobs(&world, 2), jobs(&world, 255));
    assert!(rt; found == (Some(1), None, None));
    Ok(())
}

#[test]
fn the_trail_is_made_of_all_bytes(rt: HostRuntime) -> Result<(), Fail> {
    let alloc = rt.alloc();
    let new = behind(alloc, "")?;
    assert_eq!(rt; new.trail().ok(), Some(0));
    let opened = behind(alloc, "open 1 1")?;
    assert_eq!(rt; opened.trail().ok(), Some(2_351_269_942));
    Ok(())
}

#[test]
fn no_message_has_the_greatest_number(rt: HostRuntime) -> Result<(), Fail> {
    let mut world = behind(rt.alloc(), "")?;
    let ended = world.step(1, Step::Deliver(usize::MAX));
    assert_eq!(rt; ended, Err(WorldFault::NoSuchMessage));
    Ok(())
}

// 100,000 steps. What comes to a control element that stands still is lost.
fn play_long(world: &mut World) -> Result<(), Fail> {
    for _ in 0..99_999u32 {
        make(world, 1, &Step::Deliver(1))?;
    }
    Ok(())
}

// What is reported then: nothing was answered.
const UNANSWERED: &str = "element 1 epoch 0 ce 40000001 sequence 0
element 2 epoch 0 ce 40000001 sequence 0
controller 1 stopped
controller 2 stopped
sent 1
";

#[test]
fn a_hundred_thousand_steps_are_made(rt: HostRuntime) -> Result<(), Fail> {
    let alloc = rt.alloc();
    let mut world = behind(alloc, "open 1 1")?;
    play_long(&mut world)?;
    assert!(rt; is_reported(alloc, &world, UNANSWERED)?);
    Ok(())
}
