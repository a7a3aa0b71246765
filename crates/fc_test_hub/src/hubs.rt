// The hubs in memory at worked values.
ghost use Rattle.std.specs.Prelude.{IfOk, IsTrue};
ghost use Rattle.std.specs.List.{list_all};
ghost use Rattle.fc_hub.specs.Hubs.{is_given};

use crate::hearing::{hears_bytes, tells};
use crate::wanted::equal;
use fc_base::Octets;
use fc_hub::{Act, Hub, HubEvent, MemHub, SureHub};
use std::alloc::Global;
use std::test::Fail;

// A peer that opens, sends a byte and closes.
fn visit(alloc: Global) -> Result<Vec<HubEvent>, Fail>
    ensures { IfOk result (λ events. IsTrue (list_all is_given events.items)) }
{
    let mut events = Vec::new(alloc);
    events.push(HubEvent::Opened(1))?;
    events.push(HubEvent::Bytes(1, Octets::from_slice(alloc, &[7])?))?;
    events.push(HubEvent::Closed(1))?;
    Ok(events)
}

// What is done between the events of a visit: a peer that is not there is closed, and the visitor is sent bytes, also none at the end.
fn is_visited<H: Hub>(hub: &mut H) -> Result<(), Fail> {
    hub.close(9)?;
    tells(hub, HubEvent::Opened(1))?;
    hub.send(1, &[1, 2])?;
    hears_bytes(hub, 1, &[7])?;
    tells(hub, HubEvent::Closed(1))?;
    for _ in 0..2 {
        tells(hub, HubEvent::Over)?;
    }
    hub.send(1, &[])?;
    Ok(())
}

#[test]
fn a_hub_in_memory_counts_what_is_taken(rt: HostRuntime) -> Result<(), Fail> {
    let alloc = rt.alloc();
    let mut hub = SureHub::new(alloc, visit(alloc)?);
    is_visited(&mut hub)?;
    let wanted = [
        (0, Act::Shut(9)),
        (1, Act::Sent(1, Octets::from_slice(alloc, &[1, 2])?)),
        (3, Act::Sent(1, Octets::new(alloc))),
    ];
    assert!(rt; hub.acts() == wanted.as_slice());
    Ok(())
}

// Which of six calls of a hub came off, where the one with this number fails, and how many acts were done.
fn six_calls(alloc: Global, failing: u64) -> Result<([bool; 6], usize), Fail> {
    let mut listed = Vec::new(alloc);
    listed.push(failing)?;
    let mut hub = MemHub::new(alloc, visit(alloc)?, listed);
    let outcomes = [
        hub.next().is_ok(),
        hub.send(1, &[3]).is_ok(),
        hub.next().is_ok(),
        hub.close(1).is_ok(),
        hub.next().is_ok(),
        hub.next().is_ok(),
    ];
    let done = hub.acts().len();
    match hub.next()? {
        HubEvent::Over => Ok((outcomes, done)),
        _ => Err(Fail::from("an event that was told")),
    }
}

// Of six calls the one with this number fails alone, and so many acts are done.
fn fails_alone(alloc: Global, failing: u64, acts: usize) -> Result<(), Fail> {
    let (outcomes, done) = six_calls(alloc, failing)?;
    for (call, outcome) in (1..7u64).zip(outcomes) {
        equal(&(call, outcome), &(call, call != failing))?;
    }
    equal(&done, &acts)
}

#[test]
fn the_listed_calls_fail_and_change_nothing(rt: HostRuntime) -> Result<(), Fail> {
    for (failing, acts) in [(1, 2), (2, 1), (3, 2), (4, 1), (5, 2), (6, 2)] {
        fails_alone(rt.alloc(), failing, acts)?;
    }
    Ok(())
}
