// Plays over a network in memory: what its peers do, what is done at the hub, and what the hub is to tell.
use crate::played::{Answer, Played, byte_at};
use fc_base::{List, Memory, Text, Trouble};
use fc_hub::{Accepted, Hub, HubEvent, TcpHub, Wires};
use std::alloc::Global;
use std::test::Fail;

// A step of a play. A connection is named by its slot, a peer by its number.
#[derive(Clone, Copy, Debug)]
pub(crate) enum Step {
    // So many connections arrive.
    Arrive(u32),
    // From now on accepting tells this, and a listener that nobody waits at tells nothing.
    Accepting(Accepted),
    // A connection says so many bytes, takes so many more, or ends.
    Says(usize, u64),
    Takes(usize, u64),
    Ends(usize),
    // New connections take so many bytes.
    TakeAtFirst(u64),
    // So much time passes at once.
    Pass(u64),
    // The clock can't be read.
    Timeless,
    // So many bytes are sent to a peer, from this place of all that it is sent.
    Send(u32, u64, u64),
    Close(u32),
    // All that is kept is sent.
    Finish,
    // The next event that is no moment.
    Opened(u32),
    // These peers open, one after the other.
    AllOpened(u32, u32),
    Bytes(u32, usize),
    Closed(u32),
    Over,
    // The next events are so many moments.
    Moments(u32),
    // The next call fails.
    Fails,
    // The time is this.
    At(u64),
    // A connection took so many bytes, as they were sent, and whether it is told that nothing more is sent.
    Took(usize, u64, bool),
    // Whether a slot has a connection.
    Stands(usize, bool),
    // At these times addresses were dialled.
    Dialled(&'static [u64]),
}

// The bytes of a connection from a place on.
pub(crate) fn bytes_from(alloc: Global, place: u64, count: u64) -> Result<Vec<u8>, Memory> {
    let mut bytes = Vec::new(alloc);
    for at in 0..count {
        bytes.push(byte_at(place.saturating_add(at)))?;
    }
    Ok(bytes)
}

// What the network does in a step; whether it is one of those.
fn network_does(network: &mut Played, step: Step) -> bool {
    match step {
        Step::Arrive(count) => network.arriving = network.arriving.saturating_add(count),
        Step::Accepting(accepting) => network.accepting = accepting,
        Step::Pass(milliseconds) => network.now = network.now.saturating_add(milliseconds),
        Step::Timeless => network.is_timeless = true,
        Step::TakeAtFirst(count) => network.takes = count,
        Step::Says(slot, _) | Step::Takes(slot, _) | Step::Ends(slot) => line_does(
            network, slot, step,
        ),
        _ => return false,
    }
    true
}

// What a connection does in a step.
fn line_does(network: &mut Played, slot: usize, step: Step) {
    let mut line = network.line(slot);
    match step {
        Step::Says(_, count) => line.says = line.says.saturating_add(count),
        Step::Takes(_, count) => line.takes = line.takes.saturating_add(count),
        _ => line.has_ended = true,
    }
    network.put(slot, line);
}

// Whether the network has come to what a step wants.
fn network_is(network: &Played, step: Step) -> bool {
    match step {
        Step::At(time) => network.now == time,
        Step::Took(slot, count, is_shut) => {
            let line = network.line(slot);
            line.took == count && line.is_shut == is_shut && !line.is_wrong
        }
        Step::Stands(slot, is_there) => network.line(slot).is_there == is_there,
        Step::Dialled(times) => network.dialled.as_slice() == times,
        _ => false,
    }
}

// The next event that is no moment, within an hour.
fn event(hub: &mut TcpHub<Played>) -> Result<HubEvent, Trouble> {
    for _ in 0..3600u32 {
        match hub.next()? {
            HubEvent::Moment(_) => {}
            event => return Ok(event),
        }
    }
    Err(Trouble::Failed)
}

// Whether so many moments come, one after the other.
fn are_moments(hub: &mut TcpHub<Played>, count: u32) -> Result<bool, Trouble> {
    for _ in 0..count {
        if !matches!(hub.next()?, HubEvent::Moment(_)) {
            return Ok(false);
        }
    }
    Ok(true)
}

// Whether these peers open, one after the other.
fn all_open(hub: &mut TcpHub<Played>, first: u32, last: u32) -> Result<bool, Trouble> {
    for peer in first..=last {
        if event(hub)? != HubEvent::Opened(peer) {
            return Ok(false);
        }
    }
    Ok(true)
}

// Whether the next event is that so many bytes come from a peer.
fn are_bytes(hub: &mut TcpHub<Played>, peer: u32, count: usize) -> Result<bool, Trouble> {
    match event(hub)? {
        HubEvent::Bytes(from, bytes) => Ok(from == peer && bytes.as_slice().len() == count),
        _ => Ok(false),
    }
}

// Sends so many bytes to a peer, from a place of all that it is sent.
fn is_sent(
    alloc: Global,
    hub: &mut TcpHub<Played>,
    peer: u32,
    place: u64,
    count: u64,
) -> Result<bool, Trouble> {
    let bytes = bytes_from(alloc, place, count)?;
    Ok(hub.send(peer, bytes.as_slice()).is_ok())
}

// Whether the next event that is no moment is this one.
fn is_next(hub: &mut TcpHub<Played>, wanted: &HubEvent) -> Result<bool, Trouble> {
    Ok(event(hub)? == *wanted)
}

// Does a step at the hub, and tells whether it comes to what it is to.
fn is_done(alloc: Global, hub: &mut TcpHub<Played>, step: Step) -> Result<bool, Trouble> {
    match step {
        Step::Send(peer, place, count) => is_sent(alloc, hub, peer, place, count),
        Step::Close(peer) => Ok(hub.close(peer).is_ok()),
        Step::Finish => {
            hub.finish();
            Ok(true)
        }
        Step::Opened(peer) => all_open(hub, peer, peer),
        Step::AllOpened(first, last) => all_open(hub, first, last),
        Step::Closed(peer) => is_next(hub, &HubEvent::Closed(peer)),
        Step::Over => is_next(hub, &HubEvent::Over),
        Step::Bytes(peer, count) => are_bytes(hub, peer, count),
        Step::Moments(count) => are_moments(hub, count),
        Step::Fails => Ok(hub.next() == Err(Trouble::Failed)),
        _ => Ok(network_is(hub.wires(), step)),
    }
}

// A play.
pub(crate) fn play(
    alloc: Global,
    hub: &mut TcpHub<Played>,
    name: &str,
    steps: &[Step],
) -> Result<(), Fail> {
    for (at, step) in steps.iter().enumerate() {
        if network_does(hub.wires(), *step) {
            continue;
        }
        let answer = is_done(alloc, hub, *step);
        if answer != Ok(true) {
            let now = hub.wires().now;
            return Err(Fail::new(format_args!("{name}: step {at}, {step:?}: {answer:?} at {now}")));
        }
    }
    Ok(())
}

// A hub that listens in a network at a time, for so many connections.
pub(crate) fn listening(alloc: Global, now: u64, connections: u32) -> Result<TcpHub<Played>, Fail> {
    Ok(TcpHub::listen_over(alloc, Played::new(alloc, now), "127.0.0.1:1", connections)?)
}

// A hub that dials so many addresses, for so many connections.
pub(crate) fn dialling(
    alloc: Global,
    addresses: u32,
    connections: u32,
    answer: Answer,
    names: usize,
) -> Result<TcpHub<Played>, Fail> {
    let mut list = List::new(alloc);
    for _ in 0..addresses {
        list.push(Text::from_str(alloc, "127.0.0.1:1")?)?;
    }
    let mut network = Played::new(alloc, 777);
    network.answer = answer;
    network.names = names;
    Ok(TcpHub::dial_over(alloc, network, list, connections))
}
