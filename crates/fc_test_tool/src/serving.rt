// The command `element`, through `run` over hubs in memory: messages that are cut anywhere, and calls that fail in turn.
use crate::running::failing;
use fc_base::{MemSink, MemSource, Octets, Sink, Source, SureSink, SureSource};
use fc_hub::{Act, HubEvent, MemHub, SureHub, SureRounds};
use fc_test_kit::{are_given, bytes_of, words_of};
use fc_tool::run;
use std::alloc::Global;
use std::test::Fail;

const SETUP: [u8; 24] = [
    0x10, 0x01, 0, 6, 0, 0, 0, 2, 0xff, 0xff, 0xff, 0xfd, 0, 0, 0, 0, 0, 0, 0, 0, 0xc0, 0, 0, 0,
];

const ACCEPTED: [u8; 32] = [
    0x10, 0x11, 0, 8, 0x40, 0, 0, 1, 0, 0, 0, 2, 0, 0, 0, 0, 0, 0, 0, 0, 0, 0, 0, 0, 0, 0x10, 0, 8,
    0, 0, 0, 0,
];

const ASKING: [u8; 24] = [
    0x10, 0x0f, 0, 6, 0x40, 0, 0, 1, 0, 0, 0, 2, 0, 0, 0, 0, 0, 0, 0, 0, 0xc0, 0, 0, 0,
];

const ANSWER: [u8; 24] = [
    0x10, 0x0f, 0, 6, 0, 0, 0, 2, 0x40, 0, 0, 1, 0, 0, 0, 0, 0, 0, 0, 0, 0, 0, 0, 0,
];

const REPORT: &str = "element 2 epoch 0 ce 40000001 sequence 0\n";

pub(crate) fn bytes_event(alloc: Global, peer: u32, bytes: &[u8]) -> Result<HubEvent, Fail> {
    Ok(HubEvent::Bytes(peer, Octets::from_slice(alloc, bytes)?))
}

// A connection opens, and sends these bytes one after the other.
fn visit(alloc: Global, pieces: &[&[u8]]) -> Result<Vec<HubEvent>, Fail> {
    let mut events = Vec::new(alloc);
    events.push(HubEvent::Opened(1))?;
    for bytes in pieces {
        events.push(bytes_event(alloc, 1, bytes)?)?;
    }
    Ok(events)
}

// A connection opens, the association is accepted, and a heartbeat asks for an answer.
fn greeting(alloc: Global) -> Result<Vec<HubEvent>, Fail> {
    visit(alloc, &[&ACCEPTED, &ASKING])
}

// The status of an element over these events, what it wrote, and its hub.
fn ran(
    alloc: Global,
    line: &str,
    input: Vec<u8>,
    events: Vec<HubEvent>,
) -> Result<(u8, Vec<u8>, SureHub), Fail> {
    let words = words_of(alloc, line)?;
    let mut input = SureSource::new(input, 4096);
    let mut out = SureSink::new(alloc);
    if !are_given(events.as_slice()) {
        return Err(Fail::from("no hub tells these events"));
    }
    let mut hub = SureHub::new(alloc, events);
    let mut rounds = SureRounds::new(1);
    let status = run(
        alloc,
        words.as_slice(),
        &mut input,
        &mut out,
        &mut hub,
        &mut rounds,
    );
    Ok((status, Vec::from_slice(alloc, out.bytes())?, hub))
}

fn sent(alloc: Global, taken: u64, peer: u32, bytes: &[u8]) -> Result<(u64, Act), Fail> {
    Ok((taken, Act::Sent(peer, Octets::from_slice(alloc, bytes)?)))
}

// The setup at the first event, and the answer to a heartbeat once so many were taken.
fn setup_and_answer(alloc: Global, taken: u64) -> Result<Vec<(u64, Act)>, Fail> {
    let mut acts = Vec::new(alloc);
    acts.push(sent(alloc, 1, 1, &SETUP)?)?;
    acts.push(sent(alloc, taken, 1, &ANSWER)?)?;
    Ok(acts)
}

// The setup, at the first event.
fn setup(alloc: Global) -> Result<Vec<(u64, Act)>, Fail> {
    let mut acts = Vec::new(alloc);
    acts.push(sent(alloc, 1, 1, &SETUP)?)?;
    Ok(acts)
}

// The events of a connection that is accepted and asks for an answer, where the bytes are cut at a place.
fn cut_at(alloc: Global, cut: usize) -> Result<Vec<HubEvent>, Fail> {
    let mut bytes = Vec::new(alloc);
    bytes.extend_from_slice(&ACCEPTED)?;
    bytes.extend_from_slice(&ASKING)?;
    match bytes.as_slice().split_at_checked(cut) {
        Some((front, back)) if front.len() > 0 => visit(alloc, &[front, back]),
        _ => visit(alloc, &[&bytes]),
    }
}

#[test]
fn bytes_that_are_cut_anywhere_are_answered_alike(rt: HostRuntime) -> Result<(), Fail> {
    let alloc = rt.alloc();
    // Cut in front of its first byte it is whole.
    for cut in 0..56usize {
        let events = cut_at(alloc, cut)?;
        let wanted = setup_and_answer(alloc, events.len() as u64)?;
        let (status, text, hub) = ran(alloc, "element 2 40000001 a 1 9", Vec::new(alloc), events)?;
        assert_eq!(rt; status, 0, "cut at {cut}");
        assert_eq!(rt; text.as_slice(), REPORT.as_bytes(), "cut at {cut}");
        assert_eq!(rt; hub.acts(), wanted.as_slice(), "cut at {cut}");
    }
    Ok(())
}

// A query for the state of an element, component 7 of its FEObject, and the answer.
const QUERY: &str =
    "1004000D 40000001 00000002 00000000 00000007 00000000 1000001C 00000001 00000001 00070010 0110000C 00000001 00000007";

const TOLD: &str =
    "1014000F 00000002 40000001 00000000 00000007 00000000 10000024 00000001 00000001 00090018 01100014 00000001 00000007 01120005 02000000";

// The events of a connection that is accepted and asked, where the query is cut at a place.
fn asked_in_two(alloc: Global, cut: usize) -> Result<Vec<HubEvent>, Fail> {
    let query = bytes_of(alloc, QUERY)?;
    match query.as_slice().split_at_checked(cut) {
        Some((front, back)) if front.len() > 0 => visit(alloc, &[&ACCEPTED, front, back]),
        _ => visit(alloc, &[&ACCEPTED, &query]),
    }
}

#[test]
fn a_query_that_is_cut_anywhere_is_answered_alike(rt: HostRuntime) -> Result<(), Fail> {
    let alloc = rt.alloc();
    let told = bytes_of(alloc, TOLD)?;
    // Cut in front of its first byte it is whole.
    for cut in 0..52usize {
        let events = asked_in_two(alloc, cut)?;
        let mut wanted = setup(alloc)?;
        wanted.push(sent(alloc, events.len() as u64, 1, &told)?)?;
        let (status, text, hub) = ran(alloc, "element 2 40000001 a 1 9", Vec::new(alloc), events)?;
        assert_eq!(rt; status, 0, "cut at {cut}");
        assert_eq!(rt; text.as_slice(), REPORT.as_bytes(), "cut at {cut}");
        assert_eq!(rt; hub.acts(), wanted.as_slice(), "cut at {cut}");
    }
    Ok(())
}

// The status of an element that is greeted and then sent no message, and how much it did and wrote, where a call of the hub
// fails.
fn ran_over_failing(alloc: Global, call: u64) -> Result<(u8, usize, usize), Fail> {
    let words = words_of(alloc, "element 2 40000001 a 1 9")?;
    let mut input = SureSource::new(Vec::new(alloc), 1);
    let mut out = SureSink::new(alloc);
    let events = visit(alloc, &[&ACCEPTED, &ASKING, &[0u8; 24]])?;
    if !are_given(events.as_slice()) {
        return Err(Fail::from("no hub tells these events"));
    }
    let mut hub = MemHub::new(alloc, events, failing(alloc, call)?);
    let mut rounds = SureRounds::new(1);
    let status = run(
        alloc,
        words.as_slice(),
        &mut input,
        &mut out,
        &mut hub,
        &mut rounds,
    );
    Ok((status, hub.acts().len(), out.bytes().len()))
}

#[test]
fn each_call_of_the_hub_fails_in_turn(rt: HostRuntime) -> Result<(), Fail> {
    // An event, the setup, two events, the answer, an event, the closing and the end are eight calls. A ninth would fail, and
    // there is none: once the end was told no event is taken.
    for (call, done) in [
        (1, 0),
        (2, 0),
        (3, 1),
        (4, 1),
        (5, 1),
        (6, 2),
        (7, 2),
        (8, 3),
    ] {
        let ended = ran_over_failing(rt.alloc(), call)?;
        assert!(rt; ended == (4, done, 0), "at {call}");
    }
    let ended = ran_over_failing(rt.alloc(), 9)?;
    assert!(rt; ended == (0, 3, REPORT.len()));
    Ok(())
}

// The status over this input and output, where a control element comes and asks for an answer, and how many acts were done.
fn over_ends<S: Source, K: Sink>(
    alloc: Global,
    input: &mut S,
    out: &mut K,
) -> Result<(u8, usize), Fail> {
    let words = words_of(alloc, "element 2 40000001 a 1 9")?;
    let events = greeting(alloc)?;
    if !are_given(events.as_slice()) {
        return Err(Fail::from("no hub tells these events"));
    }
    let mut hub = SureHub::new(alloc, events);
    let mut rounds = SureRounds::new(1);
    let status = run(alloc, words.as_slice(), input, out, &mut hub, &mut rounds);
    Ok((status, hub.acts().len()))
}

// The status where a call of the source fails, how many acts were done and how much was written.
fn from_failing(alloc: Global, call: u64) -> Result<(u8, usize, usize), Fail> {
    let library = Vec::from_slice(alloc, b"# a library of none")?;
    let mut input = MemSource::new(library, 10, failing(alloc, call)?);
    let mut out = SureSink::new(alloc);
    let (status, acts) = over_ends(alloc, &mut input, &mut out)?;
    Ok((status, acts, out.bytes().len()))
}

// The same where a call of the sink fails.
fn to_failing(alloc: Global, call: u64) -> Result<(u8, usize, usize), Fail> {
    let mut input = SureSource::new(Vec::new(alloc), 1);
    let mut out = MemSink::new(alloc, failing(alloc, call)?);
    let (status, acts) = over_ends(alloc, &mut input, &mut out)?;
    Ok((status, acts, out.bytes().len()))
}

#[test]
fn each_call_of_the_source_fails_in_turn(rt: HostRuntime) -> Result<(), Fail> {
    // Two pieces of the library and the end are three reads.
    for (call, ended) in [
        (1, (2, 0, 0)),
        (2, (2, 0, 0)),
        (3, (2, 0, 0)),
        (4, (0, 2, REPORT.len())),
    ] {
        assert!(rt; from_failing(rt.alloc(), call)? == ended, "at {call}");
    }
    Ok(())
}

#[test]
fn each_call_of_the_sink_fails_in_turn(rt: HostRuntime) -> Result<(), Fail> {
    // The report is one write. Then comes the flush. All that is to be done was done before.
    for (call, ended) in [
        (1, (3, 2, 0)),
        (2, (3, 2, REPORT.len())),
        (3, (0, 2, REPORT.len())),
    ] {
        assert!(rt; to_failing(rt.alloc(), call)? == ended, "at {call}");
    }
    Ok(())
}
