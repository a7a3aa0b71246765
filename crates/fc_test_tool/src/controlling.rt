// The command `control`, through `run` over hubs and rounds in memory: calls that fail in turn, and when a round is taken.
ghost use Rattle.std.specs.Prelude.{◌≡◌};
ghost use Rattle.fc_hub.specs.Rounds.{rise_above};

use crate::running::{failing, ran};
use crate::serving::bytes_event;
use fc_base::{MemSink, MemSource, Sink, Source, SureSink, SureSource};
use fc_hub::{HubEvent, MemHub, MemRounds, SureHub, SureRounds};
use fc_test_kit::{are_given, words_of};
use fc_tool::run;
use std::alloc::Global;
use std::test::Fail;

// The plan of element 1, without a transaction.
const PLAN: &str = "[[element]]\nid = 1\n";

// What is reported where nothing was begun.
const REPORT: &str = "controller 1 round 1 epoch 257\n";

// What element 1 asks for first.
const SETUP: &str =
    "AssociationSetup from=00000001 to=FFFFFFFD corr=0000000000000000 flags=C0000000\n";

// What it answers to the claim of the epoch 257.
const CLAIMED: &str = "ConfigResponse from=00000001 to=40000001 corr=0000010100000000 flags=00000000
  lfb 0001F001 00000001
    SET-RESPONSE
      path 1
        code 00
";

// The bytes of messages.
fn made(alloc: Global, text: &str) -> Result<Vec<u8>, Fail> {
    let (status, bytes) = ran(
        alloc,
        "make",
        Vec::from_slice(alloc, text.as_bytes())?,
        4096,
    )?;
    if status != 0 {
        return Err(Fail::from("no messages"));
    }
    Ok(bytes)
}

// Element 1 opens, asks to be accepted and answers the claim, each as an event.
fn visit(alloc: Global) -> Result<Vec<HubEvent>, Fail> {
    let mut events = Vec::new(alloc);
    events.push(HubEvent::Opened(1))?;
    events.push(bytes_event(alloc, 1, &made(alloc, SETUP)?)?)?;
    events.push(bytes_event(alloc, 1, &made(alloc, CLAIMED)?)?)?;
    Ok(events)
}

// The status over events of which one call of the hub fails, and how much was done and written.
fn over_failing(alloc: Global, call: u64) -> Result<(u8, usize, usize), Fail> {
    let words = words_of(alloc, "control 40000001 r 1 9 a")?;
    let mut input = SureSource::new(Vec::from_slice(alloc, PLAN.as_bytes())?, 4096);
    let mut out = SureSink::new(alloc);
    let events = visit(alloc)?;
    if !are_given(events.as_slice()) {
        return Err(Fail::from("no hub tells these events"));
    }
    let mut hub = MemHub::new(alloc, events, failing(alloc, call)?);
    let mut rounds = SureRounds::new(1);
    let status = run(
        alloc,
        words.as_slice(),
        &mut input,
        &mut out,
        &mut hub,
        &mut rounds,
    );
    Ok((status, hub.acts().len(), out.bytes().len()))
}

#[test]
fn each_call_of_the_hub_fails_in_turn(rt: HostRuntime) -> Result<(), Fail> {
    // Two events, the acceptance, the claim, an event, the question and the end are seven calls.
    for (call, done) in [(1, 0), (2, 0), (3, 0), (4, 1), (5, 2), (6, 2), (7, 3)] {
        assert_eq!(rt; over_failing(rt.alloc(), call)?, (4, done, 0), "{call}");
    }
    assert_eq!(rt; over_failing(rt.alloc(), 8)?, (0, 3, 31));
    Ok(())
}

// The status over this input and output, where an element comes, and how many acts were done.
fn over_ends<S: Source, K: Sink>(
    alloc: Global,
    input: &mut S,
    out: &mut K,
) -> Result<(u8, usize), Fail> {
    let words = words_of(alloc, "control 40000001 r 1 9 a")?;
    let events = visit(alloc)?;
    if !are_given(events.as_slice()) {
        return Err(Fail::from("no hub tells these events"));
    }
    let mut hub = SureHub::new(alloc, events);
    let mut rounds = SureRounds::new(1);
    let status = run(alloc, words.as_slice(), input, out, &mut hub, &mut rounds);
    Ok((status, hub.acts().len()))
}

// The status where a call of the source fails, how many acts were done and how much was written.
fn from_failing(alloc: Global, call: u64) -> Result<(u8, usize, usize), Fail> {
    let plan = Vec::from_slice(alloc, PLAN.as_bytes())?;
    let mut input = MemSource::new(plan, 10, failing(alloc, call)?);
    let mut out = SureSink::new(alloc);
    let (status, acts) = over_ends(alloc, &mut input, &mut out)?;
    Ok((status, acts, out.bytes().len()))
}

// The same where a call of the sink fails.
fn to_failing(alloc: Global, call: u64) -> Result<(u8, usize, usize), Fail> {
    let mut input = SureSource::new(Vec::from_slice(alloc, PLAN.as_bytes())?, 4096);
    let mut out = MemSink::new(alloc, failing(alloc, call)?);
    let (status, acts) = over_ends(alloc, &mut input, &mut out)?;
    Ok((status, acts, out.bytes().len()))
}

#[test]
fn each_call_of_the_source_fails_in_turn(rt: HostRuntime) -> Result<(), Fail> {
    // Two pieces of the plan and the end are three reads.
    for (call, ended) in [
        (1, (2, 0, 0)),
        (2, (2, 0, 0)),
        (3, (2, 0, 0)),
        (4, (0, 3, 31)),
    ] {
        assert!(rt; from_failing(rt.alloc(), call)? == ended, "at {call}");
    }
    Ok(())
}

#[test]
fn each_call_of_the_sink_fails_in_turn(rt: HostRuntime) -> Result<(), Fail> {
    // The report is one write. Then comes the flush.
    for (call, ended) in [(1, (3, 3, 0)), (2, (3, 3, 31)), (3, (0, 3, 31))] {
        assert!(rt; to_failing(rt.alloc(), call)? == ended, "at {call}");
    }
    Ok(())
}

// The status over rounds that give these numbers, where an element comes, what was written, and how many acts were done.
fn over_rounds(alloc: Global, plan: &str, numbers: Vec<u32>) -> Result<(u8, Vec<u8>, usize), Fail> {
    let words = words_of(alloc, "control 40000001 r 1 9 a")?;
    let mut input = SureSource::new(Vec::from_slice(alloc, plan.as_bytes())?, 4096);
    let mut out = SureSink::new(alloc);
    let events = visit(alloc)?;
    if !are_given(events.as_slice()) || !do_rise(numbers.as_slice()) {
        return Err(Fail::from("no hub tells these events, or no rounds give these numbers"));
    }
    let mut hub = SureHub::new(alloc, events);
    let mut rounds = MemRounds::new(numbers, Vec::new(alloc));
    let status = run(
        alloc,
        words.as_slice(),
        &mut input,
        &mut out,
        &mut hub,
        &mut rounds,
    );
    Ok((
        status,
        Vec::from_slice(alloc, out.bytes())?,
        hub.acts().len(),
    ))
}

#[test]
fn a_round_is_taken_once_the_plan_was_read(rt: HostRuntime) -> Result<(), Fail> {
    let alloc = rt.alloc();
    let wide = "[[element]]\nid = 1\n[[element]]\nid = 2\n";
    // Where no number is left the rounds fail, if they are asked.
    for (plan, number, status, text, acts) in [
        (PLAN, Some(1), 0, REPORT, 3),
        (PLAN, Some(16_777_216), 11, "no round 16777216\n", 0),
        (PLAN, None, 4, "", 0),
        ("element", None, 5, "refused plan nottoml\n", 0),
        ("", None, 5, "refused plan missing element\n", 0),
        (wide, None, 5, "refused plan rule addresses\n", 0),
    ] {
        let mut numbers = Vec::new(alloc);
        if let Some(number) = number {
            numbers.push(number)?;
        }
        let (ended, written, done) = over_rounds(alloc, plan, numbers)?;
        assert_eq!(rt; ended, status, "{text}");
        assert_eq!(rt; written.as_slice(), text.as_bytes(), "{text}");
        assert_eq!(rt; done, acts, "{text}");
    }
    Ok(())
}

// Whether each number is greater than the one before it, and the first at least 1.
fn do_rise(numbers: &[u32]) -> bool
    ensures { result ≡ rise_above 0 numbers.now }
{
    let mut last = 0;
    for number in numbers {
        if *number <= last {
            return false;
        }
        last = *number;
    }
    true
}
