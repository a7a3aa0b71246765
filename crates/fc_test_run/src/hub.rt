// The program is run over hubs, sources and sinks in memory.
use fc_base::{SureSink, SureSource};
use fc_hub::{HubEvent, SureHub, SureRounds};
use fc_test_kit::{are_given, words_of};
use fc_tool::run;
use std::alloc::Global;
use std::test::Fail;

// The status of a command over this input and these events, what it wrote, and its hub.
pub(crate) fn ran(
    alloc: Global,
    line: &str,
    input: Vec<u8>,
    events: Vec<HubEvent>,
) -> Result<(u8, Vec<u8>, SureHub), Fail> {
    let words = words_of(alloc, line)?;
    let mut input = SureSource::new(input, 4096);
    let mut out = SureSink::new(alloc);
    if !are_given(events.as_slice()) {
        return Err(Fail::from("no hub tells these events"));
    }
    let mut hub = SureHub::new(alloc, events);
    let mut rounds = SureRounds::new(1);
    let status = run(
        alloc,
        words.as_slice(),
        &mut input,
        &mut out,
        &mut hub,
        &mut rounds,
    );
    Ok((status, Vec::from_slice(alloc, out.bytes())?, hub))
}

// What a command writes that reads this input to its end and uses no hub.
pub(crate) fn written(alloc: Global, command: &str, input: &[u8]) -> Result<Vec<u8>, Fail> {
    let input = Vec::from_slice(alloc, input)?;
    let (status, text, _) = ran(alloc, command, input, Vec::new(alloc))?;
    if status != 0 {
        return Err(Fail::from("a status other than 0"));
    }
    Ok(text)
}
