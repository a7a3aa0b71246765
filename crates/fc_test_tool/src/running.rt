// The program is run over sources and sinks in memory.
use fc_base::{Sink, Source, SureSink, SureSource};
use fc_hub::{SureHub, SureRounds};
use fc_test_kit::words_of;
use fc_tool::run;
use std::alloc::{AllocError, Global};
use std::test::Fail;

// A heartbeat.
pub(crate) const BEAT: [u8; 24] = [
    0x10, 0x0f, 0, 6, 0x40, 0, 0, 1, 0, 0, 0, 2, 0, 0, 0, 0, 0, 0, 0, 0, 0, 0, 0, 0,
];

// Its line.
pub(crate) const LINE: &str =
    "Heartbeat from=40000001 to=00000002 corr=0000000000000000 flags=00000000\n";

// The bytes of so many heartbeats.
pub(crate) fn beats(alloc: Global, count: usize) -> Result<Vec<u8>, AllocError> {
    let mut bytes = Vec::new(alloc);
    for _ in 0..count {
        bytes.extend_from_slice(&BEAT)?;
    }
    Ok(bytes)
}

// The lines of so many heartbeats, and a last one.
pub(crate) fn lines(alloc: Global, count: usize, last: &str) -> Result<String, AllocError> {
    let mut text = String::new(alloc);
    for _ in 0..count {
        text.push_str(LINE)?;
    }
    text.push_str(last)?;
    Ok(text)
}

// Runs the program over a hub without events.
pub(crate) fn run_without_hub<S: Source, K: Sink>(
    alloc: Global,
    words: &[String],
    input: &mut S,
    out: &mut K,
) -> u8 {
    let mut hub = SureHub::new(alloc, Vec::new(alloc));
    let mut rounds = SureRounds::new(1);
    run(alloc, words, input, out, &mut hub, &mut rounds)
}

// The status of a command over these bytes in pieces, and what it wrote.
pub(crate) fn ran(
    alloc: Global,
    line: &str,
    bytes: Vec<u8>,
    piece: usize,
) -> Result<(u8, Vec<u8>), Fail> {
    let words = words_of(alloc, line)?;
    let mut input = SureSource::new(bytes, piece.max(1));
    let mut out = SureSink::new(alloc);
    let status = run_without_hub(alloc, words.as_slice(), &mut input, &mut out);
    Ok((status, Vec::from_slice(alloc, out.bytes())?))
}

// The status of `show` over these bytes in pieces, and what it wrote.
pub(crate) fn shown(alloc: Global, bytes: Vec<u8>, piece: usize) -> Result<(u8, Vec<u8>), Fail> {
    ran(alloc, "show", bytes, piece)
}

// The number of a call that is to fail.
pub(crate) fn failing(alloc: Global, call: u64) -> Result<Vec<u64>, AllocError> {
    let mut failing = Vec::new(alloc);
    failing.push(call)?;
    Ok(failing)
}
