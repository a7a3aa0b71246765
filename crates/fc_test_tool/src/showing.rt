// The command `show`, through `run`.
use crate::running::{BEAT, beats, failing, lines, run_without_hub, shown};
use fc_base::{MemSink, MemSource, Source, SureSink, SureSource};
use fc_test_kit::words_of;
use std::alloc::Global;
use std::test::Fail;

// The status of `show` over heartbeats, of which a byte was changed, and whether it wrote so many lines and the last.
fn shows_changed(
    alloc: Global,
    (count, at, byte): (usize, usize, u8),
    before: usize,
    last: &str,
) -> Result<bool, Fail> {
    let mut bytes = beats(alloc, count)?;
    match bytes.get_mut(at) {
        Some(place) => *place = byte,
        None => return Ok(false),
    }
    let (status, text) = shown(alloc, bytes, 4096)?;
    let wanted = lines(alloc, before, last)?;
    Ok(status == 6 && text.as_slice() == wanted.as_bytes())
}

#[test]
fn the_first_refusal_is_written_with_its_place(rt: HostRuntime) -> Result<(), Fail> {
    let alloc = rt.alloc();
    // One byte is changed in the second of three heartbeats, and so the third is not looked at.
    for (at, byte, line) in [
        (24usize, 0x20u8, "refused 24 version\n"),
        (27, 5, "refused 26 short-length\n"),
        (25, 6, "refused 25 not-built\n"),
        (25, 7, "refused 25 unknown-type\n"),
        (25, 3, "refused 48 wrong-body\n"),
        (27, 7, "refused 48 tlv-past\n"),
        (26, 1, "refused 24 truncated\n"),
    ] {
        assert!(rt; shows_changed(alloc, (3, at, byte), 1, line)?, "{line}");
    }
    Ok(())
}

#[test]
fn a_stream_that_ends_too_soon_is_refused(rt: HostRuntime) -> Result<(), Fail> {
    let alloc = rt.alloc();
    for (size, before, line) in [
        (23, 0, "refused 0 truncated\n"),
        (25, 1, "refused 24 truncated\n"),
    ] {
        let mut bytes = beats(alloc, 2)?;
        bytes.truncate(size);
        let (status, text) = shown(alloc, bytes, 4096)?;
        assert_eq!(rt; status, 6, "{line}");
        let wanted = lines(alloc, before, line)?;
        assert_eq!(rt; text.as_slice(), wanted.as_bytes(), "{line}");
    }
    Ok(())
}

// The status of `show` over three pieces of one heartbeat each, and what it wrote, where a call of the sink fails.
fn shown_to_failing(alloc: Global, call: u64) -> Result<(u8, Vec<u8>), Fail> {
    let words = words_of(alloc, "show")?;
    let mut input = SureSource::new(beats(alloc, 3)?, 24);
    let mut out = MemSink::new(alloc, failing(alloc, call)?);
    let status = run_without_hub(alloc, words.as_slice(), &mut input, &mut out);
    Ok((status, Vec::from_slice(alloc, out.bytes())?))
}

// The same where a call of the source fails.
fn shown_from_failing(alloc: Global, call: u64) -> Result<(u8, Vec<u8>), Fail> {
    let words = words_of(alloc, "show")?;
    let mut input = MemSource::new(beats(alloc, 3)?, 24, failing(alloc, call)?);
    let mut out = SureSink::new(alloc);
    let status = run_without_hub(alloc, words.as_slice(), &mut input, &mut out);
    Ok((status, Vec::from_slice(alloc, out.bytes())?))
}

#[test]
fn each_call_of_the_sink_fails_in_turn(rt: HostRuntime) -> Result<(), Fail> {
    let alloc = rt.alloc();
    // Three pieces of one heartbeat, so three writes, and a flush.
    for (call, status, whole) in [(1, 3, 0), (2, 3, 1), (3, 3, 2), (4, 3, 3), (5, 0, 3)] {
        let (ended, text) = shown_to_failing(alloc, call)?;
        assert_eq!(rt; ended, status, "at {call}");
        let wanted = lines(alloc, whole, "")?;
        assert_eq!(rt; text.as_slice(), wanted.as_bytes(), "at {call}");
    }
    Ok(())
}

#[test]
fn what_stands_behind_a_fault_of_the_sink_is_not_read(rt: HostRuntime) -> Result<(), Fail> {
    let alloc = rt.alloc();
    let words = words_of(alloc, "show")?;
    let mut input = SureSource::new(beats(alloc, 2_000)?, 24);
    let mut out = MemSink::new(alloc, failing(alloc, 1)?);
    let status = run_without_hub(alloc, words.as_slice(), &mut input, &mut out);
    assert_eq!(rt; status, 3);
    assert_eq!(rt; out.bytes().len(), 0);
    let mut piece = [0u8; 24];
    assert_eq!(rt; input.read(&mut piece), Ok(24));
    assert_eq!(rt; piece, BEAT);
    Ok(())
}

#[test]
fn each_call_of_the_source_fails_in_turn(rt: HostRuntime) -> Result<(), Fail> {
    let alloc = rt.alloc();
    // Three pieces of one heartbeat and the end are four reads.
    for (call, status, whole) in [(1, 2, 0), (2, 2, 1), (3, 2, 2), (4, 2, 3), (5, 0, 3)] {
        let (ended, text) = shown_from_failing(alloc, call)?;
        assert_eq!(rt; ended, status, "at {call}");
        let wanted = lines(alloc, whole, "")?;
        assert_eq!(rt; text.as_slice(), wanted.as_bytes(), "at {call}");
    }
    Ok(())
}
