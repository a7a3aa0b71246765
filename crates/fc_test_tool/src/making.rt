// The command `make`, through `run`.
use crate::running::{BEAT, LINE, failing, lines, ran, run_without_hub};
use fc_base::{MemSink, MemSource, SureSink, SureSource};
use fc_test_kit::{bytes_of, words_of};
use std::alloc::{AllocError, Global};
use std::test::Fail;

// What `make` does with a text.
fn made(alloc: Global, text: &str) -> Result<(u8, Vec<u8>), Fail> {
    ran(
        alloc,
        "make",
        Vec::from_slice(alloc, text.as_bytes())?,
        4096,
    )
}

#[test]
fn a_text_is_made_in_whatever_pieces_it_comes(rt: HostRuntime) -> Result<(), Fail> {
    let alloc = rt.alloc();
    for piece in [1, 9, 72, 73, 65_536] {
        let text = Vec::from_slice(alloc, LINE.as_bytes())?;
        let (status, bytes) = ran(alloc, "make", text, piece)?;
        assert_eq!(rt; status, 0, "in pieces of {piece}");
        assert_eq!(rt; bytes.as_slice(), BEAT.as_slice(), "in pieces of {piece}");
    }
    Ok(())
}

// The messages of cases/samples, without what their canonical bytes leave free.
const SAMPLES: &str = "\
100F0006 40000001 00000002 00000000 00000000 00000000
10010006 00000001 FFFFFFFD 00000000 00000000 C0000000
10110008 40000001 00000002 00000000 00000000 00000000 00100008 00000002
10020008 40000001 00000002 00000000 00000000 00000000 00110008 000000FF
1004000D 40000001 00000002 00000000 00000007 00000000 1000001C 00000001 00000001 00070010 0110000C 00000001 00000007
1014000F 00000002 40000001 00000000 00000007 00000000 10000024 00000001 00000001 00090018 01100014 00000001 00000007 01120005 02000000
1003000F 40000001 00000001 00000101 00000000 C0400000 10000024 0001F001 00000001 00010018 01100014 00000001 00000001 01120008 00000101
1013000F 00000001 40000001 00000101 00000000 00000000 10000024 0001F001 00000001 00030018 01100014 00000001 00000001 01140008 00000000
10030016 40000001 00000001 00000101 00000001 C0600000 10000040 0001F001 00000001 00010034 01100030 00000001 00000004 01120024 00000101 00000001 01120014 00000001 00000001 00000002 00000002 01120004
10030011 40000001 00000001 00000101 00000003 C0700000 1000002C 0001F001 00000001 0001001C 01100018 00000001 00000005 0112000C 00000101 00000001 000C0004
10130012 00000001 40000001 00000101 00000003 00000000 10000030 0001F001 00000001 00030018 01100014 00000001 00000005 01140008 00000000 000D000C 01140008 00000000
10030019 40000001 00000001 00000000 00000003 00000000 1000004C 00001001 00000001 00010040 0110003C 80000001 00000004 01110010 00000001 01120008 65746830 01100020 00000002 00000001 00001388 01130010 00000002 0000000C 000000C8
10010010 00000002 FFFFFFFD 00000000 00000000 C0000000 10000028 00001001 00000001 000B001C 01100018 00000002 0000003C 00000001 01120008 00000065
10050010 00000002 40000001 00000000 00000000 00000000 10000028 00001001 00000001 000B001C 01100018 00000002 0000003C 00000001 01120008 00000065";

// What `make` makes of what `show` tells of bytes, once each of them has ended with status 0.
fn again(alloc: Global, bytes: &[u8], piece: usize) -> Result<Vec<u8>, Fail> {
    let (shown, text) = ran(alloc, "show", Vec::from_slice(alloc, bytes)?, 4096)?;
    let (made, bytes) = ran(alloc, "make", text, piece)?;
    if (shown, made) != (0, 0) {
        return Err(Fail::from("a status"));
    }
    Ok(bytes)
}

#[test]
fn what_is_shown_is_made_again(rt: HostRuntime) -> Result<(), Fail> {
    let alloc = rt.alloc();
    for row in SAMPLES.lines() {
        let bytes = bytes_of(alloc, row)?;
        assert_eq!(rt; again(alloc, &bytes, 4096)?, bytes, "{row}");
    }
    let all = bytes_of(alloc, SAMPLES)?;
    assert_eq!(rt; again(alloc, &all, 100)?, all);
    Ok(())
}

// Texts that are refused: the line and the column, and the text, in which `@` stands for the line of a heartbeat and `/` for
// a line feed.
const REFUSED: &str = "\
1 1 heartbeat
1 11 Heartbeat from=4000001 to=00000002 corr=0000000000000000 flags=00000000/
2 1 @  result 0/
3 10 @AssociationTeardown from=40000001 to=00000002 corr=0000000000000000 flags=00000000/  reason 01/@
4 1 @@@ ";

// A text whose `@` are the lines of heartbeats and whose `/` are line feeds.
fn text_of(alloc: Global, short: &str) -> Result<String, AllocError> {
    let text = String::from_str(alloc, short)?;
    let text = text.replace(alloc, "@", LINE)?;
    text.replace(alloc, "/", "\n")
}

#[test]
fn a_text_that_is_refused_writes_its_refusal_alone(rt: HostRuntime) -> Result<(), Fail> {
    let alloc = rt.alloc();
    for row in REFUSED.lines() {
        let (line, rest) = row.split_once(" ").ok_or("a line")?;
        let (column, short) = rest.split_once(" ").ok_or("a column")?;
        let wanted = format!(in alloc; "refused text {line} {column}\n")?;
        let (status, written) = made(alloc, text_of(alloc, short)?.as_str())?;
        assert_eq!(rt; status, 5, "{row}");
        assert_eq!(rt; written.as_slice(), wanted.as_bytes(), "{row}");
    }
    Ok(())
}

// The text of a message that sets a value of so many bytes, behind a heartbeat.
fn with_value(alloc: Global, size: u32) -> Result<String, AllocError> {
    let mut text = text_of(
        alloc,
        "@Config from=40000001 to=00000002 corr=0000000000000000 flags=00000000/  lfb 00000001 00000001/    SET/      path 1/        full ",
    )?;
    for _ in 0..size {
        text.push_str("00")?;
    }
    Ok(text)
}

#[test]
fn a_message_that_is_too_long_is_refused(rt: HostRuntime) -> Result<(), Fail> {
    let alloc = rt.alloc();
    let text = with_value(alloc, 65_532)?;
    let (status, written) = made(alloc, text.as_str())?;
    assert_eq!(rt; status, 5);
    assert_eq!(rt; written.as_slice(), b"refused text 2 1\n".as_slice());
    Ok(())
}

// The status of `make` over the lines of three heartbeats in three pieces, and how much it wrote, where a call of the
// source fails.
fn made_from_failing(alloc: Global, call: u64) -> Result<(u8, usize), Fail> {
    let words = words_of(alloc, "make")?;
    let text = lines(alloc, 3, "")?;
    let mut input = MemSource::new(text.into_bytes(), 73, failing(alloc, call)?);
    let mut out = SureSink::new(alloc);
    let status = run_without_hub(alloc, words.as_slice(), &mut input, &mut out);
    Ok((status, out.bytes().len()))
}

// The same over the lines of 6,000 heartbeats, where a call of the sink fails.
fn made_to_failing(alloc: Global, call: u64) -> Result<(u8, usize), Fail> {
    let words = words_of(alloc, "make")?;
    let text = lines(alloc, 6_000, "")?;
    let mut input = SureSource::new(text.into_bytes(), 65_536);
    let mut out = MemSink::new(alloc, failing(alloc, call)?);
    let status = run_without_hub(alloc, words.as_slice(), &mut input, &mut out);
    Ok((status, out.bytes().len()))
}

#[test]
fn each_call_of_the_source_fails_in_turn(rt: HostRuntime) -> Result<(), Fail> {
    // Three pieces of one line and the end are four reads.
    for (call, ended) in [
        (1, (2, 0)),
        (2, (2, 0)),
        (3, (2, 0)),
        (4, (2, 0)),
        (5, (0, 72)),
    ] {
        assert!(rt; made_from_failing(rt.alloc(), call)? == ended, "at {call}");
    }
    Ok(())
}

#[test]
fn each_call_of_the_sink_fails_in_turn(rt: HostRuntime) -> Result<(), Fail> {
    // The bytes of all messages are one write. Then comes the flush.
    for (call, ended) in [(1, (3, 0)), (2, (3, 144_000)), (3, (0, 144_000))] {
        assert!(rt; made_to_failing(rt.alloc(), call)? == ended, "at {call}");
    }
    Ok(())
}
