// Sources and sinks in memory, those that fail and those that do not.
use fc_base::{MemSink, MemSource, Sink, Source, SureSink, SureSource, Trouble, write_all};
use std::alloc::{AllocError, Global};
use std::test::Fail;

// The second call fails.
fn second(alloc: Global) -> Result<Vec<u64>, AllocError> {
    let mut failing = Vec::new(alloc);
    failing.push(2)?;
    Ok(failing)
}

#[test]
fn a_source_fails_by_its_numbers(rt: HostRuntime) -> Result<(), Fail> {
    let failing = second(rt.alloc())?;
    let bytes = Vec::from_slice(rt.alloc(), b"abc")?;
    let mut input = MemSource::new(bytes, 2, failing);
    let mut into = [0u8; 4];
    let (first, second) = (input.read(&mut into), input.read(&mut into));
    assert_eq!(rt; (first, second), (Ok(2), Err(Trouble::Failed)));
    let (third, fourth) = (input.read(&mut into), input.read(&mut into));
    assert_eq!(rt; (third, fourth, into), (Ok(1), Ok(0), [b'c', b'b', 0, 0]));
    Ok(())
}

#[test]
fn a_sink_fails_by_its_numbers(rt: HostRuntime) -> Result<(), Fail> {
    let mut out = MemSink::new(rt.alloc(), second(rt.alloc())?);
    let (first, second) = (out.write(b"ab"), out.flush());
    assert_eq!(rt; (first, second), (Ok(2), Err(Trouble::Failed)));
    assert_eq!(rt; write_all(&mut out, b"cd"), Ok(()));
    assert_eq!(rt; out.bytes(), b"abcd".as_slice());
    Ok(())
}

#[test]
fn a_sure_source_does_not_fail(rt: HostRuntime) -> Result<(), Fail> {
    let bytes = Vec::from_slice(rt.alloc(), b"xy")?;
    let mut sure = SureSource::new(bytes, 1);
    let mut into = [0u8; 4];
    assert_eq!(rt; sure.read(&mut into), Ok(1));
    Ok(())
}

#[test]
fn a_sure_sink_does_not_fail(rt: HostRuntime) -> Result<(), Fail> {
    let mut sink = SureSink::new(rt.alloc());
    let answers = (write_all(&mut sink, b"z"), sink.flush());
    assert_eq!(rt; answers, (Ok(()), Ok(())));
    assert_eq!(rt; sink.bytes(), b"z".as_slice());
    Ok(())
}
