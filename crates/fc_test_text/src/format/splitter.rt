// A splitter over a stream of heartbeats.
use fc_base::{Memory, SureSource};
use fc_msg::Splitter;
use std::alloc::{AllocError, Global};
use std::test::Fail;

const BEAT: [u8; 24] = [
    0x10, 0x0f, 0, 6, 0x40, 0, 0, 1, 0, 0, 0, 2, 0, 0, 0, 0, 0, 0, 0, 0, 0, 0, 0, 0,
];

// Two heartbeats, one after the other.
fn beats(alloc: Global) -> Result<Vec<u8>, AllocError> {
    let mut bytes = Vec::new(alloc);
    bytes.extend_from_slice(&BEAT)?;
    bytes.extend_from_slice(&BEAT)?;
    Ok(bytes)
}

// Feeds bytes. Tells whether a heartbeat is lent then, whether nothing is behind it, and how many bytes are left.
fn fed(splitter: &mut Splitter, bytes: &[u8]) -> Result<(bool, bool, usize), Memory> {
    splitter.feed(bytes)?;
    let is_beat = splitter.next() == Some(BEAT.as_slice());
    let is_last = splitter.next().is_none();
    Ok((is_beat, is_last, splitter.rest().len()))
}

#[test]
fn a_splitter_lends_the_frames_of_the_stream(rt: HostRuntime) -> Result<(), Fail> {
    let alloc = rt.alloc();
    let mut splitter = Splitter::new(alloc);
    let bytes = beats(alloc)?;
    for (from, to, wanted) in [
        (0, 0, (false, true, 0)),
        (0, 23, (false, true, 23)),
        (23, 47, (true, true, 23)),
        (47, 48, (true, true, 0)),
    ] {
        let part = bytes.get(from..to).ok_or("bytes")?;
        assert_eq!(rt; fed(&mut splitter, part)?, wanted);
    }
    assert_eq!(rt; bytes.len(), 48);
    Ok(())
}

// A splitter that was to read at most 30 bytes of two heartbeats, which come in pieces of at most 40, and how many it read.
fn fed_from(alloc: Global) -> Result<(Splitter, usize), Fail> {
    let mut input = SureSource::new(beats(alloc)?, 40);
    let mut splitter = Splitter::new(alloc);
    let given = splitter.feed_from(&mut input, 30).ok().ok_or("bytes")?;
    Ok((splitter, given))
}

#[test]
fn a_splitter_reads_no_more_than_it_is_to_read(rt: HostRuntime) -> Result<(), Fail> {
    let (mut splitter, given) = fed_from(rt.alloc())?;
    assert_eq!(rt; (given, splitter.rest().len()), (30, 30));
    assert_eq!(rt; splitter.next(), Some(BEAT.as_slice()));
    assert_eq!(rt; splitter.rest(), &BEAT[..6]);
    Ok(())
}
