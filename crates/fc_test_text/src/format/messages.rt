// Messages whose bytes stand in the specification of the format.
use fc_base::{Duplicate, List, Memory, Octets, Shared, WriteFault};
use fc_msg::{Encoder, Message, MsgBody, decode, encode};
use fc_path::{Body, Oper, OperKind, PathData, Select};
use fc_test_kit::{bytes_of, push_digits};
use fc_wire::Flags;
use std::alloc::{AllocError, Global};
use std::test::Fail;

const QUIET: Flags = Flags {
    ack: 0,
    pri: 0,
    em: 0,
    at: false,
    tp: 0,
};

// A message from controller 40000001 to element 2.
fn message(body: MsgBody) -> Message {
    Message {
        source: 0x4000_0001,
        dest: 2,
        corr: 0,
        flags: QUIET,
        body,
    }
}

// Canonical messages: a heartbeat, the setup of an element, its answer, a teardown, a query and its answer, a claim and
// its reply, the first and the last message of a transaction, and its reply.
const SAMPLES: &str = "\
100F0006 40000001 00000002 00000000 00000000 00000000
10010006 00000001 FFFFFFFD 00000000 00000000 C0000000
10110008 40000001 00000002 00000000 00000000 00000000 00100008 00000002
10020008 40000001 00000002 00000000 00000000 00000000 00110008 000000FF
1004000D 40000001 00000002 00000000 00000007 00000000 1000001C 00000001 00000001 00070010 0110000C 00000001 00000007
1014000F 00000002 40000001 00000000 00000007 00000000 10000024 00000001 00000001 00090018 01100014 00000001 00000007 01120005 02000000
1003000F 40000001 00000001 00000101 00000000 C0400000 10000024 0001F001 00000001 00010018 01100014 00000001 00000001 01120008 00000101
1013000F 00000001 40000001 00000101 00000000 00000000 10000024 0001F001 00000001 00030018 01100014 00000001 00000001 01140008 00000000
10030016 40000001 00000001 00000101 00000001 C0600000 10000040 0001F001 00000001 00010034 01100030 00000001 00000004 01120024 00000101 00000001 01120014 00000001 00000001 00000002 00000002 01120004
10030011 40000001 00000001 00000101 00000003 C0700000 1000002C 0001F001 00000001 0001001C 01100018 00000001 00000005 0112000C 00000101 00000001 000C0004
10130012 00000001 40000001 00000101 00000003 00000000 10000030 0001F001 00000001 00030018 01100014 00000001 00000005 01140008 00000000 000D000C 01140008 00000000";

// The bytes of the sample at a place.
fn sample(alloc: Global, at: usize) -> Result<Vec<u8>, Fail> {
    let digits = SAMPLES.lines().nth(at).ok_or("a sample")?;
    Ok(bytes_of(alloc, digits)?)
}

// The message of bytes.
fn decoded(alloc: Global, bytes: &[u8]) -> Result<Message, Fail> {
    Ok(decode(alloc, bytes).ok().ok_or("a message")?)
}

// The bytes of a message.
fn encoded(alloc: Global, message: &Message) -> Result<Vec<u8>, Fail> {
    let mut out = Vec::new(alloc);
    encode(message, &mut out).ok().ok_or("bytes")?;
    Ok(out)
}

#[test]
fn canonical_messages_are_copied(rt: HostRuntime) -> Result<(), Fail> {
    for digits in SAMPLES.lines() {
        let bytes = bytes_of(rt.alloc(), digits)?;
        let message = decoded(rt.alloc(), &bytes)?;
        assert_eq!(rt; message.copy()?, message);
    }
    Ok(())
}

// Appends an LFBselect with one GET of so many IDs, which takes 24 bytes and four for each.
fn push_get(bytes: &mut Vec<u8>, ids: u16) -> Result<(), AllocError> {
    let size = 24 + 4 * (ids % 0x3ff2);
    for (kind, len) in [
        (0x1000u16, size),
        (0, 0),
        (0, 0),
        (0x0007, size - 12),
        (0x0110, size - 16),
    ] {
        bytes.extend_from_slice(&kind.to_be_bytes())?;
        bytes.extend_from_slice(&len.to_be_bytes())?;
    }
    bytes.extend_from_slice(&[0, 0])?;
    bytes.extend_from_slice(&ids.to_be_bytes())?;
    bytes.resize(bytes.len() + 4 * usize::from(ids), 0)?;
    Ok(())
}

// The longest message: a query of five selects.
fn longest(alloc: Global) -> Result<Vec<u8>, AllocError> {
    let mut bytes = Vec::new(alloc);
    push_digits(
        &mut bytes,
        "1004FFFF 40000001 00000002 00000000 00000000 00000000",
    )?;
    for ids in [16369u16, 16369, 16369, 16369, 23] {
        push_get(&mut bytes, ids)?;
    }
    Ok(bytes)
}

// Appends the last select of a query to it once more.
fn lengthen(message: &mut Message) -> Result<(), Fail> {
    if let MsgBody::Query(selects) = &mut message.body {
        let more = selects.get(4).ok_or("a select")?.copy()?;
        selects.push(more)?;
    }
    Ok(())
}

#[test]
fn the_longest_message_is_taken(rt: HostRuntime) -> Result<(), Fail> {
    let bytes = longest(rt.alloc())?;
    assert_eq!(rt; bytes.len(), 4 * 65535);
    let message = decoded(rt.alloc(), &bytes)?;
    assert!(rt; encoded(rt.alloc(), &message)? == bytes);
    Ok(())
}

// The longest message with one select more.
fn longer(alloc: Global) -> Result<Message, Fail> {
    let bytes = longest(alloc)?;
    let mut message = decoded(alloc, &bytes)?;
    lengthen(&mut message)?;
    Ok(message)
}

#[test]
fn a_message_longer_than_the_longest_is_refused(rt: HostRuntime) -> Result<(), Fail> {
    let message = longer(rt.alloc())?;
    let mut out = Vec::from_slice(rt.alloc(), b"as before")?;
    assert_eq!(rt; encode(&message, &mut out), Err(WriteFault::TooLong));
    assert_eq!(rt; out.as_slice(), b"as before".as_slice());
    Ok(())
}

// A path to a value that is too long for a TLV.
fn long_path(alloc: Global) -> Result<PathData, Memory> {
    let mut value = Vec::new(alloc);
    value.resize(65532, 0)?;
    let mut ids = List::new(alloc);
    ids.push(1)?;
    Ok(PathData {
        ids,
        key: None,
        body: Body::Full(Octets::from_vec(value)),
    })
}

// A select that sets one path.
fn setting(alloc: Global, path: PathData) -> Result<Select, Memory> {
    let mut paths = List::new(alloc);
    paths.push(path)?;
    let mut opers = List::new(alloc);
    opers.push(Oper::Paths(OperKind::Set, Shared::of(paths)?))?;
    Ok(Select {
        class: 1,
        instance: 1,
        opers,
    })
}

// A message that sets one component to a value that is too long for a TLV.
fn too_long(alloc: Global) -> Result<Message, Memory> {
    let path = long_path(alloc)?;
    let mut selects = List::new(alloc);
    selects.push(setting(alloc, path)?)?;
    Ok(message(MsgBody::Config(selects)))
}

// Whether an encoder appends a message to bytes, whose own bytes are these.
fn appends(
    encoder: &mut Encoder,
    out: &mut Vec<u8>,
    message: &Message,
    bytes: &[u8],
) -> Result<bool, Memory> {
    let mut wanted = out.clone()?;
    wanted.extend_from_slice(bytes)?;
    let done = encoder.encode(message, out);
    Ok(done == Ok(()) && *out == wanted)
}

// Whether an encoder appends nothing of a message that is too long.
fn refuses(alloc: Global, encoder: &mut Encoder, out: &mut Vec<u8>) -> Result<bool, Memory> {
    let message = too_long(alloc)?;
    let before = out.clone()?;
    let done = encoder.encode(&message, out);
    Ok(done == Err(WriteFault::TooLong) && *out == before)
}

// Whether an encoder appends the sample at a place to bytes, and then nothing of a message that is too long.
fn appends_sample(
    alloc: Global,
    encoder: &mut Encoder,
    out: &mut Vec<u8>,
    at: usize,
) -> Result<bool, Fail> {
    let bytes = sample(alloc, at)?;
    let message = decoded(alloc, &bytes)?;
    let is_appended = appends(encoder, out, &message, &bytes)?;
    Ok(is_appended && refuses(alloc, encoder, out)?)
}

#[test]
fn an_encoder_forgets_what_it_encoded_before(rt: HostRuntime) -> Result<(), Fail> {
    let mut encoder = Encoder::new(rt.alloc());
    let mut out = Vec::new(rt.alloc());
    for at in [8usize, 2, 0, 5] {
        let done = appends_sample(rt.alloc(), &mut encoder, &mut out, at)?;
        assert!(rt; done, "{at}");
    }
    Ok(())
}
