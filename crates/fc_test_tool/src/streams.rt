// Streams of all messages, and the deepest and the longest of them, through `run`.
use crate::running::{BEAT, shown};
use fc_test_kit::bytes_of;
use std::alloc::Global;
use std::test::Fail;

// A TLV of a type, whose value is two pieces.
fn tlv(alloc: Global, kind: u16, front: &[u8], inner: &[u8]) -> Result<Vec<u8>, Fail> {
    let length = front.len().saturating_add(inner.len()).saturating_add(4);
    let length = u16::try_from(length).ok().ok_or("length")?;
    let mut bytes = Vec::new(alloc);
    bytes.extend_from_slice(&kind.to_be_bytes())?;
    bytes.extend_from_slice(&length.to_be_bytes())?;
    bytes.extend_from_slice(front)?;
    bytes.extend_from_slice(inner)?;
    Ok(bytes)
}

// The first LFB: its class and its instance.
const FIRST: [u8; 8] = [0, 0, 0, 1, 0, 0, 0, 1];

// An operation in which so many PATH-DATA without IDs stand inside one another, the innermost with this body.
fn operation(alloc: Global, kind: u16, deep: u32, body: &[u8]) -> Result<Vec<u8>, Fail> {
    let mut inner = Vec::from_slice(alloc, body)?;
    for _ in 0..deep {
        inner = tlv(alloc, 0x0110, &[0; 4], inner.as_slice())?;
    }
    tlv(alloc, kind, &[], inner.as_slice())
}

// A select of the first LFB with this operation alone.
fn nested(alloc: Global, kind: u16, deep: u32, body: &[u8]) -> Result<Vec<u8>, Fail> {
    let operation = operation(alloc, kind, deep, body)?;
    tlv(alloc, 0x1000, &FIRST, operation.as_slice())
}

// A message of a type with this body.
fn message(alloc: Global, kind: u8, body: &[u8]) -> Result<Vec<u8>, Fail> {
    let words = u16::try_from(body.len() / 4).ok().ok_or("words")?;
    let words = words.checked_add(6).ok_or("words")?;
    let mut bytes = Vec::new(alloc);
    bytes.extend_from_slice(&[0x10, kind])?;
    bytes.extend_from_slice(&words.to_be_bytes())?;
    bytes.extend_from_slice(&BEAT[4..])?;
    bytes.extend_from_slice(body)?;
    Ok(bytes)
}

#[test]
fn paths_stand_sixteen_deep_and_no_deeper(rt: HostRuntime) -> Result<(), Fail> {
    let alloc = rt.alloc();
    for (deep, wanted, last) in [
        (16u32, 0u8, "                                    path\n"),
        (17, 6, "refused 168 deep\n"),
    ] {
        let select = nested(alloc, 7, deep, &[])?;
        let (status, text) = shown(alloc, message(alloc, 4, select.as_slice())?, 4096)?;
        assert_eq!(rt; status, wanted);
        assert!(rt; text.as_slice().ends_with(last.as_bytes()));
    }
    Ok(())
}

// So many PATH-DATA without IDs beside one another, whose values have no parts, and behind them these bytes.
fn siblings(alloc: Global, count: u32, last: &[u8]) -> Result<Vec<u8>, Fail> {
    let mut bytes = Vec::new(alloc);
    for _ in 0..count {
        bytes.extend_from_slice(&[0x01, 0x10, 0, 12, 0, 0, 0, 0, 0x01, 0x13, 0, 4])?;
    }
    bytes.extend_from_slice(last)?;
    Ok(bytes)
}

// Nothing takes more text for its bytes than PATH-DATA sixteen deep, each with the word before parts of which there are
// none; and of what is left, a part whose ID is the greatest.
#[test]
fn the_largest_text_of_a_message_is_written(rt: HostRuntime) -> Result<(), Fail> {
    let alloc = rt.alloc();
    let mut body = Vec::new(alloc);
    // The last three bytes of the first select stand where its length has padding.
    let first = operation(alloc, 0x0a, 15, siblings(alloc, 5450, &[])?.as_slice())?;
    let (counted, padding) = first.as_slice().split_last_chunk::<3>().ok_or("first")?;
    body.extend_from_slice(tlv(alloc, 0x1000, &FIRST, counted)?.as_slice())?;
    body.extend_from_slice(padding)?;
    let part = [0x01, 0x13, 0, 12, 0xff, 0xff, 0xff, 0xff, 0, 0, 0, 8];
    let parted = tlv(alloc, 0x0110, &[0; 4], &part)?;
    let plain = siblings(alloc, 5449, &[])?;
    for inner in [
        siblings(alloc, 5448, parted.as_slice())?.as_slice(),
        plain.as_slice(),
        plain.as_slice(),
    ] {
        body.extend_from_slice(nested(alloc, 0x0a, 15, inner)?.as_slice())?;
    }
    let bytes = message(alloc, 0x14, body.as_slice())?;
    assert_eq!(rt; bytes.len(), 262_140);
    let (status, text) = shown(alloc, bytes, 65_536)?;
    assert_eq!(rt; status, 0);
    // A line of 77 bytes; four times the select, the operation and 15 paths, in 421; 86 for each of the 21,797 innermost;
    // and 57 for the part.
    assert_eq!(rt; text.len(), 1_876_360);
    assert!(rt;
        text.as_slice()
            .ends_with(b"                                      sparse\n")
    );
    Ok(())
}

// The messages of the samples, one a line, and their text.
const SAMPLES: &str = "100F0006 40000001 00000002 00000000 00000000 00000000
10010006 00000001 FFFFFFFD 00000000 00000000 C0000000
10110008 40000001 00000002 00000000 00000000 00000000 00100008 00000002
10020008 40000001 00000002 00000000 00000000 00000000 00110008 000000FF
1004000D 40000001 00000002 00000000 00000007 00000000 1000001C 00000001 00000001 00070010 0110000C 00000001 00000007
1014000F 00000002 40000001 00000000 00000007 00000000 10000024 00000001 00000001 00090018 01100014 00000001 00000007 01120005 02000000
1014000F 00000002 40000001 00000000 00000007 00000000 10000021 00000001 00000001 00090015 01100011 00000001 00000007 01120005 02FFFFFF
1003000F 40000001 00000001 00000101 00000000 C0400000 10000024 0001F001 00000001 00010018 01100014 00000001 00000001 01120008 00000101
1013000F 00000001 40000001 00000101 00000000 00000000 10000024 0001F001 00000001 00030018 01100014 00000001 00000001 01140008 00000000
10030016 40000001 00000001 00000101 00000001 C0600000 10000040 0001F001 00000001 00010034 01100030 00000001 00000004 01120024 00000101 00000001 01120014 00000001 00000001 00000002 00000002 01120004
10030011 40000001 00000001 00000101 00000003 C0700000 1000002C 0001F001 00000001 0001001C 01100018 00000001 00000005 0112000C 00000101 00000001 000C0004
10130012 00000001 40000001 00000101 00000003 00000000 10000030 0001F001 00000001 00030018 01100014 00000001 00000005 01140008 00000000 000D000C 01140008 00000000
10030019 40000001 00000001 00000000 00000003 00000000 1000004C 00001001 00000001 00010040 0110003C 80000001 00000004 01110010 00000001 01120008 65746830 01100020 00000002 00000001 00001388 01130010 00000002 0000000C 000000C8
10010010 00000002 FFFFFFFD 00000000 00000000 C0000000 10000028 00001001 00000001 000B001C 01100018 00000002 0000003C 00000001 01120008 00000065
10050010 00000002 40000001 00000000 00000000 00000000 10000028 00001001 00000001 000B001C 01100018 00000002 0000003C 00000001 01120008 00000065";

const SAMPLES_TEXT: &str = "Heartbeat from=40000001 to=00000002 corr=0000000000000000 flags=00000000
AssociationSetup from=00000001 to=FFFFFFFD corr=0000000000000000 flags=C0000000
AssociationSetupResponse from=40000001 to=00000002 corr=0000000000000000 flags=00000000
  result 2
AssociationTeardown from=40000001 to=00000002 corr=0000000000000000 flags=00000000
  reason 255
Query from=40000001 to=00000002 corr=0000000000000007 flags=00000000
  lfb 00000001 00000001
    GET
      path 7
QueryResponse from=00000002 to=40000001 corr=0000000000000007 flags=00000000
  lfb 00000001 00000001
    GET-RESPONSE
      path 7
        full 02
QueryResponse from=00000002 to=40000001 corr=0000000000000007 flags=00000000
  lfb 00000001 00000001
    GET-RESPONSE
      path 7
        full 02
Config from=40000001 to=00000001 corr=0000010100000000 flags=C0400000
  lfb 0001F001 00000001
    SET
      path 1
        full 00000101
ConfigResponse from=00000001 to=40000001 corr=0000010100000000 flags=00000000
  lfb 0001F001 00000001
    SET-RESPONSE
      path 1
        code 00
Config from=40000001 to=00000001 corr=0000010100000001 flags=C0600000
  lfb 0001F001 00000001
    SET
      path 4
        full 0000010100000001011200140000000100000001000000020000000201120004
Config from=40000001 to=00000001 corr=0000010100000003 flags=C0700000
  lfb 0001F001 00000001
    SET
      path 5
        full 0000010100000001
    COMMIT
ConfigResponse from=00000001 to=40000001 corr=0000010100000003 flags=00000000
  lfb 0001F001 00000001
    SET-RESPONSE
      path 5
        code 00
    COMMIT-RESPONSE
      code 00
Config from=40000001 to=00000001 corr=0000000000000003 flags=00000000
  lfb 00001001 00000001
    SET
      path 4 key 1 65746830
        path 1 5000
          sparse
            ilv 2 000000C8
AssociationSetup from=00000002 to=FFFFFFFD corr=0000000000000000 flags=C0000000
  lfb 00001001 00000001
    REPORT
      path 60 1
        full 00000065
EventNotification from=00000002 to=40000001 corr=0000000000000000 flags=00000000
  lfb 00001001 00000001
    REPORT
      path 60 1
        full 00000065
";

#[test]
fn all_messages_are_shown_wherever_the_stream_is_cut(rt: HostRuntime) -> Result<(), Fail> {
    let alloc = rt.alloc();
    let bytes = bytes_of(alloc, SAMPLES)?;
    for piece in 1..=bytes.len() {
        let (status, text) = shown(alloc, bytes.clone()?, piece)?;
        assert_eq!(rt; status, 0, "in pieces of {piece}");
        assert_eq!(rt;
            text.as_slice(),
            SAMPLES_TEXT.as_bytes(),
            "in pieces of {piece}"
        );
    }
    Ok(())
}
