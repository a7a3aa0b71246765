// Messages of each kind, as texts: each is read, made, shown and encoded, and others are refused at their first word that does not fit.
use crate::format::limits::comes_back;
use fc_lines::TextFault;
use fc_making::make_bytes;
use fc_text::read_text;
use std::alloc::Global;
use std::test::Fail;

const KINDS: [&str; 12] = [
    "Heartbeat from=40000001 to=00000002 corr=0000000000000000 flags=C0000000
",
    "AssociationSetupResponse from=40000001 to=00000002 corr=0000000000000000 flags=00000000
  result 2
",
    "AssociationTeardown from=40000001 to=00000002 corr=0000000000000000 flags=00000000
  reason 255
",
    "Query from=40000001 to=00000002 corr=0000000000000007 flags=00000000
  lfb 00000001 00000001
    GET
      path 7
",
    "QueryResponse from=00000002 to=40000001 corr=0000000000000007 flags=00000000
  lfb 00000001 00000001
    GET-RESPONSE
      path 7
        full 02
",
    "Config from=40000001 to=00000001 corr=0000010100000003 flags=C0700000
  lfb 0001F001 00000001
    SET
      path 5
        full 0000010100000001
    COMMIT
",
    "ConfigResponse from=00000001 to=40000001 corr=0000010100000003 flags=00000000
  lfb 0001F001 00000001
    SET-RESPONSE
      path 5
        code 00
    COMMIT-RESPONSE
      code 00
",
    "Config from=40000001 to=00000001 corr=0000000000000003 flags=00000000
  lfb 00001001 00000001
    SET
      path 4 key 1 65746830
        path 1 5000
          sparse
            ilv 2 000000C8
",
    "Config from=40000001 to=00000001 corr=0000010100000000 flags=C0400000
  lfb 0001F001 00000001
    SET
      path 1
        full 00000101
",
    "ConfigResponse from=00000001 to=40000001 corr=0000010100000000 flags=00000000
  lfb 0001F001 00000001
    SET-RESPONSE
      path 1
        code 00
",
    "AssociationSetup from=00000001 to=FFFFFFFD corr=0000000000000000 flags=C0000000
",
    "QueryResponse from=40000001 to=00000002 corr=0000000000000000 flags=00000000
  lfb 00000001 00000001
    GET-RESPONSE
      path 7
        code 15
",
];

// The bytes of a text.
fn made(alloc: Global, text: &str) -> Result<Vec<u8>, Fail> {
    let mut bytes = Vec::new(alloc);
    make_bytes(alloc, text.as_bytes(), &mut bytes)
        .ok()
        .ok_or("bytes")?;
    Ok(bytes)
}

#[test]
fn each_kind_of_message_comes_back(rt: HostRuntime) -> Result<(), Fail> {
    let alloc = rt.alloc();
    for text in KINDS {
        let bytes = made(alloc, text)?;
        assert!(rt;
            comes_back(alloc, bytes.as_slice(), text.as_bytes())?,
            "{text}"
        );
    }
    Ok(())
}

// Texts that are no messages: the line and the column, and the text.
const REFUSED: [(usize, usize, &str); 6] = [
    (
        1,
        1,
        "heartbeat from=40000001 to=00000002 corr=0000000000000003 flags=00000000\n",
    ),
    (1, 24, "Heartbeat from=40000001\n"),
    (
        2,
        6,
        "Config from=40000001 to=00000002 corr=0000000000000003 flags=00000000\n  lfb\n",
    ),
    (
        3,
        5,
        "Config from=40000001 to=00000002 corr=0000000000000003 flags=00000000\n  lfb 00000001 00000001\n    \n",
    ),
    (
        6,
        14,
        "Config from=40000001 to=00000002 corr=0000000000000003 flags=00000000\n  lfb 00000001 00000001\n    SET\n      path 1\n        sparse\n          ilv\n",
    ),
    (1, 10, "Heartbeat"),
];

#[test]
fn a_text_is_refused_at_its_first_word_that_does_not_fit(rt: HostRuntime) -> Result<(), Fail> {
    for (line, column, text) in REFUSED {
        let fault = read_text(rt.alloc(), text.as_bytes()).err();
        assert!(rt; fault == Some(TextFault::At { line, column }), "{text}");
    }
    Ok(())
}
