// Bodies, which are texts without the line of a message.
use fc_lines::TextFault;
use fc_msg::MsgBody;
use fc_text::{read_body, read_text};
use std::test::Fail;

// A message, with the text of its body as it is indented there.
const INSIDE: &str = "Config from=40000001 to=00000002 corr=0000000000000003 flags=00000000
  lfb 00001001 00000001
    SET
      path 1
        full 0000000A
";

#[test]
fn a_body_is_read_without_indentation(rt: HostRuntime) -> Result<(), Fail> {
    let alloc = rt.alloc();
    let body = b"lfb 00001001 00000001\n  SET\n    path 1\n      full 0000000A\n";
    let selects = read_body(alloc, body).ok().ok_or("a body")?;
    let messages = read_text(alloc, INSIDE.as_bytes()).ok().ok_or("a text")?;
    let message = messages.get(0).ok_or("a message")?;
    assert!(rt; message.body == MsgBody::Config(selects));
    Ok(())
}

// Texts that are no body: the line and the column, and the text.
const NO_BODIES: [(usize, usize, &str); 5] = [
    (1, 1, ""),
    (1, 1, "  lfb 00001001 00000001\n    SET\n"),
    (2, 3, "lfb 00001001 00000001\n  GET\n"),
    (3, 1, "lfb 00001001 00000001\n  COMMIT\n    COMMIT\n"),
    (3, 4, "lfb 00001001 00000001\n  COMMIT\nlfb\n"),
];

#[test]
fn a_body_is_refused_at_its_first_word_that_does_not_fit(rt: HostRuntime) -> Result<(), Fail> {
    for (line, column, text) in NO_BODIES {
        let fault = read_body(rt.alloc(), text.as_bytes()).err();
        assert!(rt; fault == Some(TextFault::At { line, column }), "{text}");
    }
    Ok(())
}
