// That an element which wants memory is as it was before, and takes the same message afterwards: `rt try --test --fail-alloc N` lets the Nth allocation
// fail.
use fc_base::{CeId, FeId};
use fc_element::{ElIn, Element};
use fc_library::library_from_slice;
use fc_msg::decode;
use fc_test_kit::{PORTS, bytes_of};
use std::alloc::Global;
use std::test::Fail;

// An acceptance; a claim; a transaction with a change at its start and another one behind it, which is prepared and completed; one that is aborted; a
// floor; and a plain change.
const MESSAGES: &str = "\
1011000840000001000000020000000000000000000000000010000800000000
1003000F40000001000000020000010100000000C0400000100000240001F00100000001000100180110001400000001000000010112000800000101
1003001D40000001000000020000010100000001C0600000100000380001F001000000010001002C0110002800000001000000040112001C00000101000000010112000C00000001000000020112000410000024000010010000000100010018011000140000000100000001011200080000000A
1003001D40000001000000020000010100000002C0680000100000280001F001000000010001001C0110001800000001000000050112000C000001010000000110000034000010010000000200010028011000240000000200000004000000010112001101120008657468300000006401000000
1003001140000001000000020000010100000003C07000001000002C0001F001000000010001001C0110001800000001000000050112000C0000010100000001000C0004
1003001140000001000000020000010100000004C07000001000002C0001F001000000010001001C0110001800000001000000050112000C0000010100000001000E0004
1003001D40000001000000020000010100000005C0600000100000380001F001000000010001002C0110002800000001000000040112001C00000101000000020112000C000000010000000201120004100000240000100100000001000100180110001400000001000000010112000800000014
1003001040000001000000020000010100000006C0780000100000280001F001000000010001001C0110001800000001000000050112000C0000010100000002
1003001040000001000000020000010100000007C0400000100000280001F001000000010001001C0110001800000001000000060112000C0000010100000002
1003000F40000001000000020000010100000008C040000010000024000010010000000100010018011000140000000100000001011200080000001E";

// Element 2 with ports, which control element 40000001 is to configure.
fn element(alloc: Global) -> Result<Element, Fail> {
    let id = FeId::of(2).ok_or("an element")?;
    let ce = CeId::of(0x4000_0001).ok_or("a control element")?;
    match library_from_slice(alloc, PORTS.as_bytes()) {
        Ok((library, instances)) => Ok(Element::new(alloc, id, ce, library, instances)?),
        Err(_) => Err(Fail::from("no library")),
    }
}

fn report(alloc: Global, element: &Element) -> Result<Vec<u8>, Fail> {
    let mut text = Vec::new(alloc);
    element.report(&mut text)?;
    Ok(text)
}

// Whether the element takes a message, and does not want memory for it.
fn arrives(alloc: Global, element: &mut Element, digits: &str) -> Result<bool, Fail> {
    let bytes = bytes_of(alloc, digits)?;
    match decode(alloc, &bytes) {
        Ok(message) => Ok(element.step(ElIn::Arrived(1, message)).is_ok()),
        Err(_) => Err(Fail::from("no message")),
    }
}

// Whether the element takes a message at once, or has not changed where it wanted memory, and takes it then.
fn is_taken(alloc: Global, element: &mut Element, digits: &str) -> Result<bool, Fail> {
    let before = report(alloc, element)?;
    if arrives(alloc, element, digits)? {
        return Ok(true);
    }
    let after = report(alloc, element)?;
    Ok(arrives(alloc, element, digits)? && before.as_slice() == after.as_slice())
}

#[test]
fn a_refused_allocation_changes_no_element(rt: HostRuntime) -> Result<(), Fail> {
    let alloc = rt.alloc();
    let mut element = element(alloc)?;
    for digits in MESSAGES.lines() {
        assert!(rt; is_taken(alloc, &mut element, digits)?);
    }
    let told = report(alloc, &element)?;
    assert_eq!(rt; told.as_slice(), REPORT.as_bytes());
    Ok(())
}

// What is told in the end.
const REPORT: &str = "\
element 2 epoch 257 ce 40000001 sequence 8
floor 257.2
record 257.2 aborted
config 00001001 00000001 1 0000001E
config 00001001 00000002 4 0000000101120008657468300000006401
";
