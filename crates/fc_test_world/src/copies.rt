// Copies of the longest messages and of long lists.
use fc_base::{Duplicate, List};
use fc_msg::{MsgBody, decode};
use std::alloc::Global;
use std::test::Fail;

// The header of a Config of 65,535 words, the most that it can tell, from a control element to element 2.
const HEADER: [u8; 24] = [
    0x10, 0x03, 0xff, 0xff, 0x40, 0, 0, 1, 0, 0, 0, 2, 0, 0, 0, 0, 0, 0, 0, 7, 0, 0, 0, 0,
];

// How many selects that Config has.
const SELECTS: usize = 81;

// The beginning of a select of 3,236 bytes, a SET of one component.
const SET: [u8; 32] = [
    0x10, 0x00, 0x0c, 0xa4, 0, 0, 0, 1, 0, 0, 0, 1, 0x00, 0x01, 0x0c, 0x98, 0x01, 0x10, 0x0c, 0x94,
    0, 0, 0, 1, 0, 0, 0, 7, 0x01, 0x12, 0x0c, 0x88,
];

// How many bytes the value of the component has.
const VALUE: usize = 3204;

// The bytes of that Config.
fn longest(alloc: Global) -> Result<Vec<u8>, Fail> {
    let mut bytes = Vec::from_slice(alloc, &HEADER)?;
    let value = Vec::from_elem(alloc, 5u8, VALUE)?;
    for _ in 0..SELECTS {
        bytes.extend_from_slice(&SET)?;
        bytes.extend_from_slice(&value)?;
    }
    Ok(bytes)
}

#[test]
fn the_longest_message_is_copied_whole(rt: HostRuntime) -> Result<(), Fail> {
    let bytes = longest(rt.alloc())?;
    assert_eq!(rt; bytes.len(), 262_140);
    let message = decode(rt.alloc(), &bytes).ok().ok_or("no message")?;
    let MsgBody::Config(selects) = &message.body else {
        return Err(Fail::from("no Config"));
    };
    assert_eq!(rt; selects.len(), SELECTS);
    assert!(rt; message.copy()? == message);
    Ok(())
}

#[test]
fn a_long_list_is_copied_whole(rt: HostRuntime) -> Result<(), Fail> {
    let mut list = List::new(rt.alloc());
    for item in 0..300u32 {
        list.push(item)?;
    }
    assert!(rt; list.copy()? == list);
    Ok(())
}
