// Bytes that are no message and no select, and that no stream holds.
use crate::format::selects::read_select;
use fc_msg::{MsgFault, Reason, decode};
use fc_path::PathFault;
use fc_test_kit::bytes_of;
use std::test::Fail;

// A heartbeat, and a word that its length does not count.
const BEHIND: &str = "100F0006 40000001 00000002 00000000 00000000 00000000 00000000";

#[test]
fn bytes_behind_a_message_are_refused(rt: HostRuntime) -> Result<(), Fail> {
    let bytes = bytes_of(rt.alloc(), BEHIND)?;
    let is_refused = match decode(rt.alloc(), &bytes) {
        Err(MsgFault::At(refusal)) => {
            refusal.place == 24 && refusal.reason.name() == Reason::Trailing.name()
        }
        _ => false,
    };
    assert!(rt; is_refused);
    Ok(())
}

#[test]
fn a_heartbeat_has_no_select(rt: HostRuntime) -> Result<(), Fail> {
    let bytes = bytes_of(rt.alloc(), "10000010 00000001 00000001 00070004")?;
    let fault = read_select(rt.alloc(), 0x0F, &bytes).err();
    assert!(rt; fault == Some(PathFault::WrongBody { place: 24 }));
    Ok(())
}
