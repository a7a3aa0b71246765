// Associations, heartbeats and moments.
use crate::tables::first_wrong;
use fc_base::{Memory, eight_digits};
use std::alloc::Global;
use std::test::Fail;

const HELD: &str = "\
-- strangers are not answered, and what is no acceptance is none
open 2 = 2 AssociationSetup
Heartbeat C0000000 =
AssociationSetupResponse 00000000 40000001 00000003 | result 0 =
AssociationSetupResponse 00000000 | result 2 =
Heartbeat C0000000 =
Query 00000000 | lfb 00000001 00000001 | GET | path 7 =
Config C0400000 | lfb 00000001 00000001 | SET | path 7 | full 00 =
close 2 =
element 2 epoch 0 ce 40000001 sequence 0

-- a heartbeat that asks is answered until a teardown
AssociationSetupResponse 00000000 | result 0 =
Heartbeat C0000000 = 1 Heartbeat
Heartbeat 40000000 =
AssociationTeardown 00000000 | reason 0 =
Heartbeat C0000000 =
element 2 epoch 0 ce 40000001 sequence 0

-- thirty seconds of silence are borne, and no more
AssociationSetupResponse 00000000 | result 0 =
moment 30000 =
Heartbeat C0000000 = 1 Heartbeat
moment 60001 =
Heartbeat C0000000 =
element 2 epoch 0 ce 40000001 sequence 0

-- what is configured says how much silence is borne, and when heartbeats are sent
AssociationSetupResponse 00000000 | result 0 =
Config C0400000 | lfb 00000002 00000001 | SET | path 5 | full 00000010 | path 6 | full 01 | path 7 | full 00000002 = 1 ConfigResponse 00 00 00
moment 1 =
moment 2 = 1 Heartbeat
moment 16 = 1 Heartbeat
Heartbeat C0000000 = 1 Heartbeat
moment 33 =
Heartbeat C0000000 =
element 2 epoch 0 ce 40000001 sequence 0
config 00000002 00000001 5 00000010
config 00000002 00000001 6 01
config 00000002 00000001 7 00000002

-- no silence is too long where that is configured
AssociationSetupResponse 00000000 | result 0 =
Config C0400000 | lfb 00000002 00000001 | SET | path 4 | full 01 | path 5 | full 00000010 = 1 ConfigResponse 00 00
moment 4000000000 =
Heartbeat C0000000 = 1 Heartbeat
Config C0400000 | lfb 00000002 00000001 | SET | path 4 | full 00 = 1 ConfigResponse 00
moment 4000000017 =
Heartbeat C0000000 =
element 2 epoch 0 ce 40000001 sequence 0
config 00000002 00000001 5 00000010

-- who is heard at a moment is borne thirty seconds from then on
AssociationSetupResponse 00000000 | result 0 =
moment 1 =
Heartbeat C0000000 = 1 Heartbeat
moment 30001 =
Heartbeat C0000000 = 1 Heartbeat
element 2 epoch 0 ce 40000001 sequence 0

-- no silence is borne at all
AssociationSetupResponse 00000000 | result 0 =
Config C0400000 | lfb 00000002 00000001 | SET | path 5 | full 00000000 = 1 ConfigResponse 00
moment 0 =
Heartbeat C0000000 = 1 Heartbeat
moment 1 =
Heartbeat C0000000 =
element 2 epoch 0 ce 40000001 sequence 0
config 00000002 00000001 5 00000000

-- a moment before the one at which it was heard ends nothing
AssociationSetupResponse 00000000 | result 0 =
moment 9 =
Config C0400000 | lfb 00000002 00000001 | SET | path 5 | full 00000000 = 1 ConfigResponse 00
moment 5 =
Heartbeat C0000000 = 1 Heartbeat
element 2 epoch 0 ce 40000001 sequence 0
config 00000002 00000001 5 00000000

-- up to the last moment, with the longest silence
AssociationSetupResponse 00000000 | result 0 =
Config C0400000 | lfb 00000002 00000001 | SET | path 4 | full 01 | path 5 | full FFFFFFFF = 1 ConfigResponse 00 00
moment 18446744073709551614 =
Heartbeat C0000000 = 1 Heartbeat
Config C0400000 | lfb 00000002 00000001 | SET | path 4 | full 00 = 1 ConfigResponse 00
moment 18446744073709551615 =
Heartbeat C0000000 = 1 Heartbeat
element 2 epoch 0 ce 40000001 sequence 0
config 00000002 00000001 5 FFFFFFFF

-- and with a short one
AssociationSetupResponse 00000000 | result 0 =
Config C0400000 | lfb 00000002 00000001 | SET | path 4 | full 01 | path 5 | full 00000001 = 1 ConfigResponse 00 00
moment 18446744073709551613 =
Heartbeat C0000000 = 1 Heartbeat
Config C0400000 | lfb 00000002 00000001 | SET | path 4 | full 00 = 1 ConfigResponse 00
moment 18446744073709551615 =
Heartbeat C0000000 =
element 2 epoch 0 ce 40000001 sequence 0
config 00000002 00000001 5 00000001

-- a stranger has no association that renews or ends, and what has ended is not renewed
AssociationSetupResponse 00000000 | result 0 =
AssociationSetupResponse 00000000 40000002 00000002 | result 0 =
Heartbeat C0000000 40000003 00000002 =
AssociationTeardown 00000000 40000003 00000002 | reason 0 =
Heartbeat C0000000 40000002 00000002 = 1 Heartbeat
AssociationTeardown 00000000 40000002 00000002 | reason 0 =
Heartbeat C0000000 40000002 00000002 =
Heartbeat C0000000 = 1 Heartbeat
element 2 epoch 0 ce 40000001 sequence 0";

#[test]
fn an_association_is_held_by_heartbeats(rt: HostRuntime) -> Result<(), Fail> {
    assert_eq!(rt; first_wrong(rt.alloc(), "", HELD, 65_536)?, None);
    Ok(())
}

// A query, a Config that is done and one that is refused for its sender or its transaction are signs of life; one for another element, without a
// mode or that can't be answered is none.
const RENEWED: &str = "\
-- a query
AssociationSetupResponse 00000000 | result 0 =
moment 20000 =
Query 00000000 | lfb 00000001 00000001 | GET | path 7 = 1 QueryResponse 02
moment 50000 =
Heartbeat C0000000 = 1 Heartbeat
element 2 epoch 0 ce 40000001 sequence 0

-- a Config, whatever its codes
AssociationSetupResponse 00000000 | result 0 =
AssociationSetupResponse 00000000 40000002 00000002 | result 0 =
moment 20000 =
Config C0400000 | lfb 00000009 00000001 | DEL | path 1 = 1 ConfigResponse 05
Config C0600000 40000002 00000002 | lfb 00000009 00000001 | DEL | path 1 = 1 ConfigResponse 0C
moment 50000 =
Heartbeat C0000000 = 1 Heartbeat
Heartbeat C0000000 40000002 00000002 = 1 Heartbeat
element 2 epoch 0 ce 40000001 sequence 0

-- of a transaction
AssociationSetupResponse 00000000 | result 0 =
moment 20000 =
Config C0600000 | lfb 00000009 00000001 | DEL | path 1 = 1 ConfigResponse 15
moment 50000 =
Heartbeat C0000000 = 1 Heartbeat
element 2 epoch 0 ce 40000001 sequence 0

-- for another element, without a mode as well
AssociationSetupResponse 00000000 | result 0 =
moment 20000 =
Config C0000000 40000001 00000003 | lfb 00000009 00000001 | DEL | path 1 = 1 ConfigResponse 04
moment 30001 =
Heartbeat C0000000 =
element 2 epoch 0 ce 40000001 sequence 0

-- without a mode, from another control element as well
AssociationSetupResponse 00000000 | result 0 =
AssociationSetupResponse 00000000 40000002 00000002 | result 0 =
moment 20000 =
Config C0000000 | lfb 00000009 00000001 | DEL | path 1 = 1 ConfigResponse 12
Config C0200000 40000002 00000002 | lfb 00000009 00000001 | DEL | path 1 = 1 ConfigResponse 12
moment 30001 =
Heartbeat C0000000 =
Heartbeat C0000000 40000002 00000002 =
element 2 epoch 0 ce 40000001 sequence 0";

#[test]
fn what_is_taken_is_a_sign_of_life(rt: HostRuntime) -> Result<(), Fail> {
    assert_eq!(rt; first_wrong(rt.alloc(), "", RENEWED, 65_536)?, None);
    Ok(())
}

// So many of one path.
fn push_paths(case: &mut Vec<u8>, path: &str, count: usize) -> Result<(), Memory> {
    for _ in 0..count {
        case.extend_from_slice(path.as_bytes())?;
    }
    Ok(())
}

// A query and a Config of so many paths that their results alone pass a length field: neither is answered, the Config is not done and no sign of
// life.
fn unanswerable(alloc: Global) -> Result<String, Fail> {
    let mut case = Vec::new(alloc);
    case.extend_from_slice(
        b"AssociationSetupResponse 00000000 | result 0 =\nmoment 20000 =\nQuery C0000000 | lfb 00000001 00000001 | GET",
    )?;
    push_paths(&mut case, " | path 1 1 1 1 1", 2_000)?;
    case.extend_from_slice(
        b" =\nmoment 50000 =\nHeartbeat C0000000 = 1 Heartbeat\nmoment 70000 =\nConfig C0C00000 | lfb 00000002 00000001 | SET | path 7 | full 00000001 | DEL",
    )?;
    push_paths(&mut case, " | path 1 1 1 1 1", 2_000)?;
    case.extend_from_slice(
        b" =\nmoment 80001 =\nHeartbeat C0000000 =\nelement 2 epoch 0 ce 40000001 sequence 0",
    )?;
    Ok(String::from_utf8(case).ok().ok_or("a text")?)
}

#[test]
fn what_has_no_room_for_its_results_is_not_answered(rt: HostRuntime) -> Result<(), Fail> {
    let alloc = rt.alloc();
    let case = unanswerable(alloc)?;
    assert_eq!(rt; first_wrong(alloc, "", case.as_str(), 65_536)?, None);
    Ok(())
}

// A control element is accepted, and asks: it is answered, or not.
fn push_control_element(case: &mut Vec<u8>, id: u32, answered: bool) -> Result<(), Memory> {
    let digits = eight_digits(id);
    case.extend_from_slice(b"AssociationSetupResponse 00000000 ")?;
    case.extend_from_slice(&digits)?;
    case.extend_from_slice(b" 00000002 | result 0 =\nHeartbeat C0000000 ")?;
    case.extend_from_slice(&digits)?;
    case.extend_from_slice(b" 00000002 =")?;
    if answered {
        case.extend_from_slice(b" 1 Heartbeat")?;
    }
    case.push(b'\n')?;
    Ok(())
}

// As many control elements as may be associated, and six more. The last of them comes once more, and the first one gives way to another one: these two
// outlast a silence that is too long for the others. Then as many again come as there is room for, and one more.
fn crowd(alloc: Global) -> Result<String, Fail> {
    let mut case = Vec::new(alloc);
    for number in 1..71u32 {
        push_control_element(&mut case, 0x4000_0000 | number, number <= 64)?;
    }
    case.extend_from_slice(b"moment 20000 =\n")?;
    push_control_element(&mut case, 0x4000_0040, true)?;
    case.extend_from_slice(b"AssociationTeardown 00000000 | reason 0 =\n")?;
    push_control_element(&mut case, 0x4000_0041, true)?;
    case.extend_from_slice(
        b"moment 30001 =\nHeartbeat C0000000 40000002 00000002 =\nHeartbeat C0000000 4000003F 00000002 =\nHeartbeat C0000000 40000040 00000002 = 1 Heartbeat\nHeartbeat C0000000 40000041 00000002 = 1 Heartbeat\n",
    )?;
    for number in 101..164u32 {
        push_control_element(&mut case, 0x4000_0000 | number, number < 163)?;
    }
    case.extend_from_slice(b"element 2 epoch 0 ce 40000001 sequence 0")?;
    Ok(String::from_utf8(case).ok().ok_or("a text")?)
}

#[test]
fn as_many_control_elements_are_answered_as_may_be_associated(rt: HostRuntime) -> Result<(), Fail> {
    let alloc = rt.alloc();
    let case = crowd(alloc)?;
    assert_eq!(rt; first_wrong(alloc, "", case.as_str(), 65_536)?, None);
    Ok(())
}
