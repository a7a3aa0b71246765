// How many transactions have a record, how many are held at once, and how many participants each has: up to the most, and one more.
use crate::tables::first_wrong;
use std::alloc::{AllocError, Global};
use std::fmt::Write;
use std::test::Fail;

// Each case begins so.
const CLAIMED: &str =
    "AssociationSetupResponse 00000000 | result 0 =\nclaim 40000001 00000101 = 1 ConfigResponse 00\n";

const PORT: &str =
    "[[class]]\nid = 0x1001\nname = 'Port'\ncomponent = [{ id = 1, name = 'speed', type = 'u32' }]\n";

// So many ports, by their IDs from 1.
fn ports(alloc: Global, count: u32) -> Result<String, Fail> {
    let mut document = String::from_str(alloc, PORT)?;
    for id in 1..=count {
        let instance = format!(in alloc; "[[instance]]\nclass = 0x1001\nid = {id}\n")?;
        document.push_str(instance.as_str())?;
    }
    Ok(document)
}

// A transaction is started over one port for elements 1 and 2; its number is the sequence too.
fn push_start(case: &mut String, number: u32, port: u32, code: &str) -> Result<(), AllocError> {
    write!(
        case,
        "Config C0600000 40000001 00000002 00000101{number:08X} | lfb 0001F001 00000001 | SET | path 4 | full 00000101{number:08X}0112001400000001000000010000000200000002011200100000000100001001{port:08X} = 1 ConfigResponse {code}\n"
    )
}

// A transaction is aborted, under this sequence.
fn push_abort(case: &mut String, sequence: u32, number: u32, code: &str) -> Result<(), AllocError> {
    write!(
        case,
        "Config C0780000 40000001 00000002 00000101{sequence:08X} | lfb 0001F001 00000001 | SET | path 5 | full 00000101{number:08X} = 1 ConfigResponse {code}\n"
    )
}

// A line of the report.
fn push_record(case: &mut String, number: u32, state: &str) -> Result<(), AllocError> {
    write!(case, "\nrecord 257.{number} {state}")
}

// The same under its number as sequence, with the bytes of both messages, which are made and compared in far less time than their text.
fn push_abort_in_bytes(case: &mut String, number: u32) -> Result<(), AllocError> {
    write!(
        case,
        "10030010 40000001 00000002 00000101 {number:08X} C0780000 10000028 0001F001 00000001 0001001C 01100018 00000001 00000005 0112000C 00000101 {number:08X} = 1013000F 00000002 40000001 00000101 {number:08X} 00000000 10000024 0001F001 00000001 00030018 01100014 00000001 00000005 01140008 00000000\n"
    )
}

// Transactions without a record are aborted, by their numbers from 1 to this one.
fn push_aborts(case: &mut String, last: u32) -> Result<(), AllocError> {
    for number in 1..=last {
        push_abort_in_bytes(case, number)?;
    }
    Ok(())
}

// Transactions are started, by their numbers from 1 to this one, each over the port of its number.
fn push_starts(case: &mut String, last: u32) -> Result<(), AllocError> {
    for number in 1..=last {
        push_start(case, number, number, "00")?;
    }
    Ok(())
}

// The lines of the report from one number to another.
fn push_records(case: &mut String, first: u32, last: u32, state: &str) -> Result<(), AllocError> {
    for number in first..=last {
        push_record(case, number, state)?;
    }
    Ok(())
}

// Behind as many records as there may be no other transaction has one, but those that have one are answered as before.
fn all_kept(alloc: Global) -> Result<String, Fail> {
    let mut case = String::from_str(alloc, CLAIMED)?;
    push_aborts(&mut case, 4096)?;
    push_abort(&mut case, 4097, 4097, "0E")?;
    push_start(&mut case, 4098, 1, "0E")?;
    push_abort(&mut case, 4099, 4096, "00")?;
    case.push_str("element 2 epoch 257 ce 40000001 sequence 4099")?;
    push_records(&mut case, 1, 4096, "aborted")?;
    Ok(case)
}

#[test]
fn full_records_take_no_other_transaction(rt: HostRuntime) -> Result<(), Fail> {
    let alloc = rt.alloc();
    let document = ports(alloc, 1)?;
    let case = all_kept(alloc)?;
    assert_eq!(rt;
        first_wrong(alloc, document.as_str(), case.as_str(), 65_536)?,
        None
    );
    Ok(())
}

// Beside as many held transactions as there may be none is started, first over a port of its own, then over that of another, until one of them is
// aborted.
fn all_held(alloc: Global) -> Result<String, Fail> {
    let mut case = String::from_str(alloc, CLAIMED)?;
    push_starts(&mut case, 64)?;
    push_start(&mut case, 65, 65, "0E")?;
    push_start(&mut case, 66, 64, "12")?;
    push_abort(&mut case, 67, 1, "00")?;
    push_start(&mut case, 68, 65, "00")?;
    case.push_str("element 2 epoch 257 ce 40000001 sequence 68")?;
    push_record(&mut case, 1, "aborted")?;
    push_records(&mut case, 2, 64, "started")?;
    push_record(&mut case, 68, "started")?;
    Ok(case)
}

#[test]
fn a_sixty_fifth_transaction_is_not_held(rt: HostRuntime) -> Result<(), Fail> {
    let alloc = rt.alloc();
    let document = ports(alloc, 65)?;
    let case = all_held(alloc)?;
    assert_eq!(rt;
        first_wrong(alloc, document.as_str(), case.as_str(), 65_536)?,
        None
    );
    Ok(())
}

// A participant, whose index is its ID too.
fn push_participant(case: &mut String, id: u32) -> Result<(), AllocError> {
    write!(case, "{id:08X}{id:08X}")
}

// A transaction over all instances is started for the elements from 1 to the last one; its number is the sequence too.
fn push_wide_start(
    case: &mut String,
    number: u32,
    last: u32,
    code: &str,
) -> Result<(), AllocError> {
    let length = 4 + 8 * u64::from(last);
    write!(
        case,
        "Config C0600000 40000001 00000002 00000101{number:08X} | lfb 0001F001 00000001 | SET | path 4 | full 00000101{number:08X}0112{length:04X}"
    )?;
    for id in 1..=last {
        push_participant(case, id)?;
    }
    write!(case, "01120004 = 1 ConfigResponse {code}\n")
}

// One with a participant too many has no record, and one with as many as there may be is started.
fn all_together(alloc: Global) -> Result<String, Fail> {
    let mut case = String::from_str(alloc, CLAIMED)?;
    push_wide_start(&mut case, 1, 65, "10")?;
    push_wide_start(&mut case, 2, 64, "00")?;
    case.push_str("element 2 epoch 257 ce 40000001 sequence 2")?;
    push_record(&mut case, 2, "started")?;
    Ok(case)
}

#[test]
fn a_sixty_fifth_participant_is_refused(rt: HostRuntime) -> Result<(), Fail> {
    let alloc = rt.alloc();
    let case = all_together(alloc)?;
    assert_eq!(rt; first_wrong(alloc, "", case.as_str(), 65_536)?, None);
    Ok(())
}
