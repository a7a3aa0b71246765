// Selects whose bytes stand in the specification of the format.
use fc_base::{Duplicate, List, Memory, Octets};
use fc_path::{Body, Leaf, OperKind, PathFault, Select, Step};
use fc_test_kit::bytes_of;
use fc_wire::Tlvs;
use std::alloc::Global;
use std::test::Fail;

// The select of the first TLV, which stands at 24 in a message of a type.
pub(crate) fn read_select(alloc: Global, message: u8, bytes: &[u8]) -> Result<Select, PathFault> {
    if bytes.len() % 4 != 0 || bytes.len() > 65_536 {
        return Err(PathFault::Memory);
    }
    let mut tlvs = Tlvs::over(bytes, 24);
    match tlvs.next() {
        None => Err(PathFault::Memory),
        Some(Err(fault)) => Err(PathFault::Wire(fault)),
        Some(Ok(tlv)) => Select::read(alloc, &tlv, message),
    }
}

// Selects: the type of the message, and the bytes.
const SELECTS: &str = "\
03 10000024 0001F001 00000001 00010018 01100014 00000001 00000001 01120008 00000101
13 10000024 0001F001 00000001 00030018 01100014 00000001 00000001 01140008 00000000
03 1000002C 0001F001 00000001 0001001C 01100018 00000001 00000005 0112000C 00000101 00000001 000C0004
13 10000030 0001F001 00000001 00030018 01100014 00000001 00000005 01140008 00000000 000D000C 01140008 00000000
03 10000010 0001F001 00000001 000E0004
04 1000001C 00000001 00000001 00070010 0110000C 00000001 00000007
14 10000024 00000001 00000001 00090018 01100014 00000001 00000007 01120005 02000000
03 1000002C 00000001 00000001 00020020 0110001C 00000001 00000007 01130010 00000002 0000000C 00000001
03 1000002C 00001001 00000001 00050020 0110001C 80000001 00000004 01110010 00000001 01120008 65746830
04 10000038 00001001 00000001 0008002C 01100028 00000001 00000001 0110000C 00000001 00000002 01100010 00000002 00000003 00000004
05 10000028 00001001 00000001 000B001C 01100018 00000002 0000003C 00000001 01120008 00000065
01 10000028 00001001 00000001 000B001C 01100018 00000002 0000003C 00000001 01120008 00000065
13 10000024 00001001 00000001 00040018 01100014 00000001 00000001 01140008 15000000
13 10000024 00001001 00000001 00060018 01100014 00000001 00000001 01140008 10000000
14 10000038 00001001 00000001 000A002C 01100028 00000001 00000001 0113001C 00000001 00000009 FF000000 00000002 0000000B AABBCC00";

// What stands in front of the first blank of a row, as a hexadecimal number, and what stands behind it.
fn numbered(row: &str) -> Result<(u8, &str), Fail> {
    let (number, rest) = row.split_once(" ").ok_or("a number")?;
    Ok((u8::from_str_radix(number, 16)?, rest))
}

// The select of digits in a message of a type.
fn select_of(alloc: Global, message: u8, digits: &str) -> Result<Select, Fail> {
    let bytes = bytes_of(alloc, digits)?;
    Ok(read_select(alloc, message, &bytes).ok().ok_or("a select")?)
}

#[test]
fn selects_are_copied(rt: HostRuntime) -> Result<(), Fail> {
    for row in SELECTS.lines() {
        let (message, digits) = numbered(row)?;
        let select = select_of(rt.alloc(), message, digits)?;
        assert!(rt; select.copy()? == select, "{row}");
    }
    Ok(())
}

// The steps of IDs.
fn steps_of(alloc: Global, ids: &[u32]) -> Result<List<Step>, Memory> {
    let mut steps = List::new(alloc);
    for id in ids {
        steps.push(Step::Id(*id))?;
    }
    Ok(steps)
}

// The leaves of the select of digits.
fn leaves_of(alloc: Global, message: u8, digits: &str) -> Result<List<Leaf>, Fail> {
    let select = select_of(alloc, message, digits)?;
    Ok(select.leaves()?)
}

// Whether a leaf is a GET-PROP at these IDs of instance 1 of class 1001.
fn is_property(alloc: Global, leaf: &Leaf, ids: &[u32]) -> Result<bool, Memory> {
    let steps = steps_of(alloc, ids)?;
    Ok(
        leaf.kind == OperKind::GetProp
            && (leaf.spot.class, leaf.spot.instance) == (0x1001, 1)
            && leaf.spot.steps == steps
            && leaf.body == Body::Nothing,
    )
}

const NESTED: &str =
    "10000038 00001001 00000001 0008002C 01100028 00000001 00000001 0110000C 00000001 00000002 01100010 00000002 00000003 00000004";

const KEYED: &str =
    "1000002C 00001001 00000001 00050020 0110001C 80000001 00000004 01110010 00000001 01120008 65746830";

#[test]
fn leaves_have_the_steps_of_all_that_they_stand_in(rt: HostRuntime) -> Result<(), Fail> {
    let alloc = rt.alloc();
    let leaves = leaves_of(alloc, 4, NESTED)?;
    assert_eq!(rt; leaves.len(), 2);
    let wanted: [&[u32]; 2] = [&[1, 2], &[1, 3, 4]];
    for (leaf, ids) in leaves.as_slice().iter().zip(wanted) {
        assert!(rt; is_property(alloc, leaf, ids)?);
    }
    Ok(())
}

// The component 4, and the entry of the key 1 that is this name.
fn keyed_steps(alloc: Global, name: &[u8]) -> Result<List<Step>, Memory> {
    let value = Octets::from_slice(alloc, name)?;
    let mut steps = steps_of(alloc, &[4])?;
    steps.push(Step::Key(1, value))?;
    Ok(steps)
}

// Whether the copy of a leaf is a DEL with these steps.
fn is_deletion(leaf: &Leaf, steps: &List<Step>) -> Result<bool, Memory> {
    let leaf = leaf.copy()?;
    let kind = leaf.kind.copy()?;
    Ok(kind == OperKind::Del && leaf.spot.steps == *steps)
}

#[test]
fn a_leaf_is_found_by_its_key(rt: HostRuntime) -> Result<(), Fail> {
    let leaves = leaves_of(rt.alloc(), 3, KEYED)?;
    assert_eq!(rt; leaves.len(), 1);
    let steps = keyed_steps(rt.alloc(), b"eth0")?;
    for leaf in leaves.as_slice() {
        assert!(rt; is_deletion(leaf, &steps)?);
    }
    Ok(())
}
