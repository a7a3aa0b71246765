// An array of 65,536 entries as a value: it is read, changed and written.
use crate::full::{falling, key, rising};
use crate::library::opened;
use crate::words::{ilvs, spot};
use fc_base::{Code, Octets, OpFault};
use fc_path::Step;
use fc_tree::{merge_value, put_value, remove_value, walk};
use fc_types::Ty;
use fc_value::{Value, read_full, write_full};
use std::alloc::Global;
use std::test::Fail;

const MANY: u32 = 65_536;

// The code of a refusal.
fn code<T>(answer: &Result<T, OpFault>) -> Option<Code> {
    match answer {
        Err(OpFault::Refused(code)) => Some(*code),
        _ => None,
    }
}

#[test]
fn a_full_array_is_read_and_written_in_its_order(rt: HostRuntime) -> Result<(), Fail> {
    let alloc = rt.alloc();
    let store = opened(alloc, 0)?;
    let (ty, _) = store.look(&spot(alloc, "4099/1/2")?)?;
    let value = read_full(alloc, ty, &falling(alloc, MANY)?)?;
    let mut bytes = Vec::new(alloc);
    write_full(ty, &value, &mut bytes)?;
    assert!(rt; bytes == rising(alloc, MANY)?);
    Ok(())
}

// The codes where an entry more is read, put or merged.
fn codes(alloc: Global, ty: &Ty) -> Result<[Option<Code>; 3], Fail> {
    let full = falling(alloc, MANY)?;
    let more = falling(alloc, MANY + 1)?;
    let entry = ilvs(alloc, "65536:0101010101010101")?;
    let value = read_full(alloc, ty, &full)?;
    let put = put_value(alloc, ty, value, &[Step::Id(MANY)], &[1; 8]);
    let value = read_full(alloc, ty, &full)?;
    let merged = merge_value(alloc, ty, value, &[], &entry);
    Ok([
        code(&read_full(alloc, ty, &more)),
        code(&put),
        code(&merged),
    ])
}

#[test]
fn a_full_array_takes_no_entry_more(rt: HostRuntime) -> Result<(), Fail> {
    let alloc = rt.alloc();
    let store = opened(alloc, 0)?;
    let (ty, _) = store.look(&spot(alloc, "4099/1/2")?)?;
    let wanted = [
        Some(Code::VALUE_OUT_OF_RANGE),
        Some(Code::INVALID_ARRAY_CREATION),
        Some(Code::INVALID_ARRAY_CREATION),
    ];
    assert_eq!(rt; codes(alloc, ty)?, wanted);
    Ok(())
}

// The second number of the entry with the key of a subscript.
fn second(alloc: Global, ty: &Ty, value: &Value, subscript: u32) -> Result<Vec<u8>, OpFault> {
    let step = Step::Key(1, Octets::from_slice(alloc, &key(subscript).to_be_bytes())?);
    let (part, found) = walk(alloc, ty, value, &[step, Step::Id(2)])?;
    let mut bytes = Vec::new(alloc);
    write_full(part, found, &mut bytes)?;
    Ok(bytes)
}

// The full array after one entry was put in place of another, one was merged and one removed.
fn changed(alloc: Global, ty: &Ty) -> Result<Value, Fail> {
    let value = read_full(alloc, ty, &falling(alloc, MANY)?)?;
    let value = put_value(alloc, ty, value, &[Step::Id(9), Step::Id(2)], &[0, 0, 0, 8])?;
    let part = ilvs(alloc, "2:00000009")?;
    let value = merge_value(alloc, ty, value, &[Step::Id(MANY - 1)], &part)?;
    Ok(remove_value(alloc, ty, value, &[Step::Id(5)])?)
}

#[test]
fn a_full_array_is_changed(rt: HostRuntime) -> Result<(), Fail> {
    let alloc = rt.alloc();
    let store = opened(alloc, 0)?;
    let (ty, _) = store.look(&spot(alloc, "4099/1/2")?)?;
    let value = changed(alloc, ty)?;
    for (subscript, number) in [(4, 4u32), (9, 8), (MANY - 1, 9)] {
        let found = second(alloc, ty, &value, subscript)?;
        assert!(rt;
            found.as_slice() == number.to_be_bytes().as_slice(),
            "{subscript}"
        );
    }
    assert_eq!(rt; code(&second(alloc, ty, &value, 5)), Some(Code::NOT_FOUND));
    Ok(())
}
