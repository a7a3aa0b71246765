// Selects of the greatest lengths.
use crate::format::selects::read_select;
use fc_base::{List, Memory, Octets, Shared, WriteFault};
use fc_path::{Body, Key, Oper, OperKind, PathData, Select, fits_results};
use fc_wire::TlvWriter;
use std::alloc::Global;
use std::test::Fail;

// So many bytes.
fn ones(alloc: Global, size: u32) -> Result<Octets, Memory> {
    let mut value = Vec::new(alloc);
    for _ in 0..size {
        value.push(1)?;
    }
    Ok(Octets::from_vec(value))
}

// The IDs from 0 on.
fn rising(alloc: Global, count: u32) -> Result<List<u32>, Memory> {
    let mut ids = List::new(alloc);
    for id in 0..count {
        ids.push(id)?;
    }
    Ok(ids)
}

// An operation on one path.
fn on_path(alloc: Global, kind: OperKind, path: PathData) -> Result<Oper, Memory> {
    let mut paths = List::new(alloc);
    paths.push(path)?;
    Ok(Oper::Paths(kind, Shared::of(paths)?))
}

// The select of instance 1 of class 1 with these operations.
fn first_lfb(opers: List<Oper>) -> Select {
    Select {
        class: 1,
        instance: 1,
        opers,
    }
}

// A PATH-DATA to so many steps, with so many bytes.
fn long_path(alloc: Global, steps: u32, size: u32) -> Result<PathData, Memory> {
    let ids = rising(alloc, steps)?;
    let body = Body::Full(ones(alloc, size)?);
    Ok(PathData {
        ids,
        key: None,
        body,
    })
}

// A SET of so many bytes at a place of so many steps.
fn wide(alloc: Global, steps: u32, size: u32) -> Result<Select, Memory> {
    let set = on_path(alloc, OperKind::Set, long_path(alloc, steps, size)?)?;
    let mut opers = List::new(alloc);
    opers.push(set)?;
    opers.push(Oper::Trcomp)?;
    Ok(first_lfb(opers))
}

// A GET by a key of so many bytes.
fn by_key(alloc: Global, size: u32) -> Result<Select, Memory> {
    let value = ones(alloc, size)?;
    let path = PathData {
        ids: List::new(alloc),
        key: Some(Key { ident: 1, value }),
        body: Body::Nothing,
    };
    let get = on_path(alloc, OperKind::Get, path)?;
    let mut opers = List::new(alloc);
    opers.push(get)?;
    Ok(first_lfb(opers))
}

// Whether a select is read again, in a message of a type, of what is written of it.
fn is_read_again(alloc: Global, message: u8, select: &Select) -> bool {
    let mut writer = TlvWriter::new(alloc);
    if select.write(&mut writer).is_err() {
        return false;
    }
    match read_select(alloc, message, writer.finish().as_slice()) {
        Ok(again) => again == *select,
        Err(_) => false,
    }
}

#[test]
fn the_greatest_sets_are_read_again(rt: HostRuntime) -> Result<(), Fail> {
    for (steps, size) in [(16_300, 0), (1, 65_400)] {
        let select = wide(rt.alloc(), steps, size)?;
        assert!(rt; is_read_again(rt.alloc(), 3, &select), "{steps}");
    }
    Ok(())
}

#[test]
fn the_greatest_keys_are_read_again(rt: HostRuntime) -> Result<(), Fail> {
    let select = by_key(rt.alloc(), 65_400)?;
    assert!(rt; is_read_again(rt.alloc(), 4, &select));
    Ok(())
}

// So many selects, each a SET of so many bytes at a place of so many steps.
fn many(alloc: Global, steps: u32, size: u32, count: u32) -> Result<Vec<Select>, Memory> {
    let mut selects = Vec::new(alloc);
    for _ in 0..count {
        selects.push(wide(alloc, steps, size)?)?;
    }
    Ok(selects)
}

#[test]
fn results_fit_up_to_the_last_byte(rt: HostRuntime) -> Result<(), Fail> {
    let alloc = rt.alloc();
    for (steps, size, count, want) in [
        (16375, 0, 1, true),
        (16376, 0, 1, false),
        (1, 60000, 1, true),
        (16374, 0, 4, true),
        (16375, 0, 4, false),
    ] {
        let selects = many(alloc, steps, size, count)?;
        assert_eq!(rt; fits_results(selects.as_slice()), want, "{steps} {count}");
    }
    Ok(())
}

// What is written behind four bytes of a SET of so many, and the answer.
fn written(alloc: Global, size: u32) -> Result<(Vec<u8>, Result<(), WriteFault>), Memory> {
    let select = wide(alloc, 1, size)?;
    let mut writer = TlvWriter::new(alloc);
    writer.put(&[1, 2, 3, 4])?;
    let answer = select.write(&mut writer);
    Ok((writer.finish(), answer))
}

#[test]
fn the_longest_select_fits_its_length_field(rt: HostRuntime) -> Result<(), Fail> {
    let (bytes, answer) = written(rt.alloc(), 65_496)?;
    assert!(rt; answer.is_ok());
    assert_eq!(rt; bytes.len(), 65536);
    Ok(())
}

#[test]
fn lengths_pass_no_field(rt: HostRuntime) -> Result<(), Fail> {
    for size in [65_497, 65_531] {
        let (bytes, answer) = written(rt.alloc(), size)?;
        assert!(rt; answer == Err(WriteFault::TooLong), "{size}");
        assert_eq!(rt; bytes.as_slice(), [1, 2, 3, 4].as_slice(), "{size}");
    }
    Ok(())
}
