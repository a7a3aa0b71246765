// Values of the types that hold the most: a struct of 1,023 fields, a text and bytes of 65,531, and a list of many operations.
use crate::model::kinds::{field, key, one};
use fc_base::{Code, List, Memory, Octets, OpFault};
use fc_modes::{CopyingMap, EntryOp, Mode, run_mode};
use fc_types::{Field, Ty};
use fc_value::{Value, first, key_value, read_full, read_sparse, write_full};
use fc_wire::Ilv;
use std::alloc::Global;
use std::test::Fail;

// With the struct itself as many members as a class may have.
const FIELDS: u32 = 1_023;

// What the longest FULLDATA holds.
const BYTES: usize = 65_531;

const OPERATIONS: u32 = 1_000;

// Truth values with these IDs from 1 on.
fn truths(alloc: Global) -> Result<List<Field>, Memory> {
    let mut fields = List::new(alloc);
    for id in 1..=FIELDS {
        fields.push(field(alloc, id, Ty::Bool)?)?;
    }
    Ok(fields)
}

// The IDs of the fields.
fn ids(alloc: Global) -> Result<Vec<u32>, Memory> {
    let mut ids = Vec::new(alloc);
    for id in 1..=FIELDS {
        ids.push(id)?;
    }
    Ok(ids)
}

// So many bytes of one kind.
fn same(alloc: Global, byte: u8, count: usize) -> Result<Vec<u8>, Memory> {
    let mut bytes = Vec::new(alloc);
    bytes.resize(count, byte)?;
    Ok(bytes)
}

// The struct of these fields.
fn widest(alloc: Global) -> Result<Ty, Memory> {
    let fields = truths(alloc)?;
    Ok(Ty::Struct { fields })
}

// The value that a type begins with, and what is written of it.
fn opened(alloc: Global, ty: &Ty) -> Result<(Value, Vec<u8>), OpFault> {
    let value = first(alloc, ty)?;
    let mut bytes = Vec::new(alloc);
    write_full(ty, &value, &mut bytes)?;
    Ok((value, bytes))
}

// A byte of zero for each field.
fn zeros(alloc: Global) -> Result<Vec<u8>, Memory> {
    same(alloc, 0, FIELDS as usize)
}

#[test]
fn the_widest_struct_opens_and_is_written(rt: HostRuntime) -> Result<(), Fail> {
    let ty = widest(rt.alloc())?;
    let (_, bytes) = opened(rt.alloc(), &ty)?;
    assert!(rt; bytes == zeros(rt.alloc())?);
    Ok(())
}

#[test]
fn the_widest_struct_is_read(rt: HostRuntime) -> Result<(), Fail> {
    let ty = widest(rt.alloc())?;
    let (value, bytes) = opened(rt.alloc(), &ty)?;
    assert!(rt; read_full(rt.alloc(), &ty, &bytes) == Ok(value));
    Ok(())
}

// The value of the key of all fields, in the value that their struct begins with.
fn whole_key(alloc: Global) -> Result<Vec<u8>, Fail> {
    let all = key(alloc, 1, ids(alloc)?.as_slice())?;
    let value = first(alloc, &widest(alloc)?)?;
    let fields = truths(alloc)?;
    Ok(key_value(alloc, fields.as_slice(), &all, &value)?)
}

#[test]
fn a_key_of_all_fields_is_their_struct(rt: HostRuntime) -> Result<(), Fail> {
    let bytes = whole_key(rt.alloc())?;
    assert!(rt; bytes == zeros(rt.alloc())?);
    Ok(())
}

// A change of each field to true.
fn parts(alloc: Global) -> Result<Vec<Ilv>, Memory> {
    let mut ilvs = Vec::new(alloc);
    for ident in 1..=FIELDS {
        let value = Octets::from_slice(alloc, &[1])?;
        ilvs.push(Ilv { ident, value })?;
    }
    Ok(ilvs)
}

// What is read of those parts.
fn changes(alloc: Global) -> Result<List<(u32, Value)>, OpFault> {
    let ty = widest(alloc)?;
    let given = parts(alloc)?;
    read_sparse(alloc, &ty, &given)
}

#[test]
fn parts_name_every_field(rt: HostRuntime) -> Result<(), Fail> {
    let changes = changes(rt.alloc())?;
    assert_eq!(rt; changes.len(), FIELDS as usize);
    for (change, ident) in changes.as_slice().iter().zip(1u32..) {
        assert!(rt; *change == (ident, Value::Truth(true)), "{ident}");
    }
    Ok(())
}

// Whether bytes are a value of a type, of which they are written again.
fn comes_back(alloc: Global, ty: &Ty, bytes: &[u8]) -> Result<bool, OpFault> {
    let value = read_full(alloc, ty, bytes)?;
    let mut written = Vec::new(alloc);
    write_full(ty, &value, &mut written)?;
    Ok(written.as_slice() == bytes)
}

// The full form of a struct of these bytes alone.
fn held(alloc: Global, bytes: &[u8]) -> Result<Vec<u8>, Memory> {
    let mut longer = Vec::from_slice(alloc, &[0x01, 0x12, 0xFF, 0xFF])?;
    longer.extend_from_slice(bytes)?;
    longer.push(0)?;
    Ok(longer)
}

// Whether the longest value of a type comes back, by itself and in a struct of it alone.
fn longest_comes_back(alloc: Global, ty: Ty) -> Result<bool, OpFault> {
    let given = same(alloc, b'a', BYTES)?;
    let is_alone = comes_back(alloc, &ty, &given)?;
    let fields = one(alloc, ty)?;
    let longer = held(alloc, &given)?;
    Ok(is_alone && comes_back(alloc, &Ty::Struct { fields }, &longer)?)
}

#[test]
fn the_longest_text_and_bytes_are_read_and_written(rt: HostRuntime) -> Result<(), Fail> {
    assert!(rt; longest_comes_back(rt.alloc(), Ty::String { length: 65_531 })?);
    assert!(rt; longest_comes_back(rt.alloc(), Ty::Octets { length: 65_531 })?);
    Ok(())
}

// Creates so many entries, and one that is there.
fn operations(alloc: Global) -> Result<Vec<EntryOp>, Memory> {
    let mut ops = Vec::new(alloc);
    for entry in 0..OPERATIONS {
        ops.push(EntryOp::Create(entry, entry))?;
    }
    ops.push(EntryOp::Create(7, 0))?;
    Ok(ops)
}

// How many codes operations have in a mode, the code of the last, and how many entries are left.
fn ran(alloc: Global, mode: Mode, ops: &[EntryOp]) -> Result<(usize, Option<Code>, usize), Memory> {
    let mut map = CopyingMap::new(alloc);
    let codes = run_mode(alloc, &mut map, mode, ops)?;
    Ok((
        codes.len(),
        codes.as_slice().last().copied(),
        map.entries().len(),
    ))
}

#[test]
fn many_operations_go_by_each_mode(rt: HostRuntime) -> Result<(), Fail> {
    let ops = operations(rt.alloc())?;
    let count = OPERATIONS as usize;
    for (mode, left) in [
        (Mode::AllOrNone, 0),
        (Mode::UntilFailure, count),
        (Mode::Continue, count),
    ] {
        let told = ran(rt.alloc(), mode, &ops)?;
        assert_eq!(rt; told, (count + 1, Some(Code::EXISTS), left));
    }
    Ok(())
}
