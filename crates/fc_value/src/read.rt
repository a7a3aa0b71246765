// Reading values in the full form.
ghost use Rattle.std.specs.Prelude.{◌≡◌, ◌≤◌, ◌<◌, [], map, length, IfOk, Ok};
ghost use Rattle.fc_types.specs.Sound.{IsSound};
ghost use Rattle.fc_value.specs.FullForm.{IsFull};
ghost use Rattle.fc_value.specs.declared.value.Value.{Value as Valued};
ghost use Rattle.fc_types.specs.Types.{fields_of as fields_in};
ghost use Rattle.fc_value.specs.Outcomes.{Gives};
ghost use Rattle.fc_value.specs.Reading as spec;
ghost use Rattle.fc_value.specs.Reading.{subscript_in, full_in, inside, inside_at, each_in, group_in, held, table_of, entries_in, entry_in};

use crate::Value;
use crate::key::keys_differ;
use crate::number::read_number;
use crate::parts::{
    close, cut_full_data, read_fixed, read_held_octets, read_held_text, read_octets, read_text,
    read_truth,
};
use fc_base::{Code, List, Memory, OpFault};
use fc_types::{Field, KeyDecl, Ty, fields_of};
use fc_wire::read_u32;
use std::alloc::Global;
use std::collections::BTreeMap;

/// The value of which the bytes are the full form. The first failure from left to right gives the code: `INVALID_TLV`
/// where bytes are missing, an inner TLV is not a FULLDATA or is short or past, or a subscript is repeated;
/// `INVALID_PARAMETERS` where a text is not UTF-8; `VALUE_OUT_OF_RANGE` where a value is none of its type, or an array has
/// more entries than it may; after the last entry of an array, `INVALID_PARAMETERS` where two have an equal key; and last
/// of all `INVALID_TLV` where bytes are left over.
pub fn read_full(alloc: Global, ty: &Ty, bytes: &[u8]) -> Result<Value, OpFault>
    ensures exact { Gives (λ v. v) result (full_in ty.now bytes.now) }
    ensures found { IsSound ty.now → IfOk result (λ v. IsFull ty.now v bytes.now) }
    ensures only { (v : Valued) → IsFull ty.now v bytes.now → Gives (λ w. w) result (Ok v) }
{
    read_whole(alloc, ty, bytes)
}

/// The value of which the bytes are the full form, as a value that stands by itself.
#[tactic(auto, unfolding(crate::specs::Reading::full_in))]
pub fn read_whole(alloc: Global, ty: &Ty, bytes: &[u8]) -> Result<Value, OpFault>
    ensures { Gives (λ v. v) result (full_in ty.now bytes.now) }
{
    match ty {
        Ty::String { length } => read_text(alloc, bytes, *length),
        Ty::Octets { length } => read_octets(alloc, bytes, *length),
        Ty::Array {
            entry,
            entries,
            keys,
        } => read_table(alloc, entry.get(), *entries, keys.as_slice(), bytes),
        _ => {
            let (value, rest) = read_inside(alloc, ty, bytes)?;
            alone(value, rest)
        }
    }
}

// The value, behind which nothing may be left over.
fn alone(value: Value, rest: &[u8]) -> Result<Value, OpFault>
    ensures { Gives (λ v. v) result (spec.alone (value, rest.now)) }
{
    if !rest.is_empty() {
        return Err(OpFault::Refused(Code::INVALID_TLV));
    }
    Ok(value)
}

// The value at the front of what a struct or an entry has, and what stands behind it.
#[cycle(read)]
fn read_inside<'a>(alloc: Global, ty: &Ty, bytes: &'a [u8]) -> Result<(Value, &'a [u8]), OpFault>
    ensures exact { Gives (λ x. (x.0, x.1.now)) result (inside ty.now bytes.now) }
    ensures short { IfOk result (λ x. length x.1.now ≤ length bytes.now) }
{
    match ty {
        Ty::Bool => read_truth(bytes),
        Ty::Number {
            bytes: width,
            signed,
            min,
            max,
        } => read_number(bytes, *width, *signed, *min, *max),
        Ty::String { length } => read_held_text(alloc, bytes, *length),
        Ty::Octets { length } => read_held_octets(alloc, bytes, *length),
        Ty::Bytes { length } => read_fixed(alloc, bytes, *length),
        Ty::Struct { fields } => read_group(alloc, fields, bytes),
        Ty::Array {
            entry,
            entries,
            keys,
        } => read_held_table(alloc, entry.get(), *entries, keys.as_slice(), bytes),
    }
}

// A struct, and what stands behind it.
#[cycle(read)]
fn read_group<'a>(
    alloc: Global,
    fields: &List<Field>,
    bytes: &'a [u8],
) -> Result<(Value, &'a [u8]), OpFault>
    ensures exact { Gives (λ x. (x.0, x.1.now)) result (group_in (map inside_at fields.now) bytes.now) }
    ensures short { IfOk result (λ x. length x.1.now ≤ length bytes.now) }
{
    let (values, rest) = read_fields(alloc, fields, bytes)?;
    Ok((Value::Group(values), rest))
}

// An array in the FULLDATA at the front, and what stands behind it.
#[cycle(read)]
fn read_held_table<'a>(
    alloc: Global,
    entry: &Ty,
    limit: u32,
    keys: &[KeyDecl],
    bytes: &'a [u8],
) -> Result<(Value, &'a [u8]), OpFault>
    ensures exact { Gives (λ x. (x.0, x.1.now)) result (held (table_of (inside entry.now) (fields_in entry.now) limit keys.now) bytes.now) }
    ensures short { IfOk result (λ x. length x.1.now ≤ length bytes.now) }
{
    let (body, behind) = cut_full_data(bytes)?;
    let value = read_table(alloc, entry, limit, keys, body)?;
    close(value, behind, body.len())
}

// One value of each field, and what stands behind them.
#[cycle(read)]
fn read_fields<'a>(
    alloc: Global,
    fields: &List<Field>,
    bytes: &'a [u8],
) -> Result<(List<Value>, &'a [u8]), OpFault>
    ensures exact { Gives (λ x. (x.0, x.1.now)) result (each_in (map inside_at fields.now) bytes.now) }
    ensures short { IfOk result (λ x. length x.1.now ≤ length bytes.now) }
{
    let mut values = List::from_vec(Vec::with_capacity(alloc, fields.len())?);
    let mut rest = bytes;
    for field in fields.as_slice() {
        let (value, behind) = read_inside(alloc, &field.ty, rest)?;
        values.push(value)?;
        rest = behind;
    }
    Ok((values, rest))
}

// An array of which the bytes are the entries.
#[cycle(read)]
fn read_table(
    alloc: Global,
    entry: &Ty,
    limit: u32,
    keys: &[KeyDecl],
    bytes: &[u8],
) -> Result<Value, OpFault>
    ensures { Gives (λ v. v) result (table_of (inside entry.now) (fields_in entry.now) limit keys.now bytes.now) }
{
    let entries = listed(alloc, read_entries(alloc, entry, limit, bytes)?)?;
    if !keys_differ(alloc, fields_of(entry), keys, entries.as_slice())? {
        return Err(OpFault::Refused(Code::INVALID_PARAMETERS));
    }
    Ok(Value::Table(entries))
}

// The entries by rising subscript.
fn listed(alloc: Global, found: BTreeMap<u32, Value>) -> Result<List<(u32, Value)>, Memory>
    ensures { IfOk result (λ entries. entries ≡ found.entries) }
{
    let mut entries = List::from_vec(Vec::with_capacity(alloc, found.len())?);
    for entry in found {
        entries.push(entry)?;
    }
    Ok(entries)
}

// The entries of which the bytes are the full forms, at most so many.
#[cycle(read)]
fn read_entries(
    alloc: Global,
    entry: &Ty,
    limit: u32,
    bytes: &[u8],
) -> Result<BTreeMap<u32, Value>, OpFault>
    ensures { Gives (λ found. found.entries) result (entries_in (inside entry.now) limit [] bytes.now) }
{
    let mut entries = BTreeMap::new(alloc);
    let mut rest = bytes;
    while !rest.is_empty() {
        rest = read_entry(alloc, entry, limit, rest, &mut entries)?;
    }
    Ok(entries)
}

// The subscript of one entry more, and what stands behind it.
fn read_subscript<'a>(
    bytes: &'a [u8],
    limit: u32,
    entries: &BTreeMap<u32, Value>,
) -> Result<(u32, &'a [u8]), OpFault>
    ensures exact { Gives (λ x. (x.0, x.1.now)) result (subscript_in limit entries.now.entries bytes.now) }
    ensures short { IfOk result (λ x. length x.1.now < length bytes.now) }
{
    if bytes.len() < 4 {
        return Err(OpFault::Refused(Code::INVALID_TLV));
    }
    let subscript = read_u32(bytes, 0);
    if entries.contains_key(&subscript) {
        return Err(OpFault::Refused(Code::INVALID_TLV));
    }
    if entries.len() >= limit as usize {
        return Err(OpFault::Refused(Code::VALUE_OUT_OF_RANGE));
    }
    let (_, behind) = bytes.split_at(4);
    Ok((subscript, behind))
}

// One entry more, and what stands behind it.
#[cycle(read)]
#[tactic(auto, unfolding(crate::specs::Reading::entry_in))]
fn read_entry<'a>(
    alloc: Global,
    entry: &Ty,
    limit: u32,
    bytes: &'a [u8],
    entries: &mut BTreeMap<u32, Value>,
) -> Result<&'a [u8], OpFault>
    ensures exact { Gives (λ rest. (entries.new.entries, rest.now)) result (entry_in (inside entry.now) limit entries.old.entries bytes.now) }
    ensures short { IfOk result (λ rest. length rest.now < length bytes.now) }
{
    let (subscript, behind) = read_subscript(bytes, limit, entries)?;
    let (value, rest) = read_inside(alloc, entry, behind)?;
    entries.insert(subscript, value)?;
    Ok(rest)
}
