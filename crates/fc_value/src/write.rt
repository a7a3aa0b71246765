// Writing values.
ghost use Rattle.std.specs.Prelude.{◌≡◌, ◌++◌, map, OnOk, OnErr};
ghost use Rattle.std.specs.List.{flat_map};
ghost use Rattle.fc_value.specs.Writing.{full_bytes, inside_bytes, inside_bytes_at, bare_bytes, full_data_tlv, truth_layer, number_layer, group_layer, table_layer, each_bytes, entry_bytes};
ghost use Rattle.fc_wire.specs.Bytes.{u32_bytes};
ghost use Rattle.fc_value.specs.declared.value.Value.{out-Value};
ghost use Rattle.fc_value.specs.declared.value.Value.TheVariants as values;

use crate::Value;
use crate::number::write_number;
use crate::parts::write_full_data;
use fc_base::{List, Memory};
use fc_types::{Field, Ty};

/// Appends the full form of a value that fits the type: entries by rising subscript, and zeros as padding. After an
/// `Err` nothing has changed.
pub fn write_full(ty: &Ty, value: &Value, into: &mut Vec<u8>) -> Result<(), Memory>
    ensures ok { OnOk result (into.new.items ≡ into.old.items ++ full_bytes ty.now value.now) }
    ensures err { OnErr result (into.new.items ≡ into.old.items) }
{
    let mut apart = Vec::new(*into.allocator());
    write_whole(ty, value, &mut apart)?;
    into.extend_from_slice(&apart)?;
    Ok(())
}

/// Appends the full form of an array with these entries, by rising subscript, where the type is that of an array. After an `Err`
/// nothing has changed.
pub fn write_full_entries(
    ty: &Ty,
    entries: &[(u32, Value)],
    into: &mut Vec<u8>,
) -> Result<(), Memory>
    ensures ok { OnOk result (into.new.items ≡ into.old.items ++ full_bytes ty.now (values.Table entries.now)) }
    ensures err { OnErr result (into.new.items ≡ into.old.items) }
{
    let mut apart = Vec::new(*into.allocator());
    write_whole_entries(ty, entries, &mut apart)?;
    into.extend_from_slice(&apart)?;
    Ok(())
}

// Appends the full form of an array that stands by itself.
#[tactic(auto, unfolding(crate::specs::Writing::inside_bytes))]
fn write_whole_entries(ty: &Ty, entries: &[(u32, Value)], into: &mut Vec<u8>) -> Result<(), Memory>
    ensures { OnOk result (into.new.items ≡ into.old.items ++ full_bytes ty.now (values.Table entries.now)) }
{
    match ty {
        Ty::Array { entry, .. } => write_entries(entry.get(), entries, into),
        _ => Ok(()),
    }
}

/// Appends the full form of a value that stands by itself.
pub fn write_whole(ty: &Ty, value: &Value, into: &mut Vec<u8>) -> Result<(), Memory>
    ensures { OnOk result (into.new.items ≡ into.old.items ++ full_bytes ty.now value.now) }
{
    match ty {
        Ty::String { .. } | Ty::Octets { .. } => write_bare(value, into),
        Ty::Array { entry, .. } => write_table(entry.get(), value, into),
        _ => write_inside(ty, value, into),
    }
}

/// Appends the full form of a value that stands in a struct or an entry.
#[cycle(write)]
#[tactic(auto, unfolding(crate::specs::Writing::inside_bytes, crate::specs::Writing::inside_bytes_at))]
pub fn write_inside(ty: &Ty, value: &Value, into: &mut Vec<u8>) -> Result<(), Memory>
    ensures { OnOk result (into.new.items ≡ into.old.items ++ inside_bytes ty.now value.now) }
{
    match ty {
        Ty::Bool => write_truth(value, into),
        Ty::Number { bytes, .. } => write_signed(*bytes, value, into),
        Ty::Bytes { .. } => write_bare(value, into),
        Ty::Struct { fields } => write_group(fields, value, into),
        Ty::String { .. } | Ty::Octets { .. } => write_held(value, into),
        Ty::Array { entry, .. } => {
            let mut apart = Vec::new(*into.allocator());
            write_table(entry.get(), value, &mut apart)?;
            write_full_data(&apart, into)
        }
    }
}

fn write_truth(value: &Value, into: &mut Vec<u8>) -> Result<(), Memory>
    ensures { OnOk result (into.new.items ≡ into.old.items ++ truth_layer (out-Value value.now)) }
{
    if let Value::Truth(truth) = value {
        into.push(u8::from(*truth))?;
    }
    Ok(())
}

fn write_signed(width: u8, value: &Value, into: &mut Vec<u8>) -> Result<(), Memory>
    ensures { OnOk result (into.new.items ≡ into.old.items ++ number_layer width (out-Value value.now)) }
{
    match value {
        Value::Number(number) => write_number(width, *number, into),
        _ => Ok(()),
    }
}

// The bytes of a text or of octets.
fn bytes_of(value: &Value) -> &[u8]
    ensures { result.now ≡ bare_bytes value.now }
{
    match value {
        Value::Text(text) => text.as_str().as_bytes(),
        Value::Raw(bytes) => bytes.as_slice(),
        _ => &[],
    }
}

fn write_bare(value: &Value, into: &mut Vec<u8>) -> Result<(), Memory>
    ensures { OnOk result (into.new.items ≡ into.old.items ++ bare_bytes value.now) }
{
    into.extend_from_slice(bytes_of(value))?;
    Ok(())
}

fn write_held(value: &Value, into: &mut Vec<u8>) -> Result<(), Memory>
    ensures { OnOk result (into.new.items ≡ into.old.items ++ full_data_tlv (bare_bytes value.now)) }
{
    write_full_data(bytes_of(value), into)
}

#[cycle(write)]
fn write_group(fields: &List<Field>, value: &Value, into: &mut Vec<u8>) -> Result<(), Memory>
    ensures { OnOk result (into.new.items ≡ into.old.items ++ group_layer (map inside_bytes_at fields.now) (out-Value value.now)) }
{
    match value {
        Value::Group(values) => write_fields(fields, values.as_slice(), into),
        _ => Ok(()),
    }
}

#[cycle(write)]
#[tactic(auto, unfolding(crate::specs::Writing::inside_bytes, crate::specs::Writing::inside_bytes_at))]
fn write_fields(fields: &List<Field>, values: &[Value], into: &mut Vec<u8>) -> Result<(), Memory>
    ensures { OnOk result (into.new.items ≡ into.old.items ++ each_bytes (map inside_bytes_at fields.now) values.now) }
{
    let mut rest = values;
    for field in fields.as_slice() {
        match rest {
            [] => return Ok(()),
            [value, others @ ..] => {
                write_inside(&field.ty, value, into)?;
                rest = others;
            }
        }
    }
    Ok(())
}

#[cycle(write)]
fn write_table(entry: &Ty, value: &Value, into: &mut Vec<u8>) -> Result<(), Memory>
    ensures { OnOk result (into.new.items ≡ into.old.items ++ table_layer (inside_bytes entry.now) (out-Value value.now)) }
{
    match value {
        Value::Table(entries) => write_entries(entry, entries.as_slice(), into),
        _ => Ok(()),
    }
}

#[cycle(write)]
fn write_entries(entry: &Ty, entries: &[(u32, Value)], into: &mut Vec<u8>) -> Result<(), Memory>
    ensures { OnOk result (into.new.items ≡ into.old.items ++ flat_map (entry_bytes (inside_bytes entry.now)) entries.now) }
{
    for (subscript, value) in entries {
        write_subscript(*subscript, into)?;
        write_inside(entry, value, into)?;
    }
    Ok(())
}

// Appends a subscript, of four bytes.
fn write_subscript(subscript: u32, into: &mut Vec<u8>) -> Result<(), Memory>
    ensures { OnOk result (into.new.items ≡ into.old.items ++ u32_bytes subscript) }
{
    into.extend_from_slice(&[
        (subscript / 0x0100_0000) as u8,
        (subscript / 0x0001_0000 % 256) as u8,
        (subscript / 256 % 256) as u8,
        (subscript % 256) as u8,
    ])?;
    Ok(())
}
