// Keys of entries.
ghost use Rattle.std.specs.Prelude.{◌≡◌, ◌++◌, ◌∷◌, map, option_map, IfOk, OnOk};
ghost use Rattle.fc_value.specs.Keys as spec;
ghost use Rattle.fc_value.specs.Writing.{full_bytes, inside_bytes};

use crate::Value;
use crate::write::{write_inside, write_whole};
use fc_base::Memory;
use fc_types::{Field, KeyDecl, Ty};
use std::alloc::Global;

// The type and the value of the field with an ID.
fn field_with<'a>(fields: &'a [Field], values: &'a [Value], id: u32) -> Option<(&'a Ty, &'a Value)>
    ensures { option_map (λ x. (x.0.now, x.1.now)) result ≡ spec.field_with fields.now values.now id }
{
    let mut rest = values;
    for field in fields {
        match rest {
            [] => return None,
            [value, others @ ..] => {
                if field.id == id {
                    return Some((&field.ty, value));
                }
                rest = others;
            }
        }
    }
    None
}

// Appends the value of a field that stands by itself.
fn write_alone(
    fields: &[Field],
    values: &[Value],
    id: u32,
    into: &mut Vec<u8>,
) -> Result<(), Memory>
    ensures { OnOk result (into.new.items ≡ into.old.items ++ spec.some_bytes full_bytes (spec.field_with fields.now values.now id)) }
{
    match field_with(fields, values, id) {
        Some((ty, value)) => write_whole(ty, value, into),
        None => Ok(()),
    }
}

// Appends the value of a field that stands in a struct.
fn write_one(fields: &[Field], values: &[Value], id: u32, into: &mut Vec<u8>) -> Result<(), Memory>
    ensures { OnOk result (into.new.items ≡ into.old.items ++ spec.some_bytes inside_bytes (spec.field_with fields.now values.now id)) }
{
    match field_with(fields, values, id) {
        Some((ty, value)) => write_inside(ty, value, into),
        None => Ok(()),
    }
}

// Appends the values of fields, in the order of the IDs.
fn write_some(
    fields: &[Field],
    values: &[Value],
    ids: &[u32],
    into: &mut Vec<u8>,
) -> Result<(), Memory>
    ensures { OnOk result (into.new.items ≡ into.old.items ++ spec.fields_bytes fields.now ids.now values.now) }
{
    for id in ids {
        write_one(fields, values, *id, into)?;
    }
    Ok(())
}

// Appends the value of a key of these fields: one alone, or the struct of them.
fn write_key(
    fields: &[Field],
    values: &[Value],
    ids: &[u32],
    into: &mut Vec<u8>,
) -> Result<(), Memory>
    ensures { OnOk result (into.new.items ≡ into.old.items ++ spec.key_of fields.now ids.now values.now) }
{
    match ids {
        [id] => write_alone(fields, values, *id, into),
        ids => write_some(fields, values, ids, into),
    }
}

/// The value that a key has in an entry: the full form of its field alone where it has one field, else that of the
/// struct of its fields in the key's order. The fields are those of the entry's struct.
#[tactic(auto, unfolding(crate::specs::Keys::key_value))]
pub fn key_value(
    alloc: Global,
    fields: &[Field],
    key: &KeyDecl,
    entry: &Value,
) -> Result<Vec<u8>, Memory>
    ensures { IfOk result (λ bytes. bytes.items ≡ spec.key_value fields.now key.now entry.now) }
{
    let mut bytes = Vec::new(alloc);
    if let Value::Group(values) = entry {
        write_key(fields, values.as_slice(), key.fields.as_slice(), &mut bytes)?;
    }
    Ok(bytes)
}

// Whether these bytes are below the value that a key has in the first of the entries, and that in each entry below that in the
// next one.
fn rise_from(
    alloc: Global,
    fields: &[Field],
    key: &KeyDecl,
    first: Vec<u8>,
    entries: &[(u32, Value)],
) -> Result<bool, Memory>
    ensures { IfOk result (λ b. b ≡ spec.is_rising (first.items ∷ spec.key_values fields.now key.now entries.now)) }
{
    let mut last = first;
    for (_, entry) in entries {
        let value = key_value(alloc, fields, key, entry)?;
        if !last.cmp(&value).is_lt() {
            return Ok(false);
        }
        last = value;
    }
    Ok(true)
}

// Whether the value that a key has in each entry is below that in the next one. It holds two of the values at once.
fn keys_rise(
    alloc: Global,
    fields: &[Field],
    key: &KeyDecl,
    entries: &[(u32, Value)],
) -> Result<bool, Memory>
    ensures { IfOk result (λ b. b ≡ spec.is_rising (spec.key_values fields.now key.now entries.now)) }
{
    match entries {
        [] => Ok(true),
        [(_, entry), others @ ..] => {
            let first = key_value(alloc, fields, key, entry)?;
            rise_from(alloc, fields, key, first, others)
        }
    }
}

// The values that a key has in the entries.
fn key_values(
    alloc: Global,
    fields: &[Field],
    key: &KeyDecl,
    entries: &[(u32, Value)],
) -> Result<Vec<Vec<u8>>, Memory>
    ensures { IfOk result (λ values. map (λ v. v.items) values.items ≡ spec.key_values fields.now key.now entries.now) }
{
    let mut values = Vec::with_capacity(alloc, entries.len())?;
    for (_, entry) in entries {
        values.push(key_value(alloc, fields, key, entry)?)?;
    }
    Ok(values)
}

// Whether the first of the values, if any, is above this one.
fn begin_above(values: &[Vec<u8>], value: &Vec<u8>) -> bool
    ensures { result ≡ spec.is_below value.now.items (map (λ v. v.items) values.now) }
{
    match values {
        [] => true,
        [first, ..] => value.cmp(first).is_lt(),
    }
}

// Whether each value is below the next one.
fn are_rising(values: &[Vec<u8>]) -> bool
    ensures { result ≡ spec.is_rising (map (λ v. v.items) values.now) }
{
    let mut rest = values;
    while let [first, others @ ..] = rest {
        if !begin_above(others, first) {
            return false;
        }
        rest = others;
    }
    true
}

// Whether no two entries have the same value of a key. Only values that do not rise are sorted.
fn differ_in(
    alloc: Global,
    fields: &[Field],
    key: &KeyDecl,
    entries: &[(u32, Value)],
) -> Result<bool, Memory>
    ensures { IfOk result (λ b. b ≡ spec.differ_in fields.now entries.now key.now) }
{
    if keys_rise(alloc, fields, key, entries)? {
        return Ok(true);
    }
    let mut values = key_values(alloc, fields, key, entries)?;
    values.sort()?;
    Ok(are_rising(&values))
}

/// Whether no two entries have the same value of any of the keys.
pub fn keys_differ(
    alloc: Global,
    fields: &[Field],
    keys: &[KeyDecl],
    entries: &[(u32, Value)],
) -> Result<bool, Memory>
    ensures { IfOk result (λ b. b ≡ spec.keys_differ fields.now keys.now entries.now) }
{
    for key in keys {
        if !differ_in(alloc, fields, key, entries)? {
            return Ok(false);
        }
    }
    Ok(true)
}
