// One step towards a node within a value.
ghost use Rattle.std.specs.Prelude.{◌≡◌, ◌==◌, ℕ, List as Items, length, find, position, bytes_eq, option_map, IfOk, Some};
ghost use Rattle.std.specs.Option.{option_copied};
ghost use Rattle.fc_types.specs.Types.{field_id, field_ty};
ghost use Rattle.fc_types.specs.declared.ty.KeyDecl.{KeyDecl as Keyed};
ghost use Rattle.fc_value.specs.Keys as keys;
ghost use Rattle.fc_value.specs.Nodes as nodes;
ghost use Rattle.fc_value.specs.Outcomes.{Gives};
ghost use Rattle.fc_tree.specs.Finding as spec;
ghost use Rattle.fc_tree.specs.Finding.{place_in, key_in, key_type, picked, rewritten, with_key, by_key, from_array, from_struct, or_code};

use fc_base::{Code, Duplicate, List, Memory, OpFault};
use fc_path::Step;
use fc_types::{Field, KeyDecl, Ty, fields_of, with_id};
use fc_value::{Value, key_value, read_full, write_full};
use std::alloc::Global;

// The place of the field with an ID.
pub fn place_of_field(fields: &[Field], id: u32) -> Option<usize>
    ensures { result ≡ position (λ f. field_id f == id) fields.now }
{
    fields.iter().position(|field| field.id == id)
}

// The place of the entry with a subscript.
pub fn place_of_entry(entries: &[(u32, Value)], subscript: u32) -> Option<usize>
    ensures { result ≡ position (λ e. e.0 == subscript) entries.now }
{
    entries.iter().position(|entry| entry.0 == subscript)
}

// The entries of an array, and none of another value.
pub fn entries_of(value: &Value) -> &[(u32, Value)]
    ensures { result.now ≡ spec.entries_of value.now }
{
    match value {
        Value::Table(entries) => entries.as_slice(),
        _ => &[],
    }
}

// The fields with the IDs, in their order.
fn picked_fields(alloc: Global, fields: &[Field], ids: &[u32]) -> Result<List<Field>, Memory>
    ensures { IfOk result (λ fs. fs ≡ picked fields.now ids.now) }
{
    let mut found = List::new(alloc);
    for id in ids {
        if let Some(field) = with_id(fields, *id) {
            found.push(field.copy()?)?;
        }
    }
    Ok(found)
}

// Bytes of a value that stands by itself, as they are written.
fn rewrite(alloc: Global, ty: &Ty, bytes: &[u8]) -> Result<Vec<u8>, OpFault>
    ensures { Gives (λ v. v.items) result (rewritten ty.now bytes.now) }
{
    let value = read_full(alloc, ty, bytes)?;
    let mut written = Vec::new(alloc);
    write_full(ty, &value, &mut written)?;
    Ok(written)
}

/// The value of a key of the fields with these IDs as it is written, of the bytes in which a step gives it. The code is that of
/// reading them.
#[tactic(auto, unfolding(crate::specs::Finding::key_in))]
pub fn key_bytes(
    alloc: Global,
    fields: &[Field],
    ids: &[u32],
    bytes: &[u8],
) -> Result<Vec<u8>, OpFault>
    ensures { Gives (λ v. v.items) result (key_in fields.now ids.now bytes.now) }
{
    if let [id] = ids {
        if let Some(field) = with_id(fields, *id) {
            return rewrite(alloc, &field.ty, bytes);
        }
        let none = Ty::Struct {
            fields: List::new(alloc),
        };
        return rewrite(alloc, &none, bytes);
    }
    let key = Ty::Struct {
        fields: picked_fields(alloc, fields, ids)?,
    };
    rewrite(alloc, &key, bytes)
}

// Whether the key of an entry has these bytes.
fn has_key(
    alloc: Global,
    fields: &[Field],
    key: &KeyDecl,
    entry: &(u32, Value),
    bytes: &[u8],
) -> Result<bool, Memory>
    ensures { IfOk result (λ b. b ≡ bytes_eq (keys.key_value fields.now key.now entry.now.1) bytes.now) }
{
    let own = key_value(alloc, fields, key, &entry.1)?;
    Ok(own.as_slice() == bytes)
}

// The place of the first entry whose key has these bytes.
fn place_with_key(
    alloc: Global,
    fields: &[Field],
    key: &KeyDecl,
    entries: &[(u32, Value)],
    bytes: &[u8],
) -> Result<Option<usize>, Memory>
    ensures { IfOk result (λ o. o ≡ position (λ e. bytes_eq (keys.key_value fields.now key.now e.1) bytes.now) entries.now) }
{
    for (place, entry) in entries.iter().enumerate() {
        if has_key(alloc, fields, key, entry, bytes)? {
            return Ok(Some(place));
        }
    }
    Ok(None)
}

// A place that is there, or the code.
fn there(place: Option<usize>, code: Code) -> Result<Option<usize>, OpFault>
    ensures { Gives (λ o. o) result (or_code code (option_map Some place)) }
{
    match place {
        None => Err(OpFault::Refused(code)),
        Some(place) => Ok(Some(place)),
    }
}

// The place of the entry whose key has this value.
fn place_by(
    alloc: Global,
    fields: &[Field],
    key: &KeyDecl,
    entries: &[(u32, Value)],
    bytes: &[u8],
) -> Result<Option<usize>, OpFault>
    ensures { Gives (λ o. o) result (with_key fields.now entries.now key.now bytes.now) }
{
    let written = key_bytes(alloc, fields, key.fields.as_slice(), bytes)?;
    let place = place_with_key(alloc, fields, key, entries, &written)?;
    there(place, Code::NOT_FOUND)
}

// Where a key leads from an array.
fn place_by_key(
    alloc: Global,
    fields: &[Field],
    keys: &[KeyDecl],
    entries: &[(u32, Value)],
    id: u32,
    bytes: &[u8],
) -> Result<Option<usize>, OpFault>
    ensures { Gives (λ o. o) result (by_key fields.now entries.now (find (λ (key : Keyed). key.id == id) keys.now) bytes.now) }
{
    match with_id(keys, id) {
        None => Err(OpFault::Refused(Code::INVALID_PATH)),
        Some(key) => place_by(alloc, fields, key, entries, bytes),
    }
}

fn place_in_array(
    alloc: Global,
    fields: &[Field],
    keys: &[KeyDecl],
    entries: &[(u32, Value)],
    step: &Step,
) -> Result<Option<usize>, OpFault>
    ensures { Gives (λ o. o) result (from_array fields.now keys.now entries.now step.now) }
{
    match step {
        Step::Id(id) => Ok(place_of_entry(entries, *id)),
        Step::Key(id, bytes) => place_by_key(alloc, fields, keys, entries, *id, bytes.as_slice()),
    }
}

fn place_in_struct(fields: &[Field], step: &Step) -> Result<Option<usize>, OpFault>
    ensures { Gives (λ o. o) result (from_struct fields.now step.now) }
{
    match step {
        Step::Id(id) => there(place_of_field(fields, *id), Code::COMPONENT_DOES_NOT_EXIST),
        Step::Key(..) => Err(OpFault::Refused(Code::INVALID_PATH)),
    }
}

/// Where a step leads from a value of a type: to the part at a place, or, by a subscript, to no entry yet.
#[tactic(auto, unfolding(crate::specs::Finding::place_in))]
pub fn place_of(
    alloc: Global,
    ty: &Ty,
    value: &Value,
    step: &Step,
) -> Result<Option<usize>, OpFault>
    ensures { Gives (λ o. o) result (place_in ty.now value.now step.now) }
{
    match ty {
        Ty::Struct { fields } => place_in_struct(fields.as_slice(), step),
        Ty::Array { entry, keys, .. } => {
            let fields = fields_of(entry.get());
            place_in_array(alloc, fields, keys.as_slice(), entries_of(value), step)
        }
        _ => Err(OpFault::Refused(Code::INVALID_PATH)),
    }
}
