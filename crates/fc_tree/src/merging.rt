// A SET of SPARSEDATA within the value of a component.
ghost use Rattle.std.specs.Prelude.{◌≡◌, ◌==◌, ◌<◌, position, length, option_map, IfOk};
ghost use Rattle.std.specs.List.Sorted.{IsSearchInRange};
ghost use Rattle.std.specs.Ordering.{nat_cmp};
ghost use Rattle.std.specs.FinMap.Entries.{put};
ghost use Rattle.fc_types.specs.Types.{field_id};
ghost use Rattle.fc_value.specs.Outcomes.{Gives};
ghost use Rattle.fc_tree.specs.Finding as finding;
ghost use Rattle.fc_tree.specs.Merging as spec;
ghost use Rattle.fc_tree.specs.Merging.{Reaches, merge_in, merged_fields, merged_rows, with_field};
ghost use Rattle.fc_tree.specs.Putting.{put_part};

use crate::find::{place_of, place_of_field};
use crate::putting::{checked, into_entries, keyed, with_part};
use crate::walking::part_type;
use fc_base::{Code, List, Memory, OpFault};
use fc_path::Step;
use fc_types::{Field, KeyDecl, Ty, fields_of};
use fc_value::{Value, read_sparse, replace_node};
use fc_wire::Ilv;
use std::alloc::Global;
use std::mem;

// Where a subscript stands, or else where it belongs.
fn reach(entries: &[(u32, Value)], subscript: u32) -> Result<usize, usize>
    ensures place { Reaches entries.now subscript result }
    ensures range { IsSearchInRange result (length entries.now) }
{
    for (place, entry) in entries.iter().enumerate() {
        if entry.0 == subscript {
            return Ok(place);
        }
        if entry.0 > subscript {
            return Err(place);
        }
    }
    Err(entries.len())
}

// The entries with another value at a subscript, or a new entry.
fn set_row(
    entries: List<(u32, Value)>,
    subscript: u32,
    value: Value,
) -> Result<List<(u32, Value)>, Memory>
    ensures { IfOk result (λ es. es ≡ put nat_cmp subscript value entries) }
{
    match reach(entries.as_slice(), subscript) {
        Ok(place) => {
            let mut entries = entries.into_vec();
            drop(mem::replace(&mut entries[place].1, value));
            Ok(List::from_vec(entries))
        }
        Err(place) => {
            let mut entries = entries.into_vec();
            entries.insert(place, (subscript, value))?;
            Ok(List::from_vec(entries))
        }
    }
}

// The entries with each of the changes.
fn merge_rows(
    changes: List<(u32, Value)>,
    entries: List<(u32, Value)>,
) -> Result<List<(u32, Value)>, Memory>
    ensures { IfOk result (λ es. es ≡ merged_rows changes entries) }
{
    let mut changes = changes.into_vec();
    let mut entries = entries;
    while let Some((subscript, value)) = changes.pop() {
        entries = set_row(entries, subscript, value)?;
    }
    Ok(entries)
}

// A struct with another value of a field.
fn set_field(fields: &[Field], id: u32, new: Value, value: Value) -> Value
    ensures { result ≡ with_field (position (λ f. field_id f == id) fields.now) new value }
{
    match place_of_field(fields, id) {
        None => value,
        Some(place) => with_part(value, place, new),
    }
}

// A struct with each of the changes.
fn merge_fields(fields: &[Field], changes: List<(u32, Value)>, value: Value) -> Value
    ensures { result ≡ merged_fields fields.now changes value }
{
    let mut changes = changes.into_vec();
    let mut value = value;
    while let Some((id, new)) = changes.pop() {
        value = set_field(fields, id, new, value);
    }
    value
}

// An array with these entries, of which there may be so many, and no two may have an equal key.
fn limited(
    alloc: Global,
    limit: u32,
    fields: &[Field],
    keys: &[KeyDecl],
    entries: List<(u32, Value)>,
) -> Result<Value, OpFault>
    ensures { Gives (λ v. v) result (spec.limited limit fields.now keys.now entries) }
{
    if entries.len() > limit as usize {
        return Err(OpFault::Refused(Code::INVALID_ARRAY_CREATION));
    }
    keyed(alloc, fields, keys, entries)
}

// A value with changes of its fields or entries.
#[tactic(auto, unfolding(crate::specs::Merging::merged))]
fn merge(
    alloc: Global,
    ty: &Ty,
    changes: List<(u32, Value)>,
    value: Value,
) -> Result<Value, OpFault>
    ensures { Gives (λ v. v) result (spec.merged ty.now changes value) }
{
    match ty {
        Ty::Struct { fields } => Ok(merge_fields(fields.as_slice(), changes, value)),
        Ty::Array {
            entry,
            entries: limit,
            keys,
        } => {
            let entries = merge_rows(changes, into_entries(alloc, value))?;
            limited(
                alloc,
                *limit,
                fields_of(entry.get()),
                keys.as_slice(),
                entries,
            )
        }
        _ => Err(OpFault::Refused(Code::INVALID_TLV)),
    }
}

/// The value with changes of the fields or entries of the one where steps lead. The first of these gives the code: a step that leads
/// nowhere, ILVs that do not read, an array with more entries than it may have, an equal key in an array on the path.
#[cycle(merge)]
pub fn merge_value(
    alloc: Global,
    ty: &Ty,
    value: Value,
    steps: &[Step],
    ilvs: &[Ilv],
) -> Result<Value, OpFault>
    ensures { Gives (λ v. v) result (merge_in steps.now ilvs.now ty.now value) }
{
    match steps {
        [] => {
            let changes = read_sparse(alloc, ty, ilvs)?;
            merge(alloc, ty, changes, value)
        }
        [first, rest @ ..] => match place_of(alloc, ty, &value, first)? {
            None => Err(OpFault::Refused(Code::NOT_FOUND)),
            Some(place) => merge_below(alloc, ty, value, place, rest, ilvs),
        },
    }
}

// The part at a place with the changes.
#[cycle(merge)]
fn merge_below(
    alloc: Global,
    ty: &Ty,
    value: Value,
    place: usize,
    rest: &[Step],
    ilvs: &[Ilv],
) -> Result<Value, OpFault>
    ensures { Gives (λ v. v) result (put_part (merge_in rest.now ilvs.now) place ty.now value (finding.part_at place ty.now value)) }
{
    match part_type(ty, place) {
        None => Err(OpFault::Refused(Code::INVALID_PATH)),
        Some(part) => {
            let mut value = value;
            match replace_node(&mut value, &[place], Value::Truth(false)) {
                Err(_) => Err(OpFault::Refused(Code::INVALID_PATH)),
                Ok(old) => {
                    let new = merge_value(alloc, part, old, rest, ilvs)?;
                    checked(alloc, ty, with_part(value, place, new))
                }
            }
        }
    }
}
