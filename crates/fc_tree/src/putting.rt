// A SET of FULLDATA within the value of a component.
ghost use Rattle.std.specs.Prelude.{◌≡◌, ◌==◌, ◌≤◌, [], ◌∷◌, length, position, option_map, IfOk, None, Ok};
ghost use Rattle.std.specs.Ordering.{nat_cmp};
ghost use Rattle.std.specs.List.{insert};
ghost use Rattle.std.specs.FinMap.Entries.{put};
ghost use Rattle.fc_tree.specs.Places.{Belongs};
ghost use Rattle.fc_value.specs.Nodes.{put_at};
ghost use Rattle.fc_value.specs.Outcomes.{Gives};
ghost use Rattle.fc_tree.specs.Finding as finding;
ghost use Rattle.fc_tree.specs.Putting as spec;
ghost use Rattle.fc_tree.specs.Putting.{put_in, put_new, put_part, entered};

use crate::find::{entries_of, place_of};
use crate::walking::part_type;
use fc_base::{Code, List, OpFault};
use fc_path::Step;
use fc_types::{Field, KeyDecl, Ty, fields_of};
use fc_value::{Value, keys_differ, read_full, replace_node};
use std::alloc::Global;

// Where an entry with a subscript that none has belongs.
fn room_at(entries: &[(u32, Value)], subscript: u32) -> usize
    requires { position (λ e. e.0 == subscript) entries.now ≡ None }
    ensures place { Belongs nat_cmp subscript result entries.now }
    ensures range { result ≤ length entries.now }
{
    for (place, entry) in entries.iter().enumerate() {
        if entry.0 > subscript {
            return place;
        }
    }
    entries.len()
}

// An array with these entries, where no two have an equal key.
pub fn keyed(
    alloc: Global,
    fields: &[Field],
    keys: &[KeyDecl],
    entries: List<(u32, Value)>,
) -> Result<Value, OpFault>
    ensures { Gives (λ v. v) result (spec.keyed fields.now keys.now entries) }
{
    if !keys_differ(alloc, fields, keys, entries.as_slice())? {
        return Err(OpFault::Refused(Code::EXISTS));
    }
    Ok(Value::Table(entries))
}

// Whether the entries of a value may stand together.
#[tactic(auto, unfolding(crate::specs::Putting::checked))]
pub fn checked(alloc: Global, ty: &Ty, value: Value) -> Result<Value, OpFault>
    ensures { Gives (λ v. v) result (spec.checked ty.now value) }
{
    if let Ty::Array { entry, keys, .. } = ty {
        let fields = fields_of(entry.get());
        return keyed(alloc, fields, keys.as_slice(), into_entries(alloc, value));
    }
    Ok(value)
}

// The entries of an array, and none of another value.
pub fn into_entries(alloc: Global, value: Value) -> List<(u32, Value)>
    ensures { result ≡ finding.entries_of value }
{
    match value {
        Value::Table(entries) => entries,
        _ => List::new(alloc),
    }
}

// The entries with a new one, where there is room for it.
fn enter(
    entries: List<(u32, Value)>,
    limit: u32,
    subscript: u32,
    value: Value,
) -> Result<List<(u32, Value)>, OpFault>
    requires { position (λ e. e.0 == subscript) entries ≡ None }
    ensures { Gives (λ es. es) result (entered subscript limit entries value) }
{
    if entries.len() >= limit as usize {
        return Err(OpFault::Refused(Code::INVALID_ARRAY_CREATION));
    }
    let place = room_at(entries.as_slice(), subscript);
    let mut entries = entries.into_vec();
    entries.insert(place, (subscript, value))?;
    Ok(List::from_vec(entries))
}

// An array with a new entry at a subscript that none has.
#[tactic(auto, unfolding(crate::specs::Putting::created))]
fn create(
    alloc: Global,
    ty: &Ty,
    value: Value,
    subscript: u32,
    full: &[u8],
) -> Result<Value, OpFault>
    requires { position (λ e. e.0 == subscript) (finding.entries_of value) ≡ None }
    ensures { Gives (λ v. v) result (spec.created subscript full.now ty.now value) }
{
    match ty {
        Ty::Array {
            entry,
            entries: limit,
            keys,
        } => {
            let new = read_full(alloc, entry.get(), full)?;
            let entries = enter(into_entries(alloc, value), *limit, subscript, new)?;
            keyed(alloc, fields_of(entry.get()), keys.as_slice(), entries)
        }
        _ => Err(OpFault::Refused(Code::INVALID_PATH)),
    }
}

// A step that leads to no entry yet.
fn put_gap(
    alloc: Global,
    ty: &Ty,
    value: Value,
    step: &Step,
    rest: &[Step],
    full: &[u8],
) -> Result<Value, OpFault>
    requires { finding.place_in ty.now value step.now ≡ Ok None }
    ensures { Gives (λ v. v) result (put_new rest.now step.now full.now ty.now value) }
{
    match rest {
        [] => match step {
            Step::Id(subscript) => create(alloc, ty, value, *subscript, full),
            Step::Key(..) => Err(OpFault::Refused(Code::NOT_FOUND)),
        },
        _ => Err(OpFault::Refused(Code::NOT_FOUND)),
    }
}

// A value with another part at a place.
pub fn with_part(value: Value, place: usize, part: Value) -> Value
    ensures { result ≡ put_at value (place ∷ []) part }
{
    let mut value = value;
    let _ = replace_node(&mut value, &[place], part);
    value
}

/// The value with another one put where steps lead, which the bytes are; the last step may make a new entry of an array. The
/// first of these gives the code: a step that leads nowhere, bytes that do not read, an array without room for a new entry, an
/// equal key in an array on the path.
#[cycle(put)]
pub fn put_value(
    alloc: Global,
    ty: &Ty,
    value: Value,
    steps: &[Step],
    full: &[u8],
) -> Result<Value, OpFault>
    ensures { Gives (λ v. v) result (put_in steps.now full.now ty.now value) }
{
    match steps {
        [] => read_full(alloc, ty, full),
        [first, rest @ ..] => match place_of(alloc, ty, &value, first)? {
            None => put_gap(alloc, ty, value, first, rest, full),
            Some(place) => put_below(alloc, ty, value, place, rest, full),
        },
    }
}

// The part at a place put anew.
#[cycle(put)]
fn put_below(
    alloc: Global,
    ty: &Ty,
    value: Value,
    place: usize,
    rest: &[Step],
    full: &[u8],
) -> Result<Value, OpFault>
    ensures { Gives (λ v. v) result (put_part (put_in rest.now full.now) place ty.now value (finding.part_at place ty.now value)) }
{
    match part_type(ty, place) {
        None => Err(OpFault::Refused(Code::INVALID_PATH)),
        Some(part) => {
            let mut value = value;
            match replace_node(&mut value, &[place], Value::Truth(false)) {
                Err(_) => Err(OpFault::Refused(Code::INVALID_PATH)),
                Ok(old) => {
                    let new = put_value(alloc, part, old, rest, full)?;
                    checked(alloc, ty, with_part(value, place, new))
                }
            }
        }
    }
}
