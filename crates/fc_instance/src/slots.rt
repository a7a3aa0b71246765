// What stands for a component of a type.
ghost use Rattle.std.specs.Prelude.{◌≡◌, Some, IfOk};
ghost use Rattle.fc_value.specs.declared.value.Value.TheVariants as tables;
ghost use Rattle.fc_instance.specs.Cells.{IsShaped, valued};
ghost use Rattle.fc_instance.specs.Histories.{slot_cell};
ghost use Rattle.fc_instance.specs.Keeping as spec;

use crate::Slot;
use crate::leading::array_of;
use fc_base::{Duplicate, List, Memory};
use fc_rows::Rows;
use fc_types::{Field, KeyDecl, Ty, fields_of};
use fc_value::{Value, keys_differ};
use std::alloc::Global;

impl Slot {
    /// What stands for a component of a type that has a value: entries where it is an array whose subscripts rise and whose keys
    /// differ.
    pub fn of(alloc: Global, ty: &Ty, value: Value) -> Result<Slot, Memory>
        ensures value { IfOk result (λ slot. valued (slot_cell slot) ≡ Some value) }
        ensures shaped { IfOk result (λ slot. IsShaped ty.now (slot_cell slot)) }
        ensures apart { IfOk result (λ slot. slot_cell slot ≡ Some (spec.kept_by ty.now value)) }
    {
        Slot::kept(alloc, ty, value)
    }

    fn kept(alloc: Global, ty: &Ty, value: Value) -> Result<Slot, Memory>
        ensures { IfOk result (λ slot. slot_cell slot ≡ Some (spec.kept_by ty.now value)) }
    {
        match array_of(ty) {
            None => Ok(Slot::Whole(value)),
            Some((entry, _, keys)) => match value {
                Value::Table(entries) => of_entries(alloc, fields_of(entry), keys, entries),
                other => Ok(Slot::Whole(other)),
            },
        }
    }
}

// What stands for an array with these entries.
fn of_entries(
    alloc: Global,
    fields: &[Field],
    keys: &List<KeyDecl>,
    entries: List<(u32, Value)>,
) -> Result<Slot, Memory>
    ensures { IfOk result (λ slot. slot_cell slot ≡ Some (tables.Table entries, spec.kept_entries fields.now keys.now entries)) }
{
    if !rise(entries.as_slice()) {
        return Ok(Slot::Whole(Value::Table(entries)));
    }
    if !keys_differ(alloc, fields, keys.as_slice(), entries.as_slice())? {
        return Ok(Slot::Whole(Value::Table(entries)));
    }
    let fields = copies(alloc, fields)?;
    let keys = keys.copy()?;
    Ok(Slot::Entries(Rows::of(alloc, fields, keys, entries)?))
}

// Copies of fields, in their order.
fn copies(alloc: Global, fields: &[Field]) -> Result<List<Field>, Memory>
    ensures { IfOk result (λ others. others ≡ fields.now) }
{
    let mut others = List::new(alloc);
    for field in fields {
        others.push(field.copy()?)?;
    }
    Ok(others)
}

// Whether a subscript is below that of the first entry, if any.
fn begin_above(subscript: u32, entries: &[(u32, Value)]) -> bool
    ensures { result ≡ spec.is_below subscript entries.now }
{
    match entries {
        [] => true,
        [(first, _), ..] => subscript < *first,
    }
}

// Whether the subscripts rise.
fn rise(entries: &[(u32, Value)]) -> bool
    ensures { result ≡ spec.is_rising entries.now }
{
    let mut rest = entries;
    while let [(first, _), others @ ..] = rest {
        if !begin_above(*first, others) {
            return false;
        }
        rest = others;
    }
    true
}
