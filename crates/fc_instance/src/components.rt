// Changes of a component that is an array, entry by entry.
ghost use Rattle.std.specs.Prelude.{◌≡◌, option_map, slice_get, Some, None};
ghost use Rattle.std.specs.FinMap as map;
ghost use Rattle.fc_value.specs.Outcomes.{Gives};
ghost use Rattle.fc_instance.specs.Components as spec;
ghost use Rattle.fc_instance.specs.Components.{Changes, cell_entry, cell_put, entry_at_cell, entry_at_subscript, put_entry, row_put};
ghost use Rattle.fc_instance.specs.Histories.{slot_cell, values_of, with_entry};

use crate::{Instance, Slot};
use fc_base::{Code, Duplicate, OpFault};
use fc_path::Step;
use fc_rows::Rows;
use fc_tree::put_value;
use fc_types::Ty;
use fc_value::{Value, read_full};
use std::alloc::Global;

/// Where steps lead in an array that is a component: the type of its entries, how many there may be, the subscript of the entry, and the
/// steps within it.
#[derive(Debug, Drop)]
pub struct EntryPath<'a> {
    pub entry: &'a Ty,
    pub limit: u32,
    pub subscript: u32,
    pub rest: &'a [Step],
}

// A new entry, which only the last step of all makes, and only where there is room.
fn new_entry(alloc: Global, rows: &Rows, path: &EntryPath, full: &[u8]) -> Result<Value, OpFault>
    ensures { Gives (λ v. v) result (spec.new_entry path.now.rest.now full.now path.now.entry.now path.now.limit rows.now.0) }
{
    match path.rest {
        [] => {
            let new = read_full(alloc, path.entry, full)?;
            if rows.len() >= path.limit as usize {
                return Err(OpFault::Refused(Code::INVALID_ARRAY_CREATION));
            }
            Ok(new)
        }
        _ => Err(OpFault::Refused(Code::NOT_FOUND)),
    }
}

// The entry that is put among others.
fn entry_of_rows(
    alloc: Global,
    rows: &Rows,
    path: &EntryPath,
    full: &[u8],
) -> Result<Value, OpFault>
    ensures { Gives (λ v. v) result (put_entry path.now.rest.now full.now path.now.entry.now path.now.limit rows.now.0 (map.get rows.now.0 path.now.subscript)) }
{
    match rows.get(path.subscript) {
        Some(old) => put_value(alloc, path.entry, old.copy()?, path.rest, full),
        None => new_entry(alloc, rows, path, full),
    }
}

// The entry that is put in what stands for a component.
fn entry_of_slot(
    alloc: Global,
    slot: &Slot,
    path: &EntryPath,
    full: &[u8],
) -> Result<Value, OpFault>
    ensures { Gives (λ v. v) result (cell_put path.now.rest.now full.now path.now.entry.now path.now.limit path.now.subscript (slot_cell slot.now)) }
{
    match slot {
        Slot::Absent => Err(OpFault::Refused(Code::INVALID_PATH)),
        Slot::Whole(_) => Err(OpFault::Refused(Code::INVALID_PATH)),
        Slot::Entries(rows) => entry_of_rows(alloc, rows, path, full),
    }
}

// The entry that is put in a component.
pub fn entry_at(
    alloc: Global,
    slots: &[Slot],
    component: usize,
    path: &EntryPath,
    full: &[u8],
) -> Result<Value, OpFault>
    ensures { Gives (λ v. v) result (entry_at_cell path.now.rest.now full.now path.now.entry.now path.now.limit path.now.subscript (slice_get (values_of slots.now) component)) }
{
    match slots.get(component) {
        Some(slot) => entry_of_slot(alloc, slot, path, full),
        None => Err(OpFault::Refused(Code::INVALID_PATH)),
    }
}

// The entry at a subscript of what stands for a component.
fn entry_of(slot: &Slot, subscript: u32) -> Option<&Value>
    ensures { option_map (λ x. x.now) result ≡ cell_entry subscript (slot_cell slot.now) }
{
    match slot {
        Slot::Absent => None,
        Slot::Whole(_) => None,
        Slot::Entries(rows) => rows.get(subscript),
    }
}

// The entry at a subscript of a component.
pub fn entry_in(slots: &[Slot], component: usize, subscript: u32) -> Option<&Value>
    ensures { option_map (λ x. x.now) result ≡ entry_at_subscript subscript (slice_get (values_of slots.now) component) }
{
    match slots.get(component) {
        Some(slot) => entry_of(slot, subscript),
        None => None,
    }
}

impl Instance {
    /// A SET of FULLDATA at an entry of a component that is an array, or below it. The first of these gives the code: the component is
    /// no array; what finding, reading and the room within the entry and for it give; another entry has a key of it. After an `Err`
    /// nothing has changed.
    pub fn put_row(
        &mut self,
        alloc: Global,
        component: usize,
        path: &EntryPath,
        full: &[u8],
    ) -> Result<(), OpFault>
        ensures changes { Changes result (row_put path.now.rest.now full.now path.now.entry.now path.now.limit path.now.subscript (slice_get self.old.now component)) (λ w. with_entry component path.now.subscript (Some w) self.old.now) self.old.now self.new.now }
        ensures held { self.new.held ≡ self.old.held }
    {
        let new = self.entry_at(alloc, component, path, full)?;
        match self.put_entry(alloc, component, path.subscript, Some(new))? {
            true => Ok(()),
            false => Err(OpFault::Refused(Code::EXISTS)),
        }
    }
}
