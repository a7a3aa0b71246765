// Copies of an instance, as it stands and as it stood.
ghost use Rattle.std.specs.Prelude.{◌≡◌, ◌<◌, [], length, slice_get, Some, IfOk, OnOk};
ghost use Rattle.fc_instance.specs.Copying.{IsAlike};
ghost use Rattle.fc_instance.specs.Histories.{AreRoomier, IsRoomier, Undoable, undone, values_of};

use crate::instance::undo_one;
use crate::{Instance, Inverse, Row, Slot};
use fc_base::{Duplicate, Memory};
use std::alloc::Global;

// A copy of what stands for a component, with at least as much room.
fn copy_slot(alloc: Global, slot: &Slot) -> Result<Slot, Memory>
    ensures { IfOk result (λ other. IsRoomier slot.now other) }
{
    match slot {
        Slot::Absent => Ok(Slot::Absent),
        Slot::Whole(value) => Ok(Slot::Whole(value.copy()?)),
        Slot::Entries(rows) => Ok(Slot::Entries(rows.copy(alloc)?)),
    }
}

/// Copies of what stands for components, with at least as much room.
pub fn copy_slots(alloc: Global, slots: &[Slot]) -> Result<Vec<Slot>, Memory>
    ensures { IfOk result (λ others. AreRoomier slots.now others.items) }
{
    let mut others = Vec::new(alloc);
    for slot in slots {
        others.push(copy_slot(alloc, slot)?)?;
    }
    Ok(others)
}

fn copy_row(row: &Row) -> Result<Row, Memory>
    ensures { IfOk result (λ other. other ≡ row.now) }
{
    let value = match &row.value {
        None => None,
        Some(value) => Some(value.copy()?),
    };
    Ok(Row {
        value,
        entering: row.entering.copy()?,
        leaving: row.leaving.copy()?,
    })
}

// A copy of what undoes a change.
fn copy_inverse(alloc: Global, inverse: &Inverse) -> Result<Inverse, Memory>
    ensures { IfOk result (λ other. IsAlike inverse.now other) }
{
    match inverse {
        Inverse::Whole(component, slot) => Ok(Inverse::Whole(*component, copy_slot(alloc, slot)?)),
        Inverse::Entry(component, subscript, row) => Ok(Inverse::Entry(
            *component,
            *subscript,
            copy_row(row)?,
        )),
    }
}

/// Undoes changes, the last of them first, by copies of what undoes them.
pub fn undo_copies(alloc: Global, slots: &mut Vec<Slot>, inverses: &[Inverse]) -> Result<(), Memory>
    requires { Undoable inverses.now slots.old.items }
    ensures { OnOk result (values_of slots.new.items ≡ values_of (undone inverses.now slots.old.items)) }
{
    let mut place = inverses.len();
    while place > 0 {
        place -= 1;
        let inverse = copy_inverse(alloc, &inverses[place])?;
        undo_one(slots, inverse);
    }
    Ok(())
}
