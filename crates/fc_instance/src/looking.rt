// The node to which steps lead.
ghost use Rattle.std.specs.Prelude.{◌≡◌, ◌∷◌, Some};
ghost use Rattle.std.specs.FinMap as map;
ghost use Rattle.fc_tree.specs.Finding.{walked};
ghost use Rattle.fc_value.specs.Outcomes.{Gives};
ghost use Rattle.fc_value.specs.declared.value.Value.TheVariants as value;
ghost use Rattle.fc_instance.specs.Cells.{IsShaped, cell_at, look_cell, shape_of, valued, value_at};
ghost use Rattle.fc_instance.specs.Histories.{slot_cell};

use crate::leading::{array_of, reach};
use crate::{Instance, Node, Slot};
use fc_base::{Code, OpFault};
use fc_path::Step;
use fc_rows::Rows;
use fc_tree::walk;
use fc_types::{Ty, fields_of};
use fc_value::Value;
use std::alloc::Global;

// The node to which steps lead within a value.
fn look_below<'a>(
    alloc: Global,
    ty: &'a Ty,
    value: &'a Value,
    steps: &[Step],
) -> Result<(&'a Ty, Node<'a>), OpFault>
    ensures { Gives (λ x. (x.0.now, x.1)) result (walked steps.now ty.now value.now) }
{
    let (ty, value) = walk(alloc, ty, value, steps)?;
    Ok((ty, Node::one(value)))
}

// The node to which a step leads from entries, and the others from there.
fn look_entry<'a>(
    alloc: Global,
    ty: &'a Ty,
    rows: &'a Rows,
    first: &Step,
    rest: &[Step],
) -> Result<(&'a Ty, Node<'a>), OpFault>
    requires { shape_of ty.now ≡ Some rows.now.1.1 }
    ensures { Gives (λ x. (x.0.now, x.1)) result (walked (first.now ∷ rest.now) ty.now (value.Table (map.entries rows.now.0))) }
{
    match array_of(ty) {
        None => Err(OpFault::Refused(Code::INVALID_PATH)),
        Some((entry, _, keys)) => {
            let subscript = reach(alloc, fields_of(entry), keys.as_slice(), rows, first)?;
            match rows.get(subscript) {
                None => Err(OpFault::Refused(Code::NOT_FOUND)),
                Some(value) => look_below(alloc, entry, value, rest),
            }
        }
    }
}

// The node to which steps lead from what stands for a component.
fn look_in<'a>(
    alloc: Global,
    ty: &'a Ty,
    slot: &'a Slot,
    steps: &[Step],
) -> Result<(&'a Ty, Node<'a>), OpFault>
    requires { IsShaped ty.now (slot_cell slot.now) }
    ensures { Gives (λ x. (x.0.now, x.1)) result (look_cell steps.now ty.now (valued (slot_cell slot.now))) }
{
    match slot {
        Slot::Absent => Err(OpFault::Refused(Code::NOT_FOUND)),
        Slot::Whole(value) => look_below(alloc, ty, value, steps),
        Slot::Entries(rows) => match steps {
            [] => Ok((ty, Node::of_rows(rows))),
            [first, rest @ ..] => look_entry(alloc, ty, rows, first, rest),
        },
    }
}

impl Instance {
    /// The node to which steps lead from a component of a type, with its own type. The first of these gives the code: the component
    /// is absent (`NOT_FOUND`), and a step that leads nowhere, as `walk` tells it.
    pub fn look<'a>(
        &'a self,
        alloc: Global,
        ty: &'a Ty,
        component: usize,
        steps: &[Step],
    ) -> Result<(&'a Ty, Node<'a>), OpFault>
        requires shaped { IsShaped ty.now (cell_at component self.now.now) }
        ensures { Gives (λ x. (x.0.now, x.1)) result (look_cell steps.now ty.now (value_at component self.now.now)) }
    {
        match self.slot(component) {
            None => Err(OpFault::Refused(Code::NOT_FOUND)),
            Some(slot) => look_in(alloc, ty, slot, steps),
        }
    }
}
