// Where a step leads from a component that is an array and whose entries are kept apart: by subscript or by an index.
ghost use Rattle.std.specs.Prelude.{◌≡◌, ◌==◌, length, option_map, position, slice_get, Some, IfSome};
ghost use Rattle.std.specs.FinMap as map;
ghost use Rattle.fc_path.specs.declared.oper.Step.TheVariants as step;
ghost use Rattle.fc_types.specs.Types as types;
ghost use Rattle.fc_types.specs.declared.ty.KeyDecl.{KeyDecl as Keyed};
ghost use Rattle.fc_value.specs.declared.value.Value.TheVariants as value;
ghost use Rattle.fc_instance.specs.Cells.{IsShaped, cell_at};
ghost use Rattle.fc_instance.specs.Leading as spec;
ghost use Rattle.fc_instance.specs.Leading.{LeadsBy, Reached};

use crate::{EntryPath, Instance, Slot};
use fc_base::{Code, List, OpFault};
use fc_path::Step;
use fc_rows::Rows;
use fc_tree::key_bytes;
use fc_types::{Field, KeyDecl, Ty, fields_of};
use std::alloc::Global;

// The type of the entries of an array type, how many there may be, and its keys; none of another type.
pub fn array_of(ty: &Ty) -> Option<(&Ty, u32, &List<KeyDecl>)>
    ensures { option_map (λ x. (x.0.now, x.1, x.2.now)) result ≡ spec.array_of ty.now }
{
    match ty {
        Ty::Array {
            entry,
            entries,
            keys,
        } => Some((entry.get(), *entries, keys)),
        _ => None,
    }
}

// The place of the key with an ID.
fn place_of_key(keys: &[KeyDecl], id: u32) -> Option<usize>
    ensures { result ≡ position (λ (key : Keyed). key.id == id) keys.now }
{
    keys.iter().position(|key| key.id == id)
}

// The subscript to which a key leads.
fn reach_with(
    alloc: Global,
    fields: &[Field],
    keys: &[KeyDecl],
    rows: &Rows,
    place: usize,
    bytes: &[u8],
) -> Result<u32, OpFault>
    requires { rows.now.1.1 ≡ (fields.now, keys.now) }
    ensures { spec.ReachedWith fields.now rows.now.0 (slice_get keys.now place) bytes.now result }
{
    match keys.get(place) {
        None => Err(OpFault::Refused(Code::INVALID_PATH)),
        Some(key) => {
            let written = key_bytes(alloc, fields, key.fields.as_slice(), bytes)?;
            match rows.find(place, &written) {
                None => Err(OpFault::Refused(Code::NOT_FOUND)),
                Some(subscript) => Ok(subscript),
            }
        }
    }
}

// The subscript to which the value of a key leads.
fn reach_by_key(
    alloc: Global,
    fields: &[Field],
    keys: &[KeyDecl],
    rows: &Rows,
    id: u32,
    bytes: &[u8],
) -> Result<u32, OpFault>
    requires { rows.now.1.1 ≡ (fields.now, keys.now) }
    ensures { Reached fields.now keys.now rows.now.0 (step.Key id bytes.now) result }
{
    match place_of_key(keys, id) {
        None => Err(OpFault::Refused(Code::INVALID_PATH)),
        Some(place) => reach_with(alloc, fields, keys, rows, place, bytes),
    }
}

// The subscript of the entry to which a step leads; one by a key leads to an entry that is there.
pub fn reach(
    alloc: Global,
    fields: &[Field],
    keys: &[KeyDecl],
    rows: &Rows,
    step: &Step,
) -> Result<u32, OpFault>
    requires { rows.now.1.1 ≡ (fields.now, keys.now) }
    ensures { Reached fields.now keys.now rows.now.0 step.now result }
{
    match step {
        Step::Id(subscript) => Ok(*subscript),
        Step::Key(id, bytes) => reach_by_key(alloc, fields, keys, rows, *id, bytes.as_slice()),
    }
}

impl Instance {
    // The entries of a component, where they are kept apart.
    fn rows_at(&self, component: usize) -> Option<&Rows>
        ensures { IfSome result (λ rows. slice_get self.now.now component ≡ Some (Some (value.Table (map.entries rows.now.0), Some rows.now.1.1))) }
    {
        match self.slot(component) {
            Some(Slot::Entries(rows)) => Some(rows),
            _ => None,
        }
    }

    // Where steps lead from a component; none where its entries are not kept apart. The first step is gone.
    pub(crate) fn path_at<'a>(
        &self,
        alloc: Global,
        ty: &'a Ty,
        component: usize,
        first: &Step,
        rest: &'a [Step],
    ) -> Result<Option<EntryPath<'a>>, OpFault>
        requires { IsShaped ty.now (cell_at component self.now.now) }
        ensures { LeadsBy ty.now first.now rest.now (slice_get self.now.now component) result }
    {
        match array_of(ty) {
            None => Ok(None),
            Some((entry, limit, keys)) => match self.rows_at(component) {
                None => Ok(None),
                Some(rows) => {
                    let fields = fields_of(entry);
                    let subscript = reach(alloc, fields, keys.as_slice(), rows, first)?;
                    Ok(Some(EntryPath {
                        entry,
                        limit,
                        subscript,
                        rest,
                    }))
                }
            },
        }
    }
}
