// Reading values in the sparse form.
ghost use Rattle.std.specs.Prelude.{◌≡◌, ◌==◌, ℕ, List as Items, option_map, find, IfOk, Ok};
ghost use Rattle.fc_types.specs.Sound.{IsSound};
ghost use Rattle.fc_value.specs.SparseForm.{HoldBytes, IsSparse};
ghost use Rattle.fc_value.specs.declared.value.Value.{Value as Valued};
ghost use Rattle.fc_types.specs.Types.{field_id, field_ty};
ghost use Rattle.fc_value.specs.Outcomes.{Gives};
ghost use Rattle.fc_value.specs.Sparse as spec;
ghost use Rattle.fc_value.specs.Sparse.{sparse_in, value_of};

use crate::Value;
use crate::read::read_whole;
use fc_base::{Code, List, OpFault};
use fc_types::{Field, Ty, is_atom, with_id};
use fc_wire::Ilv;
use std::alloc::Global;
use std::collections::BTreeSet;

// The type of the field with an ID.
fn type_with(fields: &[Field], id: u32) -> Option<&Ty>
    ensures { option_map (λ part. part.now) result ≡ option_map field_ty (find (λ f. field_id f == id) fields.now) }
{
    match with_id(fields, id) {
        Some(field) => Some(&field.ty),
        None => None,
    }
}

// The type of a field of a struct, or of an entry of an array.
fn part_of(ty: &Ty, ident: u32) -> Option<&Ty>
    ensures { option_map (λ part. part.now) result ≡ spec.part_of ty.now ident }
{
    match ty {
        Ty::Struct { fields } => type_with(fields.as_slice(), ident),
        Ty::Array { entry, .. } => Some(entry.get()),
        _ => None,
    }
}

/// The new values of the fields of a struct, or of the entries of an array, that ILVs name, in their order. In the order
/// of the ILVs, `INVALID_TLV` where an identifier is repeated or is no field, and then the code of the value;
/// `INVALID_TLV` where the type is neither a struct nor an array.
pub fn read_sparse(alloc: Global, ty: &Ty, ilvs: &[Ilv]) -> Result<List<(u32, Value)>, OpFault>
    ensures exact { Gives (λ changes. changes) result (sparse_in ty.now ilvs.now) }
    ensures found { IsSound ty.now → HoldBytes ilvs.now → IfOk result (λ changes. IsSparse ty.now ilvs.now changes) }
    ensures only { (changes : Items (ℕ × Valued)) → IsSparse ty.now ilvs.now changes → Gives (λ cs. cs) result (Ok changes) }
{
    read_changes(alloc, ty, ilvs)
}

// The changes that the ILVs tell.
#[tactic(auto, unfolding(crate::specs::Sparse::sparse_in))]
fn read_changes(alloc: Global, ty: &Ty, ilvs: &[Ilv]) -> Result<List<(u32, Value)>, OpFault>
    ensures { Gives (λ changes. changes) result (sparse_in ty.now ilvs.now) }
{
    if is_atom(ty) {
        return Err(OpFault::Refused(Code::INVALID_TLV));
    }
    let mut seen = BTreeSet::new(alloc);
    let mut changes = List::new(alloc);
    for ilv in ilvs {
        if seen.contains(&ilv.ident) {
            return Err(OpFault::Refused(Code::INVALID_TLV));
        }
        let value = read_change(alloc, ty, ilv)?;
        seen.insert(ilv.ident)?;
        changes.push((ilv.ident, value))?;
    }
    Ok(changes)
}

// The value of one ILV.
fn read_change(alloc: Global, ty: &Ty, ilv: &Ilv) -> Result<Value, OpFault>
    ensures { Gives (λ v. v) result (value_of (spec.part_of ty.now ilv.now.ident) ilv.now.value) }
{
    match part_of(ty, ilv.ident) {
        None => Err(OpFault::Refused(Code::INVALID_TLV)),
        Some(part) => read_whole(alloc, part, ilv.value.as_slice()),
    }
}
