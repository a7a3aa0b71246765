// How deep a type nests, and how many fields stand in it.
ghost use Rattle.std.specs.Prelude.{◌≡◌, min, sum, map};
ghost use Rattle.std.specs.List.{list_all};
ghost use Rattle.fc_types.specs.Types.{field_ty, fields_at, fields_within, nests};

use crate::{Field, Ty};
use fc_base::List;

/// Members of a class are counted up to this number, which no class may reach.
pub const COUNT_CAP: u64 = 1025;

/// Whether a type nests at most so many levels deep; a type with none inside it is one level deep.
#[cycle(depth)]
pub fn nests_within(ty: &Ty, levels: u8) -> bool
    ensures { result ≡ nests levels ty.now }
{
    if levels == 0 {
        return false;
    }
    match ty {
        Ty::Struct { fields } => fields_nest_within(fields, levels - 1),
        Ty::Array { entry, .. } => nests_within(entry.get(), levels - 1),
        _ => true,
    }
}

#[cycle(depth)]
fn fields_nest_within(fields: &List<Field>, levels: u8) -> bool
    ensures { result ≡ list_all (λ f. nests levels (field_ty f)) fields.now }
{
    for field in fields.as_slice() {
        if !nests_within(&field.ty, levels) {
            return false;
        }
    }
    true
}

/// The number of fields in a type, at any depth, or the cap where there are more.
#[cycle(count)]
pub fn fields_counted(ty: &Ty) -> u64
    ensures { result ≡ min 1025 (fields_within ty.now) }
{
    match ty {
        Ty::Struct { fields } => fields_counted_in(fields),
        Ty::Array { entry, .. } => fields_counted(entry.get()),
        _ => 0,
    }
}

#[cycle(count)]
fn fields_counted_in(fields: &List<Field>) -> u64
    ensures { result ≡ min 1025 (sum (map fields_at fields.now)) }
{
    let mut count: u64 = 0;
    for field in fields.as_slice() {
        count = (count + 1 + fields_counted(&field.ty)).min(COUNT_CAP);
    }
    count
}
