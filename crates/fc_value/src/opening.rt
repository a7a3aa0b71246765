// The values that components begin with.
ghost use Rattle.std.specs.Prelude.{◌≡◌, map, replicate, IfOk};
ghost use Rattle.fc_value.specs.Opening as spec;
ghost use Rattle.fc_value.specs.Opening.{opening, opening_at};

use crate::Value;
use fc_base::{List, Memory, Octets, Text};
use fc_types::{Field, Ty};
use std::alloc::Global;

/// The opening value of a type: false, the number that is nearest to 0, no text or octets, bytes of zeros, a struct of
/// opening values, and an array without entries.
#[cycle(first)]
#[tactic(auto, unfolding(crate::specs::Opening::opening, crate::specs::Opening::opening_at))]
pub fn first(alloc: Global, ty: &Ty) -> Result<Value, Memory>
    ensures { IfOk result (λ v. v ≡ opening ty.now) }
{
    match ty {
        Ty::Bool => Ok(Value::Truth(false)),
        Ty::Number { min, max, .. } => Ok(Value::Number(nearest(*min, *max))),
        Ty::String { .. } => Ok(Value::Text(Text::from_str(alloc, "")?)),
        Ty::Octets { .. } => Ok(Value::Raw(Octets::new(alloc))),
        Ty::Bytes { length } => Ok(Value::Raw(zeros(alloc, *length)?)),
        Ty::Struct { fields } => Ok(Value::Group(first_of_fields(alloc, fields)?)),
        Ty::Array { .. } => Ok(Value::Table(List::new(alloc))),
    }
}

#[cycle(first)]
#[tactic(auto, unfolding(crate::specs::Opening::opening, crate::specs::Opening::opening_at))]
fn first_of_fields(alloc: Global, fields: &List<Field>) -> Result<List<Value>, Memory>
    ensures { IfOk result (λ vs. vs ≡ map opening_at fields.now) }
{
    let mut values = List::new(alloc);
    for field in fields.as_slice() {
        values.push(first(alloc, &field.ty)?)?;
    }
    Ok(values)
}

// The number of a range that is nearest to 0.
fn nearest(min: i128, max: i128) -> i128
    ensures { result ≡ spec.nearest min max }
{
    if min > 0 {
        min
    } else if max < 0 {
        max
    } else {
        0
    }
}

// So many zeros.
fn zeros(alloc: Global, count: u32) -> Result<Octets, Memory>
    ensures { IfOk result (λ bytes. bytes ≡ replicate count 0) }
{
    let mut bytes: Vec<u8> = Vec::new(alloc);
    bytes.resize(count as usize, 0)?;
    Ok(Octets::from_vec(bytes))
}
