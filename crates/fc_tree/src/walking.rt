// Going along steps to a node within a value.
ghost use Rattle.std.specs.Prelude.{◌≡◌, option_map};
ghost use Rattle.fc_value.specs.Nodes as nodes;
ghost use Rattle.fc_value.specs.Outcomes.{Gives};
ghost use Rattle.fc_tree.specs.Finding as spec;
ghost use Rattle.fc_tree.specs.Finding.{walked};

use crate::find::place_of;
use fc_base::{Code, OpFault};
use fc_path::Step;
use fc_types::Ty;
use fc_value::Value;
use std::alloc::Global;

// The value at a place of a struct or of an array.
fn child(value: &Value, at: usize) -> Option<&Value>
    ensures { option_map (λ v. v.now) result ≡ nodes.child at value.now }
{
    match value {
        Value::Group(values) => values.get(at),
        Value::Table(entries) => match entries.get(at) {
            Some((_, entry)) => Some(entry),
            None => None,
        },
        _ => None,
    }
}

// The type of the part at a place.
pub fn part_type(ty: &Ty, at: usize) -> Option<&Ty>
    ensures { option_map (λ t. t.now) result ≡ spec.part_type at ty.now }
{
    match ty {
        Ty::Struct { fields } => match fields.get(at) {
            Some(field) => Some(&field.ty),
            None => None,
        },
        Ty::Array { entry, .. } => Some(entry.get()),
        _ => None,
    }
}

// The part at a place, with its type.
fn part<'a>(ty: &'a Ty, value: &'a Value, at: usize) -> Option<(&'a Ty, &'a Value)>
    ensures { option_map (λ x. (x.0.now, x.1.now)) result ≡ spec.part_at at ty.now value.now }
{
    let ty = part_type(ty, at)?;
    let value = child(value, at)?;
    Some((ty, value))
}

/// The node to which steps lead within a value of a type, with its own type. The first step that leads nowhere gives the code:
/// `COMPONENT_DOES_NOT_EXIST` at a struct that has no such field; at an array `NOT_FOUND` where no entry has the subscript or
/// the key, `INVALID_PATH` where it has no such key, and the code of the key's value where that does not read; and
/// `INVALID_PATH` at any other value.
pub fn walk<'a>(
    alloc: Global,
    ty: &'a Ty,
    value: &'a Value,
    steps: &[Step],
) -> Result<(&'a Ty, &'a Value), OpFault>
    ensures { Gives (λ x. (x.0.now, x.1.now)) result (walked steps.now ty.now value.now) }
{
    match steps {
        [] => Ok((ty, value)),
        [first, rest @ ..] => match place_of(alloc, ty, value, first)? {
            None => Err(OpFault::Refused(Code::NOT_FOUND)),
            Some(place) => match part(ty, value, place) {
                None => Err(OpFault::Refused(Code::INVALID_PATH)),
                Some((ty, value)) => walk(alloc, ty, value, rest),
            },
        },
    }
}
