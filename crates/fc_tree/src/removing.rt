// A DEL within the value of a component.
ghost use Rattle.std.specs.Prelude.{◌≡◌, ◌<◌, length};
ghost use Rattle.fc_value.specs.Outcomes.{Gives};
ghost use Rattle.fc_tree.specs.Finding as finding;
ghost use Rattle.fc_tree.specs.Removing as spec;
ghost use Rattle.fc_tree.specs.Removing.{remove_in, remove_part};

use crate::find::place_of;
use crate::putting::{into_entries, with_part};
use crate::walking::part_type;
use fc_base::{Code, List, OpFault};
use fc_path::Step;
use fc_types::Ty;
use fc_value::{Value, replace_node};
use std::alloc::Global;

// An array without the entry at a place; nothing else can be taken out.
#[tactic(auto, unfolding(crate::specs::Removing::taken))]
fn take_out(alloc: Global, ty: &Ty, value: Value, place: usize) -> Result<Value, OpFault>
    ensures { Gives (λ v. v) result (spec.taken place ty.now value) }
{
    if let Ty::Array { .. } = ty {
        let mut entries = into_entries(alloc, value).into_vec();
        if place < entries.len() {
            entries.remove(place);
        }
        return Ok(Value::Table(List::from_vec(entries)));
    }
    Err(OpFault::Refused(Code::INVALID_PARAMETERS))
}

/// The value without the entry to which steps lead. The first of these gives the code: a step that leads nowhere, and a target that
/// is no entry of an array.
#[cycle(remove)]
pub fn remove_value(alloc: Global, ty: &Ty, value: Value, steps: &[Step]) -> Result<Value, OpFault>
    ensures { Gives (λ v. v) result (remove_in steps.now ty.now value) }
{
    match steps {
        [] => Err(OpFault::Refused(Code::INVALID_PARAMETERS)),
        [first, rest @ ..] => match place_of(alloc, ty, &value, first)? {
            None => Err(OpFault::Refused(Code::NOT_FOUND)),
            Some(place) => match rest {
                [] => take_out(alloc, ty, value, place),
                _ => remove_below(alloc, ty, value, place, rest),
            },
        },
    }
}

// The part at a place without the entry.
#[cycle(remove)]
fn remove_below(
    alloc: Global,
    ty: &Ty,
    value: Value,
    place: usize,
    rest: &[Step],
) -> Result<Value, OpFault>
    ensures { Gives (λ v. v) result (remove_part (remove_in rest.now) place ty.now value (finding.part_at place ty.now value)) }
{
    match part_type(ty, place) {
        None => Err(OpFault::Refused(Code::INVALID_PATH)),
        Some(part) => {
            let mut value = value;
            match replace_node(&mut value, &[place], Value::Truth(false)) {
                Err(_) => Err(OpFault::Refused(Code::INVALID_PATH)),
                Ok(old) => {
                    let new = remove_value(alloc, part, old, rest)?;
                    Ok(with_part(value, place, new))
                }
            }
        }
    }
}
