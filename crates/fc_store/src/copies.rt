// Copies of instances, without marks.
ghost use Rattle.std.specs.Prelude.{◌≡◌, [], IfOk};
ghost use Rattle.fc_store.specs.Stores as spec;
ghost use Rattle.fc_store.specs.Stores.{map_from};
ghost use Rattle.fc_store.specs.Trees.{held_then, settled_held};

use crate::store::StoreMark;
use fc_base::Memory;
use fc_instance::Instance;
use std::alloc::Global;

// The number of marks that stood before the first of these marks that has a place.
fn depth_in(marks: &[StoreMark], place: usize) -> Option<usize>
    ensures { result ≡ spec.depth_in marks.now place }
{
    match marks {
        [] => None,
        [first, rest @ ..] => match first.depth(place) {
            Some(depth) => Some(depth),
            None => depth_in(rest, place),
        },
    }
}

// A copy of what an instance held at the mark that stands on so many others, and where none does, of what it holds now.
fn copy_one(alloc: Global, instance: &Instance, depth: Option<usize>) -> Result<Instance, Memory>
    ensures { IfOk result (λ other. other ≡ record { now = held_then depth instance.now; held = [] }) }
{
    if let Some(depth) = depth {
        if depth < instance.marks() {
            return instance.copy_at(alloc, depth);
        }
    }
    instance.copy(alloc)
}

// Copies of all, in their order: at the places of these marks of what was held at them.
pub fn copy_each(
    alloc: Global,
    instances: &[Instance],
    marks: &[StoreMark],
) -> Result<Vec<Instance>, Memory>
    ensures { IfOk result (λ others. others.items ≡ map_from (settled_held marks.now) 0 instances.now) }
{
    let mut others = Vec::new(alloc);
    for place in 0..instances.len() {
        let depth = depth_in(marks, place);
        others.push(copy_one(alloc, &instances[place], depth)?)?;
    }
    Ok(others)
}
