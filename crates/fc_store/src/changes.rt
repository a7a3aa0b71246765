// Changes at a spot.
ghost use Rattle.std.specs.Prelude.{◌≡◌, option_map, slice_get};
ghost use Rattle.fc_instance.specs.Cells.{merge_cell, put_cell, remove_cell};
ghost use Rattle.fc_store.specs.Stores as spec;
ghost use Rattle.fc_store.specs.Stores.{Did, declared_in, merge_spot, put_spot, remove_spot};
ghost use Rattle.fc_store.specs.Trees.{AreTrees, ChangedThere, IsThere, stored, value_there};

use crate::spots::{Purpose, resolve};
use fc_base::{Code, OpFault};
use fc_instance::Instance;
use fc_path::{Spot, Step};
use fc_types::{Component, Instances, Library, Ty, with_id};
use fc_wire::Ilv;
use std::alloc::Global;

/// The steps behind the one to the component.
pub fn further(steps: &[Step]) -> &[Step]
    ensures { result.now ≡ spec.further steps.now }
{
    match steps {
        [] => steps,
        [_, rest @ ..] => rest,
    }
}

/// The component at a place of a class of a library; none where there is none.
pub fn component_at(library: &Library, class: u32, place: usize) -> Option<&Component>
    ensures { option_map (λ x. x.now) result ≡ slice_get (declared_in library.now class) place }
{
    match with_id(library.classes(), class) {
        Some(found) => found.components.get(place),
        None => None,
    }
}

// A SET of FULLDATA in the component at a place of one of the instances.
fn put_there(
    instances: &mut Vec<Instance>,
    alloc: Global,
    ty: &Ty,
    place: (usize, usize),
    steps: &[Step],
    full: &[u8],
) -> Result<(), OpFault>
    requires { IsThere ty.now place instances.old.items }
    ensures { ChangedThere result (put_cell steps.now full.now ty.now (value_there instances.old.items place)) ty.now place instances.old.items instances.new.items }
{
    instances[place.0].put(alloc, ty, place.1, steps, full)
}

// A SET of SPARSEDATA in it.
fn merge_there(
    instances: &mut Vec<Instance>,
    alloc: Global,
    ty: &Ty,
    place: (usize, usize),
    steps: &[Step],
    ilvs: &[Ilv],
) -> Result<(), OpFault>
    requires { IsThere ty.now place instances.old.items }
    ensures { ChangedThere result (merge_cell steps.now ilvs.now ty.now (value_there instances.old.items place)) ty.now place instances.old.items instances.new.items }
{
    instances[place.0].merge(alloc, ty, place.1, steps, ilvs)
}

// A DEL of it, or of an entry within.
fn remove_there(
    instances: &mut Vec<Instance>,
    alloc: Global,
    ty: &Ty,
    optional: bool,
    place: (usize, usize),
    steps: &[Step],
) -> Result<(), OpFault>
    requires { IsThere ty.now place instances.old.items }
    ensures { ChangedThere result (remove_cell optional steps.now ty.now (value_there instances.old.items place)) ty.now place instances.old.items instances.new.items }
{
    instances[place.0].remove(alloc, ty, optional, place.1, steps)
}

// A SET of FULLDATA at a spot.
pub fn put_at(
    library: &Library,
    pairs: &Instances,
    instances: &mut Vec<Instance>,
    spot: &Spot,
    full: &[u8],
) -> Result<(), OpFault>
    requires { AreTrees library.now pairs.now instances.old.items }
    ensures did { Did result (put_spot spot.now full.now (stored library.now pairs.now instances.old.items)) (stored library.now pairs.now instances.old.items) (stored library.now pairs.now instances.new.items) }
    ensures kept { AreTrees library.now pairs.now instances.new.items }
{
    let alloc = *instances.allocator();
    let place = resolve(Purpose::Write, library, pairs, spot)?;
    match component_at(library, spot.class, place.1) {
        None => Err(OpFault::Refused(Code::COMPONENT_DOES_NOT_EXIST)),
        Some(component) => {
            let steps = further(spot.steps.as_slice());
            put_there(instances, alloc, &component.ty, place, steps, full)
        }
    }
}

// A SET of SPARSEDATA at a spot.
pub fn merge_at(
    library: &Library,
    pairs: &Instances,
    instances: &mut Vec<Instance>,
    spot: &Spot,
    ilvs: &[Ilv],
) -> Result<(), OpFault>
    requires { AreTrees library.now pairs.now instances.old.items }
    ensures did { Did result (merge_spot spot.now ilvs.now (stored library.now pairs.now instances.old.items)) (stored library.now pairs.now instances.old.items) (stored library.now pairs.now instances.new.items) }
    ensures kept { AreTrees library.now pairs.now instances.new.items }
{
    let alloc = *instances.allocator();
    let place = resolve(Purpose::Write, library, pairs, spot)?;
    match component_at(library, spot.class, place.1) {
        None => Err(OpFault::Refused(Code::COMPONENT_DOES_NOT_EXIST)),
        Some(component) => {
            let steps = further(spot.steps.as_slice());
            merge_there(instances, alloc, &component.ty, place, steps, ilvs)
        }
    }
}

// A DEL at a spot.
pub fn remove_at(
    library: &Library,
    pairs: &Instances,
    instances: &mut Vec<Instance>,
    spot: &Spot,
) -> Result<(), OpFault>
    requires { AreTrees library.now pairs.now instances.old.items }
    ensures did { Did result (remove_spot spot.now (stored library.now pairs.now instances.old.items)) (stored library.now pairs.now instances.old.items) (stored library.now pairs.now instances.new.items) }
    ensures kept { AreTrees library.now pairs.now instances.new.items }
{
    let alloc = *instances.allocator();
    let place = resolve(Purpose::Write, library, pairs, spot)?;
    match component_at(library, spot.class, place.1) {
        None => Err(OpFault::Refused(Code::COMPONENT_DOES_NOT_EXIST)),
        Some(component) => {
            let steps = further(spot.steps.as_slice());
            let optional = component.optional;
            remove_there(instances, alloc, &component.ty, optional, place, steps)
        }
    }
}
