// Looking at a spot.
ghost use Rattle.std.specs.Prelude.{◌≡◌};
ghost use Rattle.fc_instance.specs.Cells.{look_cell};
ghost use Rattle.fc_value.specs.Outcomes.{Gives};
ghost use Rattle.fc_store.specs.Stores.{seen};
ghost use Rattle.fc_store.specs.Trees.{AreTrees, IsThere, stored, value_there};

use crate::changes::{component_at, further};
use crate::spots::{Purpose, resolve};
use fc_base::{Code, OpFault};
use fc_instance::{Instance, Node};
use fc_path::{Spot, Step};
use fc_types::{Instances, Library, Ty};
use std::alloc::Global;

// The node within the component at a place of one of the instances.
fn look_there<'a>(
    alloc: Global,
    instances: &'a [Instance],
    ty: &'a Ty,
    place: (usize, usize),
    steps: &[Step],
) -> Result<(&'a Ty, Node<'a>), OpFault>
    requires { IsThere ty.now place instances.now }
    ensures { Gives (λ x. (x.0.now, x.1)) result (look_cell steps.now ty.now (value_there instances.now place)) }
{
    instances[place.0].look(alloc, ty, place.1, steps)
}

// The node to which a spot leads, with its type.
pub fn look_at<'a>(
    alloc: Global,
    purpose: Purpose,
    library: &'a Library,
    pairs: &Instances,
    instances: &'a [Instance],
    spot: &Spot,
) -> Result<(&'a Ty, Node<'a>), OpFault>
    requires { AreTrees library.now pairs.now instances.now }
    ensures { Gives (λ x. (x.0.now, x.1)) result (seen purpose spot.now (stored library.now pairs.now instances.now)) }
{
    let place = resolve(purpose, library, pairs, spot)?;
    match component_at(library, spot.class, place.1) {
        None => Err(OpFault::Refused(Code::COMPONENT_DOES_NOT_EXIST)),
        Some(component) => {
            let steps = further(spot.steps.as_slice());
            look_there(alloc, instances, &component.ty, place, steps)
        }
    }
}
