// What a GET-PROP tells.
ghost use Rattle.std.specs.Prelude.{◌≡◌, ◌==◌, ◌&&◌, IfOk, Option};
ghost use Rattle.fc_instance.specs.Cells.{look_cell};
ghost use Rattle.fc_value.specs.Outcomes.{Gives};
ghost use Rattle.fc_events.specs.Properties as spec;

use crate::Subscriptions;
use crate::finding::{event_at, is_event_base};
use crate::nodes::{node_props, value_props};
use fc_base::{Code, List, OpFault};
use fc_path::{Spot, Step};
use fc_store::{Purpose, Store, component_at, further, resolve, walk};
use fc_types::{Component, Library, Ty, is_live, with_id};
use fc_value::{Live, Value};
use fc_watch::event_props;
use fc_wire::Ilv;
use std::alloc::Global;

// The properties of the node to which steps lead within a value, where there is one.
fn props_within(
    alloc: Global,
    component: &Component,
    value: Option<Value>,
    steps: &[Step],
) -> Result<List<Ilv>, OpFault>
    ensures { Gives (λ props. props) result (spec.props_from component.now.access (look_cell steps.now component.now.ty value)) }
{
    match value {
        None => Err(OpFault::Refused(Code::NOT_FOUND)),
        Some(value) => {
            let (ty, value) = walk(alloc, &component.ty, &value, steps)?;
            Ok(value_props(alloc, component.access, ty, value)?)
        }
    }
}

// The properties of a node in the configuration.
fn props_held(alloc: Global, store: &Store, access: u8, spot: &Spot) -> Result<List<Ilv>, OpFault>
    ensures { Gives (λ props. props) result (spec.props_from access (spec.seen_there spot.now store.now)) }
{
    let (ty, node) = store.look(spot)?;
    Ok(node_props(alloc, access, ty, &node)?)
}

fn props_in<L: Live>(
    alloc: Global,
    store: &Store,
    live: &L,
    spot: &Spot,
    component: &Component,
) -> Result<List<Ilv>, OpFault>
    ensures { Gives (λ props. props) result (spec.props_of (L.told live.now) store.now spot.now component.now) }
{
    if is_live(spot.class, component.id) {
        let value = live.component(spot.class, spot.instance, component.id)?;
        return props_within(alloc, component, value, further(spot.steps.as_slice()));
    }
    props_held(alloc, store, component.access, spot)
}

// The properties of a component or of a node within it.
fn props_of_node<L: Live>(
    alloc: Global,
    store: &Store,
    live: &L,
    spot: &Spot,
) -> Result<List<Ilv>, OpFault>
    ensures { Gives (λ props. props) result (spec.props_of_node (L.told live.now) store.now spot.now) }
{
    let place = resolve(Purpose::Look, store.library(), store.instances(), spot)?;
    match component_at(store.library(), spot.class, place.1) {
        None => Err(OpFault::Refused(Code::COMPONENT_DOES_NOT_EXIST)),
        Some(component) => props_in(alloc, store, live, spot, component),
    }
}

// Whether the first of the steps is that of the events.
fn leads_to(event_base: u32, steps: &[Step]) -> bool
    ensures { result ≡ spec.leads_to event_base steps.now }
{
    match steps {
        [] => false,
        [first, ..] => match first {
            Step::Id(id) => is_event_base(event_base, *id),
            Step::Key(..) => false,
        },
    }
}

fn leads_to_events(library: &Library, spot: &Spot) -> bool
    ensures { result ≡ spec.leads_to_events library.now spot.now }
{
    match with_id(library.classes(), spot.class) {
        None => false,
        Some(class) => leads_to(class.event_base, spot.steps.as_slice()),
    }
}

impl Subscriptions {
    // The properties of the event that a spot names.
    fn props_of_event(&self, store: &Store, spot: &Spot) -> Result<List<Ilv>, OpFault>
        ensures { Gives (λ props. props) result (spec.props_of_event store.now self.now spot.now) }
    {
        let place = event_at(store.library(), store.instances(), spot)?;
        Ok(event_props(self.alloc(), self.settings_at(place))?)
    }

    /// The properties of what a spot leads to, by rising identifier. Of a component and of a node within it they are the rights of the
    /// component (1); of an array also the number of its entries (2), the highest subscript, 0 where there is none (3), and the least
    /// that is not used (4); of a text or octets also the length (2) and the longest that may be (3). Of an event they are the
    /// registration (2), the threshold (3), the hysteresis (4) and the count (5). No right is needed. The codes are those of
    /// [`Store::look`], where the value of a live component is what `live` tells; and where the first step is the base of the events,
    /// `EVENT_ERROR` where the steps name no event.
    pub fn get_prop<L: Live>(
        &self,
        store: &Store,
        live: &L,
        spot: &Spot,
    ) -> Result<List<Ilv>, OpFault>
        ensures { Gives (λ props. props) result (spec.get_spot (L.told live.now) store.now self.now spot.now) }
    {
        if leads_to_events(store.library(), spot) {
            return self.props_of_event(store, spot);
        }
        props_of_node(self.alloc(), store, live, spot)
    }
}
