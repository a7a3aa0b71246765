// What is configured at an element: the components that have another value than at first.
ghost use Rattle.std.specs.Prelude.{◌≡◌, ◌++◌, IfOk, OnOk};
ghost use Rattle.std.specs.List.{flat_map};
ghost use Rattle.fc_store.specs.Stores.{declared_in};
ghost use Rattle.fc_element.specs.ElementState as states;
ghost use Rattle.fc_element.specs.Configuration as spec;
ghost use Rattle.fc_element.specs.Configuration.{component_changes, form_at, instance_changes};

use crate::settled::settled_store;
use fc_base::{List, Memory, Octets, OpFault};
use fc_path::{Spot, Step};
use fc_store::Store;
use fc_transactions::Ledger;
use fc_types::{Class, Component, is_live, with_id};
use std::alloc::Global;
use std::collections::BTreeSet;

/// A component that has another value than at first.
#[derive(Debug, Drop)]
pub struct Configured {
    /// The class of the LFB.
    pub class: u32,
    /// The instance of the class.
    pub instance: u32,
    /// The ID of the component.
    pub component: u32,
    /// The bytes of its value in the full form; none where it has no value.
    pub form: Option<Octets>,
}

// The spot of a component of an instance.
fn component_spot(alloc: Global, pair: (u32, u32), id: u32) -> Result<Spot, Memory>
    ensures { IfOk result (λ spot. spot ≡ spec.component_spot pair id) }
{
    let mut steps = List::new(alloc);
    steps.push(Step::Id(id))?;
    Ok(Spot {
        class: pair.0,
        instance: pair.1,
        steps,
    })
}

// The full form of the node at a spot, where there is one.
fn form_in(alloc: Global, store: &Store, spot: &Spot) -> Result<Option<Octets>, Memory>
    ensures { IfOk result (λ form. form ≡ form_at spot.now store.now) }
{
    match store.look(spot) {
        Ok((ty, node)) => {
            let mut bytes = Vec::new(alloc);
            node.write_full(ty, &mut bytes)?;
            Ok(Some(Octets::from_vec(bytes)))
        }
        Err(fault) => match fault {
            OpFault::Refused(_) => Ok(None),
            OpFault::Memory => Err(Memory),
        },
    }
}

// Whether two full forms are the same, or there is neither.
fn same_form(one: &Option<Octets>, other: &Option<Octets>) -> bool
    ensures { result ≡ spec.same_form one.now other.now }
{
    match one {
        None => other.is_none(),
        Some(bytes) => match other {
            None => false,
            Some(others) => bytes.as_slice() == others.as_slice(),
        },
    }
}

fn changed_to(pair: (u32, u32), id: u32, form: Option<Octets>) -> Configured
    ensures { result ≡ spec.changed_to pair id form }
{
    Configured {
        class: pair.0,
        instance: pair.1,
        component: id,
        form,
    }
}

// Appends a component of an instance, if it is not live and has another value than in the first store.
fn push_component(
    first: &Store,
    store: &Store,
    pair: (u32, u32),
    id: u32,
    into: &mut List<Configured>,
) -> Result<(), Memory>
    ensures { OnOk result (into.new ≡ into.old ++ component_changes first.now store.now pair id) }
{
    if is_live(pair.0, id) {
        return Ok(());
    }
    let alloc = into.alloc();
    let spot = component_spot(alloc, pair, id)?;
    let form = form_in(alloc, store, &spot)?;
    let opening = form_in(alloc, first, &spot)?;
    if same_form(&form, &opening) {
        return Ok(());
    }
    into.push(changed_to(pair, id, form))
}

// The members of a set in their order.
fn listed(alloc: Global, ids: BTreeSet<u32>) -> Result<List<u32>, Memory>
    ensures { IfOk result (λ list. list ≡ ids.keys) }
{
    let mut list = List::new(alloc);
    for id in ids {
        list.push(id)?;
    }
    Ok(list)
}

// The IDs of components, by rising ID.
fn rising_ids(alloc: Global, components: &[Component]) -> Result<List<u32>, Memory>
    ensures { IfOk result (λ ids. ids ≡ spec.rising_ids components.now) }
{
    let mut ids = BTreeSet::new(alloc);
    for component in components {
        ids.insert(component.id)?;
    }
    listed(alloc, ids)
}

// The IDs of the components of a class, by rising ID.
fn ids_of_class(alloc: Global, classes: &[Class], class: u32) -> Result<List<u32>, Memory>
    ensures { IfOk result (λ ids. ids ≡ spec.rising_ids (declared_in classes.now class)) }
{
    match with_id(classes, class) {
        Some(found) => rising_ids(alloc, found.components.as_slice()),
        None => Ok(List::new(alloc)),
    }
}

// Appends those of these components of an instance.
fn push_components(
    first: &Store,
    store: &Store,
    pair: (u32, u32),
    ids: &[u32],
    into: &mut List<Configured>,
) -> Result<(), Memory>
    ensures { OnOk result (into.new ≡ into.old ++ flat_map (component_changes first.now store.now pair) ids.now) }
{
    for id in ids {
        push_component(first, store, pair, *id, into)?;
    }
    Ok(())
}

// Appends those of an instance.
fn push_instance(
    first: &Store,
    store: &Store,
    pair: (u32, u32),
    into: &mut List<Configured>,
) -> Result<(), Memory>
    ensures { OnOk result (into.new ≡ into.old ++ instance_changes first.now store.now pair) }
{
    let ids = ids_of_class(into.alloc(), store.library().classes(), pair.0)?;
    push_components(first, store, pair, ids.as_slice(), into)
}

// Appends those of instances.
fn push_instances(
    first: &Store,
    store: &Store,
    pairs: &[(u32, u32)],
    into: &mut List<Configured>,
) -> Result<(), Memory>
    ensures { OnOk result (into.new ≡ into.old ++ flat_map (instance_changes first.now store.now) pairs.now) }
{
    for pair in pairs {
        push_instance(first, store, *pair, into)?;
    }
    Ok(())
}

// The components of a store that are not live and have another value than in a new store with the same library and instances.
fn configuration_of(alloc: Global, store: &Store) -> Result<List<Configured>, Memory>
    ensures { IfOk result (λ changes. changes ≡ spec.configured store.now) }
{
    let first = Store::new(alloc, store.library(), store.instances())?;
    let mut changes = List::new(alloc);
    push_instances(&first, store, store.instances().pairs(), &mut changes)?;
    Ok(changes)
}

/// The components that have another value than at first in the settled configuration, by class, instance and component.
pub fn settled_configuration(alloc: Global, ledger: &Ledger) -> Result<List<Configured>, Memory>
    ensures { IfOk result (λ changes. changes ≡ spec.configured (states.settled_store ledger.now)) }
{
    if ledger.holdings.is_empty() {
        return configuration_of(alloc, &ledger.store);
    }
    let settled = settled_store(alloc, ledger)?;
    configuration_of(alloc, &settled)
}
