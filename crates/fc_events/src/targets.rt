// What there is at the target of an event.
ghost use Rattle.std.specs.Prelude.{◌≡◌, map, IfOk, option_map};
ghost use Rattle.fc_path.specs.declared.oper.Step.TheVariants.{Id};
ghost use Rattle.fc_store.specs.Stores.{seen};
ghost use Rattle.fc_store.specs.declared.spots.Purpose.TheVariants as purpose;
ghost use Rattle.fc_value.specs.Writing.{full_bytes};
ghost use Rattle.fc_value.specs.declared.value.Value.{out-Value};
ghost use Rattle.fc_events.specs.Events as spec;

use crate::EventPlace;
use fc_base::{List, Memory, Octets, OpFault};
use fc_instance::Node;
use fc_path::{Spot, Step};
use fc_store::Store;
use fc_types::{EventDecl, Library, Ty, When, with_id};
use fc_value::Value;
use fc_watch::Seen;
use std::alloc::Global;

/// What an evaluation needs of a target: when its event happens, its type and its value.
#[derive(Debug, Drop)]
pub struct Sight<'a> {
    pub when: When,
    pub ty: &'a Ty,
    pub node: Node<'a>,
}

// What is declared of an event.
fn declared(library: &Library, place: EventPlace) -> Option<&EventDecl>
    ensures { option_map (λ e. e.now) result ≡ spec.declared library.now place }
{
    match with_id(library.classes(), place.class) {
        Some(class) => with_id(class.events.as_slice(), place.event),
        None => None,
    }
}

fn id_steps(alloc: Global, ids: &[u32]) -> Result<List<Step>, Memory>
    ensures { IfOk result (λ steps. steps ≡ map Id ids.now) }
{
    let mut steps = List::new(alloc);
    for id in ids {
        steps.push(Step::Id(*id))?;
    }
    Ok(steps)
}

fn target_spot(alloc: Global, place: EventPlace, event: &EventDecl) -> Result<Spot, Memory>
    ensures { IfOk result (λ spot. spot ≡ spec.target_spot place event.now) }
{
    let steps = id_steps(alloc, event.target.as_slice())?;
    Ok(Spot {
        class: place.class,
        instance: place.instance,
        steps,
    })
}

// The target of an event that is declared so, where it has a value.
fn sight_at<'a>(store: &'a Store, when: When, spot: &Spot) -> Result<Option<Sight<'a>>, Memory>
    ensures { IfOk result (λ o. option_map (λ x. spec.sight x.when x.ty.now x.node) o ≡ spec.sighted when (seen purpose.Look spot.now store.now)) }
{
    match store.look(spot) {
        Ok((ty, node)) => Ok(Some(Sight { when, ty, node })),
        Err(fault) => match fault {
            OpFault::Refused(_) => Ok(None),
            OpFault::Memory => Err(Memory),
        },
    }
}

/// The target of an event, where it has a value in the configuration.
pub fn sight_of<'a>(
    alloc: Global,
    store: &'a Store,
    place: EventPlace,
) -> Result<Option<Sight<'a>>, Memory>
    ensures { IfOk result (λ o. option_map (λ x. spec.sight x.when x.ty.now x.node) o ≡ spec.sight_of store.now place) }
{
    match declared(store.library(), place) {
        None => Ok(None),
        Some(event) => {
            let spot = target_spot(alloc, place, event)?;
            sight_at(store, event.when, &spot)
        }
    }
}

// Whether the numbers of a type are signed.
fn is_signed(ty: &Ty) -> bool
    ensures { result ≡ spec.is_signed ty.now }
{
    match ty {
        Ty::Number { signed, .. } => *signed,
        _ => false,
    }
}

/// The subscripts of the entries of an array.
pub fn subscripts_of(alloc: Global, entries: &[(u32, Value)]) -> Result<List<u32>, Memory>
    ensures { IfOk result (λ subscripts. subscripts ≡ map (λ e. e.0) entries.now) }
{
    let mut subscripts = List::new(alloc);
    for entry in entries {
        subscripts.push(entry.0)?;
    }
    Ok(subscripts)
}

// The number that a node is.
fn number_of(alloc: Global, node: &Node<'_>) -> Result<i128, Memory>
    ensures { IfOk result (λ number. number ≡ spec.number_layer (out-Value node.now)) }
{
    match node.copy(alloc)? {
        Value::Number(number) => Ok(number),
        _ => Ok(0),
    }
}

fn full_form(alloc: Global, ty: &Ty, node: &Node<'_>) -> Result<Octets, Memory>
    ensures { IfOk result (λ bytes. bytes ≡ full_bytes ty.now node.now) }
{
    let mut bytes = Vec::new(alloc);
    node.write_full(ty, &mut bytes)?;
    Ok(Octets::from_vec(bytes))
}

// What an evaluation sees of a node.
#[tactic(auto, unfolding(crate::specs::Events::seen_of))]
fn seen_of(alloc: Global, ty: &Ty, node: &Node<'_>) -> Result<Seen, Memory>
    ensures { IfOk result (λ seen. seen ≡ spec.seen_of ty.now node.now) }
{
    match ty {
        Ty::Number { .. } => Ok(Seen::Number(number_of(alloc, node)?)),
        Ty::Array { .. } => Ok(Seen::Subscripts(subscripts_of(alloc, node.entries())?)),
        _ => Ok(Seen::Bytes(full_form(alloc, ty, node)?)),
    }
}

impl<'a> Sight<'a> {
    /// Whether the numbers of the target are signed.
    pub fn is_signed(&self) -> bool
        ensures { result ≡ spec.is_signed self.now.ty.now }
    {
        is_signed(self.ty)
    }

    /// The full form of the target.
    pub fn full_form(&self, alloc: Global) -> Result<Octets, Memory>
        ensures { IfOk result (λ bytes. bytes ≡ full_bytes self.now.ty.now self.now.node) }
    {
        full_form(alloc, self.ty, &self.node)
    }

    /// What an evaluation sees of the target.
    pub fn seen(&self, alloc: Global) -> Result<Seen, Memory>
        ensures { IfOk result (λ seen. seen ≡ spec.seen_of self.now.ty.now self.now.node) }
    {
        seen_of(alloc, self.ty, &self.node)
    }
}
