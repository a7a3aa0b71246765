// The component to which a spot leads.
ghost use Rattle.std.specs.Prelude.{◌≡◌, ◌==◌, ◌&&◌, ℕ, find, position, option_map, IsTrue, Some};
ghost use Rattle.fc_types.specs.Components.{ComponentDecl};
ghost use Rattle.fc_value.specs.Outcomes.{Gives};
ghost use Rattle.fc_store.specs.Spots as spec;
ghost use Rattle.fc_store.specs.Spots.{allowed, component_place, first_id, in_class, is_event_base, no_event, place_in_class, resolved};

use fc_base::{Code, OpFault};
use fc_path::{Spot, Step};
use fc_types::{Class, Component, Instances, Library, MASTERSHIP, with_id};

/// What is meant with a component.
#[derive(Clone, Copy, Debug, PartialEq, Eq)]
pub enum Purpose {
    /// To read it, for which it needs the right.
    Read,
    /// To look at it, with or without the right.
    Look,
    /// To write it, for which it needs the right.
    Write,
}

// The first step, which has to be an ID.
fn first_of(steps: &[Step]) -> Result<u32, OpFault>
    ensures { Gives (λ id. id) result (first_id steps.now) }
{
    match steps {
        [] => Err(OpFault::Refused(Code::INVALID_PATH)),
        [first, ..] => match first {
            Step::Id(id) => Ok(*id),
            Step::Key(..) => Err(OpFault::Refused(Code::INVALID_PATH)),
        },
    }
}

// An ID that is not that of the events.
fn past_events(event_base: u32, id: u32) -> Result<u32, OpFault>
    ensures { Gives (λ id. id) result (no_event event_base id) }
{
    if event_base != 0 && id == event_base {
        return Err(OpFault::Refused(Code::EVENT_ERROR));
    }
    Ok(id)
}

// Whether the rights of a component allow what is meant.
fn allow(
    purpose: Purpose,
    class: u32,
    component: &Component,
    place: usize,
) -> Result<usize, OpFault>
    ensures { Gives (λ place. place) result (allowed purpose class component.now place) }
{
    match purpose {
        Purpose::Read => {
            if component.access == 1 || component.access == 3 {
                return Ok(place);
            }
            Err(OpFault::Refused(Code::NOT_SUPPORTED))
        }
        Purpose::Look => Ok(place),
        Purpose::Write => {
            if (component.access == 2 || component.access == 3) && class != MASTERSHIP {
                return Ok(place);
            }
            Err(OpFault::Refused(Code::READ_ONLY))
        }
    }
}

// The place of the component with an ID.
fn place_with_id(components: &[Component], id: u32) -> Option<usize>
    ensures { result ≡ position (λ (c : ComponentDecl). c.id == id) components.now }
{
    components.iter().position(|component| component.id == id)
}

// The place of the component with an ID, where its rights allow what is meant.
fn place_of_component(
    purpose: Purpose,
    class: u32,
    components: &[Component],
    id: u32,
) -> Result<usize, OpFault>
    ensures { Gives (λ place. place) result (component_place purpose class components.now id) }
{
    match place_with_id(components, id) {
        None => Err(OpFault::Refused(Code::COMPONENT_DOES_NOT_EXIST)),
        Some(place) => match with_id(components, id) {
            None => Err(OpFault::Refused(Code::COMPONENT_DOES_NOT_EXIST)),
            Some(component) => allow(purpose, class, component, place),
        },
    }
}

// The place of the component to which the first step leads within a class.
fn place_within(purpose: Purpose, class: &Class, steps: &[Step]) -> Result<usize, OpFault>
    ensures { Gives (λ place. place) result (place_in_class purpose class.now steps.now) }
{
    let id = first_of(steps)?;
    let id = past_events(class.event_base, id)?;
    place_of_component(purpose, class.id, class.components.as_slice(), id)
}

// The place of an instance.
fn place_of_instance(pairs: &[(u32, u32)], class: u32, instance: u32) -> Option<usize>
    ensures { result ≡ position (λ (q : ℕ × ℕ). (q.0 == class) && (q.1 == instance)) pairs.now }
{
    pairs
        .iter()
        .position(|pair| pair.0 == class && pair.1 == instance)
}

fn place_in_instance(
    purpose: Purpose,
    pairs: &[(u32, u32)],
    class: &Class,
    instance: u32,
    steps: &[Step],
) -> Result<(usize, usize), OpFault>
    ensures { Gives (λ places. places) result (in_class purpose pairs.now instance steps.now class.now) }
{
    match place_of_instance(pairs, class.id, instance) {
        None => Err(OpFault::Refused(Code::LFB_INSTANCE_ID_NOT_FOUND)),
        Some(place) => {
            let component = place_within(purpose, class, steps)?;
            Ok((place, component))
        }
    }
}

// The places of the instance and of the component.
fn places_of(
    purpose: Purpose,
    classes: &[Class],
    pairs: &[(u32, u32)],
    class: u32,
    instance: u32,
    steps: &[Step],
) -> Result<(usize, usize), OpFault>
    ensures { Gives (λ places. places) result (resolved purpose classes.now pairs.now class instance steps.now) }
{
    match with_id(classes, class) {
        None => Err(OpFault::Refused(Code::LFB_UNKNOWN)),
        Some(found) => place_in_instance(purpose, pairs, found, instance, steps),
    }
}

/// The place of the instance of a spot among those of an element, and the place of the component to which its first step leads within its
/// class. The first of these gives the code: the class is unknown, `LFB_UNKNOWN`; the instance, `LFB_INSTANCE_ID_NOT_FOUND`; the first
/// step is missing or a key, `INVALID_PATH`; it is the base of the events, `EVENT_ERROR`; no component has the ID,
/// `COMPONENT_DOES_NOT_EXIST`; the component lacks the right, `READ_ONLY` and `NOT_SUPPORTED`.
pub fn resolve(
    purpose: Purpose,
    library: &Library,
    instances: &Instances,
    spot: &Spot,
) -> Result<(usize, usize), OpFault>
    ensures { Gives (λ places. places) result (resolved purpose library.now instances.now spot.now.class spot.now.instance spot.now.steps) }
{
    places_of(
        purpose,
        library.classes(),
        instances.pairs(),
        spot.class,
        spot.instance,
        spot.steps.as_slice(),
    )
}
