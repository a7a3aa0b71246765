// Which event a spot names.
ghost use Rattle.std.specs.Prelude.{◌≡◌, ◌==◌, ◌&&◌, ℕ};
ghost use Rattle.std.specs.List.{list_any};
ghost use Rattle.fc_types.specs.declared.class.EventDecl.{EventDecl as Declared};
ghost use Rattle.fc_store.specs.Spots.{is_event_base as event_base_is};
ghost use Rattle.fc_value.specs.Outcomes.{Gives};
ghost use Rattle.fc_events.specs.Events as spec;

use crate::EventPlace;
use fc_base::{Code, OpFault};
use fc_path::{Spot, Step};
use fc_types::{Class, EventDecl, Instances, Library, with_id};

// Whether an ID is that of the events, of which 0 is none.
pub fn is_event_base(event_base: u32, id: u32) -> bool
    ensures { result ≡ event_base_is event_base id }
{
    event_base != 0 && id == event_base
}

fn has_event(events: &[EventDecl], id: u32) -> bool
    ensures { result ≡ list_any (λ (e : Declared). e.id == id) events.now }
{
    events.iter().any(|event| event.id == id)
}

// The event that a step names.
fn event_named(events: &[EventDecl], step: &Step) -> Result<u32, OpFault>
    ensures { Gives (λ id. id) result (spec.event_named events.now step.now) }
{
    match step {
        Step::Id(id) => {
            if has_event(events, *id) {
                return Ok(*id);
            }
            Err(OpFault::Refused(Code::EVENT_ERROR))
        }
        Step::Key(..) => Err(OpFault::Refused(Code::EVENT_ERROR)),
    }
}

// The event that the steps behind the event base name.
fn event_behind(events: &[EventDecl], steps: &[Step]) -> Result<u32, OpFault>
    ensures { Gives (λ id. id) result (spec.event_behind events.now steps.now) }
{
    match steps {
        [] => Err(OpFault::Refused(Code::EVENT_ERROR)),
        [only] => event_named(events, only),
        [_, _, ..] => Err(OpFault::Refused(Code::EVENT_ERROR)),
    }
}

// The ID of the event to which steps lead within a class.
fn event_in(class: &Class, steps: &[Step]) -> Result<u32, OpFault>
    ensures { Gives (λ id. id) result (spec.event_in class.now steps.now) }
{
    match steps {
        [] => Err(OpFault::Refused(Code::INVALID_PATH)),
        [first, rest @ ..] => match first {
            Step::Id(id) => {
                if is_event_base(class.event_base, *id) {
                    return event_behind(class.events.as_slice(), rest);
                }
                Err(OpFault::Refused(Code::READ_ONLY))
            }
            Step::Key(..) => Err(OpFault::Refused(Code::INVALID_PATH)),
        },
    }
}

fn has_instance(pairs: &[(u32, u32)], class: u32, instance: u32) -> bool
    ensures { result ≡ list_any (λ (q : ℕ × ℕ). (q.0 == class) && (q.1 == instance)) pairs.now }
{
    pairs
        .iter()
        .any(|pair| pair.0 == class && pair.1 == instance)
}

fn event_in_instance(
    pairs: &[(u32, u32)],
    class: &Class,
    spot: &Spot,
) -> Result<EventPlace, OpFault>
    ensures { Gives (λ place. place) result (spec.event_by pairs.now spot.now class.now) }
{
    if !has_instance(pairs, class.id, spot.instance) {
        return Err(OpFault::Refused(Code::LFB_INSTANCE_ID_NOT_FOUND));
    }
    let event = event_in(class, spot.steps.as_slice())?;
    Ok(EventPlace {
        class: spot.class,
        instance: spot.instance,
        event,
    })
}

// The event that a spot names among classes and instances.
fn event_among(classes: &[Class], pairs: &[(u32, u32)], spot: &Spot) -> Result<EventPlace, OpFault>
    ensures { Gives (λ place. place) result (spec.event_at classes.now pairs.now spot.now) }
{
    match with_id(classes, spot.class) {
        None => Err(OpFault::Refused(Code::LFB_UNKNOWN)),
        Some(class) => event_in_instance(pairs, class, spot),
    }
}

// The event that a spot names. The first of these gives the code: the class is unknown, `LFB_UNKNOWN`; the instance,
// `LFB_INSTANCE_ID_NOT_FOUND`; the first step is missing or a key, `INVALID_PATH`; it is not the base of the events, `READ_ONLY`; the
// steps behind it name no event of the class, `EVENT_ERROR`.
pub fn event_at(
    library: &Library,
    instances: &Instances,
    spot: &Spot,
) -> Result<EventPlace, OpFault>
    ensures { Gives (λ place. place) result (spec.event_at library.now instances.now spot.now) }
{
    event_among(library.classes(), instances.pairs(), spot)
}
