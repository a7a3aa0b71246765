// The rules that each declared class keeps.
ghost use Rattle.std.specs.Prelude.{◌≡◌, min};
ghost use Rattle.std.specs.List.{list_all};
ghost use Rattle.std.specs.Option.{option_copied};
ghost use Rattle.fc_types.specs.Classes as spec;
ghost use Rattle.fc_types.specs.Classes.{class_keeps, members};
ghost use Rattle.fc_types.specs.Types.{nests, throughout};
ghost use Rattle.fc_types.specs.TypeRules.{keeps};

use crate::depth::{COUNT_CAP, fields_counted, nests_within};
use crate::ids::has_id;
use crate::type_rules::{TypeRule, fields_of, holds_inside, holds_throughout, is_atom};
use crate::{Class, Component, EventDecl, Ty, When, are_distinct, with_id};

/// The greatest number of components of a class, with the fields in them and its events.
const MEMBERS_LIMIT: u64 = 1024;

/// How deep a type may nest.
const DEPTH_LIMIT: u8 = 8;

/// A rule of a class, apart from the other classes of its library.
#[derive(Clone, Copy, Debug)]
pub enum ClassRule {
    /// It has at most 1,024 components, with the fields in them at any depth and its events.
    Small,
    /// Its components, with its event base, differ in their IDs, and so do its events, the fields of each struct and the
    /// keys of each array.
    DistinctIds,
    /// Its types nest at most 8 deep.
    Shallow,
    /// A range, a length or a number of entries is one that the type can have, and an array that stands inside a struct or
    /// an entry fits the value of a TLV.
    Ranges,
    /// A key of an array is made of different fields of the entry that are no structs or arrays.
    AtomicKeys,
    /// An event has a target, and one that it suits.
    Targets,
}

/// Whether each class keeps a rule.
pub fn all_keep(rule: ClassRule, classes: &[Class]) -> bool
    ensures { result ≡ list_all (class_keeps rule) classes.now }
{
    for class in classes {
        if !keeps(rule, class) {
            return false;
        }
    }
    true
}

fn keeps(rule: ClassRule, class: &Class) -> bool
    ensures { result ≡ class_keeps rule class.now }
{
    match rule {
        ClassRule::Small => members_counted(class) <= MEMBERS_LIMIT,
        ClassRule::DistinctIds => ids_differ(class),
        ClassRule::Shallow => types_nest(class.components.as_slice()),
        ClassRule::Ranges => types_are_ranged(class.components.as_slice()),
        ClassRule::AtomicKeys => types_keep(TypeRule::AtomicKeys, class.components.as_slice()),
        ClassRule::Targets => have_targets(class.components.as_slice(), class.events.as_slice()),
    }
}

// The components of a class with their fields and its events, or the cap where there are more.
fn members_counted(class: &Class) -> u64
    ensures { result ≡ min 1025 (members class.now) }
{
    let mut count = (class.events.len() as u64).min(COUNT_CAP);
    for component in class.components.as_slice() {
        count = (count + 1 + fields_counted(&component.ty)).min(COUNT_CAP);
    }
    count
}

fn ids_differ(class: &Class) -> bool
    ensures { result ≡ spec.ids_differ class.now }
{
    components_differ(class)
        && are_distinct(class.events.as_slice())
        && types_keep(TypeRule::DistinctIds, class.components.as_slice())
}

fn components_differ(class: &Class) -> bool
    ensures { result ≡ spec.components_differ class.now }
{
    let components = class.components.as_slice();
    are_distinct(components) && (class.event_base == 0 || !has_id(components, class.event_base))
}

// Whether the type of each component, and each type inside it, keeps a rule.
fn types_keep(rule: TypeRule, components: &[Component]) -> bool
    ensures { result ≡ list_all (λ x. throughout (keeps rule) x.ty) components.now }
{
    for component in components {
        if !holds_throughout(rule, &component.ty) {
            return false;
        }
    }
    true
}

fn types_nest(components: &[Component]) -> bool
    ensures { result ≡ list_all (λ x. nests 8 x.ty) components.now }
{
    for component in components {
        if !nests_within(&component.ty, DEPTH_LIMIT) {
            return false;
        }
    }
    true
}

fn types_are_ranged(components: &[Component]) -> bool
    ensures { result ≡ list_all (λ x. spec.type_is_ranged x.ty) components.now }
{
    for component in components {
        if !is_ranged(&component.ty) {
            return false;
        }
    }
    true
}

fn is_ranged(ty: &Ty) -> bool
    ensures { result ≡ spec.type_is_ranged ty.now }
{
    holds_throughout(TypeRule::Range, ty) && holds_inside(TypeRule::Fit, ty)
}

fn have_targets(components: &[Component], events: &[EventDecl]) -> bool
    ensures { result ≡ list_all (spec.has_target components.now) events.now }
{
    for event in events {
        if !has_target(components, event) {
            return false;
        }
    }
    true
}

fn has_target(components: &[Component], event: &EventDecl) -> bool
    ensures { result ≡ spec.has_target components.now event.now }
{
    match target_type(components, event.target.as_slice()) {
        Some(ty) => suits(event.when, ty),
        None => false,
    }
}

/// The type of the target to which IDs lead, from a component that is not optional through structs.
pub fn target_type<'a>(components: &'a [Component], target: &[u32]) -> Option<&'a Ty>
    ensures { option_copied result ≡ spec.target_type components.now target.now }
{
    match target {
        [] => None,
        [id, fields @ ..] => match with_id(components, *id) {
            Some(component) if !component.optional => type_at(&component.ty, fields),
            _ => None,
        },
    }
}

// The type that IDs of fields lead to, from a type through structs.
fn type_at<'a>(ty: &'a Ty, ids: &[u32]) -> Option<&'a Ty>
    ensures { option_copied result ≡ spec.type_at ids.now ty.now }
{
    match ids {
        [] => Some(ty),
        [id, rest @ ..] => match with_id(fields_of(ty), *id) {
            Some(field) => type_at(&field.ty, rest),
            None => None,
        },
    }
}

// Whether an event of this kind can have a target of the type.
fn suits(when: When, ty: &Ty) -> bool
    ensures { result ≡ spec.suits when ty.now }
{
    match when {
        When::Changed => is_atom(ty),
        When::Created | When::Deleted => matches!(ty, Ty::Array { .. }),
        When::Greater | When::Less => matches!(ty, Ty::Number { .. }),
    }
}
