// The built-in classes.
ghost use Rattle.std.specs.Prelude.{◌≡◌, ◌<◌, ◌≤◌, ◌∷◌, ◌++◌, [], map, IfOk, OnOk};
ghost use Rattle.fc_types.specs.BuiltIn.{built_in_ids};
ghost use Rattle.fc_types.specs.Libraries.{KeepRules, class_id};
ghost use Rattle.fc_lfbs.specs.BuiltIns as spec;

use crate::kinds::{Kind, type_of};
use fc_base::{List, Memory, Text};
use fc_types::{Class, Component, EventDecl, FE_OBJECT, FE_PROTOCOL, MASTERSHIP, When};
use std::alloc::Global;

// Appends a component, which is never optional.
fn declare(
    alloc: Global,
    components: &mut List<Component>,
    id: u32,
    name: &str,
    kind: Kind,
    access: u8,
) -> Result<(), Memory>
    requires id { 0 < id }
    requires access { access ≤ 3 }
    ensures { OnOk result (components.new ≡ components.old ++ spec.component id name.now kind access ∷ []) }
{
    let name = Text::from_str(alloc, name)?;
    let ty = type_of(alloc, kind)?;
    components.push(Component {
        id,
        name,
        ty,
        access,
        optional: false,
    })
}

fn fe_object(alloc: Global) -> Result<Class, Memory>
    ensures { IfOk result (λ class. class ≡ spec.fe_object) }
{
    let mut components = List::new(alloc);
    declare(
        alloc,
        &mut components,
        1,
        "LFBTopology",
        Kind::Words(65_536),
        1,
    )?;
    declare(
        alloc,
        &mut components,
        2,
        "LFBSelectors",
        Kind::Selectors,
        1,
    )?;
    declare(alloc, &mut components, 3, "FEName", Kind::Name, 3)?;
    declare(alloc, &mut components, 4, "FEID", Kind::Word, 1)?;
    declare(alloc, &mut components, 5, "FEVendor", Kind::Name, 1)?;
    declare(alloc, &mut components, 6, "FEModel", Kind::Name, 1)?;
    declare(alloc, &mut components, 7, "FEState", Kind::Byte, 3)?;
    declare(
        alloc,
        &mut components,
        8,
        "FENeighbors",
        Kind::Words(65_536),
        1,
    )?;
    Ok(Class {
        id: FE_OBJECT,
        name: Text::from_str(alloc, "FEObject")?,
        components,
        event_base: 0,
        events: List::new(alloc),
    })
}

// The event that the primary control element is gone (RFC 7121, section 3): that CEID has changed.
fn primary_down(alloc: Global) -> Result<EventDecl, Memory>
    ensures { IfOk result (λ event. event ≡ spec.primary_down) }
{
    let mut target = List::new(alloc);
    target.push(8)?;
    Ok(EventDecl {
        id: 1,
        name: Text::from_str(alloc, "PrimaryCEDown")?,
        when: When::Changed,
        target,
    })
}

fn fe_protocol(alloc: Global) -> Result<Class, Memory>
    ensures { IfOk result (λ class. class ≡ spec.fe_protocol) }
{
    let mut components = List::new(alloc);
    declare(
        alloc,
        &mut components,
        1,
        "CurrentRunningVersion",
        Kind::Byte,
        1,
    )?;
    declare(alloc, &mut components, 2, "FEID", Kind::Word, 1)?;
    declare(
        alloc,
        &mut components,
        3,
        "MulticastFEIDs",
        Kind::Words(65_536),
        1,
    )?;
    declare(alloc, &mut components, 4, "CEHBPolicy", Kind::Policy, 3)?;
    declare(alloc, &mut components, 5, "CEHDI", Kind::Word, 3)?;
    declare(alloc, &mut components, 6, "FEHBPolicy", Kind::Policy, 3)?;
    declare(alloc, &mut components, 7, "FEHI", Kind::Word, 3)?;
    declare(alloc, &mut components, 8, "CEID", Kind::Word, 1)?;
    declare(alloc, &mut components, 9, "BackupCEs", Kind::Words(16), 3)?;
    declare(alloc, &mut components, 13, "LastCEID", Kind::Word, 1)?;
    let mut events = List::new(alloc);
    events.push(primary_down(alloc)?)?;
    Ok(Class {
        id: FE_PROTOCOL,
        name: Text::from_str(alloc, "FEProtocol")?,
        components,
        event_base: 61,
        events,
    })
}

fn mastership(alloc: Global) -> Result<Class, Memory>
    ensures { IfOk result (λ class. class ≡ spec.mastership) }
{
    let mut components = List::new(alloc);
    declare(alloc, &mut components, 1, "Epoch", Kind::Word, 1)?;
    declare(alloc, &mut components, 2, "Master", Kind::Word, 1)?;
    declare(
        alloc,
        &mut components,
        3,
        "Transactions",
        Kind::Transactions,
        1,
    )?;
    declare(alloc, &mut components, 4, "Opening", Kind::Opening, 2)?;
    declare(alloc, &mut components, 5, "Subject", Kind::Subject, 2)?;
    declare(alloc, &mut components, 7, "Held", Kind::Transactions, 1)?;
    Ok(Class {
        id: MASTERSHIP,
        name: Text::from_str(alloc, "Mastership")?,
        components,
        event_base: 0,
        events: List::new(alloc),
    })
}

/// The three classes that each element has of itself, each with the one instance 1, in the order of their IDs: FE Object (RFC 5812,
/// section 5) and FE Protocol (RFC 5810, appendix B) in the part of this profile, and Mastership, which is its own.
pub fn built_in(alloc: Global) -> Result<Vec<Class>, Memory>
    ensures classes { IfOk result (λ classes. classes.items ≡ spec.built_in) }
    ensures ids { IfOk result (λ classes. map class_id classes.items ≡ built_in_ids) }
    ensures kept { IfOk result (λ classes. KeepRules classes.items) }
{
    let mut classes = Vec::new(alloc);
    classes.push(fe_object(alloc)?)?;
    classes.push(fe_protocol(alloc)?)?;
    classes.push(mastership(alloc)?)?;
    Ok(classes)
}
