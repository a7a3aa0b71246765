// Components, events and the classes that have them.
ghost use Rattle.std.specs.Prelude.{◌≡◌};

use crate::{Identified, Ty};
use fc_base::{List, Text};
use std::marker::Model;

/// A component of a class (RFC 5812, section 4.7.4). Its ID is at least 1, and its access is 0 for none, 1 for reading,
/// 2 for writing and 3 for both.
#[derive(Debug, Drop)]
pub struct Component {
    pub id: u32,
    pub name: Text,
    pub ty: Ty,
    pub access: u8,
    /// Whether the component may be absent.
    pub optional: bool,
}

impl Model for Component {
    ghost use Rattle.fc_types.specs.Components.{ComponentDecl};

    ghost Value = { ComponentDecl };

    ghost use Rattle.fc_types.specs.contracts.ty.Ty as contracts;
    ghost use Rattle.std.specs.Coded.{codes};

    ghost coded = { Prim.hlevel (codes, contracts.the_row.coded) };

    ghost use Rattle.std.specs.Prelude.{◌<◌, ◌≤◌};

    ghost view = { λ s. record { id = s.id; name = s.name; ty = s.ty; access = s.access; optional = s.optional } };

    ghost invariant = { λ s. (0 < s.id) × (s.access ≤ 3) };
}

impl Identified for Component {
    ghost id_of = { λ component. component.id };

    fn id(&self) -> u32 {
        self.id
    }
}

/// When an event happens, of the value of its target (RFC 5812, section 4.7.6).
#[derive(Clone, Copy, Debug, PartialEq, Eq)]
pub enum When {
    /// It has changed.
    Changed,
    /// An entry has been created in it.
    Created,
    /// An entry of it has been deleted.
    Deleted,
    /// It has become greater than a threshold.
    Greater,
    /// It has become less than a threshold.
    Less,
}

/// An event of a class (RFC 5812, section 4.7.6).
#[derive(Debug, Drop)]
pub struct EventDecl {
    pub id: u32,
    pub name: Text,
    pub when: When,
    /// The IDs that lead to the target: that of a component, and then of a field at each level of structs.
    pub target: List<u32>,
}

impl Identified for EventDecl {
    ghost id_of = { λ event. event.id };

    fn id(&self) -> u32 {
        self.id
    }
}

/// A class of logical functional blocks (RFC 5812, section 4.7).
#[derive(Debug, Drop)]
pub struct Class {
    pub id: u32,
    pub name: Text,
    pub components: List<Component>,
    /// The ID under which the events stand beside the components, or 0 where there is none.
    pub event_base: u32,
    pub events: List<EventDecl>,
}

impl Identified for Class {
    ghost id_of = { λ class. class.id };

    fn id(&self) -> u32 {
        self.id
    }
}
