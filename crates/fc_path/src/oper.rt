// Operations, selects, and the leaves of selects.
ghost use Rattle.std.specs.Prelude.{◌≡◌, IfOk};

use crate::{Body, PathData};
use fc_base::{Code, Duplicate, List, Memory, Octets, Shared};

/// The operations that hold PATH-DATA (RFC 5810, section 7.1.6).
#[derive(Clone, Copy, Debug, PartialEq, Eq)]
pub enum OperKind {
    Set,
    SetProp,
    Del,
    SetResponse,
    SetPropResponse,
    DelResponse,
    Get,
    GetProp,
    GetResponse,
    GetPropResponse,
    Report,
}

/// One operation on an LFB.
#[derive(Debug, PartialEq, Eq, Drop)]
pub enum Oper {
    /// An operation on the places of PATH-DATA, of which there is at least one.
    Paths(OperKind, Shared<PathData>),
    /// The end of a transaction's first phase.
    Commit,
    /// The end of a transaction.
    Trcomp,
    /// How the first phase ended.
    CommitResponse(Code),
}

/// An LFBselect (RFC 5810, section 7.1.5): an instance of a class, and at least one operation on it.
#[derive(Debug, PartialEq, Eq, Drop)]
pub struct Select {
    /// The class of the LFB.
    pub class: u32,
    /// The instance of the class.
    pub instance: u32,
    /// The operations, in their order.
    pub opers: List<Oper>,
}

/// A step towards a place inside an LFB.
#[derive(Debug, PartialEq, Eq, Drop)]
pub enum Step {
    /// To a component, field or entry, by its ID or subscript.
    Id(u32),
    /// To the entry whose key of this number has this value.
    Key(u32, Octets),
}

/// A place inside an LFB.
#[derive(Debug, PartialEq, Eq, Drop)]
pub struct Spot {
    /// The class of the LFB.
    pub class: u32,
    /// The instance of the class.
    pub instance: u32,
    /// The steps, from outside to inside.
    pub steps: List<Step>,
}

/// One operation on one place: a PATH-DATA that holds no others, with the steps of all that it stands in.
#[derive(Debug, PartialEq, Eq, Drop)]
pub struct Leaf {
    /// The operation.
    pub kind: OperKind,
    /// The place.
    pub spot: Spot,
    /// What is said of the place.
    pub body: Body,
}

impl Duplicate for OperKind {
    fn copy(&self) -> Result<Self, Memory> {
        Ok(*self)
    }
}

impl Duplicate for Oper {
    fn copy(&self) -> Result<Self, Memory> {
        match self {
            Oper::Paths(kind, paths) => Ok(Oper::Paths(*kind, paths.copy()?)),
            Oper::Commit => Ok(Oper::Commit),
            Oper::Trcomp => Ok(Oper::Trcomp),
            Oper::CommitResponse(code) => Ok(Oper::CommitResponse(*code)),
        }
    }
}

impl Duplicate for Select {
    fn copy(&self) -> Result<Self, Memory> {
        let opers = self.opers.copy()?;
        Ok(Select {
            class: self.class,
            instance: self.instance,
            opers,
        })
    }
}

impl Duplicate for Step {
    fn copy(&self) -> Result<Self, Memory> {
        match self {
            Step::Id(id) => Ok(Step::Id(*id)),
            Step::Key(ident, value) => Ok(Step::Key(*ident, value.copy()?)),
        }
    }
}

impl Duplicate for Spot {
    fn copy(&self) -> Result<Self, Memory> {
        let steps = self.steps.copy()?;
        Ok(Spot {
            class: self.class,
            instance: self.instance,
            steps,
        })
    }
}

impl Duplicate for Leaf {
    fn copy(&self) -> Result<Self, Memory> {
        let spot = self.spot.copy()?;
        let body = self.body.copy()?;
        Ok(Leaf {
            kind: self.kind,
            spot,
            body,
        })
    }
}
