// Changes of one element.
ghost use Rattle.std.specs.Prelude.{◌≡◌, ◌≢◌, None, Some, IfOk, IfErr, OnOk, replicate};
ghost use Rattle.std.specs.List.{list_all};
ghost use Rattle.fc_path.specs.declared.path.Body.{out-Body};
ghost use Rattle.fc_plans.specs.Changes as spec;
ghost use Rattle.fc_plans.specs.Changes.{change_fault};
ghost use Rattle.fc_plans.specs.Mastership.{behind};
ghost use Rattle.fc_plans.specs.declared.fault.ChangeFault.TheVariants as fault;

use crate::components::{FLOOR, SUBJECT};
use crate::fault::ChangeFault;
use crate::mastership::set_selects;
use fc_base::{Duplicate, List, Memory, Octets};
use fc_msg::selects_fit;
use fc_path::{Body, Oper, OperKind, PathData, Select, fits_results};
use fc_types::MASTERSHIP;
use std::alloc::Global;
use std::marker::Model;

/// Changes of an element that are made together, as one Config: selects whose operations are SET, DEL and SET-PROP (RFC 5810,
/// section 7.6.1), which contracts see as their list.
#[derive(Debug, Drop)]
pub struct Change {
    selects: List<Select>,
}

impl Model for Change {
    ghost use Rattle.std.specs.Prelude.{List, None, ◌≡◌};
    ghost use Rattle.std.specs.Coded.{codes};
    ghost use Rattle.fc_path.specs.declared.oper.Select.{Select};
    ghost use Rattle.fc_path.specs.contracts.oper.Select as contracts;
    ghost use Rattle.fc_plans.specs.Changes.{change_fault};

    ghost Value = { List Select };

    ghost coded = { Prim.hlevel (codes, contracts.the_row.coded) };

    ghost view = { λ s. s.selects };

    ghost invariant = { λ s. change_fault s.selects ≡ None };
}

fn is_changing(kind: OperKind) -> bool
    ensures { result ≡ spec.is_changing kind }
{
    match kind {
        OperKind::Set | OperKind::SetProp | OperKind::Del => true,
        OperKind::SetResponse
        | OperKind::SetPropResponse
        | OperKind::DelResponse
        | OperKind::Get
        | OperKind::GetProp
        | OperKind::GetResponse
        | OperKind::GetPropResponse
        | OperKind::Report => false,
    }
}

fn changes(oper: &Oper) -> bool
    ensures { result ≡ spec.changes oper.now }
{
    match oper {
        Oper::Paths(kind, _) => is_changing(*kind),
        Oper::Commit => false,
        Oper::Trcomp => false,
        Oper::CommitResponse(_) => false,
    }
}

fn opers_change(opers: &[Oper]) -> bool
    ensures { result ≡ list_all spec.changes opers.now }
{
    for oper in opers {
        if !changes(oper) {
            return false;
        }
    }
    true
}

fn all_change(selects: &[Select]) -> bool
    ensures { result ≡ spec.all_change selects.now }
{
    for select in selects {
        if !opers_change(select.opers.as_slice()) {
            return false;
        }
    }
    true
}

fn is_floor_path(path: &PathData) -> bool
    ensures { result ≡ spec.is_floor_path path.now }
{
    is_floor_id(path.ids.as_slice()) && path.key.is_none() && has_eight(&path.body)
}

fn is_floor_id(ids: &[u32]) -> bool
    ensures { result ≡ spec.is_floor_id ids.now }
{
    match ids {
        [id] => *id == FLOOR,
        _ => false,
    }
}

fn has_eight(body: &Body) -> bool
    ensures { result ≡ spec.has_eight (out-Body body.now) }
{
    match body {
        Body::Full(value) => value.len() == 8,
        Body::Nothing => false,
        Body::Sparse(_) => false,
        Body::Outcome(_) => false,
        Body::Nested(_) => false,
    }
}

fn is_floor_paths(paths: &[PathData]) -> bool
    ensures { result ≡ spec.is_floor_paths paths.now }
{
    match paths {
        [path] => is_floor_path(path),
        _ => false,
    }
}

fn is_set(kind: OperKind) -> bool
    ensures { result ≡ spec.is_set kind }
{
    match kind {
        OperKind::Set => true,
        OperKind::SetProp
        | OperKind::Del
        | OperKind::SetResponse
        | OperKind::SetPropResponse
        | OperKind::DelResponse
        | OperKind::Get
        | OperKind::GetProp
        | OperKind::GetResponse
        | OperKind::GetPropResponse
        | OperKind::Report => false,
    }
}

fn is_floor_oper(oper: &Oper) -> bool
    ensures { result ≡ spec.is_floor_oper oper.now }
{
    match oper {
        Oper::Paths(kind, paths) => is_set(*kind) && is_floor_paths(paths.as_slice()),
        Oper::Commit => false,
        Oper::Trcomp => false,
        Oper::CommitResponse(_) => false,
    }
}

fn is_floor_opers(opers: &[Oper]) -> bool
    ensures { result ≡ spec.is_floor_opers opers.now }
{
    match opers {
        [oper] => is_floor_oper(oper),
        _ => false,
    }
}

// Whether these selects tell an element to forget.
fn is_floor(selects: &[Select]) -> bool
    ensures { result ≡ spec.is_floor selects.now }
{
    match selects {
        [select] => {
            select.class == MASTERSHIP
                && select.instance == 1
                && is_floor_opers(select.opers.as_slice())
        }
        _ => false,
    }
}

// Whether a message of these selects and the response of results alone to it pass no length field.
#[tactic(auto, unfolding(fc_msg::specs::Messages::message_fits))]
fn is_short(selects: &[Select]) -> bool
    ensures { result ≡ spec.is_short selects.now }
{
    fits_results(selects) && selects_fit(selects)
}

// The name of no transaction.
fn no_name(alloc: Global) -> Result<Octets, Memory>
    ensures { IfOk result (λ name. name ≡ spec.no_name) }
{
    let mut bytes = Vec::new(alloc);
    bytes.extend_from_slice(&[0, 0, 0, 0, 0, 0, 0, 0])?;
    Ok(Octets::from_vec(bytes))
}

// The selects behind one that names no transaction.
fn unnamed(selects: List<Select>) -> Result<Vec<Select>, Memory>
    ensures { IfOk result (λ all. all.items ≡ behind spec.no_name selects) }
{
    let alloc = selects.alloc();
    let mut all = set_selects(alloc, SUBJECT, no_name(alloc)?)?.into_vec();
    let mut selects = selects.into_vec();
    all.append(&mut selects)?;
    Ok(all)
}

impl Change {
    /// The change of these selects, in the order in which they are done. The faults are looked for in the order of [`ChangeFault`].
    pub fn of(selects: List<Select>) -> Result<Change, ChangeFault>
        ensures refused { IfErr result (λ e. e ≢ fault.Memory → change_fault selects ≡ Some e) }
        ensures accepted { OnOk result (change_fault selects ≡ None) }
        ensures same { IfOk result (λ change. change ≡ selects) }
    {
        if selects.is_empty() {
            return Err(ChangeFault::Empty);
        }
        if !all_change(selects.as_slice()) || is_floor(selects.as_slice()) {
            return Err(ChangeFault::Operation);
        }
        let mut all = unnamed(selects)?;
        if !is_short(all.as_slice()) {
            return Err(ChangeFault::TooLong);
        }
        all.remove(0);
        Ok(Change {
            selects: List::from_vec(all),
        })
    }

    /// The selects, in the order in which they are done.
    pub fn selects(&self) -> &[Select]
        ensures same { result.now ≡ self.now }
        ensures allowed { change_fault self.now ≡ None }
    {
        self.selects.as_slice()
    }
}

impl Duplicate for Change {
    fn copy(&self) -> Result<Self, Memory> {
        let selects = self.selects.copy()?;
        Ok(Change { selects })
    }
}
