// The shapes of Configs.
ghost use Rattle.std.specs.Prelude.{◌≡◌, ◌++◌, [], IfOk, OnOk, option_map};
ghost use Rattle.fc_phases.specs.Shapes as spec;
ghost use Rattle.fc_path.specs.declared.path.Body.{out-Body};

use fc_base::{Duplicate, List, Memory};
use fc_path::{Body, Oper, OperKind, PathData, Select};
use fc_types::MASTERSHIP;
use std::alloc::Global;

fn single<T>(items: &[T]) -> Option<&T>
    ensures { option_map (λ x. x.now) result ≡ spec.single items.now }
{
    match items {
        [one] => Some(one),
        _ => None,
    }
}

fn is_mastership(select: &Select) -> bool
    ensures { result ≡ spec.is_mastership select.now }
{
    select.class == MASTERSHIP && select.instance == 1
}

fn is_id(id: u32, ids: &[u32]) -> bool
    ensures { result ≡ spec.is_id id ids.now }
{
    match ids {
        [one] => *one == id,
        _ => false,
    }
}

fn body_full(body: &Body) -> Option<&[u8]>
    ensures { option_map (λ x. x.now) result ≡ spec.full_layer (out-Body body.now) }
{
    match body {
        Body::Nothing => None,
        Body::Full(value) => Some(value.as_slice()),
        Body::Sparse(_) => None,
        Body::Outcome(_) => None,
        Body::Nested(_) => None,
    }
}

fn path_full(id: u32, path: &PathData) -> Option<&[u8]>
    ensures { option_map (λ x. x.now) result ≡ spec.path_full id path.now }
{
    match &path.key {
        Some(_) => None,
        None => {
            if is_id(id, path.ids.as_slice()) {
                body_full(&path.body)
            } else {
                None
            }
        }
    }
}

fn kind_full(kind: OperKind, id: u32, paths: &[PathData]) -> Option<&[u8]>
    ensures { option_map (λ x. x.now) result ≡ spec.kind_full kind id paths.now }
{
    match kind {
        OperKind::Set => match single(paths) {
            Some(path) => path_full(id, path),
            None => None,
        },
        OperKind::SetProp => None,
        OperKind::Del => None,
        OperKind::SetResponse => None,
        OperKind::SetPropResponse => None,
        OperKind::DelResponse => None,
        OperKind::Get => None,
        OperKind::GetProp => None,
        OperKind::GetResponse => None,
        OperKind::GetPropResponse => None,
        OperKind::Report => None,
    }
}

fn set_full(id: u32, oper: &Oper) -> Option<&[u8]>
    ensures { option_map (λ x. x.now) result ≡ spec.set_full id oper.now }
{
    match oper {
        Oper::Paths(kind, paths) => kind_full(*kind, id, paths.as_slice()),
        Oper::Commit => None,
        Oper::Trcomp => None,
        Oper::CommitResponse(_) => None,
    }
}

fn select_only(id: u32, select: &Select) -> Option<&[u8]>
    ensures { option_map (λ x. x.now) result ≡ spec.select_only id select.now }
{
    if !is_mastership(select) {
        return None;
    }
    match single(select.opers.as_slice()) {
        Some(oper) => set_full(id, oper),
        None => None,
    }
}

/// The whole value that a Config with nothing else sets a component of class Mastership to.
pub fn only_full(id: u32, selects: &[Select]) -> Option<&[u8]>
    ensures { option_map (λ x. x.now) result ≡ spec.only_full id selects.now }
{
    match single(selects) {
        Some(select) => select_only(id, select),
        None => None,
    }
}

fn select_first(id: u32, select: &Select) -> Option<&[u8]>
    ensures { option_map (λ x. x.now) result ≡ spec.select_first id select.now }
{
    if !is_mastership(select) {
        return None;
    }
    match select.opers.as_slice() {
        [oper, ..] => set_full(id, oper),
        [] => None,
    }
}

/// The whole value that the first operation of a Config sets a component of class Mastership to.
pub fn first_full(id: u32, selects: &[Select]) -> Option<&[u8]>
    ensures { option_map (λ x. x.now) result ≡ spec.first_full id selects.now }
{
    match selects {
        [select, ..] => select_first(id, select),
        [] => None,
    }
}

/// The operations behind the first one, where there is one select.
pub fn behind(selects: &[Select]) -> Option<&[Oper]>
    ensures { option_map (λ x. x.now) result ≡ spec.behind selects.now }
{
    match selects {
        [select] => Some(opers_behind(select)),
        _ => None,
    }
}

fn opers_behind(select: &Select) -> &[Oper]
    ensures { result.now ≡ spec.opers_behind select.now }
{
    match select.opers.as_slice() {
        [] => &[],
        [_, more @ ..] => more,
    }
}

fn push_copies<T: Duplicate + Drop>(to: &mut List<T>, items: &[T]) -> Result<(), Memory>
    ensures { OnOk result (to.new ≡ to.old ++ items.now) }
{
    for item in items {
        to.push(item.copy()?)?;
    }
    Ok(())
}

// The select without its first operation, where another is left.
fn push_behind(rest: &mut List<Select>, select: &Select) -> Result<(), Memory>
    ensures { OnOk result (rest.new ≡ rest.old ++ spec.with_opers select.now (spec.opers_behind select.now) []) }
{
    let behind = opers_behind(select);
    if behind.is_empty() {
        return Ok(());
    }
    let mut opers = List::new(rest.alloc());
    push_copies(&mut opers, behind)?;
    rest.push(Select {
        class: select.class,
        instance: select.instance,
        opers,
    })
}

/// All operations but the first; its select drops out where it has no other.
pub fn rest_of(alloc: Global, selects: &[Select]) -> Result<List<Select>, Memory>
    ensures { IfOk result (λ rest. rest ≡ spec.rest_of selects.now) }
{
    let mut rest = List::new(alloc);
    match selects {
        [] => Ok(rest),
        [first, more @ ..] => {
            push_behind(&mut rest, first)?;
            push_copies(&mut rest, more)?;
            Ok(rest)
        }
    }
}
