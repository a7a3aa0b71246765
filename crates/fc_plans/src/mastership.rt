// What a control element writes at the class Mastership.
ghost use Rattle.std.specs.Prelude.{◌≡◌, [], ◌∷◌, ◌++◌, IfOk, OnOk};
ghost use Rattle.fc_wire.specs.Bytes.{u32_bytes};
ghost use Rattle.fc_plans.specs.Components as components;
ghost use Rattle.fc_plans.specs.Mastership as spec;

use crate::components::SUBJECT;
use fc_base::{Duplicate, List, Memory, Octets, Shared, TxnId};
use fc_path::{Body, Key, Oper, OperKind, PathData, Select};
use fc_types::MASTERSHIP;
use std::alloc::Global;

/// Appends a number of four bytes.
pub fn put_number(bytes: &mut Vec<u8>, number: u32) -> Result<(), Memory>
    ensures { OnOk result (bytes.new.items ≡ bytes.old.items ++ u32_bytes number) }
{
    bytes.extend_from_slice(&number.to_be_bytes())?;
    Ok(())
}

/// Appends the name of a transaction: its epoch and its number.
pub fn put_subject(bytes: &mut Vec<u8>, txn: TxnId) -> Result<(), Memory>
    ensures { OnOk result (bytes.new.items ≡ bytes.old.items ++ spec.subject_bytes txn) }
{
    put_number(bytes, txn.epoch.get())?;
    put_number(bytes, txn.number)
}

/// The name of a transaction, as eight bytes.
pub fn subject(alloc: Global, txn: TxnId) -> Result<Octets, Memory>
    ensures { IfOk result (λ o. o ≡ spec.subject_bytes txn) }
{
    let mut bytes = Vec::new(alloc);
    put_subject(&mut bytes, txn)?;
    Ok(Octets::from_vec(bytes))
}

/// A list of one item.
pub fn one<T: Drop>(alloc: Global, item: T) -> Result<List<T>, Memory>
    ensures { IfOk result (λ items. items ≡ item ∷ []) }
{
    let mut items = List::new(alloc);
    items.push(item)?;
    Ok(items)
}

/// The PATH-DATA of one component.
pub fn path(alloc: Global, id: u32, key: Option<Key>, body: Body) -> Result<PathData, Memory>
    ensures { IfOk result (λ p. p ≡ spec.path (id ∷ []) key body) }
{
    let ids = one(alloc, id)?;
    Ok(PathData { ids, key, body })
}

/// A SET of one component.
pub fn set(alloc: Global, id: u32, bytes: Octets) -> Result<Oper, Memory>
    ensures { IfOk result (λ o. o ≡ spec.sets id bytes) }
{
    let paths = one(alloc, path(alloc, id, None, Body::Full(bytes))?)?;
    Ok(Oper::Paths(OperKind::Set, Shared::of(paths)?))
}

/// Operations on the one instance of Mastership.
pub fn on_mastership(opers: List<Oper>) -> Select
    ensures { result ≡ spec.on_mastership opers }
{
    Select {
        class: MASTERSHIP,
        instance: 1,
        opers,
    }
}

/// The one select of Mastership with one SET.
pub fn set_selects(alloc: Global, id: u32, bytes: Octets) -> Result<List<Select>, Memory>
    ensures { IfOk result (λ ss. ss ≡ spec.on_mastership (spec.sets id bytes ∷ []) ∷ []) }
{
    let opers = one(alloc, set(alloc, id, bytes)?)?;
    one(alloc, on_mastership(opers))
}

/// Appends copies of selects.
pub fn push_selects(selects: &mut List<Select>, more: &[Select]) -> Result<(), Memory>
    ensures { OnOk result (selects.new ≡ selects.old ++ more.now) }
{
    for select in more {
        selects.push(select.copy()?)?;
    }
    Ok(())
}

// Copies of selects, behind the one that names by these bytes the transaction of which they are.
pub(crate) fn behind(alloc: Global, name: Octets, more: &[Select]) -> Result<List<Select>, Memory>
    ensures { IfOk result (λ ss. ss ≡ spec.behind name more.now) }
{
    let mut selects = set_selects(alloc, SUBJECT, name)?;
    push_selects(&mut selects, more)?;
    Ok(selects)
}

/// Copies of selects, behind the one that names the transaction of which they are.
pub fn with_subject(alloc: Global, txn: TxnId, more: &[Select]) -> Result<List<Select>, Memory>
    ensures { IfOk result (λ ss. ss ≡ spec.of_transaction txn more.now) }
{
    behind(alloc, subject(alloc, txn)?, more)
}
