// What is a change, and what is a plan.
use crate::said::change;
use fc_base::{FeId, List};
use fc_master::{Change, ChangeFault, PlanFault, TxnPlan};
use fc_path::OperKind;
use std::alloc::Global;
use std::test::Fail;

// Why selects of one operation of this kind, with a value of so many bytes, are no change.
fn unchanged(alloc: Global, kind: OperKind, count: usize) -> Result<Option<ChangeFault>, Fail> {
    match Change::of(change(alloc, 1, kind, count)?) {
        Ok(_) => Ok(None),
        Err(fault) => Ok(Some(fault)),
    }
}

#[test]
fn selects_are_changes_or_are_refused(rt: HostRuntime) -> Result<(), Fail> {
    let alloc = rt.alloc();
    assert_eq!(rt; unchanged(alloc, OperKind::Set, 4)?, None);
    assert_eq!(rt; unchanged(alloc, OperKind::Del, 4)?, None);
    assert_eq!(rt; unchanged(alloc, OperKind::SetProp, 4)?, None);
    assert_eq!(rt;
        unchanged(alloc, OperKind::Get, 4)?,
        Some(ChangeFault::Operation)
    );
    assert_eq!(rt;
        unchanged(alloc, OperKind::Get, 70_000)?,
        Some(ChangeFault::Operation)
    );
    assert_eq!(rt;
        unchanged(alloc, OperKind::Set, 70_000)?,
        Some(ChangeFault::TooLong)
    );
    assert!(rt; matches!(Change::of(List::new(alloc)), Err(ChangeFault::Empty)));
    Ok(())
}

// So many changes, each of another instance of Port.
fn changes(alloc: Global, count: u32) -> Result<List<Change>, Fail> {
    let mut changes = List::new(alloc);
    for instance in 0..count {
        let selects = change(alloc, instance, OperKind::Set, 4)?;
        changes.push(Change::of(selects).ok().ok_or("a change")?)?;
    }
    Ok(changes)
}

// Two participants, the second with so many changes.
fn parts(alloc: Global, ids: (u32, u32), count: u32) -> Result<List<(FeId, List<Change>)>, Fail> {
    let mut parts = List::new(alloc);
    parts.push((FeId::of(ids.0).ok_or("an element")?, changes(alloc, 1)?))?;
    parts.push((FeId::of(ids.1).ok_or("an element")?, changes(alloc, count)?))?;
    Ok(parts)
}

// Why there is no plan of them, without scopes or with scopes.
fn unplanned(
    alloc: Global,
    ids: (u32, u32),
    count: u32,
    has_scopes: bool,
) -> Result<Option<PlanFault>, Fail> {
    let parts = parts(alloc, ids, count)?;
    let plan = if has_scopes {
        TxnPlan::scoped(parts)
    } else {
        TxnPlan::of(parts)
    };
    match plan {
        Ok(_) => Ok(None),
        Err(fault) => Ok(Some(fault)),
    }
}

#[test]
fn participants_are_a_plan_or_are_refused(rt: HostRuntime) -> Result<(), Fail> {
    let alloc = rt.alloc();
    for has_scopes in [false, true] {
        assert_eq!(rt; unplanned(alloc, (1, 2), 256, has_scopes)?, None);
        assert_eq!(rt;
            unplanned(alloc, (1, 2), 257, has_scopes)?,
            Some(PlanFault::Changes)
        );
        assert_eq!(rt;
            unplanned(alloc, (1, 2), 0, has_scopes)?,
            Some(PlanFault::Changes)
        );
        assert_eq!(rt;
            unplanned(alloc, (2, 2), 0, has_scopes)?,
            Some(PlanFault::Order)
        );
        assert_eq!(rt;
            unplanned(alloc, (2, 1), 1, has_scopes)?,
            Some(PlanFault::Order)
        );
    }
    assert!(rt; matches!(TxnPlan::of(List::new(alloc)), Err(PlanFault::Empty)));
    assert!(rt; matches!(TxnPlan::scoped(List::new(alloc)), Err(PlanFault::Empty)));
    Ok(())
}
