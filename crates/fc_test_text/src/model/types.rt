// Types that no document says, or a very long one, and what the check of a library says of each.
use crate::model::kinds::{array, key, number, two};
use fc_base::{List, Memory, Text};
use fc_types::{CheckFault, Class, Component, Library, Ty};
use std::alloc::Global;
use std::test::Fail;

fn component(alloc: Global, ty: Ty) -> Result<Component, Memory> {
    Ok(Component {
        id: 1,
        name: Text::from_str(alloc, "component")?,
        ty,
        access: 3,
        optional: false,
    })
}

// One class with a component of a type.
fn classes(alloc: Global, ty: Ty) -> Result<Vec<Class>, Memory> {
    let mut components = List::new(alloc);
    components.push(component(alloc, ty)?)?;
    let mut classes = Vec::new(alloc);
    classes.push(Class {
        id: 7,
        name: Text::from_str(alloc, "class")?,
        components,
        event_base: 0,
        events: List::new(alloc),
    })?;
    Ok(classes)
}

fn fault_of(alloc: Global, ty: Ty) -> Result<Option<CheckFault>, Memory> {
    let classes = classes(alloc, ty)?;
    Ok(Library::check(classes, Vec::new(alloc)).err())
}

// An array with so many keys of these fields, whose IDs fall to 1, and then one with the last ID.
fn with_keys(alloc: Global, count: u32, last: u32, fields: &[u32]) -> Result<Ty, Memory> {
    let mut keys = List::new(alloc);
    for id in 0..count {
        keys.push(key(alloc, count - id, fields)?)?;
    }
    keys.push(key(alloc, last, fields)?)?;
    let fields = two(alloc, Ty::Bool, Ty::String { length: 40 })?;
    array(alloc, 4, Ty::Struct { fields }, keys)
}

// So many IDs, from 0 on.
fn ids(alloc: Global, count: u32) -> Result<Vec<u32>, Memory> {
    let mut ids = Vec::new(alloc);
    for id in 0..count {
        ids.push(id)?;
    }
    Ok(ids)
}

#[test]
fn a_number_has_one_two_four_or_eight_bytes(rt: HostRuntime) -> Result<(), Fail> {
    let fault = fault_of(rt.alloc(), number(3, false, 0, 1))?;
    assert_eq!(rt; fault, Some(CheckFault::BadRange));
    Ok(())
}

#[test]
fn arrays_of_many_keys(rt: HostRuntime) -> Result<(), Fail> {
    let alloc = rt.alloc();
    let fault = fault_of(alloc, with_keys(alloc, 300_000, 0xFFFF_FFFF, &[1])?)?;
    assert_eq!(rt; fault, None);
    let fault = fault_of(alloc, with_keys(alloc, 300_000, 150_000, &[1])?)?;
    assert_eq!(rt; fault, Some(CheckFault::DuplicateId));
    Ok(())
}

#[test]
fn keys_of_many_fields(rt: HostRuntime) -> Result<(), Fail> {
    let alloc = rt.alloc();
    let fault = fault_of(alloc, with_keys(alloc, 0, 1, &ids(alloc, 300_000)?)?)?;
    assert_eq!(rt; fault, Some(CheckFault::KeyNotAtomic));
    Ok(())
}
