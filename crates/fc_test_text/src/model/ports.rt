// A class of ports with its instances, and the built-in classes beside it.
ghost use Rattle.std.specs.Prelude.{◌≡◌, true, IfOk, map};
ghost use Rattle.fc_types.specs.BuiltIn.{built_in_ids};
ghost use Rattle.fc_types.specs.Classes.{class_keeps};
ghost use Rattle.fc_types.specs.Libraries.{KeepRules, class_id};
ghost use Rattle.fc_types.specs.declared.class_rules.ClassRule.{ClassRule};

use crate::libraries::PORT;
use fc_base::{Duplicate, List, Memory, Text};
use fc_library::library_from_slice;
use fc_types::{Class, Identified, Instances, Library, MASTERSHIP, Ty, is_live, target_type};
use std::alloc::Global;
use std::test::Fail;

// Whether these are the IDs, in this order.
fn are_ids<T: Identified>(items: &[T], ids: &[u32]) -> bool {
    items.len() == ids.len() && items.iter().zip(ids).all(|(item, id)| item.id() == *id)
}

fn is_speed(ty: Option<&Ty>) -> bool {
    matches!(ty, Some(Ty::Number { max: 1000, .. }))
}

// Whether this is the class of ports, where a target may be the speed, and nothing in the table or optional.
fn is_port(class: &Class) -> bool {
    let components = class.components.as_slice();
    are_ids(components, &[1, 2, 3, 4, 5, 6])
        && are_ids(class.events.as_slice(), &[1])
        && is_speed(target_type(components, &[1]))
        && target_type(components, &[4, 2]).is_none()
        && target_type(components, &[5]).is_none()
}

// Copies of the library and the instances of a document.
fn copies(alloc: Global, document: &str) -> Result<(Library, Instances), Memory> {
    match library_from_slice(alloc, document.as_bytes()) {
        Ok((library, instances)) => Ok((library.copy()?, instances.copy()?)),
        Err(_) => Err(Memory),
    }
}

#[test]
fn ports_in_order(rt: HostRuntime) -> Result<(), Fail> {
    let (library, instances) = copies(rt.alloc(), PORT)?;
    let pairs = [(0x1001, 1), (0x1001, 2), (0x1001, 3)];
    assert!(rt; instances.pairs() == pairs.as_slice());
    assert!(rt; are_ids(library.classes(), &[0x1001]));
    assert!(rt; library.classes().iter().all(|class| is_port(class)));
    Ok(())
}

#[test]
fn some_components_are_live(rt: HostRuntime) -> Result<(), Fail> {
    for (ident, live) in [(1, true), (6, false), (7, true), (8, false)] {
        assert_eq!(rt; is_live(MASTERSHIP, ident), live);
    }
    Ok(())
}

// A class without components and events.
fn bare(alloc: Global, id: u32) -> Result<Class, Memory>
    ensures named { IfOk result (λ class. class.id ≡ id) }
    ensures kept { IfOk result (λ class. (rule : ClassRule) → class_keeps rule class ≡ true) }
{
    Ok(Class {
        id,
        name: Text::from_str(alloc, "bare")?,
        components: List::new(alloc),
        event_base: 0,
        events: List::new(alloc),
    })
}

// Bare classes with the IDs of the built-in ones.
fn bare_classes(alloc: Global) -> Result<Vec<Class>, Memory>
    ensures named { IfOk result (λ own. map class_id own.items ≡ built_in_ids) }
    ensures kept { IfOk result (λ own. KeepRules own.items) }
{
    let mut own = Vec::new(alloc);
    own.push(bare(alloc, 1)?)?;
    own.push(bare(alloc, 2)?)?;
    own.push(bare(alloc, MASTERSHIP)?)?;
    Ok(own)
}

// The library and the instances of a document, with bare built-in classes.
fn built_on(alloc: Global, document: &str) -> Result<(Library, Instances), Memory> {
    let Ok((library, instances)) = library_from_slice(alloc, document.as_bytes()) else {
        return Err(Memory);
    };
    library.with_built_in(instances, bare_classes(alloc)?)
}

#[test]
fn ports_with_the_built_in_classes(rt: HostRuntime) -> Result<(), Fail> {
    let (library, instances) = built_on(rt.alloc(), PORT)?;
    assert!(rt; are_ids(library.classes(), &[0x1001, 1, 2, MASTERSHIP]));
    let pairs = [
        (1, 1),
        (2, 1),
        (0x1001, 1),
        (0x1001, 2),
        (0x1001, 3),
        (MASTERSHIP, 1),
    ];
    assert!(rt; instances.pairs() == pairs.as_slice());
    Ok(())
}

// A document of as many classes and instances as a library may have.
fn largest(alloc: Global) -> Result<String, Fail> {
    let mut text = String::new(alloc);
    for id in 100..356u32 {
        text.push_str(&format!(in alloc; "[[class]]\nname = 'c'\nid = {id}\n")?)?;
    }
    for id in 0..4_096u32 {
        text.push_str(&format!(in alloc; "[[instance]]\nclass = 100\nid = {id}\n")?)?;
    }
    Ok(text)
}

// Whether these are so many classes and instances, with IDs that rise.
fn are_largest(library: &Library, instances: &Instances, classes: usize, pairs: usize) -> bool {
    library.classes().len() == classes
        && instances.pairs().len() == pairs
        && classes_rise(library.classes())
        && instances_rise(instances.pairs())
}

// Whether the first 256 classes have the IDs from 100 on.
fn classes_rise(classes: &[Class]) -> bool {
    classes
        .iter()
        .zip(100..356u32)
        .all(|(class, id)| class.id == id)
}

// Whether the instances of class 100 have the IDs from 0 on.
fn instances_rise(pairs: &[(u32, u32)]) -> bool {
    pairs
        .iter()
        .filter(|pair| pair.0 == 100)
        .zip(0..4_096u32)
        .all(|(pair, id)| pair.1 == id)
}

#[test]
fn the_largest_library_is_copied(rt: HostRuntime) -> Result<(), Fail> {
    let document = largest(rt.alloc())?;
    let (library, instances) = copies(rt.alloc(), &document)?;
    assert!(rt; are_largest(&library, &instances, 256, 4_096));
    Ok(())
}

#[test]
fn the_largest_library_is_built_on(rt: HostRuntime) -> Result<(), Fail> {
    let document = largest(rt.alloc())?;
    let (library, instances) = built_on(rt.alloc(), &document)?;
    assert!(rt; are_largest(&library, &instances, 259, 4_099));
    Ok(())
}
