// Many instances with an event each.
use crate::words::{ilvs, spot};
use fc_base::Memory;
use fc_events::Subscriptions;
use fc_library::library_from_slice;
use fc_store::Store;
use std::alloc::Global;
use std::test::Fail;

const CLASS: &str =
    "[[class]]\nid = 7\nname = 'c'\nevent_base = 9\ncomponent = [{ id = 1, name = 'n', type = 'u32' }]\nevent = [{ id = 1, name = 'e', when = 'changed', target = [1] }]\n";

const INSTANCES: u32 = 1000;

// The configuration of so many instances of the class.
fn opened(alloc: Global) -> Result<Store, Fail> {
    let mut document = Vec::from_slice(alloc, CLASS.as_bytes())?;
    for id in 1..=INSTANCES {
        let instance = format!(in alloc; "[[instance]]\nclass = 7\nid = {id}\n")?;
        document.extend_from_slice(instance.as_bytes())?;
    }
    let read = library_from_slice(alloc, &document);
    let (library, instances) = read.ok().ok_or("a library")?;
    Ok(Store::new(alloc, &library, &instances)?)
}

// The event of each instance is registered, the last one first.
fn registered(alloc: Global, store: &Store) -> Result<Subscriptions, Fail> {
    let ilvs = ilvs(alloc, "2:00000001")?;
    let mut subscriptions = Subscriptions::new(alloc);
    for id in 1..=INSTANCES {
        let instance = INSTANCES + 1 - id;
        let event = spot(alloc, format!(in alloc; "7/{instance}/9/1")?.as_str())?;
        subscriptions
            .set_prop(store, &event, &ilvs)
            .ok()
            .ok_or("registered")?;
    }
    Ok(subscriptions)
}

fn change_all(alloc: Global, store: &mut Store) -> Result<(), Fail> {
    for id in 1..=INSTANCES {
        let number = spot(alloc, format!(in alloc; "7/{id}/1")?.as_str())?;
        store.put(&number, &[0, 0, 0, 1]).ok().ok_or("changed")?;
    }
    Ok(())
}

// How many events are told, and of which instance the last one of a thousand.
fn told(store: &Store, subscriptions: &mut Subscriptions) -> Result<(usize, Option<u32>), Memory> {
    let notices = subscriptions.reports(store)?;
    let instance = notices.get(999).map(|notice| notice.place.instance);
    Ok((notices.len(), instance))
}

#[test]
fn a_thousand_events_are_told_at_once(rt: HostRuntime) -> Result<(), Fail> {
    let alloc = rt.alloc();
    let mut store = opened(alloc)?;
    let mut subscriptions = registered(alloc, &store)?;
    change_all(alloc, &mut store)?;
    for wanted in [(1000, Some(1000)), (0, None)] {
        assert_eq!(rt; told(&store, &mut subscriptions)?, wanted);
    }
    Ok(())
}
