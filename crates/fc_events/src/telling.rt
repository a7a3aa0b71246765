// How what happened is told.
ghost use Rattle.std.specs.Prelude.{◌≡◌, IfOk};
ghost use Rattle.fc_events.specs.Telling as spec;

use crate::{EventPlace, Notice, Subscriptions};
use fc_base::{Duplicate, List, Memory, Octets, Shared};
use fc_path::{Body, Oper, OperKind, PathData, Select};
use fc_types::{Class, FE_PROTOCOL, Library, with_id};
use std::alloc::Global;

/// The event of class 2 that the association of the primary control element has ended.
const PRIMARY_DOWN: EventPlace = EventPlace {
    class: FE_PROTOCOL,
    instance: 1,
    event: 1,
};

// The ID under which the events of a class stand.
fn event_base(classes: &[Class], class: u32) -> u32
    ensures { result ≡ spec.event_base classes.now class }
{
    match with_id(classes, class) {
        None => 0,
        Some(class) => class.event_base,
    }
}

fn report(alloc: Global, base: u32, event: u32, value: &Octets) -> Result<PathData, Memory>
    ensures { IfOk result (λ path. path ≡ spec.report base event value.now) }
{
    let ids = List::from_slice(alloc, &[base, event])?;
    let value = value.copy()?;
    Ok(PathData {
        ids,
        key: None,
        body: Body::Full(value),
    })
}

fn reporting(alloc: Global, class: u32, instance: u32, path: PathData) -> Result<Select, Memory>
    ensures { IfOk result (λ select. select ≡ spec.reporting class instance path) }
{
    let mut paths = List::new(alloc);
    paths.push(path)?;
    let mut opers = List::new(alloc);
    opers.push(Oper::Paths(OperKind::Report, Shared::of(paths)?))?;
    Ok(Select {
        class,
        instance,
        opers,
    })
}

impl Notice {
    /// The LFBselect that tells it: a REPORT, behind the base of the events of its class, with its value as FULLDATA.
    pub fn select(&self, alloc: Global, library: &Library) -> Result<Select, Memory>
        ensures { IfOk result (λ select. select ≡ spec.notice_select library.now self.now) }
    {
        let base = event_base(library.classes(), self.place.class);
        let path = report(alloc, base, self.place.event, &self.value)?;
        reporting(alloc, self.place.class, self.place.instance, path)
    }
}

impl Subscriptions {
    /// What a control element that remains is told once the association of the primary one has ended: its own ID, where the event of that
    /// is registered.
    pub fn primary_down(&self, ce: u32) -> Result<Option<Notice>, Memory>
        ensures { IfOk result (λ notice. notice ≡ spec.primary_down ce self.now) }
    {
        let place = PRIMARY_DOWN;
        if !self.is_registered(place.class, place.instance, place.event) {
            return Ok(None);
        }
        let value = Octets::from_slice(self.alloc(), &ce.to_be_bytes())?;
        Ok(Some(Notice { place, value }))
    }
}
