// What is registered for events.
ghost use Rattle.std.specs.Prelude.{◌≡◌, [], length, IfOk, OnOk, OnErr};
ghost use Rattle.std.specs.List.Sorted.{IsSearchInRange};
ghost use Rattle.fc_events.specs.Subscribing as spec;

use fc_base::{Duplicate, List, Memory, Octets};
use fc_watch::{Settings, Watch};
use std::alloc::Global;
use std::cmp::Ordering;
use std::marker::Model;
use std::mem;

/// Where an event stands: the class and the instance of its LFB, and its ID. Events go in this order.
#[derive(Clone, Copy, Debug, PartialEq, Eq)]
pub struct EventPlace {
    pub class: u32,
    pub instance: u32,
    pub event: u32,
}

/// A registered event, with its properties and what is remembered of its target, where that has a value in the configuration.
#[derive(Debug, Drop, PartialEq, Eq)]
pub struct Subscription {
    pub place: EventPlace,
    pub settings: Settings,
    pub watch: Option<Watch>,
}

/// What is told of an event that happened: its place, and the full form of its target, or the four bytes of the subscript of an entry
/// that came or went.
#[derive(Debug, Drop, PartialEq, Eq)]
pub struct Notice {
    pub place: EventPlace,
    pub value: Octets,
}

/// The registered events of an element. Contracts see them as a list, by rising class, instance and ID.
#[derive(Debug, Drop)]
pub struct Subscriptions {
    entries: Vec<Subscription>,
}

impl Model for Subscriptions {
    ghost use Rattle.std.specs.Prelude.{List};
    ghost use Rattle.fc_events.specs.declared.subscriptions.Subscription.{Subscription as Subscribed};
    ghost use Rattle.fc_events.specs.contracts.subscriptions.Subscription as contracts;
    ghost use Rattle.std.specs.Coded.{coded_list};

    ghost Value = { List Subscribed };

    ghost coded = { coded_list contracts.the_row.coded };

    ghost view = { λ s. s.entries.items };
}

fn copy_watch(watch: &Option<Watch>) -> Result<Option<Watch>, Memory>
    ensures { IfOk result (λ other. other ≡ watch.now) }
{
    match watch {
        Some(watch) => Ok(Some(watch.copy()?)),
        None => Ok(None),
    }
}

impl Duplicate for Subscription {
    fn copy(&self) -> Result<Self, Memory> {
        let watch = copy_watch(&self.watch)?;
        Ok(Subscription {
            place: self.place,
            settings: self.settings,
            watch,
        })
    }
}

impl EventPlace {
    fn compare(self, other: EventPlace) -> Ordering
        ensures { result ≡ spec.place_cmp self other }
    {
        self.class.cmp(&other.class).then(
            self.instance
                .cmp(&other.instance)
                .then(self.event.cmp(&other.event)),
        )
    }

    // Whether a subscription is that of this event.
    fn is_of(self, subscription: &Subscription) -> bool
        ensures { result ≡ spec.is_at self subscription.now }
    {
        subscription.place.class == self.class
            && subscription.place.instance == self.instance
            && subscription.place.event == self.event
    }
}

// The properties of an event, by its subscription if it has one.
fn settings_among(subscriptions: &[Subscription], place: EventPlace) -> Settings
    ensures { result ≡ spec.settings_at place subscriptions.now }
{
    for subscription in subscriptions {
        if place.is_of(subscription) {
            return subscription.settings;
        }
    }
    Settings::opening()
}

// The place of the subscription of an event, or else where it belongs.
fn seat(subscriptions: &[Subscription], place: EventPlace) -> Result<usize, usize>
    ensures seat { result ≡ spec.seat place subscriptions.now }
    ensures range { IsSearchInRange result (length subscriptions.now) }
{
    for (at, subscription) in subscriptions.iter().enumerate() {
        match place.compare(subscription.place) {
            Ordering::Less => return Err(at),
            Ordering::Equal => return Ok(at),
            Ordering::Greater => {}
        }
    }
    Err(subscriptions.len())
}

// Puts a subscription in its place, where another one of its event gives way. After an `Err` nothing has changed.
fn put_at(subscriptions: &mut Vec<Subscription>, subscription: Subscription) -> Result<(), Memory>
    ensures ok { OnOk result (subscriptions.new.items ≡ spec.entered subscription subscriptions.old.items) }
    ensures err { OnErr result (subscriptions.new.items ≡ subscriptions.old.items) }
{
    match seat(subscriptions, subscription.place) {
        Ok(at) => {
            drop(mem::replace(&mut subscriptions[at], subscription));
            Ok(())
        }
        Err(at) => {
            subscriptions.insert(at, subscription)?;
            Ok(())
        }
    }
}

// Takes the subscription of an event out.
fn take_out(subscriptions: &mut Vec<Subscription>, place: EventPlace)
    ensures { subscriptions.new.items ≡ spec.without_event place subscriptions.old.items }
{
    subscriptions.retain(|subscription| !place.is_of(subscription));
}

// Copies of subscriptions, in their order.
fn copies(alloc: Global, subscriptions: &[Subscription]) -> Result<Vec<Subscription>, Memory>
    ensures { IfOk result (λ others. others.items ≡ subscriptions.now) }
{
    let mut others = Vec::new(alloc);
    for subscription in subscriptions {
        others.push(subscription.copy()?)?;
    }
    Ok(others)
}

impl Subscriptions {
    /// No event is registered, which takes no memory.
    pub fn new(alloc: Global) -> Subscriptions
        ensures { result ≡ [] }
    {
        Subscriptions {
            entries: Vec::new(alloc),
        }
    }

    /// The registered events.
    pub fn as_slice(&self) -> &[Subscription]
        ensures { result.now ≡ self.now }
    {
        self.entries.as_slice()
    }

    /// Whether an event is registered.
    pub fn is_registered(&self, class: u32, instance: u32, event: u32) -> bool
        ensures { result ≡ spec.is_registered class instance event self.now }
    {
        let place = EventPlace {
            class,
            instance,
            event,
        };
        self.entries.iter().any(|entry| place.is_of(entry))
    }

    // The properties of an event.
    pub(crate) fn settings_at(&self, place: EventPlace) -> Settings
        ensures { result ≡ spec.settings_at place self.now }
    {
        settings_among(&self.entries, place)
    }

    // Enters a subscription in its place, where another one of its event gives way. After an `Err` nothing has changed.
    pub(crate) fn enter(&mut self, subscription: Subscription) -> Result<(), Memory>
        ensures ok { OnOk result (self.new ≡ spec.entered subscription self.old) }
        ensures err { OnErr result (self.new ≡ self.old) }
    {
        put_at(&mut self.entries, subscription)
    }

    // Takes the subscription of an event out.
    pub(crate) fn leave(&mut self, place: EventPlace)
        ensures { self.new ≡ spec.without_event place self.old }
    {
        take_out(&mut self.entries, place);
    }

    // Puts others in the place of all.
    pub(crate) fn become_others(&mut self, others: Vec<Subscription>)
        ensures { self.new ≡ others.items }
    {
        self.entries = others;
    }

    pub(crate) fn alloc(&self) -> Global {
        *self.entries.allocator()
    }
}

impl Duplicate for Subscriptions {
    fn copy(&self) -> Result<Self, Memory> {
        let entries = copies(*self.entries.allocator(), &self.entries)?;
        Ok(Subscriptions { entries })
    }
}
