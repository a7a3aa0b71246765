// Evaluating what is registered.
ghost use Rattle.std.specs.Prelude.{◌≡◌, IfOk, OnErr};
ghost use Rattle.std.specs.List.{list_any};
ghost use Rattle.fc_types.specs.Libraries.{same_instance};
ghost use Rattle.fc_events.specs.Reports as spec;

use crate::evaluate::evaluate;
use crate::{EventPlace, Notice, Subscription, Subscriptions};
use fc_base::{Duplicate, List, Memory};
use fc_store::Store;
use std::alloc::Global;

// Whether an event stands at one of the instances.
fn is_held(held: &[(u32, u32)], place: EventPlace) -> bool
    ensures { result ≡ spec.is_held held.now place }
{
    held.iter()
        .any(|pair| place.class == pair.0 && place.instance == pair.1)
}

// The subscription after its event was evaluated, unless it stands at one of the instances.
fn evaluate_but(
    notices: &mut Vec<Notice>,
    held: &[(u32, u32)],
    store: &Store,
    subscription: &Subscription,
) -> Result<Subscription, Memory>
    ensures { IfOk result (λ other. spec.Reported notices.old.items notices.new.items other (spec.evaluated_but held.now store.now subscription.now)) }
{
    if is_held(held, subscription.place) {
        return subscription.copy();
    }
    evaluate(notices, store, subscription)
}

// What is registered after each event outside the instances was evaluated, and what is told.
fn evaluate_each(
    alloc: Global,
    held: &[(u32, u32)],
    store: &Store,
    subscriptions: &[Subscription],
) -> Result<(Vec<Subscription>, Vec<Notice>), Memory>
    ensures { IfOk result (λ r. (r.0.items, r.1.items) ≡ spec.reports_but held.now store.now subscriptions.now) }
{
    let mut others = Vec::new(alloc);
    let mut notices = Vec::new(alloc);
    for subscription in subscriptions {
        let other = evaluate_but(&mut notices, held, store, subscription)?;
        others.push(other)?;
    }
    Ok((others, notices))
}

impl Subscriptions {
    /// Evaluates each registered event at the configuration, and gives the notices of those that happened, by rising class, instance and
    /// ID. After an `Err` nothing has changed.
    pub fn reports(&mut self, store: &Store) -> Result<List<Notice>, Memory>
        ensures exact { IfOk result (λ notices. (self.new, notices) ≡ spec.reports store.now self.old) }
        ensures err { OnErr result (self.new ≡ self.old) }
    {
        self.reports_but(store, &[])
    }

    /// The same, but for the events at these instances, each its class and its ID: those stay as they are and are not told.
    pub fn reports_but(
        &mut self,
        store: &Store,
        held: &[(u32, u32)],
    ) -> Result<List<Notice>, Memory>
        ensures exact { IfOk result (λ notices. (self.new, notices) ≡ spec.reports_but held.now store.now self.old) }
        ensures err { OnErr result (self.new ≡ self.old) }
    {
        let (others, notices) = evaluate_each(self.alloc(), held, store, self.as_slice())?;
        self.become_others(others);
        Ok(List::from_vec(notices))
    }
}
