// Evaluating a registered event.
ghost use Rattle.std.specs.Prelude.{◌≡◌, ◌++◌, map, IfOk, OnOk};
ghost use Rattle.fc_events.specs.Events.{sight as sighted};
ghost use Rattle.fc_events.specs.Reports as spec;

use crate::targets::{Sight, sight_of};
use crate::{EventPlace, Notice, Subscription};
use fc_base::{Duplicate, Memory, Octets};
use fc_store::Store;
use fc_watch::{Told, Watch};
use std::alloc::Global;

// The value of a notice.
fn told_bytes(alloc: Global, sight: &Sight<'_>, told: Told) -> Result<Octets, Memory>
    ensures { IfOk result (λ bytes. bytes ≡ spec.told_bytes (sighted sight.now.when sight.now.ty.now sight.now.node) told) }
{
    match told {
        Told::Target => sight.full_form(alloc),
        Told::Entry(subscript) => Octets::from_slice(alloc, &subscript.to_be_bytes()),
    }
}

// Appends a notice of each thing that is told.
fn push_notices(
    notices: &mut Vec<Notice>,
    place: EventPlace,
    sight: &Sight<'_>,
    told: &[Told],
) -> Result<(), Memory>
    ensures { OnOk result (notices.new.items ≡ notices.old.items ++ map (spec.notice place (sighted sight.now.when sight.now.ty.now sight.now.node)) told.now) }
{
    for one in told {
        let value = told_bytes(*notices.allocator(), sight, *one)?;
        notices.push(Notice { place, value })?;
    }
    Ok(())
}

// The subscription after its event was evaluated at its target; what is told is appended to the notices.
fn evaluate_at(
    notices: &mut Vec<Notice>,
    subscription: &Subscription,
    watch: &Watch,
    sight: &Sight<'_>,
) -> Result<Subscription, Memory>
    ensures { IfOk result (λ other. spec.Reported notices.old.items notices.new.items other (spec.reported_at subscription.now watch.now (sighted sight.now.when sight.now.ty.now sight.now.node))) }
{
    let alloc = *notices.allocator();
    let condition = subscription
        .settings
        .condition(sight.when, sight.is_signed());
    let (watch, told) = watch.evaluate(alloc, condition, sight.seen(alloc)?)?;
    push_notices(notices, subscription.place, sight, told.as_slice())?;
    Ok(Subscription {
        place: subscription.place,
        settings: subscription.settings,
        watch: Some(watch),
    })
}

// The subscription after its event was evaluated; what is told is appended to the notices.
pub fn evaluate(
    notices: &mut Vec<Notice>,
    store: &Store,
    subscription: &Subscription,
) -> Result<Subscription, Memory>
    ensures { IfOk result (λ other. spec.Reported notices.old.items notices.new.items other (spec.evaluated_in store.now subscription.now)) }
{
    match &subscription.watch {
        None => subscription.copy(),
        Some(watch) => match sight_of(*notices.allocator(), store, subscription.place)? {
            None => subscription.copy(),
            Some(sight) => evaluate_at(notices, subscription, watch, &sight),
        },
    }
}
