// Who is told that the primary control element is gone.
ghost use Rattle.std.specs.Prelude.{◌≡◌, ◌++◌, IfOk, OnOk};
ghost use Rattle.std.specs.List.{AllByRecursion, flat_map};
ghost use Rattle.fc_performing.specs.Sending.{IsSaid};
ghost use Rattle.fc_element.specs.Notices as spec;

use fc_assoc::Associations;
use fc_base::{FeId, List, Memory};
use fc_events::Subscriptions;
use fc_performing::{Out, Route, push_notices};
use fc_types::Library;
use std::alloc::Global;

// Each control element that has an association, with its peer, by rising ID.
fn peers_of(alloc: Global, associations: &Associations) -> Result<Vec<(u32, u32)>, Memory>
    ensures { IfOk result (λ peers. peers.items ≡ spec.peers_of associations.now) }
{
    let mut peers = Vec::new(alloc);
    for place in 0..associations.len() {
        match associations.entry(place) {
            Some(seen) => peers.push((seen.0.get(), seen.1))?,
            None => return Ok(peers),
        }
    }
    Ok(peers)
}

// Appends what a control element is told over its peer once the association of the first one has ended.
fn push_down(
    outs: &mut List<Out>,
    library: &Library,
    id: FeId,
    subscriptions: &Subscriptions,
    seen: (u32, u32),
) -> Result<(), Memory>
    ensures sent { OnOk result (outs.new ≡ outs.old ++ spec.down_to id library.now subscriptions.now seen) }
    ensures proper { OnOk result (AllByRecursion IsSaid outs.old → AllByRecursion IsSaid outs.new) }
{
    let route = Route {
        from: id.get(),
        to: seen.0,
        peer: seen.1,
    };
    match subscriptions.primary_down(seen.0)? {
        Some(notice) => push_notices(outs, library, route, &[notice]),
        None => Ok(()),
    }
}

// The same of each of them.
fn push_downs(
    outs: &mut List<Out>,
    library: &Library,
    id: FeId,
    subscriptions: &Subscriptions,
    peers: &[(u32, u32)],
) -> Result<(), Memory>
    ensures sent { OnOk result (outs.new ≡ outs.old ++ flat_map (spec.down_to id library.now subscriptions.now) peers.now) }
    ensures proper { OnOk result (AllByRecursion IsSaid outs.old → AllByRecursion IsSaid outs.new) }
{
    for seen in peers {
        push_down(outs, library, id, subscriptions, *seen)?;
    }
    Ok(())
}

/// What those are told that remain once the association of the first control element has ended, by rising ID.
pub fn told_down(
    alloc: Global,
    library: &Library,
    id: FeId,
    subscriptions: &Subscriptions,
    remaining: &Associations,
) -> Result<List<Out>, Memory>
    ensures sent { IfOk result (λ outs. outs ≡ flat_map (spec.down_to id library.now subscriptions.now) (spec.peers_of remaining.now)) }
    ensures proper { IfOk result (λ outs. AllByRecursion IsSaid outs) }
{
    let peers = peers_of(alloc, remaining)?;
    let mut outs = List::new(alloc);
    push_downs(&mut outs, library, id, subscriptions, &peers)?;
    Ok(outs)
}
