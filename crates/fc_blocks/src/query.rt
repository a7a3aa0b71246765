// The answers to queries.
ghost use Rattle.std.specs.Prelude.{◌≡◌, ◌++◌, IfOk, OnOk, true};
ghost use Rattle.fc_msg.specs.Messages.{ProperSelects};
ghost use Rattle.fc_ops.specs.Asking.{questions};
ghost use Rattle.fc_path.specs.Results.{results_fit};
ghost use Rattle.fc_blocks.specs.Queries as spec;

use fc_base::{Code, List, Memory, OpFault};
use fc_events::Subscriptions;
use fc_lfbs::Live;
use fc_ops::{Prop, Question, query, questions_of};
use fc_path::{Select, Spot};
use fc_reply::{answered_selects, each_gets};
use fc_store::Store;
use std::alloc::Global;

// What a GET-PROP of a spot is answered with.
fn prop_at<L: Live>(
    live: &L,
    store: &Store,
    subscriptions: &Subscriptions,
    spot: &Spot,
) -> Result<Prop, Memory>
    ensures { IfOk result (λ prop. prop ≡ spec.prop_at (L.told live.now) store.now subscriptions.now spot.now) }
{
    match subscriptions.get_prop(store, live, spot) {
        Ok(ilvs) => Ok(Prop::Held(ilvs)),
        Err(fault) => match fault {
            OpFault::Refused(code) => Ok(Prop::Refused(code)),
            OpFault::Memory => Err(Memory),
        },
    }
}

// Appends what a leaf is answered with, where it asks for properties.
fn push_prop<L: Live>(
    props: &mut Vec<Prop>,
    live: &L,
    store: &Store,
    subscriptions: &Subscriptions,
    question: &Question<'_>,
) -> Result<(), Memory>
    ensures { OnOk result (props.new.items ≡ props.old.items ++ spec.asked_props (L.told live.now) store.now subscriptions.now question.now) }
{
    if question.takes_prop() {
        let spot = question.spot(*props.allocator())?;
        let prop = prop_at(live, store, subscriptions, &spot)?;
        props.push(prop)?;
    }
    Ok(())
}

// What each GET-PROP leaf of a query is answered with, in their order.
fn props_of<L: Live>(
    alloc: Global,
    live: &L,
    store: &Store,
    subscriptions: &Subscriptions,
    selects: &[Select],
) -> Result<Vec<Prop>, Memory>
    ensures { IfOk result (λ props. props.items ≡ spec.props_of (L.told live.now) store.now subscriptions.now (questions selects.now)) }
{
    let questions = questions_of(alloc, selects)?;
    let mut props = Vec::new(alloc);
    for question in &questions {
        push_prop(&mut props, live, store, subscriptions, question)?;
    }
    Ok(props)
}

/// The selects of the answer to a query for this element: of a GET leaf what the element tells of itself and what its store holds, and of
/// a GET-PROP leaf the properties, by what is registered.
pub fn told_selects<L: Live>(
    alloc: Global,
    live: &L,
    store: &Store,
    subscriptions: &Subscriptions,
    selects: &[Select],
) -> Result<List<Select>, Memory>
    requires proper { ProperSelects 4 selects.now }
    requires fits { results_fit selects.now ≡ true }
    ensures exact { IfOk result (λ others. others ≡ spec.told_selects (L.told live.now) store.now subscriptions.now selects.now) }
    ensures proper { IfOk result (λ others. ProperSelects 20 others) }
{
    let props = props_of(alloc, live, store, subscriptions, selects)?;
    query(alloc, store, live, &props, selects)
}

/// The selects of the answer to a query for another element.
pub fn foreign_selects(alloc: Global, selects: &[Select]) -> Result<List<Select>, Memory>
    requires proper { ProperSelects 4 selects.now }
    ensures exact { IfOk result (λ others. others ≡ spec.foreign_selects selects.now) }
    ensures proper { IfOk result (λ others. ProperSelects 20 others) }
{
    let codes = each_gets(alloc, selects, Code::INVALID_DESTINATION_PID)?;
    answered_selects(alloc, selects, codes.as_slice())
}
