// Queries over the configuration, the values that the element itself tells, and properties.
ghost use Rattle.std.specs.Prelude.{◌≡◌, IfOk, true, map};
ghost use Rattle.std.specs.List.{list_all};
ghost use Rattle.fc_instance.specs.Cells.{look_cell};
ghost use Rattle.fc_path.specs.Results.{results_fit};
ghost use Rattle.fc_store.specs.Stores.{seen};
ghost use Rattle.fc_store.specs.declared.spots.Purpose.TheVariants as purpose;
ghost use Rattle.fc_value.specs.Outcomes.{Gives};
ghost use Rattle.fc_value.specs.Writing.{full_bytes};
ghost use Rattle.fc_ops.specs.Answering.{answered, is_queried, response_fits};
ghost use Rattle.fc_ops.specs.Asking as spec;
ghost use Rattle.fc_ops.specs.Asking.{contents_of, in_full, live_id, looked, questions, seen_live, seen_now, value_content};
ghost use Rattle.fc_ops.specs.Filling.{selects_filled};

use crate::questions::{Question, questions_of};
use crate::{Content, Offers, answer_query};
use fc_base::{Code, Duplicate, List, Memory, Octets, OpFault};
use fc_path::{Select, Spot, Step};
use fc_store::{Purpose, Store, component_at, further, resolve, walk};
use fc_types::{Ty, is_live};
use fc_value::{Live, Value, write_full};
use fc_wire::Ilv;
use std::alloc::Global;

/// What a GET-PROP leaf is answered with.
#[derive(Debug, PartialEq, Eq, Drop)]
pub enum Prop {
    /// The properties, by rising identifier.
    Held(List<Ilv>),
    /// The code by which there are none.
    Refused(Code),
}

// The live component into which steps lead.
fn live_component(class: u32, instance: u32, steps: &[Step]) -> Option<u32>
    ensures { result ≡ live_id class instance steps.now }
{
    match steps {
        [] => None,
        [first, ..] => match first {
            Step::Id(id) => {
                if is_live(class, *id) && instance == 1 {
                    Some(*id)
                } else {
                    None
                }
            }
            Step::Key(..) => None,
        },
    }
}

// The full form of the node to which steps lead within a value, where there is one.
fn value_in_full(
    alloc: Global,
    ty: &Ty,
    value: Option<Value>,
    steps: &[Step],
) -> Result<Octets, OpFault>
    ensures { Gives (λ bytes. bytes) result (in_full (look_cell steps.now ty.now value)) }
{
    match value {
        None => Err(OpFault::Refused(Code::NOT_FOUND)),
        Some(value) => {
            let (ty, value) = walk(alloc, ty, &value, steps)?;
            let mut bytes = Vec::new(alloc);
            write_full(ty, value, &mut bytes)?;
            Ok(Octets::from_vec(bytes))
        }
    }
}

// The full form of the node to which a spot leads within a live component.
fn live_in_full<L: Live>(
    alloc: Global,
    store: &Store,
    live: &L,
    spot: &Spot,
    id: u32,
) -> Result<Octets, OpFault>
    ensures { Gives (λ bytes. bytes) result (in_full (seen_live (L.told live.now) id spot.now store.now)) }
{
    let place = resolve(Purpose::Read, store.library(), store.instances(), spot)?;
    match component_at(store.library(), spot.class, place.1) {
        None => Err(OpFault::Refused(Code::COMPONENT_DOES_NOT_EXIST)),
        Some(component) => {
            let value = live.component(spot.class, spot.instance, id)?;
            let steps = further(spot.steps.as_slice());
            value_in_full(alloc, &component.ty, value, steps)
        }
    }
}

// The full form of the node to which a spot leads within the configuration.
fn held_in_full(alloc: Global, store: &Store, spot: &Spot) -> Result<Octets, OpFault>
    ensures { Gives (λ bytes. bytes) result (in_full (seen purpose.Read spot.now store.now)) }
{
    let (ty, node) = store.at(spot)?;
    let mut bytes = Vec::new(alloc);
    node.write_full(ty, &mut bytes)?;
    Ok(Octets::from_vec(bytes))
}

// The full form of the node that a GET reads.
fn read_in_full<L: Live>(
    alloc: Global,
    store: &Store,
    live: &L,
    spot: &Spot,
) -> Result<Octets, OpFault>
    ensures { Gives (λ bytes. bytes) result (in_full (seen_now (L.told live.now) spot.now store.now)) }
{
    match live_component(spot.class, spot.instance, spot.steps.as_slice()) {
        None => held_in_full(alloc, store, spot),
        Some(id) => live_in_full(alloc, store, live, spot, id),
    }
}

// What a GET leaf holds.
fn value_of<L: Live>(alloc: Global, store: &Store, live: &L, spot: &Spot) -> Result<Content, Memory>
    ensures { IfOk result (λ content. content ≡ value_content (in_full (seen_now (L.told live.now) spot.now store.now))) }
{
    match read_in_full(alloc, store, live, spot) {
        Ok(bytes) => Ok(Content::Full(bytes)),
        Err(fault) => match fault {
            OpFault::Refused(code) => Ok(Content::Refused(code)),
            OpFault::Memory => Err(Memory),
        },
    }
}

fn prop_content(prop: &Prop) -> Result<Content, Memory>
    ensures { IfOk result (λ content. content ≡ spec.prop_content prop.now) }
{
    match prop {
        Prop::Held(ilvs) => Ok(Content::Sparse(ilvs.copy()?)),
        Prop::Refused(code) => Ok(Content::Refused(*code)),
    }
}

// What the next GET-PROP leaf holds.
fn next_prop<'a>(props: &'a [Prop]) -> Result<(Content, &'a [Prop]), Memory>
    ensures { IfOk result (λ x. (x.0, x.1.now) ≡ spec.next_prop props.now) }
{
    match props {
        [] => Ok((Content::Refused(Code::NOT_SUPPORTED), props)),
        [first, rest @ ..] => match prop_content(first) {
            Ok(content) => Ok((content, rest)),
            Err(fault) => Err(fault),
        },
    }
}

// The leaves that are still to be answered, and what answers them.
#[derive(Drop)]
struct Asking<'a, L> {
    alloc: Global,
    store: &'a Store,
    live: &'a L,
    props: &'a [Prop],
    questions: &'a [Question<'a>],
}

impl<'a, L: Live> Offers for Asking<'a, L> {
    ghost offered = { λ s. contents_of (L.told s.live.now) s.store.now s.props.now s.questions.now };

    fn next(&mut self) -> Result<Content, Memory> {
        match self.questions {
            [] => Ok(Content::Refused(Code::SUCCESS)),
            [first, rest @ ..] => {
                self.questions = rest;
                if first.takes_prop() {
                    let (content, later) = next_prop(self.props)?;
                    self.props = later;
                    return Ok(content);
                }
                let spot = first.spot(self.alloc)?;
                value_of(self.alloc, self.store, self.live, &spot)
            }
        }
    }
}

/// The response to a query. A GET leaf holds the full form of the node that it leads to: in the store, and for a live component of
/// instance 1 in what `live` tells of it; or the code of `Store::at`, by which it is refused. A GET-PROP leaf holds the next of `props`,
/// one for each; where there are no more, `NOT_SUPPORTED`. A content that the response has no room for is `CONTENTS_TOO_LONG`, as
/// [`answer_selects`](crate::answer_selects) tells it. The selects are those of a query, and the results alone fit.
pub fn query<L: Live>(
    alloc: Global,
    store: &Store,
    live: &L,
    props: &[Prop],
    selects: &[Select],
) -> Result<List<Select>, Memory>
    requires queried { list_all is_queried selects.now ≡ true }
    requires fits { results_fit selects.now ≡ true }
    ensures { IfOk result (λ response. response ≡ (selects_filled selects.now (answered (response_fits selects.now) (contents_of (L.told live.now) store.now props.now (questions selects.now)))).0) }
{
    let questions = questions_of(alloc, selects)?;
    let mut asking = Asking {
        alloc,
        store,
        live,
        props,
        questions: &questions,
    };
    answer_query(alloc, &mut asking, selects)
}
