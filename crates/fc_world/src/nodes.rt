// The forwarding elements of a world.
ghost use Rattle.std.specs.Prelude.{◌≡◌, ◌<◌, ◌++◌, ℕ, None, true, map, length, slice_get, option_map, IfOk, IfSome, IfNone, OnOk, OnErr};
ghost use Rattle.fc_element.specs.ElementMachine.{IsProperIn, step};
ghost use Rattle.fc_element.specs.ElementState.{ElementState, restarted};
ghost use Rattle.fc_element.specs.Reports as element;
ghost use Rattle.fc_performing.specs.Sending.{IsSaid};
ghost use Rattle.std.specs.List.{AllByRecursion, flat_map, list_all};
ghost use Rattle.std.specs.Option.{option_copied};
ghost use Rattle.fc_types.specs.Libraries.{AreKnown, is_own};
ghost use Rattle.fc_world.specs.Lookups as spec;
ghost use Rattle.fc_world.specs.Lookups.{changed_at, element_in, ids_of, in_place};
ghost use Rattle.fc_world.specs.Reports.{node_lines};
ghost use Rattle.fc_world.specs.Turns.{outs_in, restarted_in, restarted_node, turned_in, turned_node};
ghost use Rattle.fc_world.specs.Worlds.{first_node};

use crate::setting::Setting;
use fc_base::{CeId, Duplicate, FeId, List, Memory};
use fc_element::{ElIn, Element, Out};
use std::alloc::Global;

/// A forwarding element, by its ID.
#[derive(Drop)]
pub struct Node {
    pub id: FeId,
    pub element: Element,
}

// An element with what the script says of all elements.
fn first_node(alloc: Global, setting: &Setting, id: FeId, ce: CeId) -> Result<Node, Memory>
    requires own { list_all is_own setting.now.library ≡ true }
    requires known { AreKnown setting.now.library setting.now.instances }
    ensures { IfOk result (λ node. node ≡ first_node setting.now (id, ce)) }
{
    let library = setting.library.copy()?;
    let instances = setting.instances.copy()?;
    let element = Element::new(alloc, id, ce, library, instances)?;
    Ok(Node { id, element })
}

/// The elements of a script, each as it begins.
pub fn first_nodes(alloc: Global, setting: &Setting) -> Result<Vec<Node>, Memory>
    requires own { list_all is_own setting.now.library ≡ true }
    requires known { AreKnown setting.now.library setting.now.instances }
    ensures { IfOk result (λ nodes. nodes.items ≡ map (first_node setting.now) setting.now.elements) }
{
    let mut nodes = Vec::new(alloc);
    for element in setting.elements.as_slice() {
        nodes.push(first_node(alloc, setting, element.0, element.1)?)?;
    }
    Ok(nodes)
}

/// The IDs of the elements.
pub fn ids_of(alloc: Global, nodes: &[Node]) -> Result<List<FeId>, Memory>
    ensures { IfOk result (λ ids. ids ≡ ids_of nodes.now) }
{
    let mut ids = List::new(alloc);
    for node in nodes {
        ids.push(node.id)?;
    }
    Ok(ids)
}

// The place of an element.
fn place_of(id: FeId, nodes: &[Node]) -> Option<usize>
    ensures exact { result ≡ spec.node_place id nodes.now }
    ensures within { IfSome result (λ at. at < length nodes.now) }
{
    match nodes {
        [] => None,
        [first, rest @ ..] => {
            if id == first.id {
                return Some(0);
            }
            match place_of(id, rest) {
                Some(at) => Some(at + 1),
                None => None,
            }
        }
    }
}

/// The element of this ID.
pub fn element_of(id: FeId, nodes: &[Node]) -> Option<&Element>
    ensures { option_copied result ≡ element_in id nodes.now }
{
    for node in nodes {
        if id == node.id {
            return Some(&node.element);
        }
    }
    None
}

// An input of an element.
fn step_one(node: &mut Node, input: ElIn) -> Result<List<Out>, Memory>
    requires { IsProperIn input }
    ensures outs { IfOk result (λ outs. outs ≡ (step node.old.element input).outs) }
    ensures proper { IfOk result (λ outs. AllByRecursion IsSaid outs) }
    ensures ok { OnOk result (node.new ≡ turned_node input node.old) }
    ensures err { OnErr result (node.new ≡ node.old) }
{
    node.element.step(input)
}

// An input of the element at a place.
fn step_at(nodes: &mut Vec<Node>, place: usize, input: ElIn) -> Result<Option<List<Out>>, Memory>
    requires { IsProperIn input }
    ensures outs { IfOk result (λ outs. outs ≡ option_map (λ n. (step n.element input).outs) (slice_get nodes.old.items place)) }
    ensures proper { IfOk result (λ outs. IfSome outs (AllByRecursion IsSaid)) }
    ensures ok { OnOk result (nodes.new.items ≡ changed_at (turned_node input) place nodes.old.items) }
    ensures err { OnErr result (nodes.new.items ≡ nodes.old.items) }
{
    match nodes.get_mut(place) {
        None => Ok(None),
        Some(node) => Ok(Some(step_one(node, input)?)),
    }
}

/// An input of the element of this ID: what it sends, if it is there. After an `Err` nothing has changed.
pub fn step_in(nodes: &mut Vec<Node>, id: FeId, input: ElIn) -> Result<Option<List<Out>>, Memory>
    requires { IsProperIn input }
    ensures outs { IfOk result (λ outs. outs ≡ outs_in id input nodes.old.items) }
    ensures proper { IfOk result (λ outs. IfSome outs (AllByRecursion IsSaid)) }
    ensures ok { OnOk result (nodes.new.items ≡ turned_in id input nodes.old.items) }
    ensures err { OnErr result (nodes.new.items ≡ nodes.old.items) }
{
    match place_of(id, nodes.as_slice()) {
        None => Ok(None),
        Some(place) => step_at(nodes, place, input),
    }
}

fn restart_one(node: &mut Node)
    ensures { node.new ≡ restarted_node node.old }
{
    node.element.restart();
}

fn restart_at(nodes: &mut Vec<Node>, place: usize)
    ensures { nodes.new.items ≡ changed_at restarted_node place nodes.old.items }
{
    if let Some(node) = nodes.get_mut(place) {
        restart_one(node);
    }
}

/// The element of this ID starts again, if it is there.
pub fn restart_in(nodes: &mut Vec<Node>, id: FeId)
    ensures { nodes.new.items ≡ restarted_in id nodes.old.items }
{
    match place_of(id, nodes.as_slice()) {
        None => {}
        Some(place) => restart_at(nodes, place),
    }
}

/// Appends the reports on the elements.
pub fn put_nodes(nodes: &[Node], into: &mut Vec<u8>) -> Result<(), Memory>
    ensures { OnOk result (into.new.items ≡ into.old.items ++ flat_map node_lines nodes.now) }
{
    for node in nodes {
        node.element.report(into)?;
    }
    Ok(())
}
