// The operations of selects, in reading order. Each leaf lends the PATH-DATA that it stands in, so that a key in front of many leaves
// lies in memory once.
ghost use Rattle.std.specs.Prelude.{◌≡◌, ◌++◌, ◌∷◌, [], map, IfOk, OnOk};
ghost use Rattle.std.specs.List.{flat_map, list_any};
ghost use Rattle.fc_path.specs.Leaves.{own_steps, path_leaves, body_leaves, oper_leaves};
ghost use Rattle.fc_path.specs.declared.oper.Step.TheVariants.{Id};
ghost use Rattle.fc_types.specs.Libraries.{same_instance};
ghost use Rattle.fc_exec.specs.Operations as spec;
ghost use Rattle.fc_exec.specs.Operations.{oper_operations, select_operations};
ghost use Rattle.fc_exec.specs.Steps.{steps_along};
ghost use Rattle.fc_exec.specs.declared.operations.Operation.TheVariants as operation;

use fc_base::{Duplicate, List, Memory};
use fc_path::{Body, Key, Oper, OperKind, PathData, Select, Spot, Step};
use std::alloc::Global;
use std::marker::Model;

/// A PATH-DATA on the way to a leaf, which contracts see as its own steps.
#[derive(Debug, Drop)]
pub struct Segment<'a> {
    path: &'a PathData,
}

impl<'a> Model for Segment<'a> {
    ghost use Rattle.std.specs.Prelude.{List};
    ghost use Rattle.fc_path.specs.Leaves.{own_steps};
    ghost use Rattle.fc_path.specs.declared.oper.Step.{Step};

    ghost Value = { List Step };

    ghost view = { λ s. own_steps s.path.now.ids s.path.now.key };
}

// Whose leaves they are.
#[derive(Clone, Copy, Debug)]
struct Origin {
    kind: OperKind,
    class: u32,
    instance: u32,
}

/// A leaf as it lies in its select. Contracts see it as the leaf.
#[derive(Debug, Drop)]
pub struct PlacedLeaf<'a> {
    origin: Origin,
    segments: Vec<Segment<'a>>,
    body: &'a Body,
}

impl<'a> Model for PlacedLeaf<'a> {
    ghost use Rattle.fc_exec.specs.Steps.{steps_along};
    ghost use Rattle.fc_path.specs.contracts.oper.Leaf as leaf_contracts;
    ghost use Rattle.fc_path.specs.declared.oper.Leaf.{Leaf};

    ghost Value = { Leaf };

    ghost coded = { leaf_contracts.the_row.coded };

    ghost view = { λ l. record { kind = l.origin.kind; spot = record { class = l.origin.class; instance = l.origin.instance; steps = steps_along l.segments.items }; body = l.body.now } };
}

/// An operation of a Config.
#[derive(Debug, Drop)]
pub enum Operation<'a> {
    /// On the place of a leaf.
    Leaf(PlacedLeaf<'a>),
    /// The end of a transaction's first phase.
    Commit,
    /// The end of a transaction.
    Trcomp,
}

fn push_ids(steps: &mut List<Step>, ids: &[u32]) -> Result<(), Memory>
    ensures { OnOk result (steps.new ≡ steps.old ++ map Id ids.now) }
{
    for id in ids {
        steps.push(Step::Id(*id))?;
    }
    Ok(())
}

fn push_own(steps: &mut List<Step>, ids: &[u32], key: &Option<Key>) -> Result<(), Memory>
    ensures { OnOk result (steps.new ≡ steps.old ++ own_steps ids.now key.now) }
{
    push_ids(steps, ids)?;
    if let Some(key) = key {
        let value = key.value.copy()?;
        steps.push(Step::Key(key.ident, value))?;
    }
    Ok(())
}

impl<'a> Segment<'a> {
    fn push_to(&self, steps: &mut List<Step>) -> Result<(), Memory>
        ensures { OnOk result (steps.new ≡ steps.old ++ self.now) }
    {
        push_own(steps, self.path.ids.as_slice(), &self.path.key)
    }
}

// The steps of PATH-DATA that stand in each other.
fn push_segments(steps: &mut List<Step>, segments: &[Segment<'_>]) -> Result<(), Memory>
    ensures { OnOk result (steps.new ≡ steps.old ++ steps_along segments.now) }
{
    for segment in segments {
        segment.push_to(steps)?;
    }
    Ok(())
}

impl<'a> PlacedLeaf<'a> {
    /// The operation.
    pub fn kind(&self) -> OperKind
        ensures { result ≡ self.now.kind }
    {
        self.origin.kind
    }

    /// What is said of its place.
    pub fn body(&self) -> &Body
        ensures { result.now ≡ self.now.body }
    {
        self.body
    }

    /// Whether its instance is one of these.
    pub fn is_at(&self, scope: &[(u32, u32)]) -> bool
        ensures { result ≡ list_any (same_instance (self.now.spot.class, self.now.spot.instance)) scope.now }
    {
        let class = self.origin.class;
        let instance = self.origin.instance;
        scope
            .iter()
            .any(|pair| class == pair.0 && instance == pair.1)
    }

    /// A copy of its place.
    pub fn spot(&self) -> Result<Spot, Memory>
        ensures { IfOk result (λ spot. spot ≡ self.now.spot) }
    {
        let mut steps = List::new(*self.segments.allocator());
        push_segments(&mut steps, &self.segments)?;
        Ok(Spot {
            class: self.origin.class,
            instance: self.origin.instance,
            steps,
        })
    }
}

fn copy_segments<'a>(alloc: Global, segments: &[Segment<'a>]) -> Result<Vec<Segment<'a>>, Memory>
    ensures { IfOk result (λ others. others.items ≡ segments.now) }
{
    let mut others = Vec::new(alloc);
    for segment in segments {
        others.push(Segment { path: segment.path })?;
    }
    Ok(others)
}

// Those in front, and that of a PATH-DATA.
fn with_segment<'a>(
    alloc: Global,
    before: &[Segment<'a>],
    path: &'a PathData,
) -> Result<Vec<Segment<'a>>, Memory>
    ensures { IfOk result (λ segments. steps_along segments.items ≡ steps_along before.now ++ own_steps path.now.ids path.now.key) }
{
    let mut segments = copy_segments(alloc, before)?;
    segments.push(Segment { path })?;
    Ok(segments)
}

// The one leaf of a body that holds no PATH-DATA.
fn push_leaf<'a>(
    operations: &mut Vec<Operation<'a>>,
    origin: Origin,
    segments: Vec<Segment<'a>>,
    body: &'a Body,
) -> Result<(), Memory>
    ensures { OnOk result (operations.new.items ≡ operations.old.items ++ operation.Leaf (record { kind = origin.kind; spot = record { class = origin.class; instance = origin.instance; steps = steps_along segments.entry.items }; body = body.now }) ∷ []) }
{
    operations.push(Operation::Leaf(PlacedLeaf {
        origin,
        segments,
        body,
    }))?;
    Ok(())
}

#[cycle(walk)]
fn push_path<'a>(
    operations: &mut Vec<Operation<'a>>,
    origin: Origin,
    before: &[Segment<'a>],
    path: &'a PathData,
) -> Result<(), Memory>
    ensures { OnOk result (operations.new.items ≡ operations.old.items ++ map operation.Leaf (path_leaves origin.kind origin.class origin.instance path.now (steps_along before.now))) }
{
    let segments = with_segment(*operations.allocator(), before, path)?;
    push_body(operations, origin, segments, &path.body)
}

#[cycle(walk)]
fn push_body<'a>(
    operations: &mut Vec<Operation<'a>>,
    origin: Origin,
    segments: Vec<Segment<'a>>,
    body: &'a Body,
) -> Result<(), Memory>
    ensures { OnOk result (operations.new.items ≡ operations.old.items ++ map operation.Leaf (body_leaves origin.kind origin.class origin.instance body.now (steps_along segments.entry.items))) }
{
    match body {
        Body::Nested(paths) => push_paths(operations, origin, &segments, paths.as_slice()),
        Body::Nothing => push_leaf(operations, origin, segments, body),
        Body::Full(_) => push_leaf(operations, origin, segments, body),
        Body::Sparse(_) => push_leaf(operations, origin, segments, body),
        Body::Outcome(_) => push_leaf(operations, origin, segments, body),
    }
}

#[cycle(walk)]
fn push_paths<'a>(
    operations: &mut Vec<Operation<'a>>,
    origin: Origin,
    before: &[Segment<'a>],
    paths: &'a [PathData],
) -> Result<(), Memory>
    ensures { OnOk result (operations.new.items ≡ operations.old.items ++ flat_map (λ path. map operation.Leaf (path_leaves origin.kind origin.class origin.instance path (steps_along before.now))) paths.now) }
{
    for path in paths {
        push_path(operations, origin, before, path)?;
    }
    Ok(())
}

fn push_oper<'a>(
    operations: &mut Vec<Operation<'a>>,
    class: u32,
    instance: u32,
    oper: &'a Oper,
) -> Result<(), Memory>
    ensures { OnOk result (operations.new.items ≡ operations.old.items ++ oper_operations class instance oper.now) }
{
    match oper {
        Oper::Paths(kind, paths) => {
            let origin = Origin {
                kind: *kind,
                class,
                instance,
            };
            push_paths(operations, origin, &[], paths.as_slice())
        }
        Oper::Commit => {
            operations.push(Operation::Commit)?;
            Ok(())
        }
        Oper::Trcomp => {
            operations.push(Operation::Trcomp)?;
            Ok(())
        }
        Oper::CommitResponse(_) => Ok(()),
    }
}

fn push_opers<'a>(
    operations: &mut Vec<Operation<'a>>,
    class: u32,
    instance: u32,
    opers: &'a [Oper],
) -> Result<(), Memory>
    ensures { OnOk result (operations.new.items ≡ operations.old.items ++ flat_map (oper_operations class instance) opers.now) }
{
    for oper in opers {
        push_oper(operations, class, instance, oper)?;
    }
    Ok(())
}

fn push_select<'a>(operations: &mut Vec<Operation<'a>>, select: &'a Select) -> Result<(), Memory>
    ensures { OnOk result (operations.new.items ≡ operations.old.items ++ select_operations select.now) }
{
    push_opers(
        operations,
        select.class,
        select.instance,
        select.opers.as_slice(),
    )
}

/// The operations of selects, in reading order: each leaf, COMMIT and TRCOMP.
pub fn operations_of<'a>(alloc: Global, selects: &'a [Select]) -> Result<Vec<Operation<'a>>, Memory>
    ensures { IfOk result (λ operations. operations.items ≡ spec.operations selects.now) }
{
    let mut operations = Vec::new(alloc);
    for select in selects {
        push_select(&mut operations, select)?;
    }
    Ok(operations)
}
