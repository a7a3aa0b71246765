// The leaves of a Config, in reading order. Each one lends the PATH-DATA that it stands in and its body, so that a key in front of many
// leaves lies in memory once.
ghost use Rattle.std.specs.Prelude.{◌≡◌, ◌++◌, ◌∷◌, [], map, IfOk, OnOk};
ghost use Rattle.std.specs.List.{flat_map};
ghost use Rattle.fc_path.specs.Leaves.{own_steps, leaf, path_leaves, body_leaves, oper_leaves, select_leaves};
ghost use Rattle.fc_path.specs.declared.oper.Step.TheVariants.{Id};
ghost use Rattle.fc_events.specs.Operations.{steps_along};

use fc_base::{Duplicate, List, Memory};
use fc_path::{Body, Key, Oper, OperKind, PathData, Select, Spot, Step};
use std::alloc::Global;
use std::marker::Model;

/// A PATH-DATA on the way to a leaf, which contracts see as its own steps.
#[derive(Debug, Drop)]
pub struct Segment<'a> {
    path: &'a PathData,
}

impl<'a> Model for Segment<'a> {
    ghost use Rattle.std.specs.Prelude.{List};
    ghost use Rattle.fc_path.specs.Leaves.{own_steps};
    ghost use Rattle.fc_path.specs.declared.oper.Step.{Step};

    ghost Value = { List Step };

    ghost view = { λ s. own_steps s.path.now.ids s.path.now.key };
}

/// An operation, which contracts see as its leaf.
#[derive(Debug, Drop)]
pub struct Operation<'a> {
    origin: Origin,
    segments: Vec<Segment<'a>>,
    body: &'a Body,
}

impl<'a> Model for Operation<'a> {
    ghost use Rattle.fc_path.specs.declared.oper.Leaf.{Leaf};
    ghost use Rattle.fc_path.specs.contracts.oper.Leaf as contracts;
    ghost use Rattle.fc_events.specs.Operations.{steps_along};

    ghost Value = { Leaf };

    ghost coded = { contracts.the_row.coded };

    ghost view = { λ o. record { kind = o.origin.kind; spot = record { class = o.origin.class; instance = o.origin.instance; steps = steps_along o.segments.items }; body = o.body.now } };
}

// Whose leaves they are.
#[derive(Clone, Copy, Debug)]
struct Origin {
    kind: OperKind,
    class: u32,
    instance: u32,
}

fn push_ids(steps: &mut List<Step>, ids: &[u32]) -> Result<(), Memory>
    ensures { OnOk result (steps.new ≡ steps.old ++ map Id ids.now) }
{
    for id in ids {
        steps.push(Step::Id(*id))?;
    }
    Ok(())
}

fn push_own(steps: &mut List<Step>, ids: &[u32], key: &Option<Key>) -> Result<(), Memory>
    ensures { OnOk result (steps.new ≡ steps.old ++ own_steps ids.now key.now) }
{
    push_ids(steps, ids)?;
    if let Some(key) = key {
        let value = key.value.copy()?;
        steps.push(Step::Key(key.ident, value))?;
    }
    Ok(())
}

impl<'a> Segment<'a> {
    fn push_to(&self, steps: &mut List<Step>) -> Result<(), Memory>
        ensures { OnOk result (steps.new ≡ steps.old ++ self.now) }
    {
        push_own(steps, self.path.ids.as_slice(), &self.path.key)
    }
}

// The steps of PATH-DATA that stand in each other.
fn push_segments(steps: &mut List<Step>, segments: &[Segment<'_>]) -> Result<(), Memory>
    ensures { OnOk result (steps.new ≡ steps.old ++ steps_along segments.now) }
{
    for segment in segments {
        segment.push_to(steps)?;
    }
    Ok(())
}

impl<'a> Operation<'a> {
    // What is said of its place.
    pub fn body(&self) -> &Body
        ensures { result.now ≡ self.now.body }
    {
        self.body
    }

    // A copy of its place.
    pub fn spot(&self, alloc: Global) -> Result<Spot, Memory>
        ensures { IfOk result (λ spot. spot ≡ self.now.spot) }
    {
        let mut steps = List::new(alloc);
        push_segments(&mut steps, &self.segments)?;
        Ok(Spot {
            class: self.origin.class,
            instance: self.origin.instance,
            steps,
        })
    }
}

fn copy_segments<'a>(alloc: Global, segments: &[Segment<'a>]) -> Result<Vec<Segment<'a>>, Memory>
    ensures { IfOk result (λ others. others.items ≡ segments.now) }
{
    let mut others = Vec::new(alloc);
    for segment in segments {
        others.push(Segment { path: segment.path })?;
    }
    Ok(others)
}

// Those in front, and that of a PATH-DATA.
fn with_segment<'a>(
    alloc: Global,
    before: &[Segment<'a>],
    path: &'a PathData,
) -> Result<Vec<Segment<'a>>, Memory>
    ensures { IfOk result (λ segments. steps_along segments.items ≡ steps_along before.now ++ own_steps path.now.ids path.now.key) }
{
    let mut segments = copy_segments(alloc, before)?;
    segments.push(Segment { path })?;
    Ok(segments)
}

// The one leaf of a body that holds no PATH-DATA.
fn push_leaf<'a>(
    operations: &mut Vec<Operation<'a>>,
    origin: Origin,
    segments: Vec<Segment<'a>>,
    body: &'a Body,
) -> Result<(), Memory>
    ensures { OnOk result (operations.new.items ≡ operations.old.items ++ leaf origin.kind origin.class origin.instance (steps_along segments.entry.items) body.now) }
{
    operations.push(Operation {
        origin,
        segments,
        body,
    })?;
    Ok(())
}

#[cycle(operate)]
fn push_path<'a>(
    operations: &mut Vec<Operation<'a>>,
    origin: Origin,
    before: &[Segment<'a>],
    path: &'a PathData,
) -> Result<(), Memory>
    ensures { OnOk result (operations.new.items ≡ operations.old.items ++ path_leaves origin.kind origin.class origin.instance path.now (steps_along before.now)) }
{
    let segments = with_segment(*operations.allocator(), before, path)?;
    push_body(operations, origin, segments, &path.body)
}

#[cycle(operate)]
fn push_body<'a>(
    operations: &mut Vec<Operation<'a>>,
    origin: Origin,
    segments: Vec<Segment<'a>>,
    body: &'a Body,
) -> Result<(), Memory>
    ensures { OnOk result (operations.new.items ≡ operations.old.items ++ body_leaves origin.kind origin.class origin.instance body.now (steps_along segments.entry.items)) }
{
    match body {
        Body::Nested(paths) => push_paths(operations, origin, &segments, paths.as_slice()),
        Body::Nothing => push_leaf(operations, origin, segments, body),
        Body::Full(_) => push_leaf(operations, origin, segments, body),
        Body::Sparse(_) => push_leaf(operations, origin, segments, body),
        Body::Outcome(_) => push_leaf(operations, origin, segments, body),
    }
}

#[cycle(operate)]
fn push_paths<'a>(
    operations: &mut Vec<Operation<'a>>,
    origin: Origin,
    before: &[Segment<'a>],
    paths: &'a [PathData],
) -> Result<(), Memory>
    ensures { OnOk result (operations.new.items ≡ operations.old.items ++ flat_map (λ path. path_leaves origin.kind origin.class origin.instance path (steps_along before.now)) paths.now) }
{
    for path in paths {
        push_path(operations, origin, before, path)?;
    }
    Ok(())
}

fn push_oper<'a>(
    operations: &mut Vec<Operation<'a>>,
    class: u32,
    instance: u32,
    oper: &'a Oper,
) -> Result<(), Memory>
    ensures { OnOk result (operations.new.items ≡ operations.old.items ++ oper_leaves class instance oper.now) }
{
    match oper {
        Oper::Paths(kind, paths) => {
            let origin = Origin {
                kind: *kind,
                class,
                instance,
            };
            push_paths(operations, origin, &[], paths.as_slice())
        }
        Oper::Commit => Ok(()),
        Oper::Trcomp => Ok(()),
        Oper::CommitResponse(_) => Ok(()),
    }
}

fn push_opers<'a>(
    operations: &mut Vec<Operation<'a>>,
    class: u32,
    instance: u32,
    opers: &'a [Oper],
) -> Result<(), Memory>
    ensures { OnOk result (operations.new.items ≡ operations.old.items ++ flat_map (oper_leaves class instance) opers.now) }
{
    for oper in opers {
        push_oper(operations, class, instance, oper)?;
    }
    Ok(())
}

fn push_select<'a>(operations: &mut Vec<Operation<'a>>, select: &'a Select) -> Result<(), Memory>
    ensures { OnOk result (operations.new.items ≡ operations.old.items ++ select_leaves select.now) }
{
    push_opers(
        operations,
        select.class,
        select.instance,
        select.opers.as_slice(),
    )
}

// The operations of selects, in reading order.
pub fn operations_of<'a>(alloc: Global, selects: &'a [Select]) -> Result<Vec<Operation<'a>>, Memory>
    ensures { IfOk result (λ operations. operations.items ≡ flat_map select_leaves selects.now) }
{
    let mut operations = Vec::new(alloc);
    for select in selects {
        push_select(&mut operations, select)?;
    }
    Ok(operations)
}
