// What the leaves of a query ask for, in reading order. Each one lends the PATH-DATA that it stands in, so that a key in front of many
// leaves lies in memory once.
ghost use Rattle.std.specs.Prelude.{◌≡◌, ◌++◌, ◌∷◌, [], map, IfOk, OnOk};
ghost use Rattle.std.specs.List.{flat_map};
ghost use Rattle.fc_path.specs.Leaves.{own_steps, path_leaves, body_leaves, oper_leaves, select_leaves};
ghost use Rattle.fc_path.specs.declared.oper.Step.TheVariants.{Id};
ghost use Rattle.fc_ops.specs.Asking as spec;
ghost use Rattle.fc_ops.specs.Asking.{question, steps_along};

use fc_base::{Duplicate, List, Memory};
use fc_path::{Body, Key, Oper, OperKind, PathData, Select, Spot, Step};
use std::alloc::Global;
use std::marker::Model;

/// A PATH-DATA on the way to a leaf, which contracts see as its own steps.
#[derive(Debug, Drop)]
pub struct Segment<'a> {
    path: &'a PathData,
}

impl<'a> Model for Segment<'a> {
    ghost use Rattle.std.specs.Prelude.{List};
    ghost use Rattle.fc_path.specs.Leaves.{own_steps};
    ghost use Rattle.fc_path.specs.declared.oper.Step.{Step};

    ghost Value = { List Step };

    ghost view = { λ s. own_steps s.path.now.ids s.path.now.key };
}

/// What a leaf asks for. Contracts see its operation and its place.
#[derive(Debug, Drop)]
pub struct Question<'a> {
    origin: Origin,
    segments: Vec<Segment<'a>>,
}

impl<'a> Model for Question<'a> {
    ghost use Rattle.fc_ops.specs.Asking.{Asked, steps_along};

    ghost Value = { Asked };

    ghost view = { λ q. (q.origin.kind, record { class = q.origin.class; instance = q.origin.instance; steps = steps_along q.segments.items }) };
}

// Whose leaves they are.
#[derive(Clone, Copy, Debug)]
struct Origin {
    kind: OperKind,
    class: u32,
    instance: u32,
}

fn push_ids(steps: &mut List<Step>, ids: &[u32]) -> Result<(), Memory>
    ensures { OnOk result (steps.new ≡ steps.old ++ map Id ids.now) }
{
    for id in ids {
        steps.push(Step::Id(*id))?;
    }
    Ok(())
}

fn push_own(steps: &mut List<Step>, ids: &[u32], key: &Option<Key>) -> Result<(), Memory>
    ensures { OnOk result (steps.new ≡ steps.old ++ own_steps ids.now key.now) }
{
    push_ids(steps, ids)?;
    if let Some(key) = key {
        let value = key.value.copy()?;
        steps.push(Step::Key(key.ident, value))?;
    }
    Ok(())
}

impl<'a> Segment<'a> {
    fn push_to(&self, steps: &mut List<Step>) -> Result<(), Memory>
        ensures { OnOk result (steps.new ≡ steps.old ++ self.now) }
    {
        push_own(steps, self.path.ids.as_slice(), &self.path.key)
    }
}

// The steps of PATH-DATA that stand in each other.
fn push_segments(steps: &mut List<Step>, segments: &[Segment<'_>]) -> Result<(), Memory>
    ensures { OnOk result (steps.new ≡ steps.old ++ steps_along segments.now) }
{
    for segment in segments {
        segment.push_to(steps)?;
    }
    Ok(())
}

impl<'a> Question<'a> {
    /// Whether it asks for properties.
    pub fn takes_prop(&self) -> bool
        ensures { result ≡ spec.takes_prop self.now.0 }
    {
        match self.origin.kind {
            OperKind::GetProp => true,
            _ => false,
        }
    }

    /// A copy of its place.
    pub fn spot(&self, alloc: Global) -> Result<Spot, Memory>
        ensures { IfOk result (λ spot. spot ≡ self.now.1) }
    {
        let mut steps = List::new(alloc);
        push_segments(&mut steps, &self.segments)?;
        Ok(Spot {
            class: self.origin.class,
            instance: self.origin.instance,
            steps,
        })
    }
}

fn copy_segments<'a>(alloc: Global, segments: &[Segment<'a>]) -> Result<Vec<Segment<'a>>, Memory>
    ensures { IfOk result (λ others. others.items ≡ segments.now) }
{
    let mut others = Vec::new(alloc);
    for segment in segments {
        others.push(Segment { path: segment.path })?;
    }
    Ok(others)
}

// Those in front, and that of a PATH-DATA.
fn with_segment<'a>(
    alloc: Global,
    before: &[Segment<'a>],
    path: &'a PathData,
) -> Result<Vec<Segment<'a>>, Memory>
    ensures { IfOk result (λ segments. steps_along segments.items ≡ steps_along before.now ++ own_steps path.now.ids path.now.key) }
{
    let mut segments = copy_segments(alloc, before)?;
    segments.push(Segment { path })?;
    Ok(segments)
}

// The one leaf of a body that holds no PATH-DATA.
fn push_leaf<'a>(
    questions: &mut Vec<Question<'a>>,
    origin: Origin,
    segments: Vec<Segment<'a>>,
) -> Result<(), Memory>
    ensures { OnOk result (questions.new.items ≡ questions.old.items ++ (origin.kind, record { class = origin.class; instance = origin.instance; steps = steps_along segments.entry.items }) ∷ []) }
{
    questions.push(Question { origin, segments })?;
    Ok(())
}

#[cycle(ask)]
fn push_path<'a>(
    questions: &mut Vec<Question<'a>>,
    origin: Origin,
    before: &[Segment<'a>],
    path: &'a PathData,
) -> Result<(), Memory>
    ensures { OnOk result (questions.new.items ≡ questions.old.items ++ map question (path_leaves origin.kind origin.class origin.instance path.now (steps_along before.now))) }
{
    let segments = with_segment(*questions.allocator(), before, path)?;
    push_body(questions, origin, segments, &path.body)
}

#[cycle(ask)]
fn push_body<'a>(
    questions: &mut Vec<Question<'a>>,
    origin: Origin,
    segments: Vec<Segment<'a>>,
    body: &'a Body,
) -> Result<(), Memory>
    ensures { OnOk result (questions.new.items ≡ questions.old.items ++ map question (body_leaves origin.kind origin.class origin.instance body.now (steps_along segments.entry.items))) }
{
    match body {
        Body::Nested(paths) => push_paths(questions, origin, &segments, paths.as_slice()),
        Body::Nothing => push_leaf(questions, origin, segments),
        Body::Full(_) => push_leaf(questions, origin, segments),
        Body::Sparse(_) => push_leaf(questions, origin, segments),
        Body::Outcome(_) => push_leaf(questions, origin, segments),
    }
}

#[cycle(ask)]
fn push_paths<'a>(
    questions: &mut Vec<Question<'a>>,
    origin: Origin,
    before: &[Segment<'a>],
    paths: &'a [PathData],
) -> Result<(), Memory>
    ensures { OnOk result (questions.new.items ≡ questions.old.items ++ flat_map (λ path. map question (path_leaves origin.kind origin.class origin.instance path (steps_along before.now))) paths.now) }
{
    for path in paths {
        push_path(questions, origin, before, path)?;
    }
    Ok(())
}

fn push_oper<'a>(
    questions: &mut Vec<Question<'a>>,
    class: u32,
    instance: u32,
    oper: &'a Oper,
) -> Result<(), Memory>
    ensures { OnOk result (questions.new.items ≡ questions.old.items ++ map question (oper_leaves class instance oper.now)) }
{
    match oper {
        Oper::Paths(kind, paths) => {
            let origin = Origin {
                kind: *kind,
                class,
                instance,
            };
            push_paths(questions, origin, &[], paths.as_slice())
        }
        Oper::Commit => Ok(()),
        Oper::Trcomp => Ok(()),
        Oper::CommitResponse(_) => Ok(()),
    }
}

fn push_opers<'a>(
    questions: &mut Vec<Question<'a>>,
    class: u32,
    instance: u32,
    opers: &'a [Oper],
) -> Result<(), Memory>
    ensures { OnOk result (questions.new.items ≡ questions.old.items ++ flat_map (λ oper. map question (oper_leaves class instance oper)) opers.now) }
{
    for oper in opers {
        push_oper(questions, class, instance, oper)?;
    }
    Ok(())
}

fn push_select<'a>(questions: &mut Vec<Question<'a>>, select: &'a Select) -> Result<(), Memory>
    ensures { OnOk result (questions.new.items ≡ questions.old.items ++ map question (select_leaves select.now)) }
{
    push_opers(
        questions,
        select.class,
        select.instance,
        select.opers.as_slice(),
    )
}

/// What the leaves of selects ask for, in reading order. Each one lends the PATH-DATA that it stands in.
pub fn questions_of<'a>(alloc: Global, selects: &'a [Select]) -> Result<Vec<Question<'a>>, Memory>
    ensures { IfOk result (λ questions. questions.items ≡ spec.questions selects.now) }
{
    let mut questions = Vec::new(alloc);
    for select in selects {
        push_select(&mut questions, select)?;
    }
    Ok(questions)
}
