// The leaves of selects.
ghost use Rattle.std.specs.Prelude.{◌≡◌, ◌++◌, ◌∷◌, [], map, IfOk, OnOk};
ghost use Rattle.std.specs.List.{flat_map};
ghost use Rattle.fc_path.specs.Leaves.{own_steps, path_leaves, body_leaves, oper_leaves, select_leaves};
ghost use Rattle.fc_path.specs.declared.oper.Step.TheVariants.{Id};

use crate::{Body, Key, Leaf, Oper, OperKind, PathData, Select, Spot, Step};
use fc_base::{Duplicate, List, Memory};

// Whose leaves they are.
#[derive(Clone, Copy, Debug)]
struct Origin {
    kind: OperKind,
    class: u32,
    instance: u32,
}

fn push_ids(steps: &mut List<Step>, ids: &[u32]) -> Result<(), Memory>
    ensures { OnOk result (steps.new ≡ steps.old ++ map Id ids.now) }
{
    for id in ids {
        steps.push(Step::Id(*id))?;
    }
    Ok(())
}

// The steps to a PATH-DATA and those of its own.
fn steps_of(before: &List<Step>, ids: &[u32], key: &Option<Key>) -> Result<List<Step>, Memory>
    ensures { IfOk result (λ steps. steps ≡ before.now ++ own_steps ids.now key.now) }
{
    let mut steps = before.copy()?;
    push_ids(&mut steps, ids)?;
    if let Some(key) = key {
        let value = key.value.copy()?;
        steps.push(Step::Key(key.ident, value))?;
    }
    Ok(steps)
}

// The one leaf of a body that holds no PATH-DATA.
fn push_leaf(
    leaves: &mut List<Leaf>,
    origin: Origin,
    steps: List<Step>,
    body: Body,
) -> Result<(), Memory>
    ensures { OnOk result (leaves.new ≡ leaves.old ++ record { kind = origin.kind; spot = record { class = origin.class; instance = origin.instance; steps = steps }; body = body } ∷ []) }
{
    let spot = Spot {
        class: origin.class,
        instance: origin.instance,
        steps,
    };
    leaves.push(Leaf {
        kind: origin.kind,
        spot,
        body,
    })
}

#[cycle(leaves)]
fn push_path(
    leaves: &mut List<Leaf>,
    origin: Origin,
    before: &List<Step>,
    path: &PathData,
) -> Result<(), Memory>
    ensures { OnOk result (leaves.new ≡ leaves.old ++ path_leaves origin.kind origin.class origin.instance path.now before.now) }
{
    let steps = steps_of(before, path.ids.as_slice(), &path.key)?;
    push_body(leaves, origin, steps, &path.body)
}

#[cycle(leaves)]
fn push_body(
    leaves: &mut List<Leaf>,
    origin: Origin,
    steps: List<Step>,
    body: &Body,
) -> Result<(), Memory>
    ensures { OnOk result (leaves.new ≡ leaves.old ++ body_leaves origin.kind origin.class origin.instance body.now steps) }
{
    match body {
        Body::Nested(paths) => push_paths(leaves, origin, &steps, paths.as_slice()),
        Body::Nothing => push_leaf(leaves, origin, steps, Body::Nothing),
        Body::Full(value) => {
            let value = value.copy()?;
            push_leaf(leaves, origin, steps, Body::Full(value))
        }
        Body::Sparse(ilvs) => {
            let ilvs = ilvs.copy()?;
            push_leaf(leaves, origin, steps, Body::Sparse(ilvs))
        }
        Body::Outcome(code) => push_leaf(leaves, origin, steps, Body::Outcome(*code)),
    }
}

#[cycle(leaves)]
fn push_paths(
    leaves: &mut List<Leaf>,
    origin: Origin,
    before: &List<Step>,
    paths: &[PathData],
) -> Result<(), Memory>
    ensures { OnOk result (leaves.new ≡ leaves.old ++ flat_map (λ path. path_leaves origin.kind origin.class origin.instance path before.now) paths.now) }
{
    for path in paths {
        push_path(leaves, origin, before, path)?;
    }
    Ok(())
}

fn push_oper(leaves: &mut List<Leaf>, class: u32, instance: u32, oper: &Oper) -> Result<(), Memory>
    ensures { OnOk result (leaves.new ≡ leaves.old ++ oper_leaves class instance oper.now) }
{
    match oper {
        Oper::Paths(kind, paths) => {
            let origin = Origin {
                kind: *kind,
                class,
                instance,
            };
            let steps = List::new(paths.alloc());
            push_paths(leaves, origin, &steps, paths.as_slice())
        }
        Oper::Commit => Ok(()),
        Oper::Trcomp => Ok(()),
        Oper::CommitResponse(_) => Ok(()),
    }
}

impl Select {
    /// The leaves of the select in reading order, each with its place and its body. COMMIT, TRCOMP and COMMIT-RESPONSE
    /// have none.
    pub fn leaves(&self) -> Result<List<Leaf>, Memory>
        ensures exact { IfOk result (λ leaves. leaves ≡ select_leaves self.now) }
    {
        let mut leaves = List::new(self.opers.alloc());
        for oper in self.opers.as_slice() {
            push_oper(&mut leaves, self.class, self.instance, oper)?;
        }
        Ok(leaves)
    }
}
