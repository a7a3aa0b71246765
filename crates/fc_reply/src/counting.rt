// The same code for each operation of a Config.
ghost use Rattle.std.specs.Prelude.{◌≡◌, ◌++◌, IfOk, OnOk};
ghost use Rattle.fc_reply.specs.Counting as spec;

use fc_base::{Code, List, Memory};
use fc_path::{Body, Oper, PathData, Select};
use std::alloc::Global;

#[cycle(each)]
fn push_path(to: &mut List<Code>, path: &PathData, code: Code) -> Result<(), Memory>
    ensures { OnOk result (to.new ≡ to.old ++ spec.path_gets code path.now) }
{
    push_body(to, &path.body, code)
}

#[cycle(each)]
fn push_body(to: &mut List<Code>, body: &Body, code: Code) -> Result<(), Memory>
    ensures { OnOk result (to.new ≡ to.old ++ spec.body_gets code body.now) }
{
    match body {
        Body::Nested(paths) => push_paths(to, paths.as_slice(), code),
        Body::Nothing => to.push(code),
        Body::Full(_) => to.push(code),
        Body::Sparse(_) => to.push(code),
        Body::Outcome(_) => to.push(code),
    }
}

#[cycle(each)]
fn push_paths(to: &mut List<Code>, paths: &[PathData], code: Code) -> Result<(), Memory>
    ensures { OnOk result (to.new ≡ to.old ++ spec.paths_get code paths.now) }
{
    for path in paths {
        push_path(to, path, code)?;
    }
    Ok(())
}

fn push_oper(to: &mut List<Code>, oper: &Oper, code: Code) -> Result<(), Memory>
    ensures { OnOk result (to.new ≡ to.old ++ spec.oper_gets code oper.now) }
{
    match oper {
        Oper::Paths(_, paths) => push_paths(to, paths.as_slice(), code),
        Oper::Commit => to.push(code),
        Oper::Trcomp => to.push(code),
        Oper::CommitResponse(_) => Ok(()),
    }
}

fn push_select(to: &mut List<Code>, select: &Select, code: Code) -> Result<(), Memory>
    ensures { OnOk result (to.new ≡ to.old ++ spec.select_gets code select.now) }
{
    for oper in select.opers.as_slice() {
        push_oper(to, oper, code)?;
    }
    Ok(())
}

/// This code for each operation of these selects.
pub fn each_gets(alloc: Global, selects: &[Select], code: Code) -> Result<List<Code>, Memory>
    ensures { IfOk result (λ codes. codes ≡ spec.each_gets code selects.now) }
{
    let mut codes = List::new(alloc);
    for select in selects {
        push_select(&mut codes, select, code)?;
    }
    Ok(codes)
}
