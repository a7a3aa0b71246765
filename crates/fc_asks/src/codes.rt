// The code that a response counts as.
ghost use Rattle.std.specs.Prelude.{◌≡◌, ◌++◌, IfOk, OnOk};
ghost use Rattle.std.specs.List.{flat_map};
ghost use Rattle.fc_asks.specs.Codes.{path_codes, body_codes, oper_codes, select_codes, first_bad, code_of, response_code};

use fc_base::{Code, Memory};
use fc_path::{Body, Oper, PathData, Select};
use std::alloc::Global;

#[cycle(codes)]
fn push_path(codes: &mut Vec<Code>, path: &PathData) -> Result<(), Memory>
    ensures { OnOk result (codes.new.items ≡ codes.old.items ++ path_codes path.now) }
{
    push_body(codes, &path.body)
}

#[cycle(codes)]
fn push_body(codes: &mut Vec<Code>, body: &Body) -> Result<(), Memory>
    ensures { OnOk result (codes.new.items ≡ codes.old.items ++ body_codes body.now) }
{
    match body {
        Body::Nested(paths) => push_paths(codes, paths.as_slice()),
        Body::Outcome(code) => {
            codes.push(*code)?;
            Ok(())
        }
        Body::Nothing => Ok(()),
        Body::Full(_) => Ok(()),
        Body::Sparse(_) => Ok(()),
    }
}

#[cycle(codes)]
fn push_paths(codes: &mut Vec<Code>, paths: &[PathData]) -> Result<(), Memory>
    ensures { OnOk result (codes.new.items ≡ codes.old.items ++ flat_map path_codes paths.now) }
{
    for path in paths {
        push_path(codes, path)?;
    }
    Ok(())
}

fn push_oper(codes: &mut Vec<Code>, oper: &Oper) -> Result<(), Memory>
    ensures { OnOk result (codes.new.items ≡ codes.old.items ++ oper_codes oper.now) }
{
    match oper {
        Oper::Paths(_, paths) => push_paths(codes, paths.as_slice()),
        Oper::CommitResponse(code) => {
            codes.push(*code)?;
            Ok(())
        }
        Oper::Commit => Ok(()),
        Oper::Trcomp => Ok(()),
    }
}

fn push_select(codes: &mut Vec<Code>, select: &Select) -> Result<(), Memory>
    ensures { OnOk result (codes.new.items ≡ codes.old.items ++ select_codes select.now) }
{
    for oper in select.opers.as_slice() {
        push_oper(codes, oper)?;
    }
    Ok(())
}

fn first_bad_code(codes: &[Code]) -> Code
    ensures { result ≡ first_bad codes.now }
{
    for code in codes {
        if *code != Code::SUCCESS {
            return *code;
        }
    }
    Code::SUCCESS
}

fn code_in(codes: &[Code]) -> Code
    ensures { result ≡ code_of codes.now }
{
    match codes {
        [] => Code::UNSPECIFIED_ERROR,
        _ => first_bad_code(codes),
    }
}

/// The code of a response (RFC 5810, sections 7.1.6 and 7.1.7): the first in reading order that is not success, or success; a
/// response without codes counts as an unspecified error. Refused only for want of memory.
pub fn read_code(alloc: Global, selects: &[Select]) -> Result<Code, Memory>
    ensures { IfOk result (λ code. code ≡ response_code selects.now) }
{
    let mut codes = Vec::new(alloc);
    for select in selects {
        push_select(&mut codes, select)?;
    }
    Ok(code_in(codes.as_slice()))
}
