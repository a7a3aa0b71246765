// Selects with a result in each leaf.
ghost use Rattle.std.specs.Prelude.{◌≡◌, ◌++◌, IfOk, OnOk};
ghost use Rattle.fc_ops.specs.Filling.{next_of};
ghost use Rattle.fc_path.specs.Results.{select_with};
ghost use Rattle.fc_reply.specs.Answered as spec;

use fc_base::{Code, List, Memory};
use fc_ops::{Content, oper_filled};
use fc_path::{Oper, Select};
use std::alloc::Global;

// A result with each code.
fn results(alloc: Global, codes: &[Code]) -> Result<List<Content>, Memory>
    ensures { IfOk result (λ contents. contents ≡ spec.results codes.now) }
{
    let mut contents = List::new(alloc);
    for code in codes {
        contents.push(Content::Refused(*code))?;
    }
    Ok(contents)
}

// The code of a result.
fn code_in(content: &Content) -> Code
    ensures { result ≡ spec.code_in content.now }
{
    match content {
        Content::Full(_) => Code::SUCCESS,
        Content::Sparse(_) => Code::SUCCESS,
        Content::Refused(code) => *code,
    }
}

// The code of the next result.
fn next_code(contents: &[Content]) -> Code
    ensures { result ≡ spec.code_in (next_of contents.now).0 }
{
    match contents {
        [] => Code::SUCCESS,
        [content, ..] => code_in(content),
    }
}

// The results behind the next one.
fn later(contents: &[Content]) -> &[Content]
    ensures { result.now ≡ (next_of contents.now).1 }
{
    match contents {
        [] => &[],
        [_, later @ ..] => later,
    }
}

// Appends the operation that answers one, if any does.
fn push_oper<'a>(
    to: &mut List<Oper>,
    oper: &Oper,
    contents: &'a [Content],
) -> Result<&'a [Content], Memory>
    ensures { IfOk result (λ left. (to.new ≡ to.old ++ (spec.oper_answered oper.now contents.now).0) × (left.now ≡ (spec.oper_answered oper.now contents.now).1)) }
{
    match oper {
        Oper::Paths(..) => match oper_filled(oper, contents) {
            Ok((filled, left)) => {
                to.push(filled)?;
                Ok(left)
            }
            Err(fault) => Err(fault),
        },
        Oper::Commit => {
            to.push(Oper::CommitResponse(next_code(contents)))?;
            Ok(later(contents))
        }
        Oper::Trcomp => Ok(later(contents)),
        Oper::CommitResponse(_) => Ok(contents),
    }
}

fn opers_answered<'a>(
    opers: &List<Oper>,
    contents: &'a [Content],
) -> Result<(List<Oper>, &'a [Content]), Memory>
    ensures { IfOk result (λ r. (r.0, r.1.now) ≡ spec.opers_answered opers.now contents.now) }
{
    let mut others = List::new(opers.alloc());
    let mut left = contents;
    for oper in opers.as_slice() {
        left = push_oper(&mut others, oper, left)?;
    }
    Ok((others, left))
}

// Appends a select of these operations, where there is one.
fn push_select(to: &mut List<Select>, select: &Select, opers: List<Oper>) -> Result<(), Memory>
    ensures { OnOk result (to.new ≡ to.old ++ select_with select.now opers) }
{
    if opers.is_empty() {
        return Ok(());
    }
    to.push(Select {
        class: select.class,
        instance: select.instance,
        opers,
    })
}

/// The selects with a result in each leaf, in the order of the codes, one for each operation: a leaf, a COMMIT or a TRCOMP. COMMIT becomes
/// COMMIT-RESPONSE; TRCOMP is left out, and so is a select that is left empty.
pub fn answered_selects(
    alloc: Global,
    selects: &[Select],
    codes: &[Code],
) -> Result<List<Select>, Memory>
    ensures { IfOk result (λ others. others ≡ spec.answered_selects selects.now codes.now) }
{
    let contents = results(alloc, codes)?;
    let mut others = List::new(alloc);
    let mut left = contents.as_slice();
    for select in selects {
        let (opers, later) = match opers_answered(&select.opers, left) {
            Ok(answered) => answered,
            Err(fault) => return Err(fault),
        };
        push_select(&mut others, select, opers)?;
        left = later;
    }
    Ok(others)
}
