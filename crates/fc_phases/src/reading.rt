// What a Config asks.
ghost use Rattle.std.specs.Prelude.{◌≡◌, IfOk, option_map};
ghost use Rattle.fc_phases.specs.Asking as spec;
ghost use Rattle.fc_phases.specs.Shapes.{first_full};

use crate::asked::Asked;
use crate::shapes::{behind, first_full, only_full};
use crate::values::{Subject, read_opening, read_subject};
use fc_base::Memory;
use fc_lfbs::Mastership;
use fc_path::{Oper, Select};
use fc_types::Ty;
use fc_wire::read_u32;
use std::alloc::Global;

fn claim_word(selects: &[Select]) -> Option<u32>
    ensures { result ≡ spec.claim_word selects.now }
{
    match only_full(1, selects) {
        Some(bytes) => word_in(bytes),
        None => None,
    }
}

fn word_in(bytes: &[u8]) -> Option<u32>
    ensures { result ≡ spec.word_bytes bytes.now }
{
    if bytes.len() == 4 {
        Some(read_u32(bytes, 0))
    } else {
        None
    }
}

fn floor_in(selects: &[Select]) -> Option<Subject>
    ensures { result ≡ spec.floor_in selects.now }
{
    match only_full(6, selects) {
        Some(bytes) => floor_at(bytes),
        None => None,
    }
}

fn floor_at(bytes: &[u8]) -> Option<Subject>
    ensures { result ≡ spec.floor_bytes bytes.now }
{
    if bytes.len() == 8 {
        Some(Subject {
            epoch: read_u32(bytes, 0),
            number: read_u32(bytes, 4),
        })
    } else {
        None
    }
}

fn plain_asked(selects: &[Select]) -> Asked
    ensures { result ≡ spec.plain_asked selects.now }
{
    match claim_word(selects) {
        Some(word) => Asked::Claim(word),
        None => match floor_in(selects) {
            Some(floor) => Asked::Floor(floor),
            None => Asked::Plain,
        },
    }
}

fn ended(subject: Subject, behind: Option<&[Oper]>) -> Asked
    ensures { result ≡ spec.ended subject (option_map (λ x. x.now) behind.entry) }
{
    match behind {
        None => Asked::Malformed,
        Some(opers) => match opers {
            [oper] => ended_by(subject, oper),
            _ => Asked::Malformed,
        },
    }
}

fn ended_by(subject: Subject, oper: &Oper) -> Asked
    ensures { result ≡ spec.ended_by subject oper.now }
{
    match oper {
        Oper::Paths(_, _) => Asked::Malformed,
        Oper::Commit => Asked::Commit(subject),
        Oper::Trcomp => Asked::Complete(subject),
        Oper::CommitResponse(_) => Asked::Malformed,
    }
}

fn aborted(subject: Subject, behind: Option<&[Oper]>) -> Asked
    ensures { result ≡ spec.aborted subject (option_map (λ x. x.now) behind.entry) }
{
    match behind {
        None => Asked::Malformed,
        Some(opers) => match opers {
            [] => Asked::Abort(subject),
            _ => Asked::Malformed,
        },
    }
}

fn started(alloc: Global, ty: &Ty, selects: &[Select]) -> Result<Asked, Memory>
    ensures { IfOk result (λ asked. asked ≡ spec.started (spec.opening_at ty.now (first_full 4 selects.now))) }
{
    let bytes = match first_full(4, selects) {
        Some(bytes) => bytes,
        None => return Ok(Asked::Malformed),
    };
    match read_opening(alloc, ty, bytes)? {
        Some(opening) => Ok(Asked::Start(opening)),
        None => Ok(Asked::Malformed),
    }
}

fn subject_at(alloc: Global, ty: &Ty, selects: &[Select]) -> Result<Option<Subject>, Memory>
    ensures { IfOk result (λ x. x ≡ spec.subject_at ty.now (first_full 5 selects.now)) }
{
    match first_full(5, selects) {
        Some(bytes) => read_subject(alloc, ty, bytes),
        None => Ok(None),
    }
}

fn with_subject(tp: u8, subject: Option<Subject>, selects: &[Select]) -> Asked
    ensures { result ≡ spec.with_subject tp subject selects.now }
{
    let subject = match subject {
        Some(subject) => subject,
        None => return Asked::Malformed,
    };
    match tp {
        1 => Asked::Change(subject),
        2 => ended(subject, behind(selects)),
        _ => aborted(subject, behind(selects)),
    }
}

/// What a Config asks, by its execution mode, its flags of a transaction and its selects.
///
/// `em` is the number of the execution mode, 1 for all or none; `at` tells whether it is of a transaction, and `tp` is the phase: 0 start, 1
/// middle, 2 end, and any other abort (RFC 5810, section 6.1). That a claim has to be the first message of a life is not looked at here.
pub fn read_config(
    alloc: Global,
    types: &Mastership,
    em: u8,
    at: bool,
    tp: u8,
    selects: &[Select],
) -> Result<Asked, Memory>
    ensures exact { IfOk result (λ asked. asked ≡ spec.asked types.now.opening types.now.subject em at tp selects.now) }
{
    if !at {
        return Ok(plain_asked(selects));
    }
    if em != 1 {
        return Ok(Asked::Malformed);
    }
    if tp == 0 {
        started(alloc, &types.opening, selects)
    } else {
        let subject = subject_at(alloc, &types.subject, selects)?;
        Ok(with_subject(tp, subject, selects))
    }
}
