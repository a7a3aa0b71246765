// Running a list of operations in a mode.
ghost use Rattle.std.specs.Prelude.{◌≡◌, replicate, IsTrue, IfOk, OnOk, OnErr};
ghost use Rattle.fc_modes.specs.Modes.{outcome, codes_of, folded};
ghost use Rattle.fc_modes.specs.Reaching.{LeavesState};

use crate::failure::{codes_around, first_failure};
use crate::{Mode, Runner};
use fc_base::{Code, List, Memory};
use std::alloc::Global;

/// Runs the operations in this mode, and gives the code of each. After an `Err` the state is as before. Each mark that
/// it made has ended, and those that stood before still stand.
pub fn run_mode<R: Runner>(
    alloc: Global,
    runner: &mut R,
    mode: Mode,
    ops: &[R::Op],
) -> Result<List<Code>, Memory>
    ensures codes { IfOk result (λ codes. codes ≡ (outcome R.effect mode (R.state runner.old) ops.now).codes) }
    ensures state { OnOk result (R.state runner.new ≡ (outcome R.effect mode (R.state runner.old) ops.now).state) }
    ensures err { OnErr result (R.state runner.new ≡ R.state runner.old) }
    ensures marks { R.marked runner.new ≡ R.marked runner.old }
{
    let mark = runner.mark()?;
    match attempt_all(alloc, runner, mode, ops) {
        Ok(attempt) => {
            if attempt.stays {
                runner.release(mark);
            } else {
                runner.rollback(mark);
            }
            Ok(List::from_vec(attempt.codes))
        }
        Err(memory) => {
            runner.rollback(mark);
            Err(memory)
        }
    }
}

// The codes of the operations, and whether what was done is to stay.
#[derive(Drop)]
struct Attempt {
    codes: Vec<Code>,
    stays: bool,
}

// Runs the operations; what was done may have to be undone.
fn attempt_all<R: Runner>(
    alloc: Global,
    runner: &mut R,
    mode: Mode,
    ops: &[R::Op],
) -> Result<Attempt, Memory>
    ensures codes { IfOk result (λ attempt. attempt.codes.items ≡ (outcome R.effect mode (R.state runner.old) ops.now).codes) }
    ensures state { IfOk result (λ attempt. LeavesState R.effect mode (R.state runner.old) ops.now attempt.stays (R.state runner.new)) }
    ensures marks { R.marked runner.new ≡ R.marked runner.old }
{
    match mode {
        Mode::Continue => {
            let codes = go_on(alloc, runner, ops)?;
            Ok(Attempt { codes, stays: true })
        }
        Mode::AllOrNone => match first_failure(runner, ops)? {
            Some(failure) => {
                let codes = codes_around(alloc, Code::UNSPECIFIED_ERROR, failure, ops.len())?;
                Ok(Attempt {
                    codes,
                    stays: false,
                })
            }
            None => done(alloc, ops.len()),
        },
        Mode::UntilFailure => match first_failure(runner, ops)? {
            Some(failure) => {
                let codes = codes_around(alloc, Code::SUCCESS, failure, ops.len())?;
                Ok(Attempt { codes, stays: true })
            }
            None => done(alloc, ops.len()),
        },
    }
}

// Applies all operations, and gives the code of each.
fn go_on<R: Runner>(alloc: Global, runner: &mut R, ops: &[R::Op]) -> Result<Vec<Code>, Memory>
    ensures codes { IfOk result (λ codes. codes.items ≡ codes_of R.effect (R.state runner.old) ops.now) }
    ensures state { OnOk result (R.state runner.new ≡ folded R.effect (R.state runner.old) ops.now) }
    ensures marks { R.marked runner.new ≡ R.marked runner.old }
{
    let mut codes = Vec::new(alloc);
    for op in ops {
        let code = runner.apply(op)?;
        codes.push(code)?;
    }
    Ok(codes)
}

// All of so many operations were done.
fn done(alloc: Global, count: usize) -> Result<Attempt, Memory>
    ensures codes { IfOk result (λ attempt. attempt.codes.items ≡ replicate count 0) }
    ensures stays { IfOk result (λ run. IsTrue run.stays) }
{
    let mut codes = Vec::new(alloc);
    codes.resize(count, Code::SUCCESS)?;
    Ok(Attempt { codes, stays: true })
}
