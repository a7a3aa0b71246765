// Going along the operations up to the first that is refused, and the codes around it.
ghost use Rattle.std.specs.Prelude.{◌≡◌, ◌+◌, ◌-◌, ◌<◌, ◌++◌, ◌∷◌, replicate, IfOk, OnErr};
ghost use Rattle.fc_modes.specs.Reaching.{Reached};

use crate::Runner;
use fc_base::{Code, Memory};
use std::alloc::Global;

/// An operation that was refused.
#[derive(Clone, Copy)]
pub struct Failure {
    /// Its place among the operations.
    pub at: usize,
    /// Its code, which is not that of success.
    pub code: Code,
}

/// Applies the operations up to the first that is refused, and gives that one.
pub fn first_failure<R: Runner>(runner: &mut R, ops: &[R::Op]) -> Result<Option<Failure>, Memory>
    ensures reached { IfOk result (λ failure. Reached R.effect (R.state runner.old) ops.now failure (R.state runner.new)) }
    ensures marks { R.marked runner.new ≡ R.marked runner.old }
{
    for (at, op) in ops.iter().enumerate() {
        let code = runner.apply(op)?;
        if code != Code::SUCCESS {
            return Ok(Some(Failure { at, code }));
        }
    }
    Ok(None)
}

/// The codes where the operation at this place was refused with this code: those before it have one code, and those
/// after it were not done.
pub fn codes_around(
    alloc: Global,
    before: Code,
    failure: Failure,
    count: usize,
) -> Result<Vec<Code>, Memory>
    requires { failure.at < count }
    ensures { IfOk result (λ codes. codes.items ≡ replicate failure.at before ++ failure.code ∷ replicate (count - (failure.at + 1)) 255) }
{
    let mut codes = Vec::new(alloc);
    codes.resize(failure.at, before)?;
    codes.push(failure.code)?;
    codes.resize(count, Code::UNSPECIFIED_ERROR)?;
    Ok(codes)
}
