// What all participants answered, and what that decides.
ghost use Rattle.std.specs.Prelude.{◌≡◌};
ghost use Rattle.fc_protocol.specs.Decide.{decide as decided};

use fc_base::Epoch;
use fc_protocol::{Answer, Decision, Seen};

/// The decision of a life of this epoch by the answers of all participants of a transaction, in any order (this profile's own): none
/// where one of them is missing or was given under another epoch, else to complete where one has completed or all have prepared, and
/// to abort where not.
pub fn decide(epoch: Epoch, answers: &[Option<Answer>]) -> Option<Decision>
    ensures { result ≡ decided epoch answers.now }
{
    let mut completed = false;
    let mut aborted = false;
    let mut prepared = true;
    for answer in answers {
        let seen = match answer {
            Some(answer) => {
                if answer.epoch != epoch {
                    return None;
                }
                answer.seen
            }
            None => return None,
        };
        completed = completed || seen == Seen::Completed;
        aborted = aborted || seen == Seen::Aborted;
        prepared = prepared && seen == Seen::Prepared;
    }
    if completed {
        return Some(Decision::Complete);
    }
    if !aborted && prepared {
        return Some(Decision::Complete);
    }
    Some(Decision::Abort)
}
