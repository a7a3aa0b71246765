// How far the sequences of Configs go.
ghost use Rattle.std.specs.Prelude.{◌≡◌, ◌<◌, ◌≤◌, ◌+◌, ◌^◌, ℕ, Option, nat_lt};
ghost use Rattle.fc_base.specs.Ids.{Txn};
ghost use Rattle.fc_protocol.specs.MasterMachine.{kept_for as kept_of, last_count, reserved};
ghost use Rattle.fc_jobs.specs.JobViews.{job_of, jobs_of};
ghost use Rattle.fc_jobs.specs.Seats.{peer_at};

use crate::busy::is_open_at;
use crate::seats::seat_of;
use fc_base::FeId;
use fc_jobs::{Job, LAST, Seat};

// The last sequence of a Config to an element; 0 for what is no element.
pub fn last_at(element: FeId, seats: &[Seat]) -> u32
    ensures { (e : ℕ) (w : Option Txn) → result ≡ (peer_at e w seats.now element).last }
{
    match seat_of(element, seats) {
        None => 0,
        Some(seat) => seat.last,
    }
}

// How many Configs the job may yet send the element.
fn kept_for(element: FeId, job: &Job) -> u64
    ensures same { result ≡ kept_of element (job_of job.now) }
    ensures small { result < 2 ^ 17 }
{
    if !is_open_at(element, job) {
        return 0;
    }
    if job.mine {
        u64::from(job.changes_at(element)) + 3
    } else {
        1
    }
}

// Whether a sequence passes the last one, once all that the jobs may yet send the element is added to it.
pub fn is_passed(sequence: u64, element: FeId, jobs: &[Job]) -> bool
    requires { sequence < 2 ^ 40 }
    ensures { result ≡ nat_lt last_count (sequence + reserved element (jobs_of jobs.now)) }
{
    let mut sum = sequence;
    for job in jobs {
        if sum > u64::from(LAST) {
            return true;
        }
        sum += kept_for(element, job);
    }
    sum > u64::from(LAST)
}
