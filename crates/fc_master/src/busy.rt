// What is in the way of a transaction or of a plain change.
ghost use Rattle.std.specs.Prelude.{◌≡◌, ◌&&◌, ℕ};
ghost use Rattle.fc_asks.specs.Bodies.{body_of};
ghost use Rattle.fc_protocol.specs.Jobs.{is_settled as is_settled_it};
ghost use Rattle.fc_protocol.specs.MasterMachine.{busy_at as busy_among, is_engaged as is_engaged_it, is_open_at as is_open_it, is_plain as is_plain_it, plain_waits as plain_waits_at, scope_at as scope_of_it};
ghost use Rattle.fc_protocol.specs.Scopes.{lists as lists_it, meets as meets_it, shares as shares_it};
ghost use Rattle.fc_jobs.specs.JobViews.{job_of, jobs_of};
ghost use Rattle.fc_jobs.specs.Seats.{peer_of};

use fc_asks::Asks;
use fc_base::{FeId, TxnId};
use fc_jobs::{Job, Seat, among};

// Whether the instance stands in the scope.
fn lists(scope: &[(u32, u32)], instance: (u32, u32)) -> bool
    ensures { result ≡ lists_it scope.now instance }
{
    for other in scope {
        if instance.0 == other.0 && instance.1 == other.1 {
            return true;
        }
    }
    false
}

// Whether some instance stands in both scopes.
fn shares(one: &[(u32, u32)], other: &[(u32, u32)]) -> bool
    ensures { result ≡ shares_it one.now other.now }
{
    for instance in one {
        if lists(other, *instance) {
            return true;
        }
    }
    false
}

// Whether two scopes meet: one is empty, or some instance stands in both.
fn meets(one: &[(u32, u32)], other: &[(u32, u32)]) -> bool
    ensures { result ≡ meets_it one.now other.now }
{
    if one.is_empty() || other.is_empty() {
        return true;
    }
    shares(one, other)
}

// Whether every participant of the job has settled.
pub fn is_settled(job: &Job) -> bool
    ensures { result ≡ is_settled_it (job_of job.now) }
{
    for participant in job.participants.as_slice() {
        if !job.has_settled(*participant) {
            return false;
        }
    }
    true
}

// Whether the job names the element and is not settled.
pub fn is_open_at(element: FeId, job: &Job) -> bool
    ensures { result ≡ is_open_it element (job_of job.now) }
{
    among(element, job.participants.as_slice()) && !is_settled(job)
}

// What the job may change at the element; one that was found may change anything.
fn scope_at(element: FeId, job: &Job) -> &[(u32, u32)]
    ensures { result.now ≡ scope_of_it element (job_of job.now) }
{
    if job.mine {
        return job.scope_at(element);
    }
    &[]
}

// Whether the job is in the way of another one with this scope at the element.
fn is_in_way(element: FeId, scope: &[(u32, u32)], job: &Job) -> bool
    ensures { result ≡ is_open_it element (job_of job.now) && meets_it (scope_of_it element (job_of job.now)) scope.now }
{
    is_open_at(element, job) && meets(scope_at(element, job), scope)
}

// The transaction of the first job that is in the way of another one with this scope at the element.
pub fn busy_at(element: FeId, scope: &[(u32, u32)], jobs: &[Job]) -> Option<TxnId>
    ensures { result ≡ busy_among element scope.now (jobs_of jobs.now) }
{
    for job in jobs {
        if is_in_way(element, scope, job) {
            return Some(job.txn);
        }
    }
    None
}

// Whether it is a plain change.
fn is_plain(asks: &Asks) -> bool
    ensures { (e : ℕ) → result ≡ is_plain_it (body_of e asks.now) }
{
    match asks {
        Asks::Plain => true,
        Asks::Claim
        | Asks::Ask
        | Asks::Record(_)
        | Asks::Sot(_, _, _)
        | Asks::Mot(_, _)
        | Asks::Eot(_)
        | Asks::Trcomp(_)
        | Asks::Abt(_)
        | Asks::Floor(_) => false,
    }
}

// Whether a plain change waits at the element.
fn plain_waits(seat: &Seat) -> bool
    ensures { (e : ℕ) → result ≡ plain_waits_at (peer_of e seat.now).waits }
{
    match &seat.waits {
        None => false,
        Some(waits) => is_plain(&waits.asks),
    }
}

// Whether a plain change waits at the element, or a floor is not answered there.
pub fn is_engaged(seat: &Seat) -> bool
    ensures { (e : ℕ) → result ≡ is_engaged_it (peer_of e seat.now) }
{
    plain_waits(seat) || seat.owes.is_some()
}
