// When calls of a master are refused.
ghost use Rattle.std.specs.Prelude.{◌≡◌, ◌+◌, ◌||◌, ℕ, None, not, nat_lt, is_some, option_map};
ghost use Rattle.fc_protocol.specs.MasterMachine.{Busy, any_spent, begin_refusal, first_refusal, is_engaged as is_engaged_it, last_count, own_job as own_job_of, part_refusal, refused_if, Spent as Spent_it};
ghost use Rattle.fc_asks.specs.Tables.{counts};
ghost use Rattle.fc_jobs.specs.JobViews.{job_of, jobs_of};
ghost use Rattle.fc_jobs.specs.Scopes.{scope_of};
ghost use Rattle.fc_jobs.specs.Seats.{peer_of};
ghost use Rattle.fc_master.specs.Masters.{core_of};
ghost use Rattle.fc_master.specs.Refusals.{begin_told_by, job_refusal, peer_refusal};

use crate::busy::{busy_at, is_engaged};
use crate::faults::BeginFault;
use crate::master::Master;
use crate::seats::seat_of;
use crate::spending::last_at;
use fc_base::{FeId, TxnId};
use fc_jobs::{Job, LAST, Seat, is_same};

/// The most participants of a transaction.
pub const MOST_PARTICIPANTS: usize = 64;

/// The first job of this transaction that the master has begun itself.
pub fn own_job(txn: TxnId, jobs: &[Job]) -> Option<&Job>
    ensures { option_map (λ j. job_of j.now) result ≡ own_job_of txn (jobs_of jobs.now) }
{
    for job in jobs {
        if is_same(txn, job.txn) && job.mine {
            return Some(job);
        }
    }
    None
}

// Whether the element has not answered under this epoch, or is in doubt or lost.
fn is_unready(seat: &Seat) -> bool
    ensures { result ≡ not seat.now.answered || (seat.now.doubt || seat.now.lost) }
{
    !seat.answered || (seat.doubt || seat.lost)
}

// A plain change or a floor is not answered at the element.
fn engaged_fault(seat: &Seat) -> Option<BeginFault>
    ensures told { (e : ℕ) → begin_told_by result ≡ refused_if (is_engaged_it (peer_of e seat.now)) (Busy seat.now.element None) }
    ensures sure { is_some (begin_told_by result) ≡ is_some result }
{
    if is_engaged(seat) {
        return Some(BeginFault::Busy {
            element: seat.element,
            txn: None,
        });
    }
    None
}

// Why the element of this seat may take no part beside these jobs.
fn seat_fault(seat: &Seat, scope: &[(u32, u32)], jobs: &[Job]) -> Option<BeginFault>
    ensures told { (e : ℕ) → begin_told_by result ≡ peer_refusal (peer_of e seat.now) seat.now.element scope.now (jobs_of jobs.now) }
    ensures sure { is_some (begin_told_by result) ≡ is_some result }
{
    let element = seat.element;
    if is_unready(seat) {
        return Some(BeginFault::NotReady { element });
    }
    match busy_at(element, scope, jobs) {
        Some(txn) => Some(BeginFault::Busy {
            element,
            txn: Some(txn),
        }),
        None => engaged_fault(seat),
    }
}

impl Master {
    // Why the element may take no part.
    pub(crate) fn part_fault(&self, element: FeId, scope: &[(u32, u32)]) -> Option<BeginFault>
        ensures told { begin_told_by result ≡ part_refusal (core_of self.now) element scope.now }
        ensures sure { is_some (begin_told_by result) ≡ is_some result }
    {
        match seat_of(element, self.seats.as_slice()) {
            None => Some(BeginFault::Stranger { element }),
            Some(seat) => seat_fault(seat, scope, self.jobs.open()),
        }
    }

    // Why the first participant of the job that may take no part may not.
    fn parts_fault(&self, job: &Job) -> Option<BeginFault>
        ensures told { begin_told_by result ≡ first_refusal (core_of self.now) job.now.participants (λ p. scope_of p job.now.scopes) }
        ensures sure { is_some (begin_told_by result) ≡ is_some result }
    {
        for element in job.participants.as_slice() {
            let scope = job.scope_at(*element);
            if let Some(fault) = self.part_fault(*element, scope) {
                return Some(fault);
            }
        }
        None
    }

    // Whether the sequence of a participant of the job would pass the last one.
    fn is_any_spent(&self, job: &Job) -> bool
        ensures { result ≡ any_spent (core_of self.now) job.now.participants (counts job.now.changes) }
    {
        for element in job.participants.as_slice() {
            let last = u64::from(last_at(*element, self.seats.as_slice()));
            let next = last + u64::from(job.changes_at(*element)) + 3;
            if self.jobs.is_passed(next, *element) {
                return true;
            }
        }
        false
    }

    // No number or no sequence is left for the job.
    fn spent_fault(&self, job: &Job) -> Option<BeginFault>
        ensures told { begin_told_by result ≡ refused_if (nat_lt last_count (self.now.begun + 1) || any_spent (core_of self.now) job.now.participants (counts job.now.changes)) Spent_it }
        ensures sure { is_some (begin_told_by result) ≡ is_some result }
    {
        if self.begun >= LAST {
            return Some(BeginFault::Spent);
        }
        if self.is_any_spent(job) {
            return Some(BeginFault::Spent);
        }
        None
    }

    // Why the participants of the job are too many, may not take part or have no sequence left.
    fn job_fault(&self, job: &Job) -> Option<BeginFault>
        ensures told { begin_told_by result ≡ job_refusal (core_of self.now) job.now.participants (counts job.now.changes) (λ p. scope_of p job.now.scopes) }
        ensures sure { is_some (begin_told_by result) ≡ is_some result }
    {
        match self.parts_fault(job) {
            Some(fault) => Some(fault),
            None => self.spent_fault(job),
        }
    }

    // Why the job may not begin.
    pub(crate) fn begin_fault(&self, job: &Job) -> Option<BeginFault>
        ensures { begin_told_by result ≡ begin_refusal (core_of self.now) job.now.participants (counts job.now.changes) (λ p. scope_of p job.now.scopes) }
    {
        if let Some(seen) = self.deposed {
            return Some(BeginFault::Deposed { seen });
        }
        let count = job.participants.len();
        if count > MOST_PARTICIPANTS {
            return Some(BeginFault::TooMany { count });
        }
        self.job_fault(job)
    }
}
