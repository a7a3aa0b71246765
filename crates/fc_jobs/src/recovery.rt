// Transactions that are found at elements.
ghost use Rattle.std.specs.Prelude.{◌≡◌, [], ◌∷◌, is_some, IfOk, OnOk};
ghost use Rattle.fc_protocol.specs.Jobs.{discover as discovered, find, recovered as recovered_from};
ghost use Rattle.fc_protocol.specs.Messages.{same};
ghost use Rattle.fc_jobs.specs.JobViews.{job_of, jobs_of};

use crate::effects::is_same;
use crate::job::Job;
use fc_base::{Duplicate, List, Memory, TxnId};
use fc_protocol::TxnEntry;
use std::alloc::Global;

// Whether there is a job of the transaction.
fn has_job(txn: TxnId, jobs: &[Job]) -> bool
    ensures { result ≡ is_some (find txn (jobs_of jobs.now)) }
{
    for job in jobs {
        if is_same(txn, job.txn) {
            return true;
        }
    }
    false
}

// The job of a transaction that was found.
fn recovered(alloc: Global, entry: &TxnEntry) -> Result<Job, Memory>
    ensures { IfOk result (λ j. job_of j ≡ recovered_from entry.now) }
{
    let participants = entry.participants.copy()?;
    Ok(Job {
        txn: entry.txn,
        mine: false,
        participants,
        decision: None,
        settled: List::new(alloc),
        changes: List::new(alloc),
        scopes: List::new(alloc),
        done: List::new(alloc),
        answers: List::new(alloc),
        stuck: List::new(alloc),
    })
}

// A transaction that an element holds, where there is no job of it, becomes one.
fn discover_one(alloc: Global, jobs: &mut List<Job>, entry: &TxnEntry) -> Result<(), Memory>
    ensures { OnOk result (jobs_of jobs.new ≡ discovered (entry.now ∷ []) (jobs_of jobs.old)) }
{
    if has_job(entry.txn, jobs.as_slice()) {
        return Ok(());
    }
    jobs.push(recovered(alloc, entry)?)
}

/// Each transaction that an element holds, and of which there is no job, becomes one.
pub fn discover(alloc: Global, jobs: &mut List<Job>, entries: &[TxnEntry]) -> Result<(), Memory>
    ensures { OnOk result (jobs_of jobs.new ≡ discovered entries.now (jobs_of jobs.old)) }
{
    for entry in entries {
        discover_one(alloc, jobs, entry)?;
    }
    Ok(())
}
