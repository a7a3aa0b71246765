// The report on a control element.
ghost use Rattle.std.specs.Prelude.{◌≡◌, ◌++◌, IfOk, OnOk, OnErr, string_bytes};
ghost use Rattle.std.specs.List.{flat_map};
ghost use Rattle.fc_jobs.specs.JobViews.{job_of, jobs_of};
ghost use Rattle.fc_master.specs.Masters.{core_of};
ghost use Rattle.fc_master.specs.Reports as spec;

use crate::busy::is_settled;
use crate::master::Master;
use fc_base::{Epoch, Memory, TxnId};
use fc_jobs::Job;
use fc_protocol::Decision;
use std::alloc::Global;

// The line on a life.
#[tactic(auto, unfolding(crate::specs::Reports::life_line))]
fn life_line(alloc: Global, epoch: Epoch, deposed: Option<u32>) -> Result<String, Memory>
    ensures { IfOk result (λ line. string_bytes line ≡ spec.life_line epoch deposed) }
{
    let word = epoch.get();
    let number = word % 256;
    let round = word / 256;
    match deposed {
        None => Ok(format!(in alloc; "controller {number} round {round} epoch {word}\n")?),
        Some(seen) => {
            Ok(format!(in alloc;
                "controller {number} round {round} epoch {word} deposed {seen}\n"
            )?)
        }
    }
}

// What has become of the job at all its participants; none while it is not settled.
fn outcome(job: &Job) -> Option<Decision>
    ensures { result ≡ spec.outcome (job_of job.now) }
{
    if is_settled(job) {
        return job.decision;
    }
    None
}

// The line on a transaction.
#[tactic(auto, unfolding(crate::specs::Reports::txn_line))]
fn txn_line(alloc: Global, txn: TxnId, outcome: Option<Decision>) -> Result<String, Memory>
    ensures { IfOk result (λ line. string_bytes line ≡ spec.txn_line txn outcome) }
{
    match outcome {
        None => Ok(format!(in alloc; "txn {txn} unsettled\n")?),
        Some(decision) => match decision {
            Decision::Complete => Ok(format!(in alloc; "txn {txn} completed\n")?),
            Decision::Abort => Ok(format!(in alloc; "txn {txn} aborted\n")?),
        },
    }
}

// Appends the line on a job.
fn put_job(alloc: Global, lines: &mut Vec<u8>, job: &Job) -> Result<(), Memory>
    ensures { OnOk result (lines.new.items ≡ lines.old.items ++ spec.job_line (job_of job.now)) }
{
    let line = txn_line(alloc, job.txn, outcome(job))?;
    lines.extend_from_slice(line.as_bytes())?;
    Ok(())
}

// Appends the lines on jobs.
fn put_jobs(alloc: Global, lines: &mut Vec<u8>, jobs: &[Job]) -> Result<(), Memory>
    ensures { OnOk result (lines.new.items ≡ lines.old.items ++ flat_map spec.job_line (jobs_of jobs.now)) }
{
    for job in jobs {
        put_job(alloc, lines, job)?;
    }
    Ok(())
}

impl Master {
    // The lines of the report.
    fn lines(&self) -> Result<Vec<u8>, Memory>
        ensures { IfOk result (λ lines. lines.items ≡ spec.report_of (core_of self.now)) }
    {
        let head = life_line(self.life.alloc, self.life.epoch, self.deposed)?;
        let mut lines = Vec::from_slice(self.life.alloc, head.as_bytes())?;
        put_jobs(self.life.alloc, &mut lines, self.jobs.as_slice())?;
        Ok(lines)
    }

    /// Appends the report: a line with the number of the control element, the round, the epoch and the greater epoch that has deposed it,
    /// if one has; and a line on each transaction that it drives, in the order of [`Master::jobs`], with what has become of it at all
    /// participants. After an `Err` nothing has changed.
    pub fn report(&self, into: &mut Vec<u8>) -> Result<(), Memory>
        ensures ok { OnOk result (into.new.items ≡ into.old.items ++ spec.report_of (core_of self.now)) }
        ensures err { OnErr result (into.new.items ≡ into.old.items) }
    {
        let lines = self.lines()?;
        into.extend_from_slice(lines.as_slice())?;
        Ok(())
    }
}
