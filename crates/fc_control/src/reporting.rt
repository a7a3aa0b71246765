// The report on a control element with a plan.
ghost use Rattle.std.specs.Prelude.{◌≡◌, ◌++◌, IfOk, OnOk, OnErr, string_bytes};
ghost use Rattle.std.specs.List.{flat_map, list_all};
ghost use Rattle.fc_jobs.specs.JobViews.{job_of, jobs_of};
ghost use Rattle.fc_protocol.specs.Jobs.{is_settled as is_settled_it};
ghost use Rattle.fc_control.specs.Controls.{control_of};
ghost use Rattle.fc_control.specs.Reports as spec;
ghost use Rattle.fc_documents.specs.declared.transaction.PlanTxn.{PlanTxn as Planned};

use crate::control::Control;
use fc_base::Memory;
use fc_documents::PlanTxn;
use fc_master::Job;
use std::alloc::Global;

// Whether every participant of the job has settled.
fn is_settled(job: &Job) -> bool
    ensures { result ≡ is_settled_it (job_of job.now) }
{
    for participant in job.participants.as_slice() {
        if !job.has_settled(*participant) {
            return false;
        }
    }
    true
}

// Whether every job has.
fn are_settled(jobs: &[Job]) -> bool
    ensures { result ≡ list_all is_settled_it (jobs_of jobs.now) }
{
    for job in jobs {
        if !is_settled(job) {
            return false;
        }
    }
    true
}

// The line of a transaction that was not begun.
#[tactic(auto, unfolding(crate::specs::Reports::unbegun_line))]
fn unbegun_line(alloc: Global, name: &str) -> Result<String, Memory>
    ensures { IfOk result (λ line. string_bytes line ≡ spec.unbegun_line name.now) }
{
    Ok(format!(in alloc; "unbegun {name}\n")?)
}

// Appends the lines of transactions that were not begun.
fn put_unbegun(alloc: Global, lines: &mut Vec<u8>, planned: &[PlanTxn]) -> Result<(), Memory>
    ensures { OnOk result (lines.new.items ≡ lines.old.items ++ flat_map (λ (t : Planned). spec.unbegun_line t.name) planned.now) }
{
    for transaction in planned {
        let line = unbegun_line(alloc, transaction.name.as_str())?;
        lines.extend_from_slice(line.as_bytes())?;
    }
    Ok(())
}

impl Control {
    // The transactions of the plan that are not begun.
    fn unbegun(&self) -> &[PlanTxn]
        ensures { result.now ≡ spec.unbegun (control_of self.now) }
    {
        let plan = self.transactions();
        if self.begun.len() >= plan.len() {
            return &[];
        }
        &plan[self.begun.len()..]
    }

    /// Whether every transaction of the plan is begun, and every one that it drives settled.
    pub fn is_done(&self) -> bool
        ensures { result ≡ spec.is_done (control_of self.now) }
    {
        self.begun.len() >= self.transactions().len() && are_settled(self.master.jobs())
    }

    // The lines of the report.
    fn lines(&self) -> Result<Vec<u8>, Memory>
        ensures { IfOk result (λ lines. lines.items ≡ spec.report_of (control_of self.now)) }
    {
        let mut lines = Vec::new(self.alloc);
        self.master.report(&mut lines)?;
        put_unbegun(self.alloc, &mut lines, self.unbegun())?;
        Ok(lines)
    }

    /// Appends the report: that of the master, and a line `unbegun NAME` for each transaction of the plan that was not begun, in the order of
    /// the plan. After an `Err` nothing has changed.
    pub fn report(&self, into: &mut Vec<u8>) -> Result<(), Memory>
        ensures ok { OnOk result (into.new.items ≡ into.old.items ++ spec.report_of (control_of self.now)) }
        ensures err { OnErr result (into.new.items ≡ into.old.items) }
    {
        let lines = self.lines()?;
        into.extend_from_slice(lines.as_slice())?;
        Ok(())
    }
}
