// A transaction begins.
ghost use Rattle.std.specs.Prelude.{◌≡◌, ◌<◌, ◌-◌, ◌^◌, ◌++◌, ◌∷◌, [], ℕ, Some, None, IfOk, IfErr, IfSome, OnOk, OnErr, length, map, take};
ghost use Rattle.fc_protocol.specs.Jobs.{Job as Work, decided_job, new_job};
ghost use Rattle.fc_protocol.specs.MasterMachine.{begin_refusal, begins, finish, next_txn};
ghost use Rattle.fc_jobs.specs.JobViews.{job_of, jobs_of};
ghost use Rattle.fc_jobs.specs.Plans.{changes_in, counted, participants_of, scoped, scopes_in};
ghost use Rattle.fc_jobs.specs.Sending.{spelled};
ghost use Rattle.fc_master.specs.Masters.{core_of};
ghost use Rattle.fc_master.specs.Refusals.{begin_told};

use crate::faults::BeginFault;
use crate::master::Master;
use fc_asks::TxnPlan;
use fc_base::{Duplicate, Epoch, List, Memory, TxnId};
use fc_jobs::{CeOut, Job, Seat, decided, send_due};
use std::alloc::Global;
use std::mem;

// The jobs and one more, each decided where it can be.
fn with_job(alloc: Global, epoch: Epoch, jobs: &[Job], job: Job) -> Result<List<Job>, Memory>
    ensures { IfOk result (λ others. jobs_of others ≡ map (λ (j : Work). decided_job epoch j.decision j) (jobs_of jobs.now ++ job_of job ∷ [])) }
{
    let mut others = decided(alloc, epoch, jobs)?;
    let mut last = job;
    last.decide(alloc, epoch)?;
    others.push(last)?;
    Ok(others)
}

// The plans without the last one.
fn drop_last(plans: &mut List<TxnPlan>)
    ensures { plans.new ≡ take (length plans.old - 1) plans.old }
{
    let empty = List::new(plans.alloc());
    let mut all = mem::replace(plans, empty).into_vec();
    all.truncate(all.len().saturating_sub(1));
    *plans = List::from_vec(all);
}

impl Master {
    // The job of a plan that begins, with the next number.
    fn next_job(&self, plan: &TxnPlan) -> Result<Job, Memory>
        ensures job { IfOk result (λ j. job_of j ≡ new_job j.txn (participants_of plan.now) (changes_in plan.now) (scopes_in plan.now)) }
        ensures parts { IfOk result (λ j. j.participants ≡ participants_of plan.now) }
        ensures changes { IfOk result (λ j. j.changes ≡ map counted plan.now) }
        ensures scopes { IfOk result (λ j. j.scopes ≡ map scoped plan.now) }
        ensures txn { IfOk result (λ j. self.now.begun < 2 ^ 32 - 1 → j.txn ≡ next_txn (core_of self.now)) }
    {
        let txn = TxnId {
            epoch: self.life.epoch,
            number: self.begun.saturating_add(1),
        };
        Job::begun(self.life.alloc, txn, plan.parts())
    }

    /// Begins the transaction of a plan, and gives its name and what is sent then. The faults are looked for in the order of
    /// [`BeginFault`]. After an `Err` nothing has changed.
    pub fn begin(&mut self, plan: TxnPlan) -> Result<(TxnId, List<CeOut>), BeginFault>
        ensures refused { IfErr result (λ e. IfSome (begin_told e) (λ r. begin_refusal (core_of self.old) (participants_of plan) (changes_in plan) (scopes_in plan) ≡ Some r)) }
        ensures accepted { OnOk result (begin_refusal (core_of self.old) (participants_of plan) (changes_in plan) (scopes_in plan) ≡ None) }
        ensures core { OnOk result ((k : ℕ) → core_of self.new ≡ (finish k (begins (core_of self.old) (participants_of plan) (changes_in plan) (scopes_in plan))).master) }
        ensures outs { IfOk result (λ r. (k : ℕ) → r.1 ≡ spelled self.old.life (finish k (begins (core_of self.old) (participants_of plan) (changes_in plan) (scopes_in plan))).says) }
        ensures txn { IfOk result (λ r. r.0 ≡ next_txn (core_of self.old)) }
        ensures life { OnOk result (self.new.life ≡ record self.old.life { plans = self.old.life.plans ++ plan ∷ [] }) }
        ensures err { OnErr result (self.new ≡ self.old) }
    {
        let job = self.next_job(&plan)?;
        let txn = job.txn;
        if let Some(fault) = self.begin_fault(&job) {
            return Err(fault);
        }
        let from = self.jobs.rested;
        let jobs = with_job(self.life.alloc, self.life.epoch, self.jobs.open(), job)?;
        let mut seats = self.seats.copy()?;
        let outs = send_due(&self.life, &mut seats, jobs.as_slice(), self.deposed)?;
        self.life.plans.push(plan)?;
        match self.jobs.replace(from, jobs) {
            Err(_) => {
                drop_last(&mut self.life.plans);
                Err(BeginFault::Memory)
            }
            Ok(()) => {
                self.seats = seats;
                self.begun += 1;
                Ok((txn, outs))
            }
        }
    }
}
