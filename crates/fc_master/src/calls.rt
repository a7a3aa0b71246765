// What a master is asked to do.
ghost use Rattle.std.specs.Prelude.{◌≡◌, ℕ, Some, None, IfOk, IfErr, IfSome, OnOk, OnErr, map};
ghost use Rattle.fc_protocol.specs.Jobs.{Job as Work, decided_job, given_up};
ghost use Rattle.fc_protocol.specs.MasterMachine.{finish, give_up_refusal, gives_up};
ghost use Rattle.fc_jobs.specs.JobViews.{job_of, jobs_of};
ghost use Rattle.fc_jobs.specs.Sending.{spelled};
ghost use Rattle.fc_master.specs.Masters.{core_of};
ghost use Rattle.fc_master.specs.Refusals.{give_up_told, give_up_told_by};

use crate::faults::GiveUpFault;
use crate::master::Master;
use fc_base::{Duplicate, Epoch, List, Memory, TxnId};
use fc_jobs::{CeOut, Heard, Job, is_same};
use fc_protocol::Decision;
use std::alloc::Global;

// A job, given up where it is that of the transaction.
fn given_up_one(job: &Job, txn: TxnId) -> Result<Job, Memory>
    ensures { IfOk result (λ other. job_of other ≡ given_up txn (job_of job.now)) }
{
    let mut other = job.copy()?;
    if is_same(txn, other.txn) && other.mine && other.decision.is_none() {
        other.decision = Some(Decision::Abort);
    }
    Ok(other)
}

// The jobs, of which that of the transaction is given up, each decided where it can be.
fn given_up_all(alloc: Global, epoch: Epoch, jobs: &[Job], txn: TxnId) -> Result<List<Job>, Memory>
    ensures { IfOk result (λ others. jobs_of others ≡ map (λ (j : Work). decided_job epoch j.decision j) (map (given_up txn) (jobs_of jobs.now))) }
{
    let mut others = List::new(alloc);
    for job in jobs {
        let mut other = given_up_one(job, txn)?;
        other.decide(alloc, epoch)?;
        others.push(other)?;
    }
    Ok(others)
}

impl Master {
    // Why a transaction may not be given up.
    fn give_up_fault(&self, txn: TxnId) -> Option<GiveUpFault>
        ensures { give_up_told_by result ≡ give_up_refusal (core_of self.now) txn }
    {
        if let Some(seen) = self.deposed {
            return Some(GiveUpFault::Deposed { seen });
        }
        match self.jobs.own(txn) {
            None => Some(GiveUpFault::Unknown),
            Some(job) => match job.decision {
                Some(decision) => Some(GiveUpFault::Decided { decision }),
                None => None,
            },
        }
    }

    /// Decides to abort a transaction that the master has begun and not yet decided, and gives what is sent then. The faults are looked
    /// for in the order of [`GiveUpFault`]. After an `Err` nothing has changed.
    pub fn give_up(&mut self, txn: TxnId) -> Result<List<CeOut>, GiveUpFault>
        ensures refused { IfErr result (λ e. IfSome (give_up_told e) (λ r. give_up_refusal (core_of self.old) txn ≡ Some r)) }
        ensures accepted { OnOk result (give_up_refusal (core_of self.old) txn ≡ None) }
        ensures core { OnOk result ((k : ℕ) → core_of self.new ≡ (finish k (gives_up (core_of self.old) txn)).master) }
        ensures outs { IfOk result (λ outs. (k : ℕ) → outs ≡ spelled self.old.life (finish k (gives_up (core_of self.old) txn)).says) }
        ensures life { self.new.life ≡ self.old.life }
        ensures err { OnErr result (self.new ≡ self.old) }
    {
        if let Some(fault) = self.give_up_fault(txn) {
            return Err(fault);
        }
        let from = self.jobs.rested;
        let jobs = given_up_all(self.life.alloc, self.life.epoch, self.jobs.open(), txn)?;
        let seats = self.seats.copy()?;
        let heard = Heard {
            seats,
            jobs,
            deposed: self.deposed,
        };
        let outs = self.finish(heard, from, List::new(self.life.alloc))?;
        Ok(outs)
    }
}
