// The jobs of a life, of which the first ones rest.
ghost use Rattle.std.specs.Prelude.{◌≡◌, ◌<◌, ◌≤◌, ◌+◌, ◌^◌, ◌&&◌, ◌==◌, ℕ, [], Some, true, nat_lt, length, take, drop, option_map, OnOk, OnErr};
ghost use Rattle.std.specs.List.{list_all};
ghost use Rattle.fc_asks.specs.Bodies.{body_of};
ghost use Rattle.fc_jobs.specs.JobViews.{job_of, jobs_of};
ghost use Rattle.fc_jobs.specs.Seats.{waiting_of};
ghost use Rattle.fc_protocol.specs.MasterMachine.{Waiting, last_count, own_job as own_job_of, reserved};
ghost use Rattle.fc_master.specs.Resting as spec;
ghost use Rattle.fc_master.specs.Resting.{LeavesAlone, rests, with_tail};

use crate::busy::is_settled;
use crate::refusals::own_job;
use crate::spending::is_passed;
use fc_asks::Asks;
use fc_base::{Epoch, FeId, List, Memory, TxnId};
use fc_jobs::{Job, Waits};
use std::alloc::Global;
use std::mem;

/// The jobs of a life, in order of their begin or discovery. The first ones rest: each of them is decided and done at all its participants,
/// and so nothing more is sent for them. A response to a later transaction of this life, and a search for its job, do not look at them; an
/// answer to a query, and what concerns a transaction that was found or one of those, look at all.
#[derive(Debug, Drop)]
pub struct Jobs {
    pub(crate) all: List<Job>,
    // The epoch of the life.
    epoch: Epoch,
    // How many rest.
    pub(crate) rested: usize,
    // No own transaction among those has a greater number.
    passed: u32,
    ghost few: { rested ≤ length all },
    ghost rest: { list_all (rests epoch passed) (jobs_of (take rested all)) ≡ true },
}

// Whether the job is decided, and done at every participant.
fn is_done(job: &Job) -> bool
    ensures { result ≡ spec.is_done (job_of job.now) }
{
    job.decision.is_some() && is_settled(job)
}

// The bound on the numbers of own transactions, once the job rests too.
fn bound_with(epoch: Epoch, passed: u32, job: &Job) -> u32
    ensures own { spec.is_early epoch result (job_of job.now) ≡ true }
    ensures more { passed ≤ result }
{
    if job.txn.epoch == epoch && job.txn.number > passed {
        return job.txn.number;
    }
    passed
}

// How many of the first jobs rest, where so many do already, and the bound on the numbers of own transactions among them.
fn rest_of(epoch: Epoch, jobs: &[Job], rested: usize, passed: u32) -> (usize, u32)
    requires few { rested ≤ length jobs.now }
    requires rest { list_all (rests epoch passed) (jobs_of (take rested jobs.now)) ≡ true }
    ensures few { result.0 ≤ length jobs.now }
    ensures rest { list_all (rests epoch result.1) (jobs_of (take result.0 jobs.now)) ≡ true }
{
    let mut passed = passed;
    for at in rested..jobs.len() {
        let job = &jobs[at];
        if !is_done(job) {
            return (at, passed);
        }
        passed = bound_with(epoch, passed, job);
    }
    (jobs.len(), passed)
}

// The transaction whose jobs a response to this changes.
fn named(asks: &Asks) -> Option<TxnId>
    ensures { (e : ℕ) → result ≡ spec.named (body_of e asks.now) }
{
    match asks {
        Asks::Claim => None,
        Asks::Ask => None,
        Asks::Record(_) => None,
        Asks::Plain => None,
        Asks::Floor(_) => None,
        Asks::Sot(txn, _, _) => Some(*txn),
        Asks::Mot(txn, _) => Some(*txn),
        Asks::Eot(txn) => Some(*txn),
        Asks::Trcomp(txn) => Some(*txn),
        Asks::Abt(txn) => Some(*txn),
    }
}

fn lesser(one: usize, other: usize) -> usize
    ensures one { result ≤ one }
    ensures other { result ≤ other }
{
    if one < other { one } else { other }
}

// Puts these jobs in the place of all behind the first so many. After an `Err` nothing has changed.
fn put_tail(jobs: &mut List<Job>, from: usize, tail: List<Job>) -> Result<(), Memory>
    ensures ok { OnOk result (jobs.new ≡ with_tail from jobs.old tail) }
    ensures err { OnErr result (jobs.new ≡ jobs.old) }
{
    let mut tail = tail.into_vec();
    let empty = List::new(jobs.alloc());
    let mut all = mem::replace(jobs, empty).into_vec();
    match all.reserve(tail.len()) {
        Err(_) => {
            *jobs = List::from_vec(all);
            Err(Memory)
        }
        Ok(()) => {
            all.truncate(from);
            let done = all.append(&mut tail);
            *jobs = List::from_vec(all);
            done?;
            Ok(())
        }
    }
}

impl Jobs {
    /// No job, in a life of this epoch.
    pub fn new(alloc: Global, epoch: Epoch) -> Jobs
        ensures { result.all ≡ [] }
    {
        Jobs {
            all: List::new(alloc),
            epoch,
            rested: 0,
            passed: 0,
        }
    }

    /// All jobs.
    pub fn as_slice(&self) -> &[Job]
        ensures { result.now ≡ self.now.all }
    {
        self.all.as_slice()
    }

    /// The jobs behind those that rest.
    pub fn open(&self) -> &[Job]
        ensures { result.now ≡ drop self.now.rested self.now.all }
    {
        &self.all.as_slice()[self.rested..]
    }

    /// The jobs behind the first so many, which rest.
    pub fn behind(&self, from: usize) -> &[Job]
        requires { from ≤ self.now.rested }
        ensures { result.now ≡ drop from self.now.all }
    {
        &self.all.as_slice()[from..]
    }

    // Whether it is an own transaction that is later than all that rest.
    fn is_later(&self, txn: TxnId) -> bool
        ensures { result ≡ (txn.epoch == self.now.epoch && nat_lt self.now.passed txn.number) }
    {
        txn.epoch == self.epoch && txn.number > self.passed
    }

    /// The first job of this transaction that the life has begun itself. Those that rest are passed over where it is later than all of them.
    pub fn own(&self, txn: TxnId) -> Option<&Job>
        ensures { option_map (λ j. job_of j.now) result ≡ own_job_of txn (jobs_of self.now.all) }
    {
        if self.is_later(txn) {
            return own_job(txn, self.open());
        }
        own_job(txn, self.as_slice())
    }

    // Whether a response to this changes no job that rests, as far as can be told at once.
    fn leaves_rested(&self, asks: &Asks) -> bool
        ensures { (e : ℕ) → result ≡ spec.is_beyond self.now.epoch self.now.passed (spec.named (body_of e asks.now)) }
    {
        match named(asks) {
            None => true,
            Some(txn) => self.is_later(txn),
        }
    }

    /// Whether a sequence passes the last one, once all that the jobs may yet send the element is added to it.
    pub fn is_passed(&self, sequence: u64, element: FeId) -> bool
        requires { sequence < 2 ^ 40 }
        ensures { result ≡ nat_lt last_count (sequence + reserved element (jobs_of self.now.all)) }
    {
        is_passed(sequence, element, self.open())
    }

    /// From which job on a response to this may change anything: from the first on, where it may change jobs that rest.
    pub fn from_by(&self, waits: &Option<Waits>) -> usize
        ensures few { result ≤ self.now.rested }
        ensures leaves { (e : ℕ) (o : Waiting) → option_map (waiting_of e) waits.now ≡ Some o → LeavesAlone (jobs_of (take result self.now.all)) o.body }
    {
        match waits {
            None => self.rested,
            Some(waits) => {
                if self.leaves_rested(&waits.asks) {
                    self.rested
                } else {
                    0
                }
            }
        }
    }

    /// Puts these jobs in the place of all behind the first so many. After an `Err` nothing has changed.
    pub fn replace(&mut self, from: usize, tail: List<Job>) -> Result<(), Memory>
        ensures ok { OnOk result (self.new.all ≡ with_tail from self.old.all tail) }
        ensures err { OnErr result (self.new ≡ self.old) }
    {
        put_tail(&mut self.all, from, tail)?;
        let rested = lesser(from, self.rested);
        let (rested, passed) = rest_of(self.epoch, self.all.as_slice(), rested, self.passed);
        self.rested = rested;
        self.passed = passed;
        Ok(())
    }
}
