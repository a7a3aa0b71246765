// The elements of a master may forget what is settled.
ghost use Rattle.std.specs.Prelude.{◌≡◌, ◌||◌, not, ℕ, Some, None, IfOk, IfErr, IfSome, OnOk, OnErr, is_some, map};
ghost use Rattle.std.specs.List.{list_any};
ghost use Rattle.fc_protocol.specs.MasterMachine.{finish, forget_refusal, forgets, unsettled};
ghost use Rattle.fc_jobs.specs.JobViews.{jobs_of};
ghost use Rattle.fc_jobs.specs.Sending.{spelled};
ghost use Rattle.fc_master.specs.Masters.{core_of};
ghost use Rattle.fc_master.specs.Refusals as spec;
ghost use Rattle.fc_master.specs.Refusals.{forget_told, forget_told_by};

use crate::busy::{is_engaged, is_settled};
use crate::faults::ForgetFault;
use crate::master::Master;
use fc_base::{Duplicate, List, Memory, TxnId};
use fc_jobs::{CeOut, Job, LAST, Seat, decided, send_due};
use std::alloc::Global;

// The first element that has not answered under this epoch, or is lost.
fn unready_fault(seats: &[Seat]) -> Option<ForgetFault>
    ensures told { (e : ℕ) → forget_told_by result ≡ spec.unready_seats e seats.now }
    ensures sure { is_some (forget_told_by result) ≡ is_some result }
{
    for seat in seats {
        if !seat.answered || seat.lost {
            return Some(ForgetFault::NotReady {
                element: seat.element,
            });
        }
    }
    None
}

// The first element at which a plain change or an earlier floor is not answered.
fn engaged_fault(seats: &[Seat]) -> Option<ForgetFault>
    ensures told { (e : ℕ) → forget_told_by result ≡ spec.engaged_seats e seats.now }
    ensures sure { is_some (forget_told_by result) ≡ is_some result }
{
    for seat in seats {
        if is_engaged(seat) {
            return Some(ForgetFault::Busy {
                element: seat.element,
                txn: None,
            });
        }
    }
    None
}

// The first job that is not settled.
fn unsettled_fault(jobs: &[Job]) -> Option<ForgetFault>
    ensures told { forget_told_by result ≡ unsettled (jobs_of jobs.now) }
    ensures sure { is_some (forget_told_by result) ≡ is_some result }
{
    for job in jobs {
        if !is_settled(job) {
            return Some(ForgetFault::Unsettled { txn: job.txn });
        }
    }
    None
}

// Whether the sequence of an element is used up.
fn is_any_last(seats: &[Seat]) -> bool
    ensures { result ≡ list_any spec.is_used_up seats.now }
{
    for seat in seats {
        if seat.last >= LAST {
            return true;
        }
    }
    false
}

// The seat, where this floor is wanted.
fn owing_one(seat: &Seat, floor: TxnId) -> Result<Seat, Memory>
    ensures { IfOk result (λ other. other ≡ spec.seat_owing (Some floor) seat.now) }
{
    let mut other = seat.copy()?;
    other.owes = Some(floor);
    Ok(other)
}

// The seats, where this floor is wanted at each of them.
fn owing_all(alloc: Global, seats: &[Seat], floor: TxnId) -> Result<List<Seat>, Memory>
    ensures { IfOk result (λ others. others ≡ map (spec.seat_owing (Some floor)) seats.now) }
{
    let mut others = List::new(alloc);
    for seat in seats {
        others.push(owing_one(seat, floor)?)?;
    }
    Ok(others)
}

impl Master {
    // Why the elements may not forget.
    fn forget_fault(&self) -> Option<ForgetFault>
        ensures { forget_told_by result ≡ forget_refusal (core_of self.now) }
    {
        if let Some(seen) = self.deposed {
            return Some(ForgetFault::Deposed { seen });
        }
        if let Some(fault) = unready_fault(self.seats.as_slice()) {
            return Some(fault);
        }
        if let Some(fault) = engaged_fault(self.seats.as_slice()) {
            return Some(fault);
        }
        if let Some(fault) = unsettled_fault(self.jobs.open()) {
            return Some(fault);
        }
        if is_any_last(self.seats.as_slice()) {
            return Some(ForgetFault::Spent);
        }
        if self.begun >= LAST {
            return Some(ForgetFault::Spent);
        }
        None
    }

    /// Wants every element to forget each transaction before the next one, and gives what is sent then. The faults are looked for in the
    /// order of [`ForgetFault`]. After an `Err` nothing has changed.
    pub fn forget(&mut self) -> Result<List<CeOut>, ForgetFault>
        ensures refused { IfErr result (λ e. IfSome (forget_told e) (λ r. forget_refusal (core_of self.old) ≡ Some r)) }
        ensures accepted { OnOk result (forget_refusal (core_of self.old) ≡ None) }
        ensures core { OnOk result ((k : ℕ) → core_of self.new ≡ (finish k (forgets (core_of self.old))).master) }
        ensures outs { IfOk result (λ outs. (k : ℕ) → outs ≡ spelled self.old.life (finish k (forgets (core_of self.old))).says) }
        ensures life { self.new.life ≡ self.old.life }
        ensures err { OnErr result (self.new ≡ self.old) }
    {
        if let Some(fault) = self.forget_fault() {
            return Err(fault);
        }
        let floor = TxnId {
            epoch: self.life.epoch,
            number: self.begun + 1,
        };
        let mut seats = owing_all(self.life.alloc, self.seats.as_slice(), floor)?;
        let from = self.jobs.rested;
        let jobs = decided(self.life.alloc, self.life.epoch, self.jobs.open())?;
        let outs = send_due(&self.life, &mut seats, jobs.as_slice(), self.deposed)?;
        self.jobs.replace(from, jobs)?;
        self.seats = seats;
        self.wanted = Some(floor);
        Ok(outs)
    }
}
