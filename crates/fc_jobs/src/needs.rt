// What is due at an element.
ghost use Rattle.std.specs.Prelude.{true, not, is_none, ◌&&◌, ◌≡◌, ℕ, Option, Some, None, IfOk, IfSome, option_map, ◌<◌, ◌-◌, ◌^◌};
ghost use Rattle.fc_protocol.specs.Collections.{or_next};
ghost use Rattle.fc_protocol.specs.Jobs.{decision_body, decided_body, own_body, undecided_body, body_by, needs as needed, first_need as first_needed};
ghost use Rattle.fc_protocol.specs.MasterMachine.{count_of, due as due_at, unspent as unspent_at, wanted as wanted_at, floor_body};
ghost use Rattle.fc_jobs.specs.Seats.{peer_of, alone};
ghost use Rattle.fc_asks.specs.Bodies.{body_of};
ghost use Rattle.fc_jobs.specs.JobViews.{job_of, jobs_of};

use crate::job::Job;
use crate::seat::Seat;
use crate::table::{among, look};
use fc_asks::Asks;
use fc_base::{Duplicate, FeId, List, Memory, TxnId};
use fc_protocol::Decision;

/// The greatest sequence, and the greatest count of Queries.
pub const LAST: u32 = 4_294_967_295;

fn tell(txn: TxnId, decision: Decision) -> Asks
    ensures { (e : ℕ) → body_of e result ≡ decision_body txn decision }
{
    match decision {
        Decision::Complete => Asks::Trcomp(txn),
        Decision::Abort => Asks::Abt(txn),
    }
}

// Start, then each change, then end.
fn own_asks(job: &Job, element: FeId) -> Result<Asks, Memory>
    ensures { IfOk result (λ asks. (e : ℕ) → body_of e asks ≡ own_body (job_of job.now) element) }
{
    let done = job.done_at(element);
    if done == 0 {
        let alloc = job.participants.alloc();
        let participants = job.participants.copy()?;
        let scope = List::from_slice(alloc, job.scope_at(element))?;
        return Ok(Asks::Sot(job.txn, participants, scope));
    }
    if done <= job.changes_at(element) {
        Ok(Asks::Mot(job.txn, done))
    } else {
        Ok(Asks::Eot(job.txn))
    }
}

// What an undecided job needs at an element, until that has answered.
fn undecided_asks(job: &Job, element: FeId) -> Result<Option<Asks>, Memory>
    ensures { IfOk result (λ asks. (e : ℕ) → option_map (body_of e) asks ≡ undecided_body (job_of job.now) element) }
{
    if job.answer_of(element).is_some() {
        return Ok(None);
    }
    if job.mine {
        Ok(Some(own_asks(job, element)?))
    } else {
        Ok(Some(Asks::Record(job.txn)))
    }
}

// What a decided job needs at an element, until that has settled or is stuck.
fn decided_asks(job: &Job, element: FeId, decision: Decision) -> Option<Asks>
    ensures { (e : ℕ) → option_map (body_of e) result ≡ decided_body (job_of job.now) element decision }
{
    if job.has_settled(element) || job.is_stuck(element) {
        return None;
    }
    Some(tell(job.txn, decision))
}

// What the job needs at an element, if it names it.
fn needs(job: &Job, element: FeId) -> Result<Option<Asks>, Memory>
    ensures { IfOk result (λ asks. (e : ℕ) → option_map (body_of e) asks ≡ needed (job_of job.now) element) }
{
    if !among(element, job.participants.as_slice()) {
        return Ok(None);
    }
    match job.decision {
        None => undecided_asks(job, element),
        Some(decision) => Ok(decided_asks(job, element, decision)),
    }
}

// What the first job that needs anything at an element needs there.
pub fn first_need(jobs: &[Job], element: FeId) -> Result<Option<Asks>, Memory>
    ensures { IfOk result (λ asks. (e : ℕ) → option_map (body_of e) asks ≡ first_needed (jobs_of jobs.now) element) }
{
    for job in jobs {
        if let Some(asks) = needs(job, element)? {
            return Ok(Some(asks));
        }
    }
    Ok(None)
}

// A floor that is wanted.
fn floor_asks(owes: Option<TxnId>) -> Option<Asks>
    ensures { (e : ℕ) → option_map (body_of e) result ≡ floor_body owes }
{
    match owes {
        None => None,
        Some(floor) => Some(Asks::Floor(floor)),
    }
}

// What the first job that needs anything at an element needs there; then the wanted floor.
fn need_or_floor(seat: &Seat, jobs: &[Job]) -> Result<Option<Asks>, Memory>
    ensures { IfOk result (λ asks. (e : ℕ) → option_map (body_of e) asks ≡ or_next (first_needed (jobs_of jobs.now) seat.now.element) (floor_body seat.now.owes)) }
{
    match first_need(jobs, seat.element)? {
        Some(asks) => Ok(Some(asks)),
        None => Ok(floor_asks(seat.owes)),
    }
}

// In doubt the ask; then the claim; then the ask; then what the first job needs; then the wanted floor.
fn wanted(seat: &Seat, jobs: &[Job]) -> Result<Option<Asks>, Memory>
    ensures { IfOk result (λ asks. (e : ℕ) (d : Option ℕ) → option_map (body_of e) asks ≡ wanted_at (alone e (peer_of e seat.now) (jobs_of jobs.now) d) seat.now.element (peer_of e seat.now)) }
{
    if seat.doubt {
        return Ok(Some(Asks::Ask));
    }
    if !seat.claimed {
        return Ok(Some(Asks::Claim));
    }
    if !seat.answered {
        return Ok(Some(Asks::Ask));
    }
    need_or_floor(seat, jobs)
}

// The message, where its count is not used up.
fn unspent(seat: &Seat, asks: Asks) -> Option<Asks>
    ensures exact { (e : ℕ) → option_map (body_of e) result ≡ unspent_at (peer_of e seat.now) (Some (body_of e asks)) }
    ensures room { IfSome result (λ a. (e : ℕ) → count_of (body_of e a) (peer_of e seat.now) < 2 ^ 32 - 1) }
{
    let count = if asks.is_query() {
        seat.queries
    } else {
        seat.last
    };
    if count < LAST { Some(asks) } else { None }
}

// Whether the element may be sent something.
fn is_open(seat: &Seat) -> bool
    ensures { (e : ℕ) → result ≡ ((peer_of e seat.now).met && not (peer_of e seat.now).lost) && (is_none (peer_of e seat.now).waits && true) }
{
    seat.met && !seat.lost && seat.waits.is_none()
}

/// The message that is due at an element of a master that is not deposed; none where its count is used up.
pub fn due(seat: &Seat, jobs: &[Job]) -> Result<Option<Asks>, Memory>
    ensures exact { IfOk result (λ asks. (e : ℕ) → option_map (body_of e) asks ≡ due_at (alone e (peer_of e seat.now) (jobs_of jobs.now) None) seat.now.element) }
    ensures room { IfOk result (λ asks. IfSome asks (λ a. (e : ℕ) → count_of (body_of e a) (peer_of e seat.now) < 2 ^ 32 - 1)) }
{
    if !is_open(seat) {
        return Ok(None);
    }
    match wanted(seat, jobs)? {
        None => Ok(None),
        Some(asks) => Ok(unspent(seat, asks)),
    }
}
