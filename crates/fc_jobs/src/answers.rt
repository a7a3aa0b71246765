// Answers to Queries.
ghost use Rattle.std.specs.Prelude.{◌≡◌, ◌<◌, ℕ, nat_lt, length, slice_index_or, slice_set, Some, None, IfSome, IfNone, IfOk, true, false, map};
ghost use Rattle.fc_protocol.specs.Messages.{stamp};
ghost use Rattle.fc_protocol.specs.Collections.{put};
ghost use Rattle.fc_protocol.specs.Jobs.{answer, answered_by, discover as discovered, on_job};
ghost use Rattle.fc_protocol.specs.MasterMachine.{Master as Core, after_ask as after_ask_of, at_put, by_epoch, decide_all, depose, dropped, is_lower as is_lower_at, matches as matches_it, unmatched as unmatched_of, unread_told};
ghost use Rattle.fc_asks.specs.Bodies.{question_body};
ghost use Rattle.fc_jobs.specs.declared.seat.Seat.{Seat as Kept};
ghost use Rattle.fc_jobs.specs.declared.answers.Standing.TheVariants as stands;
ghost use Rattle.fc_jobs.specs.Answers.{after_held as held_heard, after_record as record_heard, answered as answered_by_query, asked_of, by_standing};
ghost use Rattle.fc_jobs.specs.Effects.{carried};
ghost use Rattle.fc_jobs.specs.JobViews.{jobs_of};
ghost use Rattle.fc_jobs.specs.Seats.{elements_of, peer_at, peer_of, seat_dropped};
ghost use Rattle.fc_jobs.specs.Sending.{Begun, are_apart, core_by};

use crate::effects::{Effect, carry_all};
use crate::job::Job;
use crate::recovery::discover;
use crate::replies::{answered, place_of};
use crate::seat::Seat;
use fc_asks::{HeldAnswer, Life, Question, RecordAnswer, read_held, read_record};
use fc_base::{Duplicate, Epoch, FeId, List, Memory, TxnId};
use fc_path::Select;
use fc_protocol::{Answer, Seen, TxnEntry};
use std::alloc::Global;

/// What becomes of the elements and jobs, and of the master itself.
#[derive(Debug, Drop)]
pub struct Heard {
    pub seats: List<Seat>,
    pub jobs: List<Job>,
    pub deposed: Option<u32>,
}

fn is_greater(epoch: Epoch, told: u32) -> bool
    ensures { result ≡ nat_lt epoch told }
{
    epoch.get() < told
}

// Whether an epoch that is not greater loses the element.
fn is_lower(seat: &Seat, epoch: Epoch, told: u32) -> bool
    ensures { (m : Core) → m.epoch ≡ epoch → m.at seat.now.element ≡ peer_of epoch seat.now → result ≡ is_lower_at m seat.now.element told }
{
    told < epoch.get() || (seat.doubt && !seat.claimed)
}

/// How the epoch in an answer stands to the master's own.
#[derive(Clone, Copy, Debug)]
enum Standing {
    /// It is greater.
    Greater,
    /// It is lower, or is the same while the claim is in doubt.
    Lower,
    /// It is the master's own.
    Own,
}

fn weigh(seat: &Seat, epoch: Epoch, told: u32) -> Standing
    ensures exact { (m good : Core) → m.epoch ≡ epoch → m.at seat.now.element ≡ peer_of epoch seat.now → by_epoch m seat.now.element told good ≡ by_standing result m seat.now.element told good }
    ensures own { result ≡ stands.Own → told ≡ epoch }
{
    if is_greater(epoch, told) {
        return Standing::Greater;
    }
    if is_lower(seat, epoch, told) {
        return Standing::Lower;
    }
    Standing::Own
}

// What the message that waits at an element asks, where an answer with this correlator is that to it.
fn asked(seat: &Seat, epoch: Epoch, corr: u64) -> Option<Question>
    ensures some { IfSome result (λ q. (matches_it (stamp corr) true (peer_of epoch seat.now).waits ≡ true) × (asked_of (peer_of epoch seat.now).waits ≡ Some (question_body q))) }
    ensures none { IfNone result (matches_it (stamp corr) true (peer_of epoch seat.now).waits ≡ false) }
{
    match answered(seat, epoch, corr, true) {
        None => None,
        Some(waits) => waits.asks.question(),
    }
}

// Copies of the seats, with another at this place.
fn with_seat(seats: &List<Seat>, at: usize, seat: Seat) -> Result<List<Seat>, Memory>
    requires { at < length seats.now }
    ensures { IfOk result (λ next. next ≡ slice_set seats.now at seat) }
{
    let mut next = seats.copy()?;
    next.set(at, seat);
    Ok(next)
}

// Copies of the seats, at which nothing waits.
fn all_dropped(alloc: Global, seats: &[Seat]) -> Result<List<Seat>, Memory>
    ensures { IfOk result (λ others. others ≡ map seat_dropped seats.now) }
{
    let mut others = List::new(alloc);
    for seat in seats {
        others.push(seat.without_waits())?;
    }
    Ok(others)
}

// An answer has held a greater epoch: all that waits is dropped.
fn after_greater(
    life: &Life,
    seats: &List<Seat>,
    jobs: &[Job],
    deposed: Option<u32>,
    element: FeId,
    told: u32,
) -> Result<Heard, Memory>
    ensures elements { IfOk result (λ n. elements_of n.seats ≡ elements_of seats.now) }
    ensures core { IfOk result (λ n. (begun : Begun) → core_by life.now.epoch n.seats n.jobs begun n.deposed ≡ decide_all (depose (core_by life.now.epoch seats.now jobs.now begun deposed) told)) }
{
    let seats = all_dropped(life.alloc, seats.as_slice())?;
    let jobs = carry_all(life.alloc, life.epoch, jobs, element, None)?;
    Ok(Heard {
        seats,
        jobs,
        deposed: Some(deposed.unwrap_or(0).max(told)),
    })
}

// The element is lost.
fn lose(
    life: &Life,
    seats: &List<Seat>,
    jobs: &[Job],
    deposed: Option<u32>,
    element: FeId,
    at: usize,
) -> Result<Heard, Memory>
    requires apart { are_apart (elements_of seats.now) ≡ true }
    requires place { (at < length seats.now) × ((d : Kept) → (slice_index_or seats.now at d).element ≡ element) }
    ensures elements { IfOk result (λ n. elements_of n.seats ≡ elements_of seats.now) }
    ensures core { IfOk result (λ n. (begun : Begun) → let m = core_by life.now.epoch seats.now jobs.now begun deposed in core_by life.now.epoch n.seats n.jobs begun n.deposed ≡ decide_all (at_put m element (unmatched_of (m.at element)))) }
{
    let seat = seats.as_slice()[at].unmatched();
    let next = with_seat(seats, at, seat)?;
    let jobs = carry_all(life.alloc, life.epoch, jobs, element, None)?;
    Ok(Heard {
        seats: next,
        jobs,
        deposed,
    })
}

// The answer does not read, but for its epoch perhaps.
fn after_unread(
    life: &Life,
    seats: &List<Seat>,
    jobs: &[Job],
    deposed: Option<u32>,
    element: FeId,
    at: usize,
    told: Option<u32>,
) -> Result<Heard, Memory>
    requires apart { are_apart (elements_of seats.now) ≡ true }
    requires place { (at < length seats.now) × ((d : Kept) → (slice_index_or seats.now at d).element ≡ element) }
    ensures elements { IfOk result (λ n. elements_of n.seats ≡ elements_of seats.now) }
    ensures core { IfOk result (λ n. (begun : Begun) → core_by life.now.epoch n.seats n.jobs begun n.deposed ≡ decide_all (unread_told (core_by life.now.epoch seats.now jobs.now begun deposed) element told)) }
{
    let told = match told {
        None => return lose(life, seats, jobs, deposed, element, at),
        Some(told) => told,
    };
    if is_greater(life.epoch, told) {
        return after_greater(life, seats, jobs, deposed, element, told);
    }
    lose(life, seats, jobs, deposed, element, at)
}

fn copies(alloc: Global, jobs: &[Job]) -> Result<List<Job>, Memory>
    ensures { IfOk result (λ others. others ≡ jobs.now) }
{
    let mut others = List::new(alloc);
    for job in jobs {
        others.push(job.copy()?)?;
    }
    Ok(others)
}

// The transactions that an element has told of become jobs, and all are decided where that can be.
fn with_found(
    life: &Life,
    jobs: &[Job],
    element: FeId,
    entries: &List<TxnEntry>,
) -> Result<List<Job>, Memory>
    ensures { IfOk result (λ others. jobs_of others ≡ map (carried life.now.epoch element None) (discovered entries.now (jobs_of jobs.now))) }
{
    let mut found = copies(life.alloc, jobs)?;
    discover(life.alloc, &mut found, entries.as_slice())?;
    carry_all(life.alloc, life.epoch, found.as_slice(), element, None)
}

// The transactions that an element holds, under this epoch.
fn after_entries(
    life: &Life,
    seats: &List<Seat>,
    jobs: &[Job],
    deposed: Option<u32>,
    element: FeId,
    at: usize,
    entries: &List<TxnEntry>,
) -> Result<Heard, Memory>
    requires apart { are_apart (elements_of seats.now) ≡ true }
    requires place { (at < length seats.now) × ((d : Kept) → (slice_index_or seats.now at d).element ≡ element) }
    ensures elements { IfOk result (λ n. elements_of n.seats ≡ elements_of seats.now) }
    ensures core { IfOk result (λ n. (begun : Begun) → let m = core_by life.now.epoch seats.now jobs.now begun deposed in core_by life.now.epoch n.seats n.jobs begun n.deposed ≡ decide_all (record m { at = put m.at element (after_ask_of (m.at element)); jobs = discovered entries.now m.jobs })) }
{
    let seat = seats.as_slice()[at].after_ask();
    let next = with_seat(seats, at, seat)?;
    let jobs = with_found(life, jobs, element, entries)?;
    Ok(Heard {
        seats: next,
        jobs,
        deposed,
    })
}

// The state of a record, under this epoch.
fn after_state(
    life: &Life,
    seats: &List<Seat>,
    jobs: &[Job],
    deposed: Option<u32>,
    element: FeId,
    at: usize,
    told: (TxnId, Seen),
) -> Result<Heard, Memory>
    requires apart { are_apart (elements_of seats.now) ≡ true }
    requires place { (at < length seats.now) × ((d : Kept) → (slice_index_or seats.now at d).element ≡ element) }
    ensures elements { IfOk result (λ n. elements_of n.seats ≡ elements_of seats.now) }
    ensures core { IfOk result (λ n. (begun : Begun) → let m = core_by life.now.epoch seats.now jobs.now begun deposed in core_by life.now.epoch n.seats n.jobs begun n.deposed ≡ decide_all (record m { at = put m.at element (dropped (m.at element)); jobs = on_job told.0 (answered_by element (answer life.now.epoch told.1)) m.jobs })) }
{
    let seat = seats.as_slice()[at].without_waits();
    let next = with_seat(seats, at, seat)?;
    let answer = Answer {
        epoch: life.epoch,
        seen: told.1,
    };
    let change = Some((told.0, Effect::Answers(answer)));
    let jobs = carry_all(life.alloc, life.epoch, jobs, element, change)?;
    Ok(Heard {
        seats: next,
        jobs,
        deposed,
    })
}

// The answer to the ask for held transactions.
fn after_held(
    life: &Life,
    seats: &List<Seat>,
    jobs: &[Job],
    deposed: Option<u32>,
    element: FeId,
    at: usize,
    answer: &HeldAnswer,
) -> Result<Heard, Memory>
    requires apart { are_apart (elements_of seats.now) ≡ true }
    requires place { (at < length seats.now) × ((d : Kept) → (slice_index_or seats.now at d).element ≡ element) }
    ensures elements { IfOk result (λ n. elements_of n.seats ≡ elements_of seats.now) }
    ensures core { IfOk result (λ n. (begun : Begun) → core_by life.now.epoch n.seats n.jobs begun n.deposed ≡ decide_all (held_heard (core_by life.now.epoch seats.now jobs.now begun deposed) element answer.now)) }
{
    match answer {
        HeldAnswer::Unread(told) => after_unread(life, seats, jobs, deposed, element, at, *told),
        HeldAnswer::Held(told, entries) => {
            match weigh(&seats.as_slice()[at], life.epoch, *told) {
                Standing::Greater => after_greater(life, seats, jobs, deposed, element, *told),
                Standing::Lower => lose(life, seats, jobs, deposed, element, at),
                Standing::Own => after_entries(life, seats, jobs, deposed, element, at, entries),
            }
        }
    }
}

// The answer to a record ask.
fn after_record(
    life: &Life,
    seats: &List<Seat>,
    jobs: &[Job],
    deposed: Option<u32>,
    element: FeId,
    at: usize,
    answer: (TxnId, RecordAnswer),
) -> Result<Heard, Memory>
    requires apart { are_apart (elements_of seats.now) ≡ true }
    requires place { (at < length seats.now) × ((d : Kept) → (slice_index_or seats.now at d).element ≡ element) }
    ensures elements { IfOk result (λ n. elements_of n.seats ≡ elements_of seats.now) }
    ensures core { IfOk result (λ n. (begun : Begun) → core_by life.now.epoch n.seats n.jobs begun n.deposed ≡ decide_all (record_heard (core_by life.now.epoch seats.now jobs.now begun deposed) element answer.0 answer.1)) }
{
    match answer.1 {
        RecordAnswer::Unread(told) => after_unread(life, seats, jobs, deposed, element, at, told),
        RecordAnswer::Record(told, seen) => {
            match weigh(&seats.as_slice()[at], life.epoch, told) {
                Standing::Greater => after_greater(life, seats, jobs, deposed, element, told),
                Standing::Lower => lose(life, seats, jobs, deposed, element, at),
                Standing::Own => after_state(
                    life,
                    seats,
                    jobs,
                    deposed,
                    element,
                    at,
                    (answer.0, seen),
                ),
            }
        }
    }
}

// Nothing was heard: jobs are decided where that can be.
fn ignored(
    life: &Life,
    seats: &List<Seat>,
    jobs: &[Job],
    deposed: Option<u32>,
    element: FeId,
) -> Result<Heard, Memory>
    ensures elements { IfOk result (λ n. elements_of n.seats ≡ elements_of seats.now) }
    ensures core { IfOk result (λ n. (begun : Begun) → core_by life.now.epoch n.seats n.jobs begun n.deposed ≡ decide_all (core_by life.now.epoch seats.now jobs.now begun deposed)) }
{
    let next = seats.copy()?;
    let jobs = carry_all(life.alloc, life.epoch, jobs, element, None)?;
    Ok(Heard {
        seats: next,
        jobs,
        deposed,
    })
}

/// The elements, the jobs and the master itself after an answer to a Query, each job decided where it can be.
pub fn after_answer(
    life: &Life,
    seats: &List<Seat>,
    jobs: &[Job],
    deposed: Option<u32>,
    element: FeId,
    corr: u64,
    selects: &[Select],
) -> Result<Heard, Memory>
    requires { are_apart (elements_of seats.now) ≡ true }
    ensures elements { IfOk result (λ n. elements_of n.seats ≡ elements_of seats.now) }
    ensures core { IfOk result (λ n. (begun : Begun) → core_by life.now.epoch n.seats n.jobs begun n.deposed ≡ decide_all (answered_by_query (core_by life.now.epoch seats.now jobs.now begun deposed) element corr selects.now)) }
{
    let at = match place_of(element, seats.as_slice()) {
        Some(at) => at,
        None => return ignored(life, seats, jobs, deposed, element),
    };
    let question = match asked(&seats.as_slice()[at], life.epoch, corr) {
        Some(question) => question,
        None => return ignored(life, seats, jobs, deposed, element),
    };
    match question {
        Question::Held => {
            let held = read_held(life.alloc, selects)?;
            after_held(life, seats, jobs, deposed, element, at, &held)
        }
        Question::Record(txn) => {
            let told = read_record(life.alloc, txn, selects)?;
            after_record(life, seats, jobs, deposed, element, at, (txn, told))
        }
    }
}
