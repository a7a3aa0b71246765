// Responses to Configs.
ghost use Rattle.std.specs.Prelude.{◌≡◌, ℕ, ◌<◌, List as Items, length, slice_index_or, Option, Some, None, IfSome, IfNone, IfOk, is_some, true, false, map, option_map};
ghost use Rattle.fc_jobs.specs.Effects.{carried};
ghost use Rattle.fc_jobs.specs.JobViews.{jobs_of};
ghost use Rattle.std.specs.Option.{option_copied};
ghost use Rattle.fc_protocol.specs.Collections.{among as stands};
ghost use Rattle.fc_protocol.specs.Messages.{stamp, Reply};
ghost use Rattle.fc_protocol.specs.MasterMachine.{decide_all, heard, matches as matches_it, new_peer};
ghost use Rattle.fc_jobs.specs.declared.seat.Seat.{Seat as Kept};
ghost use Rattle.fc_base.specs.Ids.{Txn};
ghost use Rattle.fc_jobs.specs.Seats.{owing, peer_at, peer_of, elements_of, waiting_of};
ghost use Rattle.fc_asks.specs.Bodies.{body_of};
ghost use Rattle.fc_jobs.specs.Sending.{Begun, are_apart, core_by};

use crate::effects::{carry_all, effect_of};
use crate::job::Job;
use crate::seat::{Seat, Waits};
use fc_asks::Life;
use fc_base::{Code, Duplicate, Epoch, FeId, List, Memory};

// The place of an element.
pub fn place_of(element: FeId, seats: &[Seat]) -> Option<usize>
    ensures some { IfSome result (λ at. (at < length seats.now) × ((d : Kept) → (slice_index_or seats.now at d).element ≡ element)) }
    ensures none { IfNone result ((e : ℕ) (w : Option Txn) → peer_at e w seats.now element ≡ owing w new_peer) }
    ensures listed { is_some result ≡ stands element (elements_of seats.now) }
{
    for at in 0..seats.len() {
        if element == seats[at].element {
            return Some(at);
        }
    }
    None
}

// Whether a response with this correlator, to a Query or to a Config, is that to the message.
fn is_response(waits: &Waits, epoch: Epoch, corr: u64, is_query: bool) -> bool
    ensures { result ≡ matches_it (stamp corr) is_query (Some (waiting_of epoch waits.now)) }
{
    let is_same = corr / 4_294_967_296 == u64::from(epoch.get())
        && corr % 4_294_967_296 == u64::from(waits.count);
    let is_kind = if is_query {
        waits.asks.is_query()
    } else {
        !waits.asks.is_query()
    };
    is_same && is_kind
}

/// The message that waits at an element, where a response with this correlator is that to it.
pub fn answered<'a>(seat: &'a Seat, epoch: Epoch, corr: u64, is_query: bool) -> Option<&'a Waits>
    ensures some { IfSome result (λ w. ((peer_of epoch seat.now).waits ≡ Some (waiting_of epoch w.now)) × (matches_it (stamp corr) is_query (peer_of epoch seat.now).waits ≡ true)) }
    ensures none { IfNone result (matches_it (stamp corr) is_query (peer_of epoch seat.now).waits ≡ false) }
{
    match &seat.waits {
        None => None,
        Some(waits) => {
            if is_response(waits, epoch, corr, is_query) {
                Some(waits)
            } else {
                None
            }
        }
    }
}

/// What becomes of the elements and jobs.
#[derive(Debug, Drop)]
pub struct Next {
    pub seats: List<Seat>,
    pub jobs: List<Job>,
}

// Nothing is heard: jobs are decided where that can be.
fn unheard(life: &Life, seats: List<Seat>, jobs: &[Job], element: FeId) -> Result<Next, Memory>
    ensures { IfOk result (λ n. (n.seats ≡ seats) × (jobs_of n.jobs ≡ map (carried life.now.epoch element None) (jobs_of jobs.now))) }
{
    let jobs = carry_all(life.alloc, life.epoch, jobs, element, None)?;
    Ok(Next { seats, jobs })
}

/// The elements and jobs after a response to a Config with this code, each job decided where it can be.
pub fn after_reply(
    life: &Life,
    seats: &List<Seat>,
    jobs: &[Job],
    element: FeId,
    corr: u64,
    code: Code,
) -> Result<Next, Memory>
    requires { are_apart (elements_of seats.now) ≡ true }
    ensures elements { IfOk result (λ n. elements_of n.seats ≡ elements_of seats.now) }
    ensures core { IfOk result (λ n. (begun : Begun) (d : Option ℕ) → core_by life.now.epoch n.seats n.jobs begun d ≡ decide_all (heard (core_by life.now.epoch seats.now jobs.now begun d) element (Reply (stamp corr) code))) }
{
    let mut next = seats.copy()?;
    let at = match place_of(element, seats.as_slice()) {
        Some(at) => at,
        None => return unheard(life, next, jobs, element),
    };
    let seat = &seats.as_slice()[at];
    let waits = match answered(seat, life.epoch, corr, false) {
        Some(waits) => waits,
        None => return unheard(life, next, jobs, element),
    };
    let effect = effect_of(life.epoch, &waits.asks, code == Code::SUCCESS);
    let jobs = carry_all(life.alloc, life.epoch, jobs, element, effect)?;
    next.set(at, seat.after_code(&waits.asks, code));
    Ok(Next { seats: next, jobs })
}
