// What is due is sent.
ghost use Rattle.std.specs.Prelude.{◌≡◌, ◌<◌, ◌+◌, ◌-◌, ◌^◌, ℕ, Option, Some, None, true, IfOk, IfSome, OnOk, option_map, if◌then◌else◌};
ghost use Rattle.fc_protocol.specs.MasterMachine.{count_of, due as due_at, sending as sending_it, stamp_of, sends_all};
ghost use Rattle.fc_protocol.specs.Messages.{is_claim, is_query};
ghost use Rattle.fc_jobs.specs.Seats.{alone, peer_of, elements_of};
ghost use Rattle.fc_asks.specs.Bodies.{body_of};
ghost use Rattle.fc_jobs.specs.JobViews.{jobs_of};
ghost use Rattle.fc_jobs.specs.Sending.{Begun, are_apart, core_by, sent_out, sent_peer, spelled};

use crate::job::Job;
use crate::needs::due;
use crate::seat::{Seat, Waits};
use fc_asks::{Asks, Life, request};
use fc_base::{FeId, List, Memory};
use fc_msg::Message;

/// A message of a control element to one of its elements.
#[derive(Debug, PartialEq, Eq, Drop)]
pub struct CeOut {
    /// The element.
    pub to: FeId,
    /// The message.
    pub message: Message,
}

// A message to an element, and what is kept of the element once it is sent.
#[derive(Debug, Drop)]
struct Sending {
    seat: Seat,
    out: CeOut,
}

// The count of a message: 0 of a claim, else the next of its kind.
fn next_count(seat: &Seat, asks: &Asks) -> u32
    requires { (e : ℕ) → count_of (body_of e asks.now) (peer_of e seat.now) < 2 ^ 32 - 1 }
    ensures { (e : ℕ) → result ≡ (stamp_of e (body_of e asks.now) (peer_of e seat.now)).count }
{
    if asks.is_claim() {
        return 0;
    }
    if asks.is_query() {
        seat.queries + 1
    } else {
        seat.last + 1
    }
}

/// The seat of an element that is sent this, with this count.
pub fn after_sending(seat: &Seat, count: u32, asks: Asks) -> Seat
    ensures element { result.element ≡ seat.now.element }
    ensures peer { (e : ℕ) → peer_of e result ≡ sending_it (peer_of e seat.now) (record { stamp = record { life = e; count = count }; body = body_of e asks }) }
{
    let is_query = asks.is_query();
    let is_claim = asks.is_claim();
    let last = if is_query || is_claim {
        seat.last
    } else {
        count
    };
    let queries = if is_query { count } else { seat.queries };
    Seat {
        element: seat.element,
        met: seat.met,
        claimed: seat.claimed,
        answered: seat.answered,
        doubt: seat.doubt,
        lost: seat.lost,
        owes: seat.owes,
        waits: Some(Waits { count, asks }),
        last,
        queries,
    }
}

// The message that is due at an element, if any, and what is kept of the element then.
fn send(life: &Life, seat: &Seat, jobs: &[Job]) -> Result<Option<Sending>, Memory>
    ensures element { IfOk result (λ r. IfSome r (λ g. g.seat.element ≡ seat.now.element)) }
    ensures peer { IfOk result (λ r. let e = life.now.epoch in let y = peer_of e seat.now in option_map (λ (g : Sending). peer_of e g.seat) r ≡ option_map (sent_peer e y) (due_at (alone e y (jobs_of jobs.now) None) seat.now.element)) }
    ensures out { IfOk result (λ r. let e = life.now.epoch in let y = peer_of e seat.now in option_map (λ (g : Sending). g.out) r ≡ option_map (sent_out life.now seat.now.element y) (due_at (alone e y (jobs_of jobs.now) None) seat.now.element)) }
{
    match due(seat, jobs)? {
        None => Ok(None),
        Some(asks) => {
            let count = next_count(seat, &asks);
            let message = request(life, seat.element, count, &asks)?;
            Ok(Some(Sending {
                seat: after_sending(seat, count, asks),
                out: CeOut {
                    to: seat.element,
                    message,
                },
            }))
        }
    }
}

/// Each element, in order, is sent what is due there, by a master that is not deposed.
pub fn send_all(life: &Life, seats: &mut List<Seat>, jobs: &[Job]) -> Result<List<CeOut>, Memory>
    requires { are_apart (elements_of seats.old) ≡ true }
    ensures elements { OnOk result (elements_of seats.new ≡ elements_of seats.old) }
    ensures core { OnOk result ((k : ℕ) (begun : Begun) → core_by life.now.epoch seats.new jobs.now begun None ≡ (sends_all k (elements_of seats.old) (core_by life.now.epoch seats.old jobs.now begun None)).master) }
    ensures outs { IfOk result (λ outs. (k : ℕ) (begun : Begun) → outs ≡ spelled life.now (sends_all k (elements_of seats.old) (core_by life.now.epoch seats.old jobs.now begun None)).says) }
{
    let mut outs = List::new(life.alloc);
    for at in 0..seats.len() {
        let seat = &seats.as_slice()[at];
        if let Some(sending) = send(life, seat, jobs)? {
            let Sending { seat, out } = sending;
            seats.set(at, seat);
            outs.push(out)?;
        }
    }
    Ok(outs)
}

/// Each element, in order, is sent what is due there; nothing is due where the master is deposed.
pub fn send_due(
    life: &Life,
    seats: &mut List<Seat>,
    jobs: &[Job],
    deposed: Option<u32>,
) -> Result<List<CeOut>, Memory>
    requires { are_apart (elements_of seats.old) ≡ true }
    ensures elements { OnOk result (elements_of seats.new ≡ elements_of seats.old) }
    ensures core { OnOk result ((k : ℕ) (begun : Begun) → core_by life.now.epoch seats.new jobs.now begun deposed ≡ (sends_all k (elements_of seats.old) (core_by life.now.epoch seats.old jobs.now begun deposed)).master) }
    ensures outs { IfOk result (λ outs. (k : ℕ) (begun : Begun) → outs ≡ spelled life.now (sends_all k (elements_of seats.old) (core_by life.now.epoch seats.old jobs.now begun deposed)).says) }
{
    match deposed {
        Some(_) => Ok(List::new(life.alloc)),
        None => send_all(life, seats, jobs),
    }
}
