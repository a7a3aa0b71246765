// What a master keeps of an element.
ghost use Rattle.std.specs.Prelude.{◌≡◌, ℕ, true, IfOk};
ghost use Rattle.fc_protocol.specs.MasterMachine.{after_ask as after_ask_of, after_code as after_code_to, unmatched as unmatched_of};
ghost use Rattle.fc_asks.specs.Bodies.{body_of};
ghost use Rattle.fc_jobs.specs.Seats.{new_seat, peer_of, seat_dropped};

use fc_asks::Asks;
use fc_base::{Code, Duplicate, FeId, List, Memory, TxnId};

/// A message that waits for its response: the low half of its correlator, and what it asks for.
#[derive(Debug, PartialEq, Eq, Drop)]
pub struct Waits {
    pub count: u32,
    pub asks: Asks,
}

/// What a master keeps of an element.
#[derive(Debug, Drop)]
pub struct Seat {
    pub element: FeId,
    /// It has asked for an association.
    pub met: bool,
    /// It has taken the claim.
    pub claimed: bool,
    /// It has answered the ask under this epoch.
    pub answered: bool,
    /// Its epoch is to be asked for again.
    pub doubt: bool,
    /// Nothing more is sent there.
    pub lost: bool,
    /// The floor that is wanted there and not answered.
    pub owes: Option<TxnId>,
    pub waits: Option<Waits>,
    /// The last sequence of a Config, 0 before the first.
    pub last: u32,
    /// How many Queries were sent.
    pub queries: u32,
}

impl Duplicate for Waits {
    fn copy(&self) -> Result<Self, Memory> {
        let asks = self.asks.copy()?;
        Ok(Waits {
            count: self.count,
            asks,
        })
    }
}

fn copy_waits(waits: &Option<Waits>) -> Result<Option<Waits>, Memory>
    ensures { IfOk result (λ other. other ≡ waits.now) }
{
    match waits {
        None => Ok(None),
        Some(waits) => Ok(Some(waits.copy()?)),
    }
}

impl Duplicate for Seat {
    fn copy(&self) -> Result<Self, Memory> {
        let waits = copy_waits(&self.waits)?;
        Ok(Seat {
            element: self.element,
            met: self.met,
            claimed: self.claimed,
            answered: self.answered,
            doubt: self.doubt,
            lost: self.lost,
            owes: self.owes,
            waits,
            last: self.last,
            queries: self.queries,
        })
    }
}

impl Seat {
    /// The seat of an element of which nothing is known yet.
    pub fn new(element: FeId) -> Seat
        ensures { result ≡ new_seat element }
    {
        Seat {
            element,
            met: false,
            claimed: false,
            answered: false,
            doubt: false,
            lost: false,
            owes: None,
            waits: None,
            last: 0,
            queries: 0,
        }
    }

    /// The seat without what waits there.
    pub fn without_waits(&self) -> Seat
        ensures { result ≡ seat_dropped self.now }
    {
        Seat {
            element: self.element,
            met: self.met,
            claimed: self.claimed,
            answered: self.answered,
            doubt: self.doubt,
            lost: self.lost,
            owes: self.owes,
            waits: None,
            last: self.last,
            queries: self.queries,
        }
    }

    /// The seat of an element that has asked for an association, and at which nothing else changes.
    pub fn after_setup(&self) -> Result<Seat, Memory>
        ensures element { IfOk result (λ seat. seat.element ≡ self.now.element) }
        ensures peer { IfOk result (λ seat. (e : ℕ) → peer_of e seat ≡ record (peer_of e self.now) { met = true }) }
    {
        let mut seat = self.copy()?;
        seat.met = true;
        Ok(seat)
    }

    /// The seat of an element that is lost.
    pub fn unmatched(&self) -> Seat
        ensures element { result.element ≡ self.now.element }
        ensures peer { (e : ℕ) → peer_of e result ≡ unmatched_of (peer_of e self.now) }
    {
        Seat {
            element: self.element,
            met: self.met,
            claimed: self.claimed,
            answered: self.answered,
            doubt: self.doubt,
            lost: true,
            owes: self.owes,
            waits: None,
            last: self.last,
            queries: self.queries,
        }
    }

    /// The seat of an element that has answered the ask.
    pub fn after_ask(&self) -> Seat
        ensures element { result.element ≡ self.now.element }
        ensures peer { (e : ℕ) → peer_of e result ≡ after_ask_of (peer_of e self.now) }
    {
        Seat {
            element: self.element,
            met: self.met,
            claimed: self.claimed,
            answered: true,
            doubt: false,
            lost: self.lost,
            owes: self.owes,
            waits: None,
            last: self.last,
            queries: self.queries,
        }
    }

    /// The seat after a response with this code to a Config that asked for this.
    pub fn after_code(&self, asks: &Asks, code: Code) -> Seat
        ensures element { result.element ≡ self.now.element }
        ensures peer { (e : ℕ) → peer_of e result ≡ after_code_to (peer_of e self.now) (body_of e asks.now) code }
    {
        let is_claim = asks.is_claim();
        let claimed = if is_claim && code == Code::SUCCESS {
            true
        } else {
            self.claimed
        };
        let doubt = if code == Code::READ_ONLY || (is_claim && code != Code::SUCCESS) {
            true
        } else {
            self.doubt
        };
        Seat {
            element: self.element,
            met: self.met,
            claimed,
            answered: self.answered,
            doubt,
            lost: self.lost,
            owes: asks.still_owed(self.owes),
            waits: None,
            last: self.last,
            queries: self.queries,
        }
    }
}
