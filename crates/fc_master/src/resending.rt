// What waits is sent again.
ghost use Rattle.std.specs.Prelude.{◌≡◌, ℕ, IfOk};
ghost use Rattle.fc_protocol.specs.MasterMachine.{again};
ghost use Rattle.fc_master.specs.Masters.{core_of};
ghost use Rattle.fc_jobs.specs.Seats.{peer_of};
ghost use Rattle.fc_jobs.specs.Sending.{spelled};

use crate::master::Master;
use fc_asks::{Life, request};
use fc_base::{FeId, List, Memory};
use fc_jobs::{CeOut, Seat, place_of};

// What waits at an element, once more.
pub(crate) fn waiting_again(life: &Life, seat: &Seat) -> Result<List<CeOut>, Memory>
    ensures { IfOk result (λ outs. (k : ℕ) → outs ≡ spelled life.now (again k seat.now.element (peer_of life.now.epoch seat.now).waits)) }
{
    let mut outs = List::new(life.alloc);
    match &seat.waits {
        None => Ok(outs),
        Some(waits) => {
            let message = request(life, seat.element, waits.count, &waits.asks)?;
            outs.push(CeOut {
                to: seat.element,
                message,
            })?;
            Ok(outs)
        }
    }
}

impl Master {
    /// The message that waits for a response of this element, once more, or nothing where none does; the master stays as it is. Refused
    /// only for want of memory.
    pub fn resend(&mut self, element: FeId) -> Result<List<CeOut>, Memory>
        ensures outs { IfOk result (λ outs. (k : ℕ) → outs ≡ spelled self.old.life (again k element ((core_of self.old).at element).waits)) }
        ensures same { self.new ≡ self.old }
    {
        match place_of(element, self.seats.as_slice()) {
            None => Ok(List::new(self.life.alloc)),
            Some(at) => waiting_again(&self.life, &self.seats.as_slice()[at]),
        }
    }
}
