// What a master keeps of an element.
ghost use Rattle.std.specs.Prelude.{◌≡◌, ℕ, Option, IfSome, IfNone, is_some};
ghost use Rattle.fc_base.specs.Ids.{Txn};
ghost use Rattle.fc_protocol.specs.Collections.{among};
ghost use Rattle.fc_protocol.specs.MasterMachine.{new_peer};
ghost use Rattle.fc_jobs.specs.Seats.{elements_of, owing, peer_at, peer_of};

use fc_base::FeId;
use fc_jobs::Seat;

// What is kept of the element.
pub fn seat_of(element: FeId, seats: &[Seat]) -> Option<&Seat>
    ensures some { IfSome result (λ s. (s.now.element ≡ element) × ((e : ℕ) (w : Option Txn) → peer_at e w seats.now element ≡ peer_of e s.now)) }
    ensures none { IfNone result ((e : ℕ) (w : Option Txn) → peer_at e w seats.now element ≡ owing w new_peer) }
    ensures listed { is_some result ≡ among element (elements_of seats.now) }
{
    for seat in seats {
        if element == seat.element {
            return Some(seat);
        }
    }
    None
}
