// One life of a control element.
ghost use Rattle.std.specs.Prelude.{◌≡◌, true};
ghost use Rattle.fc_jobs.specs.Seats.{elements_of};
ghost use Rattle.fc_jobs.specs.Sending.{are_apart};

use crate::resting::Jobs;
use fc_asks::Life;
use fc_base::{List, TxnId};
use fc_jobs::Seat;

/// One life of a control element: its elements, and what it drives at them. This profile's own.
#[derive(Debug, Drop)]
pub struct Master {
    pub(crate) life: Life,
    // What it keeps of each element, in their order.
    pub(crate) seats: List<Seat>,
    pub(crate) jobs: Jobs,
    // How many transactions it has begun.
    pub(crate) begun: u32,
    // The floor that it wants at every element, once it wants one.
    pub(crate) wanted: Option<TxnId>,
    // The greatest epoch above its own that an answer has held.
    pub(crate) deposed: Option<u32>,
    ghost apart: { are_apart (elements_of seats) ≡ true },
}
