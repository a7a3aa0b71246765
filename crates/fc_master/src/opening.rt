// A life that begins.
ghost use Rattle.std.specs.Prelude.{◌≡◌, [], true, map, IfOk};
ghost use Rattle.fc_protocol.specs.MasterMachine.{new_master};
ghost use Rattle.fc_jobs.specs.Seats.{new_seat};
ghost use Rattle.fc_jobs.specs.Sending.{are_apart};
ghost use Rattle.fc_master.specs.Masters.{core_of};

use crate::master::Master;
use crate::resting::Jobs;
use fc_asks::Life;
use fc_base::{CeId, Epoch, FeId, List, Memory};
use fc_jobs::{Job, Seat};
use std::alloc::Global;

fn new_seats(alloc: Global, elements: &[FeId]) -> Result<List<Seat>, Memory>
    ensures { IfOk result (λ seats. seats ≡ map new_seat elements.now) }
{
    let mut seats = List::new(alloc);
    for element in elements {
        seats.push(Seat::new(*element))?;
    }
    Ok(seats)
}

impl Master {
    /// A life of this control element, of this epoch, over these elements, no two of which are the same; nothing is known of them yet.
    /// The epoch is of this control element, and was taken by no other life of it.
    pub fn new(alloc: Global, ce: CeId, elements: &[FeId], epoch: Epoch) -> Result<Master, Memory>
        requires { are_apart elements.now ≡ true }
        ensures core { IfOk result (λ m. core_of m ≡ new_master epoch elements.now) }
        ensures ce { IfOk result (λ m. m.life.ce ≡ ce) }
        ensures epoch { IfOk result (λ m. m.life.epoch ≡ epoch) }
        ensures plans { IfOk result (λ m. m.life.plans ≡ []) }
        ensures plains { IfOk result (λ m. m.life.plains ≡ []) }
    {
        let seats = new_seats(alloc, elements)?;
        let life = Life {
            ce,
            epoch,
            plans: List::new(alloc),
            plains: List::new(alloc),
            alloc,
        };
        Ok(Master {
            life,
            seats,
            jobs: Jobs::new(alloc, epoch),
            begun: 0,
            wanted: None,
            deposed: None,
        })
    }

    /// The transactions that it drives, in the order in which it began or found them.
    pub fn jobs(&self) -> &[Job]
        ensures { result.now ≡ self.now.jobs.all }
    {
        self.jobs.as_slice()
    }

    /// The greatest epoch above its own that an answer has held; none where it is not deposed.
    pub fn deposed(&self) -> Option<u32>
        ensures { result ≡ (core_of self.now).deposed }
    {
        self.deposed
    }
}
