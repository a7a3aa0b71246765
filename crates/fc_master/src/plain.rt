// A plain change is sent.
ghost use Rattle.std.specs.Prelude.{◌≡◌, ◌∷◌, [], ℕ, Some, None, IfOk, IfErr, IfSome, OnOk, OnErr};
ghost use Rattle.fc_protocol.specs.Messages.{Plain};
ghost use Rattle.fc_protocol.specs.MasterMachine.{plain_refusal, sends_one};
ghost use Rattle.fc_asks.specs.Tables.{placed};
ghost use Rattle.fc_jobs.specs.Sending.{spelled};
ghost use Rattle.fc_master.specs.Masters.{core_of};
ghost use Rattle.fc_master.specs.Refusals.{begin_told, begin_told_by};

use crate::faults::BeginFault;
use crate::master::Master;
use crate::spending::last_at;
use fc_asks::{Asks, Change, plain_request};
use fc_base::{FeId, List};
use fc_jobs::{CeOut, LAST, after_sending, place, place_of};

impl Master {
    // Why a plain change may not be sent to the element.
    fn plain_fault(&self, element: FeId) -> Option<BeginFault>
        ensures { begin_told_by result ≡ plain_refusal (core_of self.now) element }
    {
        if let Some(seen) = self.deposed {
            return Some(BeginFault::Deposed { seen });
        }
        if let Some(fault) = self.part_fault(element, &[]) {
            return Some(fault);
        }
        if last_at(element, self.seats.as_slice()) >= LAST {
            return Some(BeginFault::Spent);
        }
        None
    }

    /// Sends one change to an element, outside of any transaction. It is refused as a transaction at that element alone that may change
    /// everything there, but `Spent` only where its sequence is 4,294,967,295. After an `Err` nothing has changed.
    pub fn plain(&mut self, element: FeId, change: Change) -> Result<List<CeOut>, BeginFault>
        ensures refused { IfErr result (λ e. IfSome (begin_told e) (λ r. plain_refusal (core_of self.old) element ≡ Some r)) }
        ensures accepted { OnOk result (plain_refusal (core_of self.old) element ≡ None) }
        ensures core { OnOk result ((k : ℕ) → core_of self.new ≡ (sends_one k (core_of self.old) element (Some Plain)).master) }
        ensures outs { IfOk result (λ outs. (k : ℕ) → outs ≡ spelled self.new.life (sends_one k (core_of self.old) element (Some Plain)).says) }
        ensures life { OnOk result (self.new.life ≡ record self.old.life { plains = placed element change self.old.life.plains }) }
        ensures err { OnErr result (self.new ≡ self.old) }
    {
        if let Some(fault) = self.plain_fault(element) {
            return Err(fault);
        }
        let at = match place_of(element, self.seats.as_slice()) {
            None => return Err(BeginFault::Stranger { element }),
            Some(at) => at,
        };
        let seat = &self.seats.as_slice()[at];
        let count = seat.last + 1;
        let message = plain_request(&self.life, element, count, &change)?;
        let next = after_sending(seat, count, Asks::Plain);
        let mut outs = List::new(self.life.alloc);
        outs.push(CeOut {
            to: element,
            message,
        })?;
        place(&mut self.life.plains, element, change)?;
        self.seats.set(at, next);
        Ok(outs)
    }
}
