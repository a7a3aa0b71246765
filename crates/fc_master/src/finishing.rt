// How an input ends: what is due is sent.
ghost use Rattle.std.specs.Prelude.{◌≡◌, ◌++◌, ℕ, IfOk, OnOk, OnErr};
ghost use Rattle.fc_protocol.specs.MasterMachine.{Master as Core, decide_all, finish};
ghost use Rattle.fc_jobs.specs.Seats.{elements_of};
ghost use Rattle.fc_jobs.specs.Sending.{core_by, spelled};
ghost use Rattle.fc_master.specs.Masters.{begun_of, core_of};
ghost use Rattle.fc_master.specs.Resting.{DoneTo, with_tail};

use crate::master::Master;
use fc_base::{List, Memory};
use fc_jobs::{CeOut, Heard, send_due};

// Messages, one list behind the other.
pub(crate) fn joined(first: List<CeOut>, second: List<CeOut>) -> Result<List<CeOut>, Memory>
    ensures { IfOk result (λ all. all ≡ first ++ second) }
{
    let mut all = first.into_vec();
    let mut more = second.into_vec();
    all.append(&mut more)?;
    Ok(List::from_vec(all))
}

impl Master {
    // What is due is sent behind these messages, once this has become of the elements, of the jobs behind the first so many, and of the
    // master, each job decided where it can be.
    pub(crate) fn finish(
        &mut self,
        heard: Heard,
        from: usize,
        first: List<CeOut>,
    ) -> Result<List<CeOut>, Memory>
        requires elements { elements_of heard.seats ≡ elements_of self.old.seats }
        requires done { DoneTo from self.old.jobs.all }
        ensures core { OnOk result ((m : Core) (k : ℕ) → core_by self.old.life.epoch heard.seats (with_tail from self.old.jobs.all heard.jobs) (begun_of self.old) heard.deposed ≡ decide_all m → core_of self.new ≡ (finish k m).master) }
        ensures outs { IfOk result (λ outs. (m : Core) (k : ℕ) → core_by self.old.life.epoch heard.seats (with_tail from self.old.jobs.all heard.jobs) (begun_of self.old) heard.deposed ≡ decide_all m → outs ≡ first ++ spelled self.old.life (finish k m).says) }
        ensures life { self.new.life ≡ self.old.life }
        ensures begun { begun_of self.new ≡ begun_of self.old }
        ensures err { OnErr result (self.new ≡ self.old) }
    {
        let Heard {
            mut seats,
            jobs,
            deposed,
        } = heard;
        let due = send_due(&self.life, &mut seats, jobs.as_slice(), deposed)?;
        let outs = joined(first, due)?;
        self.jobs.replace(from, jobs)?;
        self.seats = seats;
        self.deposed = deposed;
        Ok(outs)
    }
}
