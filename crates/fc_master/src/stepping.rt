// What a master does with what comes.
ghost use Rattle.std.specs.Prelude.{◌≡◌, ◌≤◌, ◌∷◌, ◌++◌, ℕ, Some, map, take, drop, IfOk, OnOk, OnErr};
ghost use Rattle.fc_protocol.specs.Jobs.{Job as Work, decided_job};
ghost use Rattle.fc_protocol.specs.Messages.{stamp, Reply, Setup};
ghost use Rattle.fc_protocol.specs.MasterMachine.{Waiting, again, finish, heard};
ghost use Rattle.fc_asks.specs.Codes.{response_code};
ghost use Rattle.fc_jobs.specs.Answers.{answered};
ghost use Rattle.fc_jobs.specs.JobViews.{jobs_of};
ghost use Rattle.fc_jobs.specs.Seats.{peer_of};
ghost use Rattle.fc_jobs.specs.Sending.{spelled};
ghost use Rattle.fc_master.specs.Masters.{begun_of, core_of};
ghost use Rattle.fc_master.specs.Resting.{LeavesAlone};
ghost use Rattle.fc_master.specs.Steps as spec;
ghost use Rattle.fc_master.specs.Steps.{said, stepped};

use crate::finishing::joined;
use crate::input::CeIn;
use crate::master::Master;
use crate::resending::waiting_again;
use crate::seats::seat_of;
use fc_asks::{Life, read_code};
use fc_base::{Duplicate, FeId, List, Memory};
use fc_jobs::{CeOut, Heard, Seat, after_answer, after_reply, decided, place_of};
use fc_msg::{Message, MsgBody};
use fc_path::Select;
use fc_wire::Flags;

// Nothing is wanted.
fn quiet() -> Flags
    ensures { result ≡ spec.quiet }
{
    Flags {
        ack: 0,
        pri: 0,
        em: 0,
        at: false,
        tp: 0,
    }
}

// The response to a wish for an association: it is granted, with the outcome 0, or not.
fn setup_response(life: &Life, element: FeId, corr: u64, outcome: u32) -> CeOut
    ensures { result ≡ spec.setup_response life.now element corr outcome }
{
    CeOut {
        to: element,
        message: Message {
            source: life.ce.get(),
            dest: element.get(),
            corr,
            flags: quiet(),
            body: MsgBody::SetupResponse(outcome),
        },
    }
}

// A heartbeat that asks for an answer is answered.
fn heartbeat_answer(life: &Life, element: FeId, message: &Message) -> Result<List<CeOut>, Memory>
    ensures { IfOk result (λ outs. outs ≡ spec.heartbeat_answer element message.now) }
{
    let mut outs = List::new(life.alloc);
    if message.flags.ack == 3 {
        outs.push(CeOut {
            to: element,
            message: Message {
                source: message.dest,
                dest: message.source,
                corr: message.corr,
                flags: quiet(),
                body: MsgBody::Heartbeat,
            },
        })?;
    }
    Ok(outs)
}

// The response to a wish for an association, and then what waits at the element again.
fn setup_answer(life: &Life, seat: &Seat, corr: u64) -> Result<List<CeOut>, Memory>
    ensures { IfOk result (λ outs. (k : ℕ) → outs ≡ spec.setup_response life.now seat.now.element corr 0 ∷ spelled life.now (again k seat.now.element (peer_of life.now.epoch seat.now).waits)) }
{
    let mut outs = List::new(life.alloc);
    outs.push(setup_response(life, seat.element, corr, 0))?;
    joined(outs, waiting_again(life, seat)?)
}

impl Master {
    // The elements, the jobs behind those that rest and the master as they are, each job decided where it can be.
    fn unchanged(&self) -> Result<Heard, Memory>
        ensures seats { IfOk result (λ h. h.seats ≡ self.now.seats) }
        ensures jobs { IfOk result (λ h. jobs_of h.jobs ≡ map (λ (j : Work). decided_job self.now.life.epoch j.decision j) (jobs_of (drop self.now.jobs.rested self.now.jobs.all))) }
        ensures deposed { IfOk result (λ h. h.deposed ≡ self.now.deposed) }
    {
        let seats = self.seats.copy()?;
        let jobs = decided(self.life.alloc, self.life.epoch, self.jobs.open())?;
        Ok(Heard {
            seats,
            jobs,
            deposed: self.deposed,
        })
    }

    // Nothing came but time, or what a master does not listen to; these messages are sent first.
    fn finish_unchanged(&mut self, first: List<CeOut>) -> Result<List<CeOut>, Memory>
        ensures core { OnOk result ((k : ℕ) → core_of self.new ≡ (finish k (core_of self.old)).master) }
        ensures outs { IfOk result (λ outs. (k : ℕ) → outs ≡ first ++ spelled self.old.life (finish k (core_of self.old)).says) }
        ensures life { self.new.life ≡ self.old.life }
        ensures begun { begun_of self.new ≡ begun_of self.old }
        ensures err { OnErr result (self.new ≡ self.old) }
    {
        let heard = self.unchanged()?;
        self.finish(heard, self.jobs.rested, first)
    }

    // An element wishes to be associated.
    fn hear_setup(&mut self, element: FeId, corr: u64) -> Result<List<CeOut>, Memory>
        ensures core { OnOk result ((k : ℕ) → core_of self.new ≡ (finish k (heard (core_of self.old) element Setup)).master) }
        ensures outs { IfOk result (λ outs. (k : ℕ) → outs ≡ spec.greeting self.old.life (core_of self.old) element corr ++ spelled self.old.life (finish k (heard (core_of self.old) element Setup)).says) }
        ensures life { self.new.life ≡ self.old.life }
        ensures begun { begun_of self.new ≡ begun_of self.old }
        ensures err { OnErr result (self.new ≡ self.old) }
    {
        let mut heard = self.unchanged()?;
        match place_of(element, self.seats.as_slice()) {
            None => {
                let mut first = List::new(self.life.alloc);
                first.push(setup_response(&self.life, element, corr, 1))?;
                self.finish(heard, self.jobs.rested, first)
            }
            Some(at) => {
                let seat = &self.seats.as_slice()[at];
                let first = setup_answer(&self.life, seat, corr)?;
                heard.seats.set(at, seat.after_setup()?);
                self.finish(heard, self.jobs.rested, first)
            }
        }
    }

    // From which job on a response of the element may change anything: from the first on, where it may change jobs that rest.
    fn from_at(&self, element: FeId) -> usize
        ensures few { result ≤ self.now.jobs.rested }
        ensures leaves { (o : Waiting) → ((core_of self.now).at element).waits ≡ Some o → LeavesAlone (jobs_of (take result self.now.jobs.all)) o.body }
    {
        match seat_of(element, self.seats.as_slice()) {
            None => self.jobs.rested,
            Some(seat) => self.jobs.from_by(&seat.waits),
        }
    }

    // A response to a Config came from an element.
    fn hear_config_response(
        &mut self,
        element: FeId,
        corr: u64,
        selects: &[Select],
    ) -> Result<List<CeOut>, Memory>
        ensures core { OnOk result ((k : ℕ) → core_of self.new ≡ (finish k (heard (core_of self.old) element (Reply (stamp corr) (response_code selects.now)))).master) }
        ensures outs { IfOk result (λ outs. (k : ℕ) → outs ≡ spelled self.old.life (finish k (heard (core_of self.old) element (Reply (stamp corr) (response_code selects.now)))).says) }
        ensures life { self.new.life ≡ self.old.life }
        ensures begun { begun_of self.new ≡ begun_of self.old }
        ensures err { OnErr result (self.new ≡ self.old) }
    {
        let code = read_code(self.life.alloc, selects)?;
        let from = self.from_at(element);
        let jobs = self.jobs.behind(from);
        let next = after_reply(&self.life, &self.seats, jobs, element, corr, code)?;
        let heard = Heard {
            seats: next.seats,
            jobs: next.jobs,
            deposed: self.deposed,
        };
        self.finish(heard, from, List::new(self.life.alloc))
    }

    // An answer to a Query came from an element.
    fn hear_query_response(
        &mut self,
        element: FeId,
        corr: u64,
        selects: &[Select],
    ) -> Result<List<CeOut>, Memory>
        ensures core { OnOk result ((k : ℕ) → core_of self.new ≡ (finish k (answered (core_of self.old) element corr selects.now)).master) }
        ensures outs { IfOk result (λ outs. (k : ℕ) → outs ≡ spelled self.old.life (finish k (answered (core_of self.old) element corr selects.now)).says) }
        ensures life { self.new.life ≡ self.old.life }
        ensures begun { begun_of self.new ≡ begun_of self.old }
        ensures err { OnErr result (self.new ≡ self.old) }
    {
        let heard = after_answer(
            &self.life,
            &self.seats,
            self.jobs.as_slice(),
            self.deposed,
            element,
            corr,
            selects,
        )?;
        self.finish(heard, 0, List::new(self.life.alloc))
    }

    /// What an input makes of the master, and what it then sends, in this order: the response to a wish for an association, and then what
    /// waits at that element again, or the answer to a heartbeat that asks for one; then to each element, in their order, what is due
    /// there. Refused only for want of memory; nothing has changed then.
    pub fn step(&mut self, input: CeIn) -> Result<List<CeOut>, Memory>
        ensures core { OnOk result ((k : ℕ) → core_of self.new ≡ (stepped k (core_of self.old) input).master) }
        ensures outs { IfOk result (λ outs. (k : ℕ) → outs ≡ said self.old.life k (core_of self.old) input) }
        ensures life { self.new.life ≡ self.old.life }
        ensures begun { begun_of self.new ≡ begun_of self.old }
        ensures err { OnErr result (self.new ≡ self.old) }
    {
        let none = List::new(self.life.alloc);
        match input {
            CeIn::Moment(_) => self.finish_unchanged(none),
            CeIn::Arrived(element, message) => match &message.body {
                MsgBody::Setup(_) => self.hear_setup(element, message.corr),
                MsgBody::ConfigResponse(selects) => {
                    self.hear_config_response(element, message.corr, selects.as_slice())
                }
                MsgBody::QueryResponse(selects) => {
                    self.hear_query_response(element, message.corr, selects.as_slice())
                }
                MsgBody::Heartbeat => {
                    let first = heartbeat_answer(&self.life, element, &message)?;
                    self.finish_unchanged(first)
                }
                MsgBody::SetupResponse(_) => self.finish_unchanged(none),
                MsgBody::Teardown(_) => self.finish_unchanged(none),
                MsgBody::Config(_) => self.finish_unchanged(none),
                MsgBody::Query(_) => self.finish_unchanged(none),
                MsgBody::Event(_) => self.finish_unchanged(none),
            },
        }
    }
}
