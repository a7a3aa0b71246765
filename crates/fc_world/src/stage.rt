// What of a world changes from step to step.
ghost use Rattle.std.specs.Prelude.{◌≡◌, ◌<◌, ◌≤◌, ◌+◌, ◌^◌, ◌++◌, ◌∷◌, [], ℕ, None, true, vec_len, vec_capacity, IfSome, IfOk, OnOk, OnErr, map};
ghost use Rattle.fc_base.specs.Ids.{IsRound};
ghost use Rattle.fc_element.specs.ElementMachine.{IsProperIn};
ghost use Rattle.fc_jobs.specs.Sending.{are_apart};
ghost use Rattle.fc_msg.specs.Messages.{IsProper};
ghost use Rattle.fc_wellformed.specs.WellFormed.{IsWellFormed};
ghost use Rattle.fc_world.specs.Lookups as lookups;
ghost use Rattle.fc_world.specs.Stages.{AreCounted, IsAsWas, IsProperParcel, IsSound, KeepsClear, Refuses, Tells, batch_behind, batches_from, batches_of, call_of, refusals_of, refused_in, state_of};
ghost use Rattle.fc_world.specs.Worlds as worlds;
ghost use Rattle.fc_world.specs.WorldSteps as spec;

use crate::controllers::{Controller, ask_in, start_in, stop_in};
use crate::faults::Refused;
use crate::lives::{Answer, Request};
use crate::nodes::{Node, ids_of, restart_in, step_in};
use crate::numbers::{long_word, word};
use crate::sent::{Batch, Outs, Parcel, count, parcel_numbered};
use fc_base::{FeId, List, Memory};
use fc_element::{ElIn, Out};
use fc_msg::Message;
use std::alloc::Global;

// A message, whose numbers are within their fields by their types.
fn proper(message: Message) -> Message
    requires { IsWellFormed message }
    ensures same { result ≡ message }
    ensures proper { IsProper result }
{
    let _source = word(message.source);
    let _dest = word(message.dest);
    let _corr = long_word(message.corr);
    message
}

/// The elements, the control elements, all that was sent, and the calls that were refused, each with the place of its step.
#[derive(Drop)]
pub struct Stage {
    pub nodes: Vec<Node>,
    pub controllers: Vec<Controller>,
    pub sent: Vec<Batch>,
    pub refused: Vec<(usize, Refused)>,
}

impl Stage {
    // Appends what one sender sent. There is room for it.
    fn append(&mut self, outs: Outs)
        requires room { vec_len self.old.sent + 1 ≤ vec_capacity self.old.sent }
        requires counted { AreCounted 0 self.old.sent.items }
        ensures sent { self.new.sent.items ≡ self.old.sent.items ++ batch_behind self.old.sent.items outs ∷ [] }
        ensures nodes { self.new.nodes ≡ self.old.nodes }
        ensures controllers { self.new.controllers ≡ self.old.controllers }
        ensures refused { self.new.refused ≡ self.old.refused }
    {
        let before = count(self.sent.as_slice());
        self.sent.push_reserved(Batch { before, outs });
    }

    // Keeps what came of a call, if the control element runs: what it sends, or why the call is refused. There is room for both.
    fn keep(&mut self, place: usize, number: u32, answer: Option<Answer>) -> Option<Refused>
        requires counted { AreCounted 0 self.old.sent.items }
        requires room { vec_len self.old.sent + 1 ≤ vec_capacity self.old.sent }
        requires space { vec_len self.old.refused + 1 ≤ vec_capacity self.old.refused }
        ensures refused { result ≡ refused_in answer }
        ensures sent { self.new.sent.items ≡ self.old.sent.items ++ batches_of number self.old.sent.items answer }
        ensures kept { self.new.refused.items ≡ self.old.refused.items ++ refusals_of place answer }
        ensures nodes { self.new.nodes ≡ self.old.nodes }
        ensures controllers { self.new.controllers ≡ self.old.controllers }
    {
        match answer {
            None => None,
            Some(Answer::Spoke(outs)) => {
                self.append(Outs::OfController(number, outs));
                None
            }
            Some(Answer::Refused(refused)) => Some(self.note(place, refused)),
        }
    }

    // Notes why a call was refused. There is room for it.
    fn note(&mut self, place: usize, refused: Refused) -> Refused
        requires space { vec_len self.old.refused + 1 ≤ vec_capacity self.old.refused }
        ensures same { result ≡ refused }
        ensures kept { self.new.refused.items ≡ self.old.refused.items ++ (place, refused) ∷ [] }
        ensures nodes { self.new.nodes ≡ self.old.nodes }
        ensures controllers { self.new.controllers ≡ self.old.controllers }
        ensures sent { self.new.sent ≡ self.old.sent }
    {
        let told = refused;
        self.refused.push_reserved((place, refused));
        told
    }

    // Keeps what an element sends, if it is there. There is room for it.
    fn keep_outs(&mut self, id: FeId, outs: Option<List<Out>>)
        requires counted { AreCounted 0 self.old.sent.items }
        requires room { vec_len self.old.sent + 1 ≤ vec_capacity self.old.sent }
        ensures sent { self.new.sent.items ≡ self.old.sent.items ++ batches_from id self.old.sent.items outs }
        ensures nodes { self.new.nodes ≡ self.old.nodes }
        ensures controllers { self.new.controllers ≡ self.old.controllers }
        ensures refused { self.new.refused ≡ self.old.refused }
    {
        match outs {
            None => {}
            Some(outs) => self.append(Outs::OfElement(id, outs)),
        }
    }

    /// An input of an element, if it is there. After an `Err` nothing has changed.
    pub fn take(&mut self, id: FeId, input: ElIn) -> Result<(), Memory>
        requires proper { IsProperIn input }
        requires sound { IsSound self.old }
        ensures ok { OnOk result (state_of self.new ≡ spec.takes id input (state_of self.old)) }
        ensures sound { OnOk result (IsSound self.new) }
        ensures err { OnErr result (IsAsWas self.new self.old) }
    {
        self.sent.reserve(1)?;
        let outs = step_in(&mut self.nodes, id, input)?;
        self.keep_outs(id, outs);
        Ok(())
    }

    /// The element of this ID starts again, if it is there.
    pub fn restart(&mut self, id: FeId)
        requires sound { IsSound self.old }
        ensures ok { state_of self.new ≡ spec.restarts id (state_of self.old) }
        ensures sound { IsSound self.new }
    {
        restart_in(&mut self.nodes, id);
    }

    /// What a step, whose text stands at this place, asks of a control element, if that runs. After an `Err` nothing has changed.
    pub fn call(
        &mut self,
        place: usize,
        number: u32,
        request: Request,
    ) -> Result<Option<Refused>, Memory>
        requires sound { IsSound self.old }
        requires clear { KeepsClear request }
        ensures refused { IfOk result (λ refused. Tells (Refuses request) refused (spec.refusal_by (call_of number request) (lookups.ruling_in number (state_of self.old).controllers))) }
        ensures ok { OnOk result (state_of self.new ≡ spec.calls place number (call_of number request) (lookups.ruling_in number (state_of self.old).controllers) (state_of self.old)) }
        ensures sound { OnOk result (IsSound self.new) }
        ensures err { OnErr result (IsAsWas self.new self.old) }
    {
        self.sent.reserve(1)?;
        self.refused.reserve(1)?;
        let answer = ask_in(&mut self.controllers, number, request)?;
        Ok(self.keep(place, number, answer))
    }

    /// The control element of this number begins a life with this round, over all elements, if it is there. After an `Err` nothing has
    /// changed.
    pub fn start(&mut self, alloc: Global, number: u32, round: u32) -> Result<(), Memory>
        requires sound { IsSound self.old }
        requires apart { are_apart (lookups.ids_of self.old.nodes.items) ≡ true }
        requires round { IsRound round }
        ensures ok { OnOk result (state_of self.new ≡ spec.started_by (lookups.controller_in number (state_of self.old).controllers) number round (state_of self.old)) }
        ensures sound { OnOk result (IsSound self.new) }
        ensures err { OnErr result (IsAsWas self.new self.old) }
    {
        let ids = ids_of(alloc, self.nodes.as_slice())?;
        start_in(alloc, &mut self.controllers, number, ids.as_slice(), round)
    }

    /// The control element of this number stops, if it is there.
    pub fn stop(&mut self, number: u32)
        requires sound { IsSound self.old }
        ensures ok { state_of self.new ≡ spec.stopped number (state_of self.old) }
        ensures sound { IsSound self.new }
    {
        stop_in(&mut self.controllers, number);
    }

    /// The message of this number, counted from 1, comes to its addressee, if there is one. After an `Err` nothing has changed.
    pub fn deliver(&mut self, place: usize, number: usize) -> Result<(), Memory>
        requires sound { IsSound self.old }
        ensures ok { OnOk result (state_of self.new ≡ spec.delivers place (lookups.parcel_in number (state_of self.old).sent) (state_of self.old)) }
        ensures sound { OnOk result (IsSound self.new) }
        ensures err { OnErr result (IsAsWas self.new self.old) }
    {
        let parcel = parcel_numbered(number, self.sent.as_slice())?;
        self.bring(place, parcel)
    }

    // The message comes to its addressee, if there is one. After an `Err` nothing has changed.
    fn bring(&mut self, place: usize, parcel: Option<Parcel>) -> Result<(), Memory>
        requires sound { IsSound self.old }
        requires proper { IfSome parcel IsProperParcel }
        ensures ok { OnOk result (state_of self.new ≡ spec.delivers place parcel (state_of self.old)) }
        ensures sound { OnOk result (IsSound self.new) }
        ensures err { OnErr result (IsAsWas self.new self.old) }
    {
        let Some(parcel) = parcel else {
            return Ok(());
        };
        match parcel {
            Parcel::Downward(from, to, message) => {
                self.take(to, ElIn::Arrived(from, proper(message)))
            }
            Parcel::Upward(from, to, message) => match self.call(
                place,
                to,
                Request::Hear(from, message),
            ) {
                Ok(_) => Ok(()),
                Err(wanted) => Err(wanted),
            },
        }
    }
}
