// The control elements of a world.
ghost use Rattle.std.specs.Prelude.{◌≡◌, ◌<◌, ◌++◌, ℕ, None, true, length, map, is_some, option_map, IfOk, IfSome, OnOk, OnErr};
ghost use Rattle.std.specs.List.{flat_map};
ghost use Rattle.fc_base.specs.Ids.{IsRound};
ghost use Rattle.fc_jobs.specs.Sending.{are_apart};
ghost use Rattle.fc_protocol.specs.Collections.{among};
ghost use Rattle.fc_world.specs.Answering.{AnswersAt, AnswersIn, AnswersOne, started_in};
ghost use Rattle.fc_world.specs.Lookups as spec;
ghost use Rattle.fc_world.specs.Reports as reports;
ghost use Rattle.fc_world.specs.Stages.{ruling_of, standing_of};
ghost use Rattle.fc_world.specs.Worlds.{first_controller};
ghost use Rattle.fc_world.specs.WorldSteps.{started, with_ruling, with_running};

use crate::lives::{Answer, Request, ask};
use fc_base::{CeId, Epoch, FeId, Memory};
use fc_master::Master;
use std::alloc::Global;

/// A control element: its ID, the rounds that it has used, and its life where it runs.
#[derive(Debug, Drop)]
pub struct Controller {
    pub ce: CeId,
    pub used: Vec<u32>,
    pub master: Option<Master>,
}

/// The control elements of a script, none of which runs.
pub fn first_controllers(alloc: Global, ids: &[CeId]) -> Result<Vec<Controller>, Memory>
    ensures { IfOk result (λ controllers. map standing_of controllers.items ≡ map first_controller ids.now) }
{
    let mut controllers = Vec::new(alloc);
    for id in ids {
        controllers.push(Controller {
            ce: *id,
            used: Vec::new(alloc),
            master: None,
        })?;
    }
    Ok(controllers)
}

// The place of a control element.
fn place_of(number: u32, controllers: &[Controller]) -> Option<usize>
    ensures exact { result ≡ spec.controller_place number (map standing_of controllers.now) }
    ensures within { IfSome result (λ at. at < length controllers.now) }
{
    match controllers {
        [] => None,
        [first, rest @ ..] => {
            if number == u32::from(first.ce.number()) {
                return Some(0);
            }
            match place_of(number, rest) {
                Some(at) => Some(at + 1),
                None => None,
            }
        }
    }
}

/// The control element of this number.
pub fn controller_of(number: u32, controllers: &[Controller]) -> Option<&Controller>
    ensures { option_map (λ s. standing_of s.now) result ≡ spec.controller_in number (map standing_of controllers.now) }
{
    for controller in controllers {
        if number == u32::from(controller.ce.number()) {
            return Some(controller);
        }
    }
    None
}

impl Controller {
    /// Whether it has used this round.
    pub fn has_used(&self, round: u32) -> bool
        ensures { result ≡ among round self.now.used.items }
    {
        for used in self.used.as_slice() {
            if round == *used {
                return true;
            }
        }
        false
    }

    // What is asked of its life, if it runs.
    fn ask(&mut self, request: Request) -> Result<Option<Answer>, Memory>
        ensures ok { IfOk result (λ answer. (k : ℕ) → AnswersOne k request (standing_of self.old) answer (standing_of self.new)) }
        ensures err { OnErr result (self.new ≡ self.old) }
    {
        match &mut self.master {
            None => Ok(None),
            Some(master) => Ok(Some(ask(master, request)?)),
        }
    }

    // It begins a life with this round, over these elements.
    fn start(&mut self, alloc: Global, elements: &[FeId], round: u32) -> Result<(), Memory>
        requires apart { are_apart elements.now ≡ true }
        requires round { IsRound round }
        ensures ok { OnOk result (standing_of self.new ≡ started elements.now round (standing_of self.old)) }
        ensures err { OnErr result (standing_of self.new ≡ standing_of self.old) }
    {
        let Some(epoch) = Epoch::of(round, self.ce) else {
            return Err(Memory);
        };
        let master = Master::new(alloc, self.ce, elements, epoch)?;
        self.used.push(round)?;
        self.master = Some(master);
        Ok(())
    }
}

// What is asked of the life of the control element at a place, if it runs.
fn ask_at(
    controllers: &mut Vec<Controller>,
    place: usize,
    request: Request,
) -> Result<Option<Answer>, Memory>
    ensures ok { IfOk result (λ answer. AnswersAt place request (map standing_of controllers.old.items) answer (map standing_of controllers.new.items)) }
    ensures err { OnErr result (map standing_of controllers.new.items ≡ map standing_of controllers.old.items) }
{
    match controllers.get_mut(place) {
        None => Ok(None),
        Some(controller) => controller.ask(request),
    }
}

/// What is asked of the life of the control element of this number, if it runs. After an `Err` nothing has changed.
pub fn ask_in(
    controllers: &mut Vec<Controller>,
    number: u32,
    request: Request,
) -> Result<Option<Answer>, Memory>
    ensures ok { IfOk result (λ answer. AnswersIn number request (map standing_of controllers.old.items) answer (map standing_of controllers.new.items)) }
    ensures err { OnErr result (map standing_of controllers.new.items ≡ map standing_of controllers.old.items) }
{
    match place_of(number, controllers.as_slice()) {
        None => Ok(None),
        Some(place) => ask_at(controllers, place, request),
    }
}

fn start_at(
    alloc: Global,
    controllers: &mut Vec<Controller>,
    place: usize,
    elements: &[FeId],
    round: u32,
) -> Result<(), Memory>
    requires apart { are_apart elements.now ≡ true }
    requires round { IsRound round }
    ensures ok { OnOk result (map standing_of controllers.new.items ≡ spec.changed_at (started elements.now round) place (map standing_of controllers.old.items)) }
    ensures err { OnErr result (map standing_of controllers.new.items ≡ map standing_of controllers.old.items) }
{
    match controllers.get_mut(place) {
        None => Ok(()),
        Some(controller) => controller.start(alloc, elements, round),
    }
}

/// The control element of this number begins a life, if it is there. After an `Err` nothing has changed.
pub fn start_in(
    alloc: Global,
    controllers: &mut Vec<Controller>,
    number: u32,
    elements: &[FeId],
    round: u32,
) -> Result<(), Memory>
    requires apart { are_apart elements.now ≡ true }
    requires round { IsRound round }
    ensures ok { OnOk result (map standing_of controllers.new.items ≡ started_in number elements.now round (map standing_of controllers.old.items)) }
    ensures err { OnErr result (map standing_of controllers.new.items ≡ map standing_of controllers.old.items) }
{
    match place_of(number, controllers.as_slice()) {
        None => Ok(()),
        Some(place) => start_at(alloc, controllers, place, elements, round),
    }
}

fn stop_at(controllers: &mut Vec<Controller>, place: usize)
    ensures { map standing_of controllers.new.items ≡ spec.changed_at (with_running None) place (map standing_of controllers.old.items) }
{
    if let Some(controller) = controllers.get_mut(place) {
        controller.master = None;
    }
}

/// The control element of this number stops, if it is there.
pub fn stop_in(controllers: &mut Vec<Controller>, number: u32)
    ensures { map standing_of controllers.new.items ≡ with_ruling number None (map standing_of controllers.old.items) }
{
    match place_of(number, controllers.as_slice()) {
        None => {}
        Some(place) => stop_at(controllers, place),
    }
}
