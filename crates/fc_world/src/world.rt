// A whole network element.
ghost use Rattle.std.specs.Prelude.{◌≡◌, ◌≢◌, ◌++◌, ◌∷◌, [], ℕ, Some, None, IfOk, IfErr, OnOk, OnErr, option_map};
ghost use Rattle.std.specs.Option.{option_copied};
ghost use Rattle.fc_world.specs.Lookups.{IsIndex, element_in, parcel_in, ruling_in};
ghost use Rattle.fc_world.specs.Played.{AreMade, begins_with, report_of, setting_of, world_after, world_of};
ghost use Rattle.fc_world.specs.Reports.{sent_count};
ghost use Rattle.fc_world.specs.Settings.{IsNetwork};
ghost use Rattle.fc_world.specs.Stages.{HasRound, IsSound, RefusesAt, Tells, ruling_of, state_of};
ghost use Rattle.fc_world.specs.Trails.{trail_of};
ghost use Rattle.fc_world.specs.Worlds.{first_world, message_of};
ghost use Rattle.fc_world.specs.WorldSteps.{fault_of, refusal_of};
ghost use Rattle.fc_world.specs.declared.faults.WorldFault.TheVariants as fault;

use crate::controllers::{controller_of, first_controllers};
use crate::faults::{Refused, WorldFault};
use crate::naming::index_of;
use crate::nodes::{element_of, first_nodes};
use crate::reporting::put_report;
use crate::sent::{count, message_numbered};
use crate::setting::{Setting, setting_of};
use crate::stage::Stage;
use crate::trailing::trail_of;
use fc_base::{FeId, Memory};
use fc_element::Element;
use fc_keys::KeyIndex;
use fc_master::Master;
use fc_msg::Message;
use fc_scripts::Script;
use fc_steps::Step;
use std::alloc::Global;
use std::marker::Model;

/// A network element as a whole, which contracts see as its setting and the steps done, each with the place of its text. The elements, the
/// control elements, all messages and all that has happened follow from these.
#[derive(Drop)]
pub struct World {
    setting: Setting,
    names: KeyIndex,
    done: Vec<(usize, Step)>,
    stage: Stage,
    alloc: Global,
}

// What there is before the first step.
fn first_stage(alloc: Global, setting: &Setting) -> Result<Stage, Memory>
    requires { IsNetwork setting.now }
    ensures state { IfOk result (λ stage. state_of stage ≡ world_after setting.now []) }
    ensures sound { IfOk result IsSound }
{
    let nodes = first_nodes(alloc, setting)?;
    let controllers = first_controllers(alloc, setting.controllers.as_slice())?;
    Ok(Stage {
        nodes,
        controllers,
        sent: Vec::new(alloc),
        refused: Vec::new(alloc),
    })
}

// A step that can be made, and what is done and what there is then. After an `Err` nothing has changed.
fn advance(
    alloc: Global,
    setting: &Setting,
    names: &KeyIndex,
    done: &mut Vec<(usize, Step)>,
    stage: &mut Stage,
    place: usize,
    step: Step,
) -> Result<Option<Refused>, Memory>
    requires index { IsIndex names.now.0 setting.now.transactions }
    requires state { state_of stage.old ≡ world_after setting.now done.old.items }
    requires sound { IsSound stage.old }
    requires network { IsNetwork setting.now }
    requires made { AreMade setting.now.transactions (first_world setting.now) done.old.items }
    requires can { fault_of setting.now.transactions (world_after setting.now done.old.items) step ≡ None }
    requires round { HasRound step }
    ensures refused { IfOk result (λ refused. Tells (RefusesAt step) refused (refusal_of setting.now.transactions (world_after setting.now done.old.items) step)) }
    ensures ok { OnOk result (done.new.items ≡ done.old.items ++ (place, step) ∷ []) }
    ensures err { OnErr result (done.new.items ≡ done.old.items) }
    ensures state { state_of stage.new ≡ world_after setting.now done.new.items }
    ensures sound { IsSound stage.new }
    ensures made { AreMade setting.now.transactions (first_world setting.now) done.new.items }
{
    done.reserve(1)?;
    let refused = stage.take_step(alloc, setting, names, place, &step)?;
    done.push_reserved((place, step));
    Ok(refused)
}

// The same of a step that perhaps can't be made.
fn make(
    alloc: Global,
    setting: &Setting,
    names: &KeyIndex,
    done: &mut Vec<(usize, Step)>,
    stage: &mut Stage,
    place: usize,
    step: Step,
) -> Result<Option<Refused>, WorldFault>
    requires index { IsIndex names.now.0 setting.now.transactions }
    requires state { state_of stage.old ≡ world_after setting.now done.old.items }
    requires sound { IsSound stage.old }
    requires network { IsNetwork setting.now }
    requires made { AreMade setting.now.transactions (first_world setting.now) done.old.items }
    requires round { HasRound step }
    ensures can { OnOk result (fault_of setting.now.transactions (world_after setting.now done.old.items) step ≡ None) }
    ensures refused { IfOk result (λ refused. Tells (RefusesAt step) refused (refusal_of setting.now.transactions (world_after setting.now done.old.items) step)) }
    ensures ok { OnOk result (done.new.items ≡ done.old.items ++ (place, step) ∷ []) }
    ensures fault { IfErr result (λ f. f ≢ fault.Memory → fault_of setting.now.transactions (world_after setting.now done.old.items) step ≡ Some f) }
    ensures err { OnErr result (done.new.items ≡ done.old.items) }
    ensures state { state_of stage.new ≡ world_after setting.now done.new.items }
    ensures sound { IsSound stage.new }
    ensures made { AreMade setting.now.transactions (first_world setting.now) done.new.items }
{
    if let Some(fault) = stage.fault_of(setting, names, &step) {
        return Err(fault);
    }
    match advance(alloc, setting, names, done, stage, place, step) {
        Ok(refused) => Ok(refused),
        Err(_) => Err(WorldFault::Memory),
    }
}

impl Model for World {
    ghost use Rattle.std.specs.Prelude.{◌≡◌};
    ghost use Rattle.std.specs.Coded.{codes};
    ghost use Rattle.fc_steps.specs.contracts.step.Step as step_contracts;
    ghost use Rattle.fc_world.specs.Lookups.{IsIndex};
    ghost use Rattle.fc_world.specs.Played.{AreMade, Played, world_after};
    ghost use Rattle.fc_world.specs.Settings.{IsNetwork};
    ghost use Rattle.fc_world.specs.Stages.{IsSound, state_of};
    ghost use Rattle.fc_world.specs.Worlds.{first_world};
    ghost use Rattle.fc_world.specs.contracts.setting.Setting as setting_contracts;

    ghost Value = { Played };

    ghost coded = { Prim.hlevel (codes, setting_contracts.the_row.coded, step_contracts.the_row.coded) };

    ghost view = { λ w. record { setting = w.setting; done = w.done.items } };

    ghost invariant = { λ w. (state_of w.stage ≡ world_after w.setting w.done.items) × IsSound w.stage × IsNetwork w.setting × AreMade w.setting.transactions (first_world w.setting) w.done.items × IsIndex w.names.0 w.setting.transactions };
}

impl World {
    /// The world of a script before its first step: each element is new, no control element runs, and nothing was sent.
    pub fn new(alloc: Global, script: &Script) -> Result<World, Memory>
        ensures { IfOk result (λ w. w ≡ begins_with (setting_of script.now)) }
    {
        let setting = setting_of(alloc, script)?;
        let names = index_of(alloc, setting.transactions.as_slice())?;
        let stage = first_stage(alloc, &setting)?;
        Ok(World {
            setting,
            names,
            done: Vec::new(alloc),
            stage,
            alloc,
        })
    }

    /// What each world keeps: its setting makes a network, and each step that was made could be made then.
    pub fn keeps(&self)
        ensures network { IsNetwork self.now.setting }
        ensures made { AreMade self.now.setting.transactions (first_world self.now.setting) self.now.done }
    {
        let _setting = &self.setting;
    }

    /// Makes a step, whose text stands at this place of the script, and tells why a control element has refused what it was asked, if it
    /// has: with the fault of that very call, which is never want of memory. The place stands in the report, and changes nothing else. A
    /// name that is not in the script comes before all other faults. After an `Err` nothing has changed.
    pub fn step(&mut self, place: usize, step: Step) -> Result<Option<Refused>, WorldFault>
        requires { HasRound step }
        ensures can { OnOk result (fault_of self.old.setting.transactions (world_of self.old) step ≡ None) }
        ensures refused { IfOk result (λ refused. Tells (RefusesAt step) refused (refusal_of self.old.setting.transactions (world_of self.old) step)) }
        ensures ok { OnOk result (self.new ≡ record { setting = self.old.setting; done = self.old.done ++ (place, step) ∷ [] }) }
        ensures fault { IfErr result (λ f. f ≢ fault.Memory → fault_of self.old.setting.transactions (world_of self.old) step ≡ Some f) }
        ensures err { OnErr result (self.new ≡ self.old) }
    {
        make(
            self.alloc,
            &self.setting,
            &self.names,
            &mut self.done,
            &mut self.stage,
            place,
            step,
        )
    }

    /// Appends the report: a line for each refused call, `step PLACE` and why; then the reports on the elements and on the control elements,
    /// each in the order of the script, of one that stands still `controller NUMBER stopped`; and last `sent N`, with how many messages were
    /// sent. After an `Err` nothing has changed.
    pub fn report(&self, into: &mut Vec<u8>) -> Result<(), Memory>
        ensures ok { OnOk result (into.new.items ≡ into.old.items ++ report_of self.now) }
        ensures err { OnErr result (into.new.items ≡ into.old.items) }
    {
        let mut text = Vec::new(self.alloc);
        put_report(self.alloc, &self.stage, &mut text)?;
        into.extend_from_slice(text.as_slice())?;
        Ok(())
    }

    /// How many messages were sent.
    pub fn sent(&self) -> usize
        ensures { result ≡ sent_count (world_of self.now) }
    {
        count(self.stage.sent.as_slice())
    }

    /// The message with this number among all that were sent, counted from 1.
    pub fn message(&self, number: usize) -> Option<&Message>
        ensures { option_copied result ≡ option_map message_of (parcel_in number (world_of self.now).sent) }
    {
        message_numbered(number, self.stage.sent.as_slice())
    }

    /// The element of this ID.
    pub fn element(&self, id: FeId) -> Option<&Element>
        ensures { option_copied result ≡ element_in id (world_of self.now).nodes }
    {
        element_of(id, self.stage.nodes.as_slice())
    }

    /// The life of the control element of this number, where it runs.
    pub fn master(&self, number: u8) -> Option<&Master>
        ensures { option_map ruling_of (option_copied result) ≡ ruling_in number (world_of self.now).controllers }
    {
        let controller = controller_of(u32::from(number), self.stage.controllers.as_slice())?;
        controller.master.as_ref()
    }

    /// A number that all messages make, in their order: from 0 on, each byte of their canonical forms is added to 31 times what stands,
    /// modulo 4,294,967,296. An `Err` is want of memory.
    pub fn trail(&self) -> Result<u32, Memory>
        ensures { IfOk result (λ trail. trail ≡ trail_of (world_of self.now).sent) }
    {
        trail_of(self.alloc, self.stage.sent.as_slice())
    }
}
