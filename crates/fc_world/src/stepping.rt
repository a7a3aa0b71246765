// The steps of a world.
ghost use Rattle.std.specs.Prelude.{◌≡◌, Some, None, true, is_some, IfOk, OnOk, OnErr};
ghost use Rattle.fc_base.specs.Ids.{IsRound};
ghost use Rattle.fc_element.specs.ElementMachine.{IsProperIn};
ghost use Rattle.fc_jobs.specs.Sending.{are_apart};
ghost use Rattle.fc_wellformed.specs.WellFormed.{IsChange, TxnHolds};
ghost use Rattle.fc_world.specs.Lookups as lookups;
ghost use Rattle.fc_world.specs.Settings.{IsClearSetting};
ghost use Rattle.fc_world.specs.Stages.{HasRound, IsAsWas, IsSound, RefusesAt, RefusesBegin, RefusesForget, RefusesGiveUp, RefusesNothing, Tells, state_of};
ghost use Rattle.fc_world.specs.WorldSteps as spec;

use crate::controllers::controller_of;
use crate::faults::{Refused, WorldFault};
use crate::lives::Request;
use crate::naming::{plain_in, transaction_in};
use crate::nodes::element_of;
use crate::sent::count;
use crate::setting::Setting;
use crate::stage::Stage;
use fc_base::{Duplicate, FeId, Memory, TxnId};
use fc_documents::PlanTxn;
use fc_element::ElIn;
use fc_keys::KeyIndex;
use fc_master::Change;
use fc_steps::Step;
use std::alloc::Global;

impl Stage {
    // Whether the script has this element.
    fn has_element(&self, id: FeId) -> bool
        ensures { result ≡ lookups.has_element id self.now.nodes.items }
    {
        element_of(id, self.nodes.as_slice()).is_some()
    }

    // Whether it has a control element of this number.
    fn has_controller(&self, number: u8) -> bool
        ensures { result ≡ lookups.has_controller number (state_of self.now).controllers }
    {
        controller_of(u32::from(number), self.controllers.as_slice()).is_some()
    }

    // Whether that control element runs.
    fn is_running(&self, number: u8) -> bool
        ensures { result ≡ lookups.is_running number (state_of self.now).controllers }
    {
        match controller_of(u32::from(number), self.controllers.as_slice()) {
            None => false,
            Some(controller) => controller.master.is_some(),
        }
    }

    // Whether it has used this round.
    fn has_used(&self, number: u8, round: u32) -> bool
        ensures { result ≡ spec.has_used number round (state_of self.now).controllers }
    {
        match controller_of(u32::from(number), self.controllers.as_slice()) {
            None => false,
            Some(controller) => controller.has_used(round),
        }
    }

    // Why an element of this name can't take a step.
    fn element_fault(&self, id: FeId) -> Option<WorldFault>
        ensures { result ≡ spec.element_fault id (state_of self.now) }
    {
        if !self.has_element(id) {
            return Some(WorldFault::NoSuchName);
        }
        None
    }

    fn open_fault(&self, id: FeId, number: u8) -> Option<WorldFault>
        ensures { result ≡ spec.open_fault id number (state_of self.now) }
    {
        if !(self.has_element(id) && self.has_controller(number)) {
            return Some(WorldFault::NoSuchName);
        }
        None
    }

    fn message_fault(&self, number: usize) -> Option<WorldFault>
        requires { IsSound self.now }
        ensures { result ≡ spec.message_fault number (state_of self.now) }
    {
        if number == 0 || count(self.sent.as_slice()) < number {
            return Some(WorldFault::NoSuchMessage);
        }
        None
    }

    fn start_fault(&self, number: u8, round: u32) -> Option<WorldFault>
        ensures { result ≡ spec.start_fault number round (state_of self.now) }
    {
        if !self.has_controller(number) {
            return Some(WorldFault::NoSuchName);
        }
        if self.is_running(number) {
            return Some(WorldFault::Running);
        }
        if self.has_used(number, round) {
            return Some(WorldFault::RoundUsed);
        }
        None
    }

    // Why a control element can't be called, where the other names are there or not.
    fn call_fault(&self, named: bool, number: u8) -> Option<WorldFault>
        ensures { result ≡ spec.call_fault named number (state_of self.now) }
    {
        if !(self.has_controller(number) && named) {
            return Some(WorldFault::NoSuchName);
        }
        if !self.is_running(number) {
            return Some(WorldFault::NotRunning);
        }
        None
    }

    /// Why the step can't be made.
    pub fn fault_of(&self, setting: &Setting, names: &KeyIndex, step: &Step) -> Option<WorldFault>
        requires sound { IsSound self.now }
        requires index { lookups.IsIndex names.now.0 setting.now.transactions }
        ensures { result ≡ spec.fault_of setting.now.transactions (state_of self.now) step.now }
    {
        let transactions = setting.transactions.as_slice();
        match step {
            Step::Open(id, number) => self.open_fault(*id, *number),
            Step::Deliver(number) => self.message_fault(*number),
            Step::Moment(id, _) => self.element_fault(*id),
            Step::Start(number, round) => self.start_fault(*number, *round),
            Step::Stop(number) => self.call_fault(true, *number),
            Step::Begin(number, name) => {
                self.call_fault(
                    transaction_in(name.as_str(), names, transactions).is_some(),
                    *number,
                )
            }
            Step::Plain(number, name) => {
                self.call_fault(
                    plain_in(name.as_str(), names, transactions).is_some(),
                    *number,
                )
            }
            Step::GiveUp(number, _) => self.call_fault(true, *number),
            Step::Resend(number, id) => self.call_fault(self.has_element(*id), *number),
            Step::Forget(number) => self.call_fault(true, *number),
            Step::Restart(id) => self.element_fault(*id),
        }
    }

    // An input of an element, if it is there.
    fn input(&mut self, id: FeId, input: ElIn) -> Result<Option<Refused>, Memory>
        requires proper { IsProperIn input }
        requires sound { IsSound self.old }
        ensures refused { IfOk result (λ refused. Tells RefusesNothing refused None) }
        ensures ok { OnOk result (state_of self.new ≡ spec.takes id input (state_of self.old)) }
        ensures sound { OnOk result (IsSound self.new) }
        ensures err { OnErr result (IsAsWas self.new self.old) }
    {
        match self.take(id, input) {
            Ok(()) => Ok(None),
            Err(wanted) => Err(wanted),
        }
    }

    // The message of this number comes to its addressee.
    fn arrival(&mut self, place: usize, number: usize) -> Result<Option<Refused>, Memory>
        requires sound { IsSound self.old }
        ensures refused { IfOk result (λ refused. Tells RefusesNothing refused None) }
        ensures ok { OnOk result (state_of self.new ≡ spec.delivers place (lookups.parcel_in number (state_of self.old).sent) (state_of self.old)) }
        ensures sound { OnOk result (IsSound self.new) }
        ensures err { OnErr result (IsAsWas self.new self.old) }
    {
        match self.deliver(place, number) {
            Ok(()) => Ok(None),
            Err(wanted) => Err(wanted),
        }
    }

    // A control element begins a life.
    fn life(&mut self, alloc: Global, number: u8, round: u32) -> Result<Option<Refused>, Memory>
        requires sound { IsSound self.old }
        requires apart { are_apart (lookups.ids_of self.old.nodes.items) ≡ true }
        requires round { IsRound round }
        ensures refused { IfOk result (λ refused. Tells RefusesNothing refused None) }
        ensures ok { OnOk result (state_of self.new ≡ spec.started_by (lookups.controller_in number (state_of self.old).controllers) number round (state_of self.old)) }
        ensures sound { OnOk result (IsSound self.new) }
        ensures err { OnErr result (IsAsWas self.new self.old) }
    {
        match self.start(alloc, u32::from(number), round) {
            Ok(()) => Ok(None),
            Err(wanted) => Err(wanted),
        }
    }

    // It is asked to begin this transaction.
    fn begin_all(
        &mut self,
        place: usize,
        number: u8,
        transaction: &PlanTxn,
    ) -> Result<Option<Refused>, Memory>
        requires sound { IsSound self.old }
        requires holds { TxnHolds transaction.now }
        ensures refused { IfOk result (λ refused. Tells RefusesBegin refused (spec.begin_refused number (Some transaction.now) (state_of self.old))) }
        ensures ok { OnOk result (state_of self.new ≡ spec.begins_by place number (Some transaction.now) (state_of self.old)) }
        ensures sound { OnOk result (IsSound self.new) }
        ensures err { OnErr result (IsAsWas self.new self.old) }
    {
        match transaction.plan() {
            Ok(plan) => self.call(place, u32::from(number), Request::Begin(plan)),
            Err(_) => Err(Memory),
        }
    }

    // It is asked to send this change.
    fn change_one(
        &mut self,
        place: usize,
        number: u8,
        element: FeId,
        change: &Change,
    ) -> Result<Option<Refused>, Memory>
        requires sound { IsSound self.old }
        requires holds { IsChange change.now }
        ensures refused { IfOk result (λ refused. Tells RefusesBegin refused (spec.plain_refused number (Some (element, change.now)) (state_of self.old))) }
        ensures ok { OnOk result (state_of self.new ≡ spec.changes_by place number (Some (element, change.now)) (state_of self.old)) }
        ensures sound { OnOk result (IsSound self.new) }
        ensures err { OnErr result (IsAsWas self.new self.old) }
    {
        match change.copy() {
            Ok(change) => self.call(place, u32::from(number), Request::Plain(element, change)),
            Err(wanted) => Err(wanted),
        }
    }

    // It is asked to give the transaction up.
    fn give_up(&mut self, place: usize, number: u8, txn: TxnId) -> Result<Option<Refused>, Memory>
        requires sound { IsSound self.old }
        ensures refused { IfOk result (λ refused. Tells RefusesGiveUp refused (spec.refusal_by (spec.gives_up_in number txn) (lookups.ruling_in number (state_of self.old).controllers))) }
        ensures ok { OnOk result (state_of self.new ≡ spec.calls place number (spec.gives_up_in number txn) (lookups.ruling_in number (state_of self.old).controllers) (state_of self.old)) }
        ensures sound { OnOk result (IsSound self.new) }
        ensures err { OnErr result (IsAsWas self.new self.old) }
    {
        self.call(place, u32::from(number), Request::GiveUp(txn))
    }

    // It is asked to send an element once more what waits there, which it never refuses.
    fn resend(&mut self, place: usize, number: u8, id: FeId) -> Result<Option<Refused>, Memory>
        requires sound { IsSound self.old }
        ensures refused { IfOk result (λ refused. Tells RefusesNothing refused None) }
        ensures ok { OnOk result (state_of self.new ≡ spec.calls place number (λ r. spec.granted (spec.resends_in number id r)) (lookups.ruling_in number (state_of self.old).controllers) (state_of self.old)) }
        ensures sound { OnOk result (IsSound self.new) }
        ensures err { OnErr result (IsAsWas self.new self.old) }
    {
        self.call(place, u32::from(number), Request::Resend(id))
    }

    // Its elements are to forget what is settled.
    fn forget(&mut self, place: usize, number: u8) -> Result<Option<Refused>, Memory>
        requires sound { IsSound self.old }
        ensures refused { IfOk result (λ refused. Tells RefusesForget refused (spec.refusal_by (spec.forgets_in number) (lookups.ruling_in number (state_of self.old).controllers))) }
        ensures ok { OnOk result (state_of self.new ≡ spec.calls place number (spec.forgets_in number) (lookups.ruling_in number (state_of self.old).controllers) (state_of self.old)) }
        ensures sound { OnOk result (IsSound self.new) }
        ensures err { OnErr result (IsAsWas self.new self.old) }
    {
        self.call(place, u32::from(number), Request::Forget)
    }

    // It stops.
    fn halt(&mut self, number: u8) -> Result<Option<Refused>, Memory>
        requires sound { IsSound self.old }
        ensures refused { IfOk result (λ refused. Tells RefusesNothing refused None) }
        ensures ok { OnOk result (state_of self.new ≡ spec.stopped number (state_of self.old)) }
        ensures sound { OnOk result (IsSound self.new) }
        ensures err { OnErr result (IsAsWas self.new self.old) }
    {
        self.stop(u32::from(number));
        Ok(None)
    }

    // An element starts again.
    fn again(&mut self, id: FeId) -> Result<Option<Refused>, Memory>
        requires sound { IsSound self.old }
        ensures refused { IfOk result (λ refused. Tells RefusesNothing refused None) }
        ensures ok { OnOk result (state_of self.new ≡ spec.restarts id (state_of self.old)) }
        ensures sound { OnOk result (IsSound self.new) }
        ensures err { OnErr result (IsAsWas self.new self.old) }
    {
        self.restart(id);
        Ok(None)
    }

    // A control element is asked to begin the transaction of this name.
    fn begin(
        &mut self,
        setting: &Setting,
        names: &KeyIndex,
        place: usize,
        number: u8,
        name: &str,
    ) -> Result<Option<Refused>, Memory>
        requires index { lookups.IsIndex names.now.0 setting.now.transactions }
        requires sound { IsSound self.old }
        requires clear { IsClearSetting setting.now }
        ensures refused { IfOk result (λ refused. Tells RefusesBegin refused (spec.begin_refused number (lookups.transaction_in name.now setting.now.transactions) (state_of self.old))) }
        ensures ok { OnOk result (state_of self.new ≡ spec.begins_by place number (lookups.transaction_in name.now setting.now.transactions) (state_of self.old)) }
        ensures sound { OnOk result (IsSound self.new) }
        ensures err { OnErr result (IsAsWas self.new self.old) }
    {
        let Some(transaction) = transaction_in(name, names, setting.transactions.as_slice()) else {
            return Ok(None);
        };
        self.begin_all(place, number, transaction)
    }

    // It is asked to send the one change of the transaction of this name.
    fn change(
        &mut self,
        setting: &Setting,
        names: &KeyIndex,
        place: usize,
        number: u8,
        name: &str,
    ) -> Result<Option<Refused>, Memory>
        requires index { lookups.IsIndex names.now.0 setting.now.transactions }
        requires sound { IsSound self.old }
        requires clear { IsClearSetting setting.now }
        ensures refused { IfOk result (λ refused. Tells RefusesBegin refused (spec.plain_refused number (lookups.plain_in name.now setting.now.transactions) (state_of self.old))) }
        ensures ok { OnOk result (state_of self.new ≡ spec.changes_by place number (lookups.plain_in name.now setting.now.transactions) (state_of self.old)) }
        ensures sound { OnOk result (IsSound self.new) }
        ensures err { OnErr result (IsAsWas self.new self.old) }
    {
        let Some(lone) = plain_in(name, names, setting.transactions.as_slice()) else {
            return Ok(None);
        };
        self.change_one(place, number, lone.0, lone.1)
    }

    /// What the step, whose text stands at this place, makes of the world, and why what it asks is refused, if it is. After an `Err` nothing
    /// has changed.
    pub fn take_step(
        &mut self,
        alloc: Global,
        setting: &Setting,
        names: &KeyIndex,
        place: usize,
        step: &Step,
    ) -> Result<Option<Refused>, Memory>
        requires index { lookups.IsIndex names.now.0 setting.now.transactions }
        requires sound { IsSound self.old }
        requires clear { IsClearSetting setting.now }
        requires apart { are_apart (lookups.ids_of self.old.nodes.items) ≡ true }
        requires round { HasRound step.now }
        ensures refused { IfOk result (λ refused. Tells (RefusesAt step.now) refused (spec.refusal_of setting.now.transactions (state_of self.old) step.now)) }
        ensures ok { OnOk result (state_of self.new ≡ spec.happens setting.now.transactions (state_of self.old) (place, step.now)) }
        ensures sound { OnOk result (IsSound self.new) }
        ensures err { OnErr result (IsAsWas self.new self.old) }
    {
        match step {
            Step::Open(id, number) => self.input(*id, ElIn::Opened(u32::from(*number))),
            Step::Deliver(number) => self.arrival(place, *number),
            Step::Moment(id, moment) => self.input(*id, ElIn::Moment(*moment)),
            Step::Start(number, round) => self.life(alloc, *number, *round),
            Step::Stop(number) => self.halt(*number),
            Step::Begin(number, name) => self.begin(setting, names, place, *number, name.as_str()),
            Step::Plain(number, name) => self.change(setting, names, place, *number, name.as_str()),
            Step::GiveUp(number, txn) => self.give_up(place, *number, *txn),
            Step::Resend(number, id) => self.resend(place, *number, *id),
            Step::Forget(number) => self.forget(place, *number),
            Step::Restart(id) => self.again(*id),
        }
    }
}
