// The element.
ghost use Rattle.std.specs.Prelude.{◌≡◌, ◌++◌, IfOk, OnOk, OnErr, true};
ghost use Rattle.std.specs.List.{AllByRecursion, list_all};
ghost use Rattle.fc_types.specs.Libraries.{AreKnown, is_own};
ghost use Rattle.fc_msg.specs.Messages.{IsProper, ProperSelects};
ghost use Rattle.fc_path.specs.Results.{results_fit};
ghost use Rattle.fc_msg.specs.declared.message.MsgBody.TheVariants.{Config, Query};
ghost use Rattle.fc_performing.specs.Sending.{CanBeSent, IsSaid, responses};
ghost use Rattle.fc_reply.specs.Counting.{each_gets};
ghost use Rattle.fc_reply.specs.Replies.{reply};
ghost use Rattle.fc_transactions.specs.Order.{configured};
ghost use Rattle.fc_element.specs.Configuration as configuration;
ghost use Rattle.fc_element.specs.ElementMachine.{IsProperIn, by_order, down_outs, has_lost, is_due, leaving, moved_on, on_body, on_config, on_message, on_moment, on_query, query_outs, query_selects, remaining_of, settled_in, step, taking};
ghost use Rattle.fc_element.specs.ElementState.{opened, restarted};
ghost use Rattle.fc_element.specs.Reports.{report_of};
ghost use Rattle.fc_blocks.specs.Settings.{settings_in as settings_of};
ghost use Rattle.std.specs.FinMap.{remove};

use crate::ElIn;
use crate::configured::{Configured, settled_configuration};
use crate::live::Telling;
use crate::notices::told_down;
use crate::replies::{ALWAYS, answer, one, push_beats, query_answer, setup};
use crate::report::push_report;
use crate::settled::settled_settings;
use fc_assoc::Associations;
use fc_base::{CeId, Code, Duplicate, FeId, List, Memory};
use fc_blocks::{HeartbeatSettings, foreign_selects, open_store, told_selects};
use fc_msg::{Message, MsgBody};
use fc_path::{Select, fits_results};
use fc_performing::{Out, can_be_answered, refusals};
use fc_transactions::Transactions;
use fc_types::{Instances, Library};
use std::alloc::Global;
use std::marker::Model;

/// A forwarding element, which contracts see as what it holds.
#[derive(Drop)]
pub struct Element {
    transactions: Transactions,
    associations: Associations,
    clock: u64,
    last_beat: u64,
    alloc: Global,
}

impl Model for Element {
    ghost use Rattle.fc_element.specs.ElementState.{ElementState, state_code};

    ghost Value = { ElementState };

    ghost coded = { state_code };

    ghost view = { λ s. record { transactions = s.transactions; associations = s.associations; clock = s.clock; last_beat = s.last_beat } };
}

impl Element {
    /// An element with this ID, a library and instances to which it adds its own, and the control element that is to configure it. It has
    /// no association, its components have their opening values, no event is registered, and its moment is 0.
    pub fn new(
        alloc: Global,
        id: FeId,
        ce: CeId,
        library: Library,
        instances: Instances,
    ) -> Result<Element, Memory>
        requires absent { list_all is_own library ≡ true }
        requires known { AreKnown library instances }
        ensures { IfOk result (λ element. element ≡ opened id ce library instances) }
    {
        let store = open_store(alloc, library, instances)?;
        Ok(Element {
            transactions: Transactions::new(alloc, id, ce, store)?,
            associations: Associations::new(alloc),
            clock: 0,
            last_beat: 0,
            alloc,
        })
    }

    /// Starts the element again with what it keeps: it has no association then, and its moment is 0. It takes no memory.
    pub fn restart(&mut self)
        ensures { self.new ≡ restarted self.old }
    {
        self.associations = Associations::new(self.alloc);
        self.clock = 0;
        self.last_beat = 0;
    }

    /// Takes an input, and gives the messages that it sends, in their order, each of which can be encoded and is decoded as
    /// itself. After an `Err` nothing has changed, as if the input had been lost.
    pub fn step(&mut self, input: ElIn) -> Result<List<Out>, Memory>
        requires proper { IsProperIn input }
        ensures outs { IfOk result (λ outs. outs ≡ (step self.old input).outs) }
        ensures fit { IfOk result (λ outs. AllByRecursion CanBeSent outs) }
        ensures proper { IfOk result (λ outs. AllByRecursion IsSaid outs) }
        ensures ok { OnOk result (self.new ≡ (step self.old input).state) }
        ensures err { OnErr result (self.new ≡ self.old) }
    {
        let _kept = self.transactions.kept();
        self.taken(input)
    }

    // The same, of which that all can be encoded is not said.
    #[tactic(auto, unfolding(crate::specs::ElementMachine::step))]
    fn taken(&mut self, input: ElIn) -> Result<List<Out>, Memory>
        requires proper { IsProperIn input }
        ensures outs { IfOk result (λ outs. outs ≡ (step self.old input).outs) }
        ensures proper { IfOk result (λ outs. AllByRecursion IsSaid outs) }
        ensures ok { OnOk result (self.new ≡ (step self.old input).state) }
        ensures err { OnErr result (self.new ≡ self.old) }
    {
        match input {
            ElIn::Opened(peer) => one(self.alloc, peer, setup(self.alloc, self.transactions.id())),
            ElIn::Arrived(peer, message) => self.arrived(peer, message),
            ElIn::Closed(_) => Ok(List::new(self.alloc)),
            ElIn::Moment(moment) => self.moment(moment),
        }
    }

    // A message came from a peer.
    fn arrived(&mut self, peer: u32, message: Message) -> Result<List<Out>, Memory>
        requires { IsProper message }
        ensures outs { IfOk result (λ outs. outs ≡ (on_message self.old peer message).outs) }
        ensures proper { IfOk result (λ outs. AllByRecursion IsSaid outs) }
        ensures ok { OnOk result (self.new ≡ (on_message self.old peer message).state) }
        ensures err { OnErr result (self.new ≡ self.old) }
    {
        match CeId::of(message.source) {
            Some(ce) => self.heard(ce, peer, &message),
            None => Ok(List::new(self.alloc)),
        }
    }

    // A message came from a control element.
    fn heard(&mut self, ce: CeId, peer: u32, message: &Message) -> Result<List<Out>, Memory>
        requires sender { ce ≡ message.now.source }
        requires proper { IsProper message.now }
        ensures outs { IfOk result (λ outs. outs ≡ (on_body self.old peer message.now message.now.body).outs) }
        ensures proper { IfOk result (λ outs. AllByRecursion IsSaid outs) }
        ensures ok { OnOk result (self.new ≡ (on_body self.old peer message.now message.now.body).state) }
        ensures err { OnErr result (self.new ≡ self.old) }
    {
        let none = List::new(self.alloc);
        match &message.body {
            MsgBody::SetupResponse(result) => {
                if message.dest == self.transactions.id().get() && *result == 0 {
                    self.associations.setup_answer(ce, peer, self.clock)?;
                }
                Ok(none)
            }
            MsgBody::Teardown(_) => self.torn_down(ce),
            MsgBody::Heartbeat => {
                let is_asked = self.associations.peer_of(ce).is_some()
                    && message.flags.ack == ALWAYS;
                let outs = if is_asked {
                    one(self.alloc, peer, answer(message))?
                } else {
                    none
                };
                self.associations.heard(ce, peer, self.clock);
                Ok(outs)
            }
            MsgBody::Query(selects) => self.queried(ce, peer, message, selects.as_slice()),
            MsgBody::Config(selects) => self.configured(ce, peer, message, selects.as_slice()),
            MsgBody::Setup(_)
            | MsgBody::ConfigResponse(_)
            | MsgBody::QueryResponse(_)
            | MsgBody::Event(_) => Ok(none),
        }
    }

    // A control element ends its association.
    fn torn_down(&mut self, ce: CeId) -> Result<List<Out>, Memory>
        ensures outs { IfOk result (λ outs. outs ≡ (leaving self.old (remove self.old.associations ce)).outs) }
        ensures proper { IfOk result (λ outs. AllByRecursion IsSaid outs) }
        ensures ok { OnOk result (self.new ≡ (leaving self.old (remove self.old.associations ce)).state) }
        ensures err { OnErr result (self.new ≡ self.old) }
    {
        let mut remaining = self.associations.copy()?;
        remaining.teardown(ce);
        let outs = self.down_outs(&remaining)?;
        self.associations = remaining;
        Ok(outs)
    }

    // Whether the control element that may configure the element has an association, and is not among those that remain.
    fn has_lost(&self, remaining: &Associations) -> bool
        ensures { result ≡ has_lost self.now remaining.now }
    {
        match CeId::of(self.transactions.ce()) {
            None => false,
            Some(ce) => {
                self.associations.peer_of(ce).is_some() && remaining.peer_of(ce).is_none()
            }
        }
    }

    // What those are told that remain, where the association of the control element that may configure the element ends.
    fn down_outs(&self, remaining: &Associations) -> Result<List<Out>, Memory>
        ensures outs { IfOk result (λ outs. outs ≡ down_outs self.now remaining.now) }
        ensures proper { IfOk result (λ outs. AllByRecursion IsSaid outs) }
    {
        if !self.has_lost(remaining) {
            return Ok(List::new(self.alloc));
        }
        let (ledger, id) = (self.transactions.ledger(), self.transactions.id());
        let library = ledger.store.library();
        told_down(self.alloc, library, id, &ledger.subscriptions, remaining)
    }

    // A query came.
    fn queried(
        &mut self,
        ce: CeId,
        peer: u32,
        message: &Message,
        selects: &[Select],
    ) -> Result<List<Out>, Memory>
        requires sender { ce ≡ message.now.source }
        requires proper { IsProper message.now }
        requires body { message.now.body ≡ Query selects.now }
        ensures outs { IfOk result (λ outs. outs ≡ (on_query self.old peer message.now selects.now).outs) }
        ensures proper { IfOk result (λ outs. AllByRecursion IsSaid outs) }
        ensures ok { OnOk result (self.new ≡ (on_query self.old peer message.now selects.now).state) }
        ensures err { OnErr result (self.new ≡ self.old) }
    {
        if self.associations.peer_of(ce).is_none() {
            return Ok(List::new(self.alloc));
        }
        let outs = self.answers(peer, message, selects)?;
        self.associations.heard(ce, peer, self.clock);
        Ok(outs)
    }

    // The answer to a query, if there is one.
    fn answers(&self, peer: u32, message: &Message, selects: &[Select]) -> Result<List<Out>, Memory>
        requires proper { IsProper message.now }
        requires body { message.now.body ≡ Query selects.now }
        ensures outs { IfOk result (λ outs. outs ≡ query_outs self.now peer message.now selects.now) }
        ensures proper { IfOk result (λ outs. AllByRecursion IsSaid outs) }
    {
        if !fits_results(selects) {
            return Ok(List::new(self.alloc));
        }
        let others = self.query_selects(message, selects)?;
        one(self.alloc, peer, query_answer(message, others))
    }

    // The selects of the answer to a query.
    fn query_selects(&self, message: &Message, selects: &[Select]) -> Result<List<Select>, Memory>
        requires proper { ProperSelects 4 selects.now }
        requires fits { results_fit selects.now ≡ true }
        ensures exact { IfOk result (λ others. others ≡ query_selects self.now message.now selects.now) }
        ensures proper { IfOk result (λ others. ProperSelects 20 others) }
    {
        if message.dest != self.transactions.id().get() {
            return foreign_selects(self.alloc, selects);
        }
        let ledger = self.transactions.ledger();
        let told = Telling {
            alloc: self.alloc,
            transactions: &self.transactions,
        };
        told_selects(
            self.alloc,
            &told,
            &ledger.store,
            &ledger.subscriptions,
            selects,
        )
    }

    // A Config came.
    fn configured(
        &mut self,
        ce: CeId,
        peer: u32,
        message: &Message,
        selects: &[Select],
    ) -> Result<List<Out>, Memory>
        requires sender { ce ≡ message.now.source }
        requires proper { IsProper message.now }
        requires body { message.now.body ≡ Config selects.now }
        ensures outs { IfOk result (λ outs. outs ≡ (on_config self.old peer message.now selects.now).outs) }
        ensures proper { IfOk result (λ outs. AllByRecursion IsSaid outs) }
        ensures ok { OnOk result (self.new ≡ (on_config self.old peer message.now selects.now).state) }
        ensures err { OnErr result (self.new ≡ self.old) }
    {
        if self.associations.peer_of(ce).is_none() {
            return Ok(List::new(self.alloc));
        }
        self.by_order(ce, peer, message, selects)
    }

    // A Config came from a control element that has an association.
    fn by_order(
        &mut self,
        ce: CeId,
        peer: u32,
        message: &Message,
        selects: &[Select],
    ) -> Result<List<Out>, Memory>
        requires sender { ce ≡ message.now.source }
        requires proper { IsProper message.now }
        requires body { message.now.body ≡ Config selects.now }
        ensures outs { IfOk result (λ outs. outs ≡ (by_order self.old peer message.now selects.now).outs) }
        ensures proper { IfOk result (λ outs. AllByRecursion IsSaid outs) }
        ensures ok { OnOk result (self.new ≡ (by_order self.old peer message.now selects.now).state) }
        ensures err { OnErr result (self.new ≡ self.old) }
    {
        if !can_be_answered(message, selects) {
            return Ok(List::new(self.alloc));
        }
        if message.dest != self.transactions.id().get() {
            return self.refused(peer, message, selects, Code::INVALID_DESTINATION_PID);
        }
        if message.flags.em == 0 {
            return self.refused(peer, message, selects, Code::INVALID_FLAGS);
        }
        self.take(ce, peer, message, selects)
    }

    // The response to a Config none of whose operations is done, and which all get one code.
    fn refused(
        &self,
        peer: u32,
        message: &Message,
        selects: &[Select],
        code: Code,
    ) -> Result<List<Out>, Memory>
        requires proper { IsProper message.now }
        requires body { message.now.body ≡ Config selects.now }
        requires fits { results_fit selects.now ≡ true }
        ensures outs { IfOk result (λ outs. outs ≡ responses peer (reply message.now selects.now (each_gets code selects.now))) }
        ensures proper { IfOk result (λ outs. AllByRecursion IsSaid outs) }
    {
        let answered = refusals(self.alloc, peer, message, selects, code)?;
        Ok(answered.outs)
    }

    // A Config with an execution mode came for this element.
    fn take(
        &mut self,
        ce: CeId,
        peer: u32,
        message: &Message,
        selects: &[Select],
    ) -> Result<List<Out>, Memory>
        requires sender { ce ≡ message.now.source }
        requires proper { IsProper message.now }
        requires body { message.now.body ≡ Config selects.now }
        requires fits { results_fit selects.now ≡ true }
        ensures outs { IfOk result (λ outs. outs ≡ (taking self.old peer message.now (configured self.old.transactions peer message.now selects.now)).outs) }
        ensures proper { IfOk result (λ outs. AllByRecursion IsSaid outs) }
        ensures ok { OnOk result (self.new ≡ (taking self.old peer message.now (configured self.old.transactions peer message.now selects.now)).state) }
        ensures err { OnErr result (self.new ≡ self.old) }
    {
        let taken = self.transactions.configure(ce, peer, message, selects)?;
        if taken.is_heard {
            self.associations.heard(ce, peer, self.clock);
        }
        Ok(taken.outs)
    }

    // The associations that remain at a moment, where silent ones end by the settings that the settled configuration has.
    fn remaining(&self, now: u64, settings: &HeartbeatSettings) -> Result<Associations, Memory>
        requires { settings.now ≡ settings_of (settled_in self.now) }
        ensures { IfOk result (λ remaining. remaining ≡ remaining_of self.now now) }
    {
        let mut remaining = self.associations.copy()?;
        if settings.ce_policy == 0 {
            remaining.moment(now, settings.ce_dead)?;
        }
        Ok(remaining)
    }

    // It is this moment.
    fn moment(&mut self, moment: u64) -> Result<List<Out>, Memory>
        ensures outs { IfOk result (λ outs. outs ≡ (on_moment (moved_on self.old moment)).outs) }
        ensures proper { IfOk result (λ outs. AllByRecursion IsSaid outs) }
        ensures ok { OnOk result (self.new ≡ (on_moment (moved_on self.old moment)).state) }
        ensures err { OnErr result (self.new ≡ self.old) }
    {
        let settings = settled_settings(self.alloc, self.transactions.ledger())?;
        let now = self.clock.max(moment);
        let remaining = self.remaining(now, &settings)?;
        let mut outs = self.down_outs(&remaining)?.into_vec();
        outs.reserve(Associations::MOST)?;
        self.associations = remaining;
        self.clock = now;
        if self.is_due(&settings) {
            push_beats(self.transactions.id(), &self.associations, &mut outs);
            self.last_beat = self.clock;
        }
        Ok(List::from_vec(outs))
    }

    // Whether heartbeats are due, by the settings that the settled configuration has.
    fn is_due(&self, settings: &HeartbeatSettings) -> bool
        requires { settings.now ≡ settings_of (settled_in self.now) }
        ensures { result ≡ is_due self.now }
    {
        settings.fe_policy == 1
            && self.clock.saturating_sub(self.last_beat) >= u64::from(settings.fe_interval)
            && self.associations.len() != 0
    }

    /// The components of the settled configuration that are not live and have another value than at first, by rising class, instance and
    /// component.
    pub fn settled(&self) -> Result<List<Configured>, Memory>
        ensures { IfOk result (λ changes. changes ≡ configuration.configured (settled_in self.now)) }
    {
        settled_configuration(self.alloc, self.transactions.ledger())
    }

    /// Appends the report: `element ID epoch E ce CE sequence S`; `floor E.N` where a floor is set; `record E.N STATE` for each record of a
    /// transaction, in the order in which they were entered; and behind that the lines of the settled configuration, by rising class, instance
    /// and component: `config CLASS INSTANCE ID BYTES` for each component whose value differs from its opening one, with its full form in
    /// hexadecimal digits, or `absent`. What the element itself tells has no line. After an `Err` nothing has changed.
    pub fn report(&self, into: &mut Vec<u8>) -> Result<(), Memory>
        ensures ok { OnOk result (into.new.items ≡ into.old.items ++ report_of self.now) }
        ensures err { OnErr result (into.new.items ≡ into.old.items) }
    {
        let mut text = Vec::new(self.alloc);
        push_report(&self.transactions, &mut text)?;
        into.extend_from_slice(&text)?;
        Ok(())
    }
}
