// The order in which a Config is looked at.
ghost use Rattle.std.specs.Prelude.{◌≡◌, ◌==◌, ◌+◌, not, Some, None, IfOk, OnOk, OnErr, true, if◌then◌else◌};
ghost use Rattle.std.specs.List.{AllByRecursion};
ghost use Rattle.fc_msg.specs.Messages.{IsProper};
ghost use Rattle.fc_msg.specs.declared.message.MsgBody.TheVariants.{Config};
ghost use Rattle.fc_path.specs.Results.{results_fit};
ghost use Rattle.fc_protocol.specs.Codes.{not_supported, read_only};
ghost use Rattle.fc_protocol.specs.Messages.{stamp};
ghost use Rattle.fc_performing.specs.Sending.{IsSaid};
ghost use Rattle.fc_transactions.specs.Done.{IsDone};
ghost use Rattle.fc_transactions.specs.Order as spec;
ghost use Rattle.fc_transactions.specs.Phases as phases;

use crate::ending::{abort, commit, complete};
use crate::plain::{change_plainly, perform, set_floor};
use crate::saying::all_get;
use crate::starting::{change, start};
use crate::{Ledger, Transactions};
use fc_base::{CeId, Code, Epoch, FeId, List, Memory};
use fc_holding::undo_started;
use fc_msg::Message;
use fc_path::Select;
use fc_performing::{Answered, Out, repeated};
use fc_phases::{Asked, read_config, rest_of};
use fc_tx::{Fence, Verdict};
use std::alloc::Global;

/// What is sent for a Config, and whether its sender counts as heard.
#[derive(Debug, Drop)]
pub struct Taken {
    pub outs: List<Out>,
    pub is_heard: bool,
}

// The word of what has the shape of a claim.
fn claim_in(asked: &Asked) -> Option<u32>
    ensures { result ≡ spec.claim_in asked.now }
{
    match asked {
        Asked::Claim(word) => Some(*word),
        Asked::Floor(_) => None,
        Asked::Plain => None,
        Asked::Start(_) => None,
        Asked::Change(_) => None,
        Asked::Commit(_) => None,
        Asked::Complete(_) => None,
        Asked::Abort(_) => None,
        Asked::Malformed => None,
    }
}

// The code of what has the flag of a transaction and the shape of no phase, by its execution mode.
fn shape_code(em: u8) -> Code
    ensures { result ≡ phases.shape_code em }
{
    if em == 1 {
        Code::INVALID_PARAMETERS
    } else {
        Code::INVALID_FLAGS
    }
}

// The code with which a Config is refused while no life of a control element has claimed the element, which this control element may
// configure, if it is refused.
fn unclaimed_refusal(ce: u32, request: &Message) -> Option<Code>
    ensures { result ≡ (if not (request.now.source == ce) then Some read_only else (if request.now.flags.at then Some not_supported else None)) }
{
    if request.source != ce {
        return Some(Code::READ_ONLY);
    }
    if request.flags.at {
        return Some(Code::NOT_SUPPORTED);
    }
    None
}

// What the next Config of the master does at an element of this ID and epoch. After an `Err` nothing has changed.
fn act(
    alloc: Global,
    id: FeId,
    epoch: u32,
    ledger: &mut Ledger,
    peer: u32,
    request: &Message,
    selects: &[Select],
    asked: &Asked,
) -> Result<Answered, Memory>
    requires proper { IsProper request.now }
    requires body { request.now.body ≡ Config selects.now }
    requires fits { results_fit selects.now ≡ true }
    ensures done { IfOk result (λ answered. IsDone id peer request.now selects.now (phases.acts id epoch ledger.old request.now selects.now asked.now) answered) }
    ensures ok { OnOk result (ledger.new ≡ (phases.acts id epoch ledger.old request.now selects.now asked.now).ledger) }
    ensures err { OnErr result (ledger.new ≡ ledger.old) }
{
    match asked {
        Asked::Claim(_) => change_plainly(alloc, id, ledger, peer, request, selects),
        Asked::Floor(floor) => set_floor(alloc, id, epoch, ledger, peer, request, selects, *floor),
        Asked::Plain => change_plainly(alloc, id, ledger, peer, request, selects),
        Asked::Start(opening) => {
            let rest = rest_of(alloc, selects)?;
            start(
                alloc, id, epoch, ledger, peer, request, selects, opening, rest,
            )
        }
        Asked::Change(subject) => {
            let rest = rest_of(alloc, selects)?;
            change(alloc, id, ledger, peer, request, selects, *subject, rest)
        }
        Asked::Commit(subject) => commit(alloc, id, ledger, peer, request, selects, *subject),
        Asked::Complete(subject) => {
            complete(alloc, id, ledger, peer, request, selects, *subject)
        }
        Asked::Abort(subject) => abort(alloc, id, ledger, peer, request, selects, *subject),
        Asked::Malformed => all_get(alloc, peer, request, selects, shape_code(request.flags.em)),
    }
}

// Undoes what is started.
fn undo_all(ledger: &mut Ledger)
    ensures { ledger.new ≡ spec.undone_ledger ledger.old }
{
    undo_started(&mut ledger.store, &mut ledger.holdings, &ledger.records);
    ledger.records.undo_started();
}

impl Transactions {
    // A claim: what is started is undone.
    fn claim(
        &mut self,
        peer: u32,
        request: &Message,
        selects: &[Select],
        epoch: Epoch,
    ) -> Result<Taken, Memory>
        requires proper { IsProper request.now }
        requires body { request.now.body ≡ Config selects.now }
        requires fits { results_fit selects.now ≡ true }
        ensures outs { IfOk result (λ taken. taken.outs ≡ (spec.claims self.old peer request.now selects.now epoch).outs) }
        ensures heard { IfOk result (λ taken. taken.is_heard ≡ true) }
        ensures said { IfOk result (λ taken. AllByRecursion IsSaid taken.outs) }
        ensures ok { OnOk result (self.new ≡ spec.claimed self.old request.now selects.now epoch) }
        ensures err { OnErr result (self.new ≡ self.old) }
    {
        let answered = all_get(self.alloc, peer, request, selects, Code::SUCCESS)?;
        undo_all(&mut self.ledger);
        self.fence = Fence {
            epoch: epoch.get(),
            master: request.source,
            sequence: 0,
        };
        self.last_ce = self.ce;
        self.ce = request.source;
        self.kept = answered.reply;
        Ok(Taken {
            outs: answered.outs,
            is_heard: true,
        })
    }

    // A Config while no life of a control element has claimed the element.
    fn unclaimed(
        &mut self,
        peer: u32,
        request: &Message,
        selects: &[Select],
    ) -> Result<Answered, Memory>
        requires proper { IsProper request.now }
        requires body { request.now.body ≡ Config selects.now }
        requires fits { results_fit selects.now ≡ true }
        ensures done { IfOk result (λ answered. IsDone self.old.id peer request.now selects.now (spec.unclaimed self.old request.now selects.now) answered) }
        ensures ok { OnOk result (self.new ≡ spec.with_ledger self.old (spec.unclaimed self.old request.now selects.now).ledger) }
        ensures err { OnErr result (self.new ≡ self.old) }
    {
        match unclaimed_refusal(self.ce, request) {
            Some(code) => all_get(self.alloc, peer, request, selects, code),
            None => perform(
                self.alloc,
                self.id,
                &mut self.ledger,
                peer,
                request,
                selects,
            ),
        }
    }

    // The kept response once more.
    fn repeat(&self, peer: u32) -> Result<Taken, Memory>
        ensures outs { IfOk result (λ taken. taken.outs ≡ (spec.repeats self.now peer).outs) }
        ensures heard { IfOk result (λ taken. taken.is_heard ≡ true) }
        ensures said { IfOk result (λ taken. AllByRecursion IsSaid taken.outs) }
    {
        let outs = repeated(self.alloc, peer, &self.kept)?;
        Ok(Taken {
            outs,
            is_heard: true,
        })
    }

    // The next Config of the master: the sequence goes up, and the response is kept.
    fn take(
        &mut self,
        peer: u32,
        request: &Message,
        selects: &[Select],
        asked: &Asked,
    ) -> Result<Taken, Memory>
        requires proper { IsProper request.now }
        requires body { request.now.body ≡ Config selects.now }
        requires fits { results_fit selects.now ≡ true }
        requires next { (stamp request.now.corr).count ≡ self.old.sequence + 1 }
        ensures outs { IfOk result (λ taken. taken.outs ≡ (spec.takes self.old peer request.now selects.now (phases.acts self.old.id self.old.epoch self.old.ledger request.now selects.now asked.now)).outs) }
        ensures heard { IfOk result (λ taken. taken.is_heard ≡ true) }
        ensures said { IfOk result (λ taken. AllByRecursion IsSaid taken.outs) }
        ensures ok { OnOk result (self.new ≡ spec.taken self.old request.now selects.now (phases.acts self.old.id self.old.epoch self.old.ledger request.now selects.now asked.now)) }
        ensures err { OnErr result (self.new ≡ self.old) }
    {
        let done = act(
            self.alloc,
            self.id,
            self.fence.epoch,
            &mut self.ledger,
            peer,
            request,
            selects,
            asked,
        )?;
        self.fence.sequence = (request.corr % 4_294_967_296) as u32;
        self.kept = done.reply;
        Ok(Taken {
            outs: done.outs,
            is_heard: true,
        })
    }

    // A Config that changes nothing, and whose operations all get this code.
    fn refuse_all(
        &self,
        peer: u32,
        request: &Message,
        selects: &[Select],
        code: Code,
        is_heard: bool,
    ) -> Result<Taken, Memory>
        requires proper { IsProper request.now }
        requires body { request.now.body ≡ Config selects.now }
        requires fits { results_fit selects.now ≡ true }
        ensures outs { IfOk result (λ taken. taken.outs ≡ spec.says self.now.id peer request.now selects.now (phases.all_get self.now.ledger selects.now code)) }
        ensures heard { IfOk result (λ taken. taken.is_heard ≡ is_heard) }
        ensures said { IfOk result (λ taken. AllByRecursion IsSaid taken.outs) }
    {
        let answered = all_get(self.alloc, peer, request, selects, code)?;
        Ok(Taken {
            outs: answered.outs,
            is_heard,
        })
    }

    // A Config of which it is known what it asks, and how it stands to the fence.
    fn by_verdict(
        &mut self,
        peer: u32,
        request: &Message,
        selects: &[Select],
        asked: &Asked,
        verdict: Verdict,
    ) -> Result<Taken, Memory>
        requires proper { IsProper request.now }
        requires body { request.now.body ≡ Config selects.now }
        requires fits { results_fit selects.now ≡ true }
        requires judged { verdict ≡ spec.judged self.old request.now asked.now }
        ensures outs { IfOk result (λ taken. taken.outs ≡ (spec.by_verdict self.old peer request.now selects.now asked.now verdict).outs) }
        ensures heard { IfOk result (λ taken. taken.is_heard ≡ (spec.by_verdict self.old peer request.now selects.now asked.now verdict).is_heard) }
        ensures said { IfOk result (λ taken. AllByRecursion IsSaid taken.outs) }
        ensures ok { OnOk result (self.new ≡ (spec.by_verdict self.old peer request.now selects.now asked.now verdict).state) }
        ensures err { OnErr result (self.new ≡ self.old) }
    {
        match verdict {
            Verdict::Claim(epoch) => self.claim(peer, request, selects, epoch),
            Verdict::Unclaimed => {
                let answered = self.unclaimed(peer, request, selects)?;
                Ok(Taken {
                    outs: answered.outs,
                    is_heard: true,
                })
            }
            Verdict::Stale => self.refuse_all(peer, request, selects, Code::READ_ONLY, false),
            Verdict::Again => self.repeat(peer),
            Verdict::Gap => {
                self.refuse_all(peer, request, selects, Code::INVALID_PARAMETERS, true)
            }
            Verdict::Next => self.take(peer, request, selects, asked),
        }
    }

    /// Takes a Config for the element that has an execution mode, whose sender this is, over the peer from which it came. Its selects are
    /// such that the response of results alone fits. Gives what is sent to the sender over that peer, each message of which is decoded as
    /// itself. After an `Err` nothing has changed.
    #[tactic(auto, unfolding(crate::specs::Order::configured))]
    pub fn configure(
        &mut self,
        ce: CeId,
        peer: u32,
        request: &Message,
        selects: &[Select],
    ) -> Result<Taken, Memory>
        requires sender { ce ≡ request.now.source }
        requires proper { IsProper request.now }
        requires body { request.now.body ≡ Config selects.now }
        requires fits { results_fit selects.now ≡ true }
        ensures outs { IfOk result (λ taken. taken.outs ≡ (spec.configured self.old peer request.now selects.now).outs) }
        ensures heard { IfOk result (λ taken. taken.is_heard ≡ (spec.configured self.old peer request.now selects.now).is_heard) }
        ensures said { IfOk result (λ taken. AllByRecursion IsSaid taken.outs) }
        ensures ok { OnOk result (self.new ≡ (spec.configured self.old peer request.now selects.now).state) }
        ensures err { OnErr result (self.new ≡ self.old) }
    {
        let flags = request.flags;
        let asked = read_config(
            self.alloc,
            &self.types,
            flags.em,
            flags.at,
            flags.tp,
            selects,
        )?;
        let verdict = self.fence.judge(ce, request.corr, claim_in(&asked));
        self.by_verdict(peer, request, selects, &asked, verdict)
    }
}
