// What is asked of one life of a control element.
ghost use Rattle.std.specs.Prelude.{◌≡◌, ℕ, IfOk, OnErr};
ghost use Rattle.fc_world.specs.Stages.{AnswersCall, ruling_of};
ghost use Rattle.fc_world.specs.declared.lives.Request.TheVariants.{Hear, Begin, Plain, GiveUp, Resend, Forget};

use crate::faults::Refused;
use fc_base::{FeId, List, Memory, TxnId};
use fc_master::{BeginFault, CeIn, CeOut, Change, ForgetFault, GiveUpFault, Master, TxnPlan};
use fc_msg::Message;

/// What is asked of a life.
#[derive(Debug, Drop)]
pub enum Request {
    /// To hear a message of an element.
    Hear(FeId, Message),
    /// To begin a transaction.
    Begin(TxnPlan),
    /// To send an element a change outside of any transaction.
    Plain(FeId, Change),
    /// To give a transaction up.
    GiveUp(TxnId),
    /// To send an element once more what waits there.
    Resend(FeId),
    /// To let its elements forget what is settled.
    Forget,
}

/// What comes of it.
#[derive(Debug, Drop)]
pub enum Answer {
    /// These messages are sent.
    Spoke(List<CeOut>),
    /// It is refused, and nothing has changed.
    Refused(Refused),
}

fn hear(master: &mut Master, from: FeId, message: Message) -> Result<Answer, Memory>
    ensures ok { IfOk result (λ answer. (k : ℕ) → AnswersCall k (Hear from message) (ruling_of master.old) answer (ruling_of master.new)) }
    ensures err { OnErr result (master.new ≡ master.old) }
{
    let outs = master.step(CeIn::Arrived(from, message))?;
    Ok(Answer::Spoke(outs))
}

fn begin(master: &mut Master, plan: TxnPlan) -> Result<Answer, Memory>
    ensures ok { IfOk result (λ answer. (k : ℕ) → AnswersCall k (Begin plan) (ruling_of master.old) answer (ruling_of master.new)) }
    ensures err { OnErr result (master.new ≡ master.old) }
{
    match master.begin(plan) {
        Ok((_, outs)) => Ok(Answer::Spoke(outs)),
        Err(BeginFault::Memory) => Err(Memory),
        Err(fault) => Ok(Answer::Refused(Refused::Begin(fault))),
    }
}

fn plain(master: &mut Master, element: FeId, change: Change) -> Result<Answer, Memory>
    ensures ok { IfOk result (λ answer. (k : ℕ) → AnswersCall k (Plain element change) (ruling_of master.old) answer (ruling_of master.new)) }
    ensures err { OnErr result (master.new ≡ master.old) }
{
    match master.plain(element, change) {
        Ok(outs) => Ok(Answer::Spoke(outs)),
        Err(BeginFault::Memory) => Err(Memory),
        Err(fault) => Ok(Answer::Refused(Refused::Begin(fault))),
    }
}

fn give_up(master: &mut Master, txn: TxnId) -> Result<Answer, Memory>
    ensures ok { IfOk result (λ answer. (k : ℕ) → AnswersCall k (GiveUp txn) (ruling_of master.old) answer (ruling_of master.new)) }
    ensures err { OnErr result (master.new ≡ master.old) }
{
    match master.give_up(txn) {
        Ok(outs) => Ok(Answer::Spoke(outs)),
        Err(GiveUpFault::Memory) => Err(Memory),
        Err(fault) => Ok(Answer::Refused(Refused::GiveUp(fault))),
    }
}

fn resend(master: &mut Master, element: FeId) -> Result<Answer, Memory>
    ensures ok { IfOk result (λ answer. (k : ℕ) → AnswersCall k (Resend element) (ruling_of master.old) answer (ruling_of master.new)) }
    ensures err { OnErr result (master.new ≡ master.old) }
{
    let outs = master.resend(element)?;
    Ok(Answer::Spoke(outs))
}

fn forget(master: &mut Master) -> Result<Answer, Memory>
    ensures ok { IfOk result (λ answer. (k : ℕ) → AnswersCall k Forget (ruling_of master.old) answer (ruling_of master.new)) }
    ensures err { OnErr result (master.new ≡ master.old) }
{
    match master.forget() {
        Ok(outs) => Ok(Answer::Spoke(outs)),
        Err(ForgetFault::Memory) => Err(Memory),
        Err(fault) => Ok(Answer::Refused(Refused::Forget(fault))),
    }
}

/// Asks this of a life. After an `Err` nothing has changed.
pub fn ask(master: &mut Master, request: Request) -> Result<Answer, Memory>
    ensures ok { IfOk result (λ answer. (k : ℕ) → AnswersCall k request (ruling_of master.old) answer (ruling_of master.new)) }
    ensures err { OnErr result (master.new ≡ master.old) }
{
    match request {
        Request::Hear(from, message) => hear(master, from, message),
        Request::Begin(plan) => begin(master, plan),
        Request::Plain(element, change) => plain(master, element, change),
        Request::GiveUp(txn) => give_up(master, txn),
        Request::Resend(element) => resend(master, element),
        Request::Forget => forget(master),
    }
}
