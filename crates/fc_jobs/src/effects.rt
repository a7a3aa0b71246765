// What a response does to jobs.
ghost use Rattle.std.specs.Prelude.{◌≡◌, ℕ, List as Items, map, IfOk, OnOk, if◌then◌else◌};
ghost use Rattle.fc_jobs.specs.declared.effects.Effect.TheVariants as effect;
ghost use Rattle.fc_protocol.specs.declared.states.Seen.TheVariants.{Aborted};
ghost use Rattle.fc_protocol.specs.Jobs.{answer, by_code, decided_job, Job as Work};
ghost use Rattle.fc_protocol.specs.Messages.{same};
ghost use Rattle.fc_jobs.specs.Effects.{affected, carried, effected};
ghost use Rattle.fc_jobs.specs.JobViews.{job_of, jobs_of};
ghost use Rattle.fc_asks.specs.Bodies.{body_of};

use crate::job::Job;
use fc_asks::Asks;
use fc_base::{Duplicate, Epoch, FeId, List, Memory, TxnId};
use fc_protocol::{Answer, Seen};
use std::alloc::Global;

/// What a response does to the jobs of its transaction at an element.
#[derive(Clone, Copy, Debug)]
pub enum Effect {
    /// One message more is taken.
    GoOn,
    /// This is the answer.
    Answers(Answer),
    /// The decision is done.
    Settles,
    /// The decision is refused.
    Sticks,
}

pub fn is_same(x: TxnId, y: TxnId) -> bool
    ensures { result ≡ same x y }
{
    x.epoch == y.epoch && x.number == y.number
}

/// What the response to a message does, whose code was success or not.
pub fn effect_of(epoch: Epoch, asks: &Asks, is_good: bool) -> Option<(TxnId, Effect)>
    ensures { (p : ℕ) (js : Items Work) → map (affected p result) js ≡ by_code epoch p (body_of epoch asks.now) is_good js }
{
    match asks {
        Asks::Claim => None,
        Asks::Ask => None,
        Asks::Record(_) => None,
        Asks::Plain => None,
        Asks::Floor(_) => None,
        Asks::Sot(txn, _, _) => Some((*txn, going(epoch, is_good))),
        Asks::Mot(txn, _) => Some((*txn, going(epoch, is_good))),
        Asks::Eot(txn) => {
            let seen = if is_good {
                Seen::Prepared
            } else {
                Seen::Aborted
            };
            Some((*txn, Effect::Answers(Answer { epoch, seen })))
        }
        Asks::Trcomp(txn) => Some((*txn, ending(is_good))),
        Asks::Abt(txn) => Some((*txn, ending(is_good))),
    }
}

fn going(epoch: Epoch, is_good: bool) -> Effect
    ensures { result ≡ (if is_good then effect.GoOn else effect.Answers (answer epoch Aborted)) }
{
    if is_good {
        return Effect::GoOn;
    }
    Effect::Answers(Answer {
        epoch,
        seen: Seen::Aborted,
    })
}

fn ending(is_good: bool) -> Effect
    ensures { result ≡ (if is_good then effect.Settles else effect.Sticks) }
{
    if is_good {
        Effect::Settles
    } else {
        Effect::Sticks
    }
}

fn affect(job: &mut Job, element: FeId, what: Effect) -> Result<(), Memory>
    ensures { OnOk result (job_of job.new ≡ effected element what (job_of job.old)) }
{
    match what {
        Effect::GoOn => job.go_on(element),
        Effect::Answers(answer) => job.answer(element, answer),
        Effect::Settles => job.settle(element),
        Effect::Sticks => job.stick(element),
    }
}

// A job after an effect at an element, not yet decided.
fn after_effect(job: &Job, element: FeId, change: Option<(TxnId, Effect)>) -> Result<Job, Memory>
    ensures { IfOk result (λ next. job_of next ≡ affected element change (job_of job.now)) }
{
    let mut next = job.copy()?;
    match change {
        None => Ok(next),
        Some((txn, effect)) => {
            if is_same(txn, next.txn) {
                affect(&mut next, element, effect)?;
            }
            Ok(next)
        }
    }
}

fn carry(
    alloc: Global,
    epoch: Epoch,
    job: &Job,
    element: FeId,
    change: Option<(TxnId, Effect)>,
) -> Result<Job, Memory>
    ensures { IfOk result (λ next. job_of next ≡ carried epoch element change (job_of job.now)) }
{
    let mut next = after_effect(job, element, change)?;
    next.decide(alloc, epoch)?;
    Ok(next)
}

/// The jobs after an effect at an element, each decided where it can be.
pub fn carry_all(
    alloc: Global,
    epoch: Epoch,
    jobs: &[Job],
    element: FeId,
    change: Option<(TxnId, Effect)>,
) -> Result<List<Job>, Memory>
    ensures { IfOk result (λ others. jobs_of others ≡ map (carried epoch element change) (jobs_of jobs.now)) }
{
    let mut others = List::new(alloc);
    for job in jobs {
        others.push(carry(alloc, epoch, job, element, change)?)?;
    }
    Ok(others)
}

/// The jobs, each decided where it can be.
pub fn decided(alloc: Global, epoch: Epoch, jobs: &[Job]) -> Result<List<Job>, Memory>
    ensures { IfOk result (λ others. jobs_of others ≡ map (λ (j : Work). decided_job epoch j.decision j) (jobs_of jobs.now)) }
{
    let mut others = List::new(alloc);
    for job in jobs {
        let mut other = job.copy()?;
        other.decide(alloc, epoch)?;
        others.push(other)?;
    }
    Ok(others)
}
