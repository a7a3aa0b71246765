// How a job goes on with what its participants answer.
ghost use Rattle.std.specs.Prelude.{◌≡◌, ℕ, Option, Some, None, IfOk, OnOk, map};
ghost use Rattle.fc_protocol.specs.Collections.{among as stands};
ghost use Rattle.fc_protocol.specs.Decide.{decide as decided};
ghost use Rattle.fc_protocol.specs.Jobs.{answered_by, went_on, settled_at, stuck_at, decides_job, decided_job, with_decision, answer_is, is_for as is_for_it};
ghost use Rattle.fc_asks.specs.Tables.{found, table};
ghost use Rattle.fc_jobs.specs.JobViews.{job_of};

use crate::deciding::decide;
use crate::job::Job;
use crate::table::{look, place};
use fc_base::{Epoch, FeId, List, Memory};
use fc_protocol::{Answer, Decision, Seen};
use std::alloc::Global;

// Whether the state is that of the decision.
fn is_for(decision: Decision, seen: Seen) -> bool
    ensures { result ≡ is_for_it decision seen }
{
    match decision {
        Decision::Complete => match seen {
            Seen::Completed => true,
            Seen::Absent | Seen::Started | Seen::Prepared | Seen::Aborted => false,
        },
        Decision::Abort => match seen {
            Seen::Aborted => true,
            Seen::Absent | Seen::Started | Seen::Prepared | Seen::Completed => false,
        },
    }
}

// Whether there is an answer with the state of the decision.
fn has_answer_for(decision: Decision, answer: Option<Answer>) -> bool
    ensures { result ≡ answer_is decision answer }
{
    match answer {
        None => false,
        Some(answer) => is_for(decision, answer.seen),
    }
}

// The elements that have already answered the decision's state.
fn settled_by(
    alloc: Global,
    decision: Decision,
    answers: &[(FeId, Answer)],
) -> Result<List<FeId>, Memory>
    ensures { IfOk result (λ settled. (q : ℕ) → stands q settled ≡ answer_is decision (found q answers.now)) }
{
    let mut settled = List::new(alloc);
    for entry in answers {
        if has_answer_for(decision, look(entry.0, answers)) {
            settled.push(entry.0)?;
        }
    }
    Ok(settled)
}

// What each participant has answered.
fn answers_of(alloc: Global, job: &Job) -> Result<Vec<Option<Answer>>, Memory>
    ensures { IfOk result (λ answers. answers.items ≡ map (table job.now.answers) job.now.participants) }
{
    let mut answers = Vec::new(alloc);
    for participant in job.participants.as_slice() {
        answers.push(job.answer_of(*participant))?;
    }
    Ok(answers)
}

impl Job {
    // The element has answered.
    pub fn answer(&mut self, element: FeId, answer: Answer) -> Result<(), Memory>
        ensures { OnOk result (job_of self.new ≡ answered_by element answer (job_of self.old)) }
    {
        place(&mut self.answers, element, answer)
    }

    // The element has taken one message more.
    pub fn go_on(&mut self, element: FeId) -> Result<(), Memory>
        ensures { OnOk result (job_of self.new ≡ went_on element (job_of self.old)) }
    {
        let done = self.done_at(element);
        if done <= self.changes_at(element) {
            place(&mut self.done, element, done + 1)
        } else {
            place(&mut self.done, element, done)
        }
    }

    // The element has done what is decided.
    pub fn settle(&mut self, element: FeId) -> Result<(), Memory>
        ensures { OnOk result (job_of self.new ≡ settled_at element (job_of self.old)) }
    {
        self.settled.push(element)
    }

    // The element has answered the decision with a code other than success.
    pub fn stick(&mut self, element: FeId) -> Result<(), Memory>
        ensures { OnOk result (job_of self.new ≡ stuck_at element (job_of self.old)) }
    {
        self.stuck.push(element)
    }

    // An undecided job is decided, where every participant has answered.
    pub fn decide(&mut self, alloc: Global, epoch: Epoch) -> Result<(), Memory>
        ensures { OnOk result (job_of self.new ≡ decided_job epoch (job_of self.old).decision (job_of self.old)) }
    {
        if self.decision.is_some() {
            return Ok(());
        }
        let answers = answers_of(alloc, self)?;
        match decide(epoch, answers.as_slice()) {
            None => Ok(()),
            Some(decision) => self.take_decision(alloc, decision),
        }
    }

    // This is decided.
    fn take_decision(&mut self, alloc: Global, decision: Decision) -> Result<(), Memory>
        ensures { OnOk result (job_of self.new ≡ with_decision (job_of self.old) (Some decision)) }
    {
        let settled = if self.mine {
            List::new(alloc)
        } else {
            settled_by(alloc, decision, self.answers.as_slice())?
        };
        self.settled = settled;
        self.decision = Some(decision);
        Ok(())
    }
}
