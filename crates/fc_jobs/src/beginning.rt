// Jobs of transactions that begin.
ghost use Rattle.std.specs.Prelude.{◌≡◌, true, ◌<◌, IfOk, map, length};
ghost use Rattle.std.specs.List.{list_all};
ghost use Rattle.fc_protocol.specs.Jobs.{new_job};
ghost use Rattle.fc_plans.specs.Plans.{has_changes};
ghost use Rattle.fc_jobs.specs.JobViews.{job_of};
ghost use Rattle.fc_jobs.specs.Plans.{changes_in, counted, participants_of, scoped, scopes_in};

use crate::job::{Job, Scoped};
use fc_base::{FeId, List, Memory, TxnId};
use fc_plans::Part;
use std::alloc::Global;

fn participants_of(alloc: Global, parts: &[Part]) -> Result<List<FeId>, Memory>
    ensures { IfOk result (λ elements. elements ≡ participants_of parts.now) }
{
    let mut elements = List::new(alloc);
    for part in parts {
        elements.push(part.element)?;
    }
    Ok(elements)
}

// A participant, and how many changes it has.
fn counted(part: &Part) -> (FeId, u16)
    requires { has_changes part.now ≡ true }
    ensures { result ≡ counted part.now }
{
    (part.element, part.changes.len() as u16)
}

fn counts_of(alloc: Global, parts: &[Part]) -> Result<List<(FeId, u16)>, Memory>
    requires { list_all has_changes parts.now ≡ true }
    ensures { IfOk result (λ counts. counts ≡ map counted parts.now) }
{
    let mut counts = List::new(alloc);
    for part in parts {
        counts.push(counted(part))?;
    }
    Ok(counts)
}

fn scoped(part: &Part) -> Result<Scoped, Memory>
    ensures { IfOk result (λ s. s ≡ scoped part.now) }
{
    let scope = List::from_slice(part.scope.alloc(), part.scope.as_slice())?;
    Ok(Scoped {
        element: part.element,
        scope,
    })
}

fn scopes_of(alloc: Global, parts: &[Part]) -> Result<List<Scoped>, Memory>
    ensures { IfOk result (λ scopes. scopes ≡ map scoped parts.now) }
{
    let mut scopes = List::new(alloc);
    for part in parts {
        scopes.push(scoped(part)?)?;
    }
    Ok(scopes)
}

impl Job {
    /// The job of a transaction that begins, of which nothing is sent yet.
    pub fn begun(alloc: Global, txn: TxnId, parts: &[Part]) -> Result<Job, Memory>
        requires { list_all has_changes parts.now ≡ true }
        ensures job { IfOk result (λ j. job_of j ≡ new_job txn (participants_of parts.now) (changes_in parts.now) (scopes_in parts.now)) }
        ensures parts { IfOk result (λ j. j.participants ≡ participants_of parts.now) }
        ensures changes { IfOk result (λ j. j.changes ≡ map counted parts.now) }
        ensures scopes { IfOk result (λ j. j.scopes ≡ map scoped parts.now) }
    {
        let participants = participants_of(alloc, parts)?;
        let changes = counts_of(alloc, parts)?;
        let scopes = scopes_of(alloc, parts)?;
        Ok(Job {
            txn,
            mine: true,
            participants,
            decision: None,
            settled: List::new(alloc),
            changes,
            scopes,
            done: List::new(alloc),
            answers: List::new(alloc),
            stuck: List::new(alloc),
        })
    }
}
