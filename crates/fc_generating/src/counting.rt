// What is counted of a world.
ghost use Rattle.std.specs.Prelude.{◌≡◌, ◌<◌, ◌≤◌, IfOk};
ghost use Rattle.std.specs.Option.{option_copied};
ghost use Rattle.fc_jobs.specs.JobViews.{job_of, jobs_of as works_of};
ghost use Rattle.fc_master.specs.Reports.{outcome};
ghost use Rattle.fc_protocol.specs.Jobs.{all_settled};
ghost use Rattle.fc_world.specs.Lookups.{element_in};
ghost use Rattle.fc_world.specs.Played.{world_of};
ghost use Rattle.fc_generating.specs.Summaries as spec;

use fc_base::{FeId, Memory, Octets};
use fc_element::{Configured, Element};
use fc_generated::TABLE;
use fc_master::{Decision, Job};
use fc_world::World;

// How many bytes a row has in the full form of the table: its subscript, its name and its rate are numbers of 32 bits.
const ROW: usize = 12;

// Whether all participants of a transaction have done what is decided.
fn is_settled(job: &Job) -> bool
    ensures { result ≡ all_settled (job_of job.now) job.now.participants }
{
    for participant in job.participants.as_slice() {
        if !job.has_settled(*participant) {
            return false;
        }
    }
    true
}

// What has become of a transaction at all its participants.
fn outcome(job: &Job) -> Option<Decision>
    ensures { result ≡ outcome (job_of job.now) }
{
    if is_settled(job) {
        return job.decision;
    }
    None
}

// Whether two decisions are the same.
fn is_for(decision: Decision, other: Decision) -> bool
    ensures { result ≡ spec.is_for decision other }
{
    match decision {
        Decision::Complete => match other {
            Decision::Complete => true,
            Decision::Abort => false,
        },
        Decision::Abort => match other {
            Decision::Complete => false,
            Decision::Abort => true,
        },
    }
}

// Whether a transaction has come to this.
fn has_come_to(decision: Decision, job: &Job) -> bool
    ensures { result ≡ spec.has_come_to decision (outcome (job_of job.now)) }
{
    match outcome(job) {
        None => false,
        Some(other) => is_for(decision, other),
    }
}

// How many transactions have come to this.
fn count_of(decision: Decision, jobs: &[Job]) -> usize
    ensures { result ≡ spec.count_of decision (works_of jobs.now) }
{
    let mut count = 0;
    for job in jobs {
        if has_come_to(decision, job) {
            count += 1;
        }
    }
    count
}

/// How many transactions of the control element have come to this, where it runs.
pub(crate) fn outcomes(world: &World, decision: Decision) -> usize
    ensures { result ≡ spec.count_of decision (spec.jobs_of (world_of world.now)) }
{
    match world.master(1) {
        None => 0,
        Some(master) => count_of(decision, master.jobs()),
    }
}

// Whether a component is the table.
fn is_table(component: &Configured) -> bool
    ensures { result ≡ spec.is_table component.now }
{
    component.class == TABLE && component.instance == 1 && component.component == 1
}

// How many rows stand in the full form of the table; none where it has no value.
fn rows_of(form: &Option<Octets>) -> usize
    ensures exact { result ≡ spec.rows_of form.now }
    ensures few { result ≤ 1537228672809129301 }
{
    match form {
        None => 0,
        Some(bytes) => bytes.len() / ROW,
    }
}

// How many rows the table has, where it is among what is configured; and else none, as at first.
fn rows_in(configured: &[Configured]) -> usize
    ensures exact { result ≡ spec.rows_in configured.now }
    ensures few { result ≤ 1537228672809129301 }
{
    for component in configured {
        if is_table(component) {
            return rows_of(&component.form);
        }
    }
    0
}

// The element of this number, where it is there.
fn element(world: &World, number: u32) -> Option<&Element>
    requires some { 0 < number }
    requires few { number ≤ 8 }
    ensures { option_copied result ≡ element_in number (world_of world.now).nodes }
{
    match FeId::of(number) {
        Some(id) => world.element(id),
        None => unreachable!(),
    }
}

// How many rows its table has in its settled configuration.
fn rows_at(world: &World, number: u32) -> Result<usize, Memory>
    requires some { 0 < number }
    requires few { number ≤ 8 }
    ensures exact { IfOk result (λ rows. rows ≡ spec.rows_at (world_of world.now) number) }
    ensures few { IfOk result (λ rows. rows ≤ 1537228672809129301) }
{
    match element(world, number) {
        None => Ok(0),
        Some(element) => {
            let configured = element.settled()?;
            Ok(rows_in(configured.as_slice()))
        }
    }
}

/// How many rows the tables of all elements have in their settled configurations.
pub(crate) fn entries(world: &World) -> Result<usize, Memory>
    ensures { IfOk result (λ entries. entries ≡ spec.entries (world_of world.now)) }
{
    let mut entries = 0;
    for number in 1..9u32 {
        entries += rows_at(world, number)?;
    }
    Ok(entries)
}
