// What is told of a large run.
ghost use Rattle.std.specs.Prelude.{◌≡◌, ◌++◌, IfOk, OnOk};
ghost use Rattle.fc_world.specs.Played.{world_of};
ghost use Rattle.fc_generating.specs.Summaries as spec;

use crate::counting::{entries, outcomes};
use crate::trying::Run;
use fc_base::{Memory, eight_digits};
use fc_master::Decision;
use std::alloc::Global;

// Appends the line on how many transactions there were to be.
#[tactic(auto, unfolding(crate::specs::Summaries::run_line))]
fn put_run(text: &mut Vec<u8>, count: u32) -> Result<(), Memory>
    ensures { OnOk result (text.new.items ≡ text.old.items ++ spec.run_line count) }
{
    let line = format!(in *text.allocator(); "gen {count}\n")?;
    text.extend_from_slice(line.as_bytes())?;
    Ok(())
}

// Appends the line on what has become of them.
#[tactic(auto, unfolding(crate::specs::Summaries::jobs_line))]
fn put_jobs(text: &mut Vec<u8>, completed: usize, aborted: usize) -> Result<(), Memory>
    ensures { OnOk result (text.new.items ≡ text.old.items ++ spec.jobs_line completed aborted) }
{
    let line = format!(in *text.allocator(); "completed {completed} aborted {aborted}\n")?;
    text.extend_from_slice(line.as_bytes())?;
    Ok(())
}

// Appends the line on how many messages were sent.
#[tactic(auto, unfolding(crate::specs::Summaries::sent_line))]
fn put_sent(text: &mut Vec<u8>, sent: usize) -> Result<(), Memory>
    ensures { OnOk result (text.new.items ≡ text.old.items ++ spec.sent_line sent) }
{
    let line = format!(in *text.allocator(); "sent {sent}\n")?;
    text.extend_from_slice(line.as_bytes())?;
    Ok(())
}

// Appends the line on how many rows the tables have.
#[tactic(auto, unfolding(crate::specs::Summaries::entries_line))]
fn put_entries(text: &mut Vec<u8>, entries: usize) -> Result<(), Memory>
    ensures { OnOk result (text.new.items ≡ text.old.items ++ spec.entries_line entries) }
{
    let line = format!(in *text.allocator(); "entries {entries}\n")?;
    text.extend_from_slice(line.as_bytes())?;
    Ok(())
}

// Appends the line of the trail.
#[tactic(auto, unfolding(crate::specs::Summaries::trail_line))]
fn put_trail(text: &mut Vec<u8>, trail: u32) -> Result<(), Memory>
    ensures { OnOk result (text.new.items ≡ text.old.items ++ spec.trail_line trail) }
{
    text.extend_from_slice(b"trail ")?;
    text.extend_from_slice(&eight_digits(trail))?;
    text.extend_from_slice(b"\n")?;
    Ok(())
}

/// The summary of a run of so many transactions.
pub(crate) fn summary(alloc: Global, count: u32, run: &Run) -> Result<Vec<u8>, Memory>
    ensures { IfOk result (λ text. text.items ≡ spec.summary count (world_of run.now.world)) }
{
    let completed = outcomes(&run.world, Decision::Complete);
    let aborted = outcomes(&run.world, Decision::Abort);
    let rows = entries(&run.world)?;
    let mut text = Vec::new(alloc);
    put_run(&mut text, count)?;
    put_jobs(&mut text, completed, aborted)?;
    put_sent(&mut text, run.world.sent())?;
    put_entries(&mut text, rows)?;
    put_trail(&mut text, run.trail)?;
    Ok(text)
}
