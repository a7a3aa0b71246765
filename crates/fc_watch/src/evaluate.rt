// Evaluating an event.
ghost use Rattle.std.specs.Prelude.{◌≡◌, IfOk};
ghost use Rattle.fc_watch.specs.Watching as spec;

use crate::entries::entries_without;
use crate::{Condition, Seen, Told, Watch};
use fc_base::{Duplicate, List, Memory};
use fc_types::When;
use std::alloc::Global;

fn number(seen: &Seen) -> i128
    ensures { result ≡ spec.number seen.now }
{
    match seen {
        Seen::Number(number) => *number,
        Seen::Bytes(_) => 0,
        Seen::Subscripts(_) => 0,
    }
}

fn subscripts(seen: &Seen) -> &[u32]
    ensures { result.now ≡ spec.subscripts seen.now }
{
    match seen {
        Seen::Number(_) => &[],
        Seen::Bytes(_) => &[],
        Seen::Subscripts(subscripts) => subscripts.as_slice(),
    }
}

// Whether numbers differ, and by so much.
fn differ(hysteresis: u32, now: i128, last: i128) -> bool
    ensures { result ≡ spec.differ_by hysteresis now last }
{
    let gap = now.abs_diff(last);
    0 < gap && u128::from(hysteresis) <= gap
}

fn differs(hysteresis: u32, now: &Seen, last: &Seen) -> bool
    ensures { result ≡ spec.differs hysteresis now.now last.now }
{
    match now {
        Seen::Number(now) => match last {
            Seen::Number(last) => differ(hysteresis, *now, *last),
            Seen::Bytes(_) => true,
            Seen::Subscripts(_) => true,
        },
        Seen::Bytes(now) => match last {
            Seen::Bytes(last) => now.as_slice() != last.as_slice(),
            Seen::Number(_) => true,
            Seen::Subscripts(_) => true,
        },
        Seen::Subscripts(_) => match last {
            Seen::Subscripts(_) => false,
            Seen::Number(_) => true,
            Seen::Bytes(_) => true,
        },
    }
}

fn once(alloc: Global, satisfied: bool) -> Result<List<Told>, Memory>
    ensures { IfOk result (λ hits. hits ≡ spec.once satisfied) }
{
    let mut hits = List::new(alloc);
    if satisfied {
        hits.push(Told::Target)?;
    }
    Ok(hits)
}

// Counts one satisfaction, which is told where it reaches the count.
fn count_one(count: u32, satisfied: u32, hit: Told, told: &mut List<Told>) -> Result<u32, Memory>
    ensures { IfOk result (λ now. (now, told.new) ≡ spec.counting count (satisfied, told.old) hit) }
{
    if u64::from(satisfied) + 1 < u64::from(count) {
        return Ok(satisfied + 1);
    }
    told.push(hit)?;
    Ok(0)
}

// Counts satisfactions, and gives those that are told.
fn note(
    alloc: Global,
    count: u32,
    satisfied: u32,
    hits: &[Told],
) -> Result<(u32, List<Told>), Memory>
    ensures { IfOk result (λ r. (r.0, r.1) ≡ spec.noted count satisfied hits.now) }
{
    let mut so_far = satisfied;
    let mut told = List::new(alloc);
    for hit in hits {
        so_far = count_one(count, so_far, *hit, &mut told)?;
    }
    Ok((so_far, told))
}

impl Watch {
    // Each time that the condition is satisfied by what is seen now.
    fn hits(&self, alloc: Global, condition: Condition, now: &Seen) -> Result<List<Told>, Memory>
        ensures { IfOk result (λ hits. hits ≡ spec.hits_of condition.when condition self.now now.now) }
    {
        match condition.when {
            When::Greater => once(
                alloc,
                self.armed && i128::from(condition.threshold) < number(now),
            ),
            When::Less => once(
                alloc,
                self.armed && number(now) < i128::from(condition.threshold),
            ),
            When::Changed => once(alloc, differs(condition.hysteresis, now, &self.last)),
            When::Created => entries_without(alloc, subscripts(now), subscripts(&self.last)),
            When::Deleted => entries_without(alloc, subscripts(&self.last), subscripts(now)),
        }
    }

    fn armed_after(&self, condition: Condition, now: &Seen) -> bool
        ensures { result ≡ spec.armed_of condition.when condition self.now.armed now.now }
    {
        let threshold = i128::from(condition.threshold);
        let hysteresis = i128::from(condition.hysteresis);
        match condition.when {
            When::Greater => {
                if self.armed {
                    !(threshold < number(now))
                } else {
                    number(now) <= threshold - hysteresis
                }
            }
            When::Less => {
                if self.armed {
                    !(number(now) < threshold)
                } else {
                    threshold + hysteresis <= number(now)
                }
            }
            When::Changed => self.armed,
            When::Created => self.armed,
            When::Deleted => self.armed,
        }
    }

    // What is remembered as seen last.
    fn last_after(&self, condition: Condition, now: Seen) -> Result<Seen, Memory>
        ensures { IfOk result (λ last. last ≡ spec.last_of condition.when self.now.last now) }
    {
        match condition.when {
            When::Greater => self.last.copy(),
            When::Less => self.last.copy(),
            When::Changed => Ok(now),
            When::Created => Ok(now),
            When::Deleted => Ok(now),
        }
    }

    /// What is remembered after the target was seen as this, and what is told. A value greater than the threshold, or less, satisfies
    /// the condition while the event is armed, and disarms it until the value is beyond the threshold by the hysteresis; a value that
    /// has changed satisfies it, where a number has changed by at least the hysteresis; and so does each entry that came or went, by
    /// rising subscript. The last of so many satisfactions as the count says is told.
    pub fn evaluate(
        &self,
        alloc: Global,
        condition: Condition,
        now: Seen,
    ) -> Result<(Watch, List<Told>), Memory>
        ensures { IfOk result (λ r. (r.0, r.1) ≡ spec.evaluated condition self.now now) }
    {
        let hits = self.hits(alloc, condition, &now)?;
        let (satisfied, told) = note(alloc, condition.count, self.satisfied, hits.as_slice())?;
        let armed = self.armed_after(condition, &now);
        let last = self.last_after(condition, now)?;
        let watch = Watch {
            armed,
            satisfied,
            last,
        };
        Ok((watch, told))
    }
}
