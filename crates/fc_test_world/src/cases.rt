// Tables of cases: the steps of a script, one a line; behind an empty line the messages that were sent by then, each its number and its bytes;
// and behind another empty line the report, where the case tells it.
use crate::network::{message, reported};
use crate::steps::behind;
use fc_test_kit::{bytes_of, cut};
use fc_world::World;
use std::alloc::Global;
use std::test::Fail;

// Whether the message of a line was sent: its number, and hexadecimal digits between which spaces may stand.
fn is_sent(alloc: Global, world: &World, line: &str) -> Result<bool, Fail> {
    let (number, digits) = cut(line, " ");
    let sent = message(alloc, world, number.parse::<usize>()?)?;
    let wanted = bytes_of(alloc, digits)?;
    Ok(sent == wanted)
}

// Whether the message of each line was sent.
fn are_sent(alloc: Global, world: &World, lines: &str) -> Result<bool, Fail> {
    for line in lines.lines() {
        if !is_sent(alloc, world, line)? {
            return Ok(false);
        }
    }
    Ok(true)
}

// Whether this is the report on a world.
pub(crate) fn is_reported(alloc: Global, world: &World, wanted: &str) -> Result<bool, Fail> {
    let text = reported(alloc, world)?;
    Ok(text.as_slice() == wanted.as_bytes())
}

// Whether a case is as it says; one that says nothing is not.
fn is_so(alloc: Global, case: &str) -> Result<bool, Fail> {
    let (steps, told) = cut(case, "\n\n");
    let (messages, report) = cut(told, "\n\n");
    if messages.is_empty() && report.is_empty() {
        return Ok(false);
    }
    let world = behind(alloc, steps)?;
    if !are_sent(alloc, &world, messages)? {
        return Ok(false);
    }
    Ok(report.is_empty() || is_reported(alloc, &world, report)?)
}

// The first case that is not as it says.
pub(crate) fn first_wrong<'a>(alloc: Global, cases: &[&'a str]) -> Result<Option<&'a str>, Fail> {
    for case in cases {
        if !is_so(alloc, case)? {
            return Ok(Some(*case));
        }
    }
    Ok(None)
}
