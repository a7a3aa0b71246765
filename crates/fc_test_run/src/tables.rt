// Tables of what comes to an element or a control element, with what it sends: each case begins with a new one, and ends with its report, and with
// its status where that is not 0.
use crate::hub::ran;
use crate::lines::{Telling, push_act, push_events, telling_of};
use fc_hub::{Act, HubEvent};
use fc_test_kit::cut;
use std::alloc::Global;
use std::test::Fail;

// Element 2, whose control element is 40000001, over all events. In front of the lines of its cases connection 1 opens; under other words each case
// says when it does.
const ELEMENT: &str = "element 2 40000001 a 1 99999";

// How many events stand in front of the lines of a case.
fn opened(words: &str) -> usize {
    if words == ELEMENT { 1 } else { 0 }
}

// How the messages of a command are told that are sent at a line without bytes.
fn told_by(words: &str) -> Telling {
    if words.starts_with("control") {
        Telling::Head
    } else {
        Telling::Content
    }
}

// Whether a line is an event: others are remarks, which begin with `--`, the lines of the report, and the status.
fn is_event(line: &str) -> bool {
    let (word, _) = cut(line, " ");
    match word {
        "--" | "element" | "floor" | "record" | "config" => false,
        "controller" | "txn" | "unbegun" | "refused" | "status" => false,
        _ => true,
    }
}

// The events of the lines of a case, behind those in front of them, and how many there are up to the end of each line.
fn events_of(
    alloc: Global,
    words: &str,
    case: &str,
    piece: usize,
) -> Result<(Vec<HubEvent>, Vec<usize>), Fail> {
    let mut events = Vec::new(alloc);
    let mut ends = Vec::new(alloc);
    if opened(words) > 0 {
        events.push(HubEvent::Opened(1))?;
    }
    for line in case.lines() {
        if is_event(line) {
            let (asked, _) = cut(line, " =");
            push_events(alloc, &mut events, asked, piece)?;
        }
        ends.push(events.len())?;
    }
    Ok((events, ends))
}

// What was done at the hub behind so many events and up to so many.
fn push_acts(
    alloc: Global,
    text: &mut Vec<u8>,
    acts: &[(u64, Act)],
    behind: usize,
    end: usize,
    telling: Telling,
) -> Result<(), Fail> {
    for (taken, act) in acts {
        if *taken > behind as u64 && *taken <= end as u64 {
            push_act(alloc, text, act, telling)?;
        }
    }
    Ok(())
}

// Whether something was done at the hub before the first event.
fn has_early(acts: &[(u64, Act)]) -> bool {
    acts.iter().any(|act| act.0 == 0)
}

// The last lines of a case: the report, and a status other than 0.
fn push_end(alloc: Global, text: &mut Vec<u8>, report: &[u8], status: u8) -> Result<(), Fail> {
    text.extend_from_slice(report)?;
    if status != 0 {
        text.extend_from_slice(format!(in alloc; "status {status}\n")?.as_bytes())?;
    }
    let _ = text.pop();
    Ok(())
}

// A case as it was seen: its events, each with what was sent at it, and its last lines.
fn seen(
    alloc: Global,
    words: &str,
    document: &str,
    case: &str,
    piece: usize,
) -> Result<Vec<u8>, Fail> {
    let (events, ends) = events_of(alloc, words, case, piece)?;
    let input = Vec::from_slice(alloc, document.as_bytes())?;
    let (status, report, hub) = ran(alloc, words, input, events)?;
    if has_early(hub.acts()) {
        return Err(Fail::from("an act before the first event"));
    }
    let mut text = Vec::new(alloc);
    let mut behind = opened(words);
    for (line, end) in case.lines().zip(ends.iter()) {
        if line.starts_with("--") {
            text.extend_from_slice(line.as_bytes())?;
            text.push(b'\n')?;
        } else if is_event(line) {
            let (asked, _) = cut(line, " =");
            text.extend_from_slice(asked.as_bytes())?;
            text.extend_from_slice(b" =")?;
            let telling = telling_of(line, told_by(words))?;
            push_acts(alloc, &mut text, hub.acts(), behind, *end, telling)?;
            text.push(b'\n')?;
        }
        behind = *end;
    }
    push_end(alloc, &mut text, report.as_slice(), status)?;
    Ok(text)
}

// The first case that is seen otherwise under the words of a command and over a document, as it was seen, where messages come in pieces of so many
// bytes. Blank lines stand between cases. A line is an event, or the bytes or the text of a message, which comes over connection 1 or over the one
// that stands in front of it, as `@2 `; and behind ` =` what is sent.
pub(crate) fn first_wrong_under(
    alloc: Global,
    words: &str,
    document: &str,
    cases: &str,
    piece: usize,
) -> Result<Option<String>, Fail> {
    for case in cases.split("\n\n") {
        let seen = seen(alloc, words, document, case, piece)?;
        if seen.as_slice() != case.as_bytes() {
            return Ok(Some(String::from_utf8(seen).ok().ok_or("a text")?));
        }
    }
    Ok(None)
}

// The same of element 2.
pub(crate) fn first_wrong(
    alloc: Global,
    document: &str,
    cases: &str,
    piece: usize,
) -> Result<Option<String>, Fail> {
    first_wrong_under(alloc, ELEMENT, document, cases, piece)
}
