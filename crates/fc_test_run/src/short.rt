// Short lines for what control element 40000001 sends to element 2: claims, and what it asks under its first epoch, 257; and for what an element
// sends to that control element in that epoch.
use fc_test_kit::cut;
use std::alloc::Global;
use std::test::Fail;

// The participants of each transaction are elements 1 and 2.
const PARTICIPANTS: &str = "0112001400000001000000010000000200000002";

// The instances that a start names: some of the class of ports, or all.
fn scope(word: &str) -> &'static str {
    match word {
        "1" => "01120010000000010000100100000001",
        "2" => "01120010000000010000100100000002",
        "12" => "0112001C000000010000100100000001000000020000100100000002",
        "9" => "01120010000000010000100100000009",
        _ => "01120004",
    }
}

// A phase of a transaction or a floor: its flags, the component that it sets, and the operation that stands behind that.
fn phase(word: &str) -> Option<(&'static str, u8, &'static str)> {
    match word {
        "start" => Some(("C0600000", 4, "")),
        "change" => Some(("C0680000", 5, "")),
        "prepare" => Some(("C0700000", 5, " | COMMIT")),
        "complete" => Some(("C0700000", 5, " | TRCOMP")),
        "abort" => Some(("C0780000", 5, "")),
        "forget" => Some(("C0400000", 6, "")),
        _ => None,
    }
}

// What stands behind a bar, with the bar.
fn behind(alloc: Global, rest: &str) -> Result<String, Fail> {
    if rest.is_empty() {
        return Ok(String::new(alloc));
    }
    Ok(format!(in alloc; " | {rest}")?)
}

// A claim of a control element under an epoch.
fn claim(alloc: Global, words: &str) -> Result<String, Fail> {
    let (ce, epoch) = cut(words, " ");
    Ok(format!(in alloc;
        "Config C0400000 {ce} 00000002 {epoch}00000000 | lfb 0001F001 00000001 | SET | path 1 | full {epoch}"
    )?)
}

// A plain change with a sequence.
fn plain(alloc: Global, sequence: &str, rest: &str) -> Result<String, Fail> {
    Ok(format!(in alloc; "Config C0400000 40000001 00000002 000001010000000{sequence} | {rest}")?)
}

// A phase with a sequence, the number of its transaction, and of a start the scope.
fn phased(
    alloc: Global,
    (flags, component, operation): (&str, u8, &str),
    words: &str,
    rest: &str,
) -> Result<String, Fail> {
    let (sequence, words) = cut(words, " ");
    let (number, instances) = cut(words, " ");
    let (participants, instances) = if component == 4 {
        (PARTICIPANTS, scope(instances))
    } else {
        ("", "")
    };
    let rest = behind(alloc, rest)?;
    let rest = rest.as_str();
    Ok(format!(in alloc;
        "Config {flags} 40000001 00000002 000001010000000{sequence} | lfb 0001F001 00000001 | SET | path {component} | full 000001010000000{number}{participants}{instances}{operation}{rest}"
    )?)
}

// What an element asks first.
fn setup(alloc: Global, element: u32) -> Result<String, Fail> {
    Ok(format!(in alloc; "AssociationSetup C0000000 {element:08X} 40000001 0000010100000000")?)
}

// The code of an element for the message of a count.
fn coded(alloc: Global, element: u32, words: &str) -> Result<String, Fail> {
    let (count, code) = cut(words, " ");
    Ok(format!(in alloc;
        "ConfigResponse 00000000 {element:08X} 40000001 000001010000000{count} | lfb 0001F001 00000001 | SET-RESPONSE | path 5 | code {code}"
    )?)
}

// The epoch of an element, for the message of a count, and that it holds no transaction.
fn held(alloc: Global, element: u32, count: &str) -> Result<String, Fail> {
    Ok(format!(in alloc;
        "QueryResponse 00000000 {element:08X} 40000001 000001010000000{count} | lfb 0001F001 00000001 | GET-RESPONSE | path 1 | full 00000101 | path 7 | full -"
    )?)
}

// The line that a short one stands for, which comes over a connection; all others stand as they are. Counts, sequences and numbers of transactions
// are one digit, and an element has the number of its connection. Behind a bar stands what comes along.
pub(crate) fn spelled(alloc: Global, peer: u32, line: &str) -> Result<String, Fail> {
    let (head, rest) = cut(line, " | ");
    let (word, words) = cut(head, " ");
    match word {
        "claim" => claim(alloc, words),
        "plain" => plain(alloc, words, rest),
        "setup" => setup(alloc, peer),
        "code" => coded(alloc, peer, words),
        "held" => held(alloc, peer, words),
        _ => match phase(word) {
            Some(phase) => phased(alloc, phase, words, rest),
            None => Ok(String::from_str(alloc, line)?),
        },
    }
}
