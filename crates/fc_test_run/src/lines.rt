// The lines of a table: what comes to an element, as events of a hub, and what it sends, as words.
use crate::hub::written;
use crate::short::spelled;
use fc_base::{Octets, push_hex};
use fc_hub::{Act, HubEvent};
use fc_test_kit::{bytes_of, cut};
use std::alloc::Global;
use std::test::Fail;

// The line of a message: its name and flags, the IDs of its sender and of whom it is for, and its correlator, where they are not these.
fn head(alloc: Global, words: &str) -> Result<String, Fail> {
    let (name, words) = cut(words, " ");
    let (flags, words) = cut(words, " ");
    let ids = if words.is_empty() {
        "40000001 00000002"
    } else {
        words
    };
    let (from, words) = cut(ids, " ");
    let (to, words) = cut(words, " ");
    let corr = if words.is_empty() {
        "0000000000000009"
    } else {
        words
    };
    Ok(format!(in alloc; "{name} from={from} to={to} corr={corr} flags={flags}\n")?)
}

// How far the lines of a body are indented, by their first words.
fn indentation(word: &str) -> &'static str {
    match word {
        "lfb" | "result" | "reason" => "  ",
        "path" => "      ",
        "full" | "sparse" | "code" => "        ",
        "ilv" => "          ",
        _ => "    ",
    }
}

// The text of a message whose lines are parted by bars. A line that begins with `>` stands in the path above it.
fn message_text(alloc: Global, line: &str) -> Result<String, Fail> {
    let (words, body) = cut(line, " | ");
    let mut text = head(alloc, words)?;
    for part in body.split(" | ") {
        if !part.is_empty() {
            let (deeper, part) = match part.strip_prefix("> ") {
                Some(part) => ("  ", part),
                None => ("", part),
            };
            let (word, _) = cut(part, " ");
            text.push_str(deeper)?;
            text.push_str(indentation(word))?;
            text.push_str(part)?;
            text.push_str("\n")?;
        }
    }
    Ok(text)
}

// The connection over which a message comes, and its line without that: `@2 ` in front of it says that it is connection 2, and else it is 1.
fn peer_of(line: &str) -> Result<(u32, &str), Fail> {
    match line.strip_prefix("@") {
        Some(rest) => {
            let (peer, line) = cut(rest, " ");
            Ok((peer.parse::<u32>()?, line))
        }
        None => Ok((1, line)),
    }
}

// How a message is told that is sent: by its bytes; by its name, its correlator and its flags; or by its name and what it tells.
#[derive(Clone, Copy, PartialEq, Eq)]
pub(crate) enum Telling {
    Bytes,
    Head,
    Content,
}

// Whether a line of a message has its bytes, and not its text.
fn has_bytes(line: &str) -> bool {
    line.starts_with("1") || line.starts_with("0")
}

// How what is sent at a line is told: by bytes where the line has the bytes of a message, or wants some; else in this way.
pub(crate) fn telling_of(line: &str, other: Telling) -> Result<Telling, Fail> {
    let (_, asked) = peer_of(line)?;
    let (_, wanted) = cut(line, " = ");
    let (_, wanted) = peer_of(wanted)?;
    if has_bytes(asked) || wanted.starts_with("100") {
        return Ok(Telling::Bytes);
    }
    Ok(other)
}

// The bytes of a message.
fn message_bytes(alloc: Global, line: &str) -> Result<Vec<u8>, Fail> {
    if has_bytes(line) {
        return Ok(bytes_of(alloc, line)?);
    }
    let text = message_text(alloc, line)?;
    written(alloc, "make", text.as_bytes())
}

// The events in which a message comes over a connection, in pieces of so many bytes.
fn push_pieces(
    alloc: Global,
    events: &mut Vec<HubEvent>,
    peer: u32,
    bytes: &[u8],
    piece: usize,
) -> Result<(), Fail> {
    for part in bytes.chunks(piece.max(1)) {
        events.push(HubEvent::Bytes(peer, Octets::from_slice(alloc, part)?))?;
    }
    Ok(())
}

// The events of a line.
pub(crate) fn push_events(
    alloc: Global,
    events: &mut Vec<HubEvent>,
    line: &str,
    piece: usize,
) -> Result<(), Fail> {
    let (word, number) = cut(line, " ");
    match word {
        "open" => events.push(HubEvent::Opened(number.parse::<u32>()?))?,
        "close" => events.push(HubEvent::Closed(number.parse::<u32>()?))?,
        "moment" => events.push(HubEvent::Moment(number.parse::<u64>()?))?,
        _ => {
            let (peer, line) = peer_of(line)?;
            let line = spelled(alloc, peer, line)?;
            let bytes = message_bytes(alloc, line.as_str())?;
            push_pieces(alloc, events, peer, bytes.as_slice(), piece)?;
        }
    }
    Ok(())
}

// A word, or how many digits it has where they are very many.
fn push_word(alloc: Global, text: &mut Vec<u8>, word: &str) -> Result<(), Fail> {
    text.push(b' ')?;
    if word.len() <= 200 {
        text.extend_from_slice(word.as_bytes())?;
    } else {
        let count = word.len();
        text.extend_from_slice(format!(in alloc; "{count} digits")?.as_bytes())?;
    }
    Ok(())
}

// What a line of a message tells: its name, a code, a value or a property; of a notice its place too.
fn push_line(alloc: Global, text: &mut Vec<u8>, line: &str, has_place: bool) -> Result<(), Fail> {
    let (word, rest) = cut(line.trim_start(), " ");
    match word {
        "code" | "full" | "ilv" | "reason" => push_word(alloc, text, rest),
        "sparse" => Ok(()),
        "lfb" | "path" => {
            if has_place {
                return push_word(alloc, text, rest);
            }
            Ok(())
        }
        _ => {
            if rest.is_empty() {
                return Ok(());
            }
            push_word(alloc, text, word)
        }
    }
}

// What a message tells.
fn push_message(alloc: Global, text: &mut Vec<u8>, bytes: &[u8]) -> Result<(), Fail> {
    let shown = written(alloc, "show", bytes)?;
    let shown = String::from_utf8(shown).ok().ok_or("a text")?;
    let has_place = shown.starts_with("EventNotification");
    for line in shown.lines() {
        push_line(alloc, text, line, has_place)?;
    }
    Ok(())
}

// The bytes of a message, with spaces between words of four.
fn push_bytes(text: &mut Vec<u8>, bytes: &[u8]) -> Result<(), Fail> {
    for word in bytes.chunks(4) {
        text.push(b' ')?;
        push_hex(text, word)?;
    }
    Ok(())
}

// The name of a message, its correlator and its flags.
fn push_head(alloc: Global, text: &mut Vec<u8>, bytes: &[u8]) -> Result<(), Fail> {
    let shown = written(alloc, "show", bytes)?;
    let shown = String::from_utf8(shown).ok().ok_or("a text")?;
    let (line, _) = cut(shown.as_str(), "\n");
    let (name, rest) = cut(line, " ");
    let (_, rest) = cut(rest, " corr=");
    let (corr, flags) = cut(rest, " flags=");
    text.extend_from_slice(format!(in alloc; " {name} {corr} {flags}")?.as_bytes())?;
    Ok(())
}

// A message that is sent to a peer: the number of the peer with what is told of the message, or its bytes, behind the number where it is not 1.
fn push_sent(
    alloc: Global,
    text: &mut Vec<u8>,
    peer: u32,
    bytes: &[u8],
    telling: Telling,
) -> Result<(), Fail> {
    if telling == Telling::Bytes {
        if peer != 1 {
            text.extend_from_slice(format!(in alloc; " @{peer}")?.as_bytes())?;
        }
        return push_bytes(text, bytes);
    }
    text.extend_from_slice(format!(in alloc; " {peer}")?.as_bytes())?;
    if telling == Telling::Head {
        return push_head(alloc, text, bytes);
    }
    push_message(alloc, text, bytes)
}

// What is done at the hub: a message that is sent, or a peer that is closed.
pub(crate) fn push_act(
    alloc: Global,
    text: &mut Vec<u8>,
    act: &Act,
    telling: Telling,
) -> Result<(), Fail> {
    match act {
        Act::Sent(peer, bytes) => push_sent(alloc, text, *peer, bytes.as_slice(), telling),
        Act::Shut(peer) => {
            text.extend_from_slice(format!(in alloc; " {peer} closed")?.as_bytes())?;
            Ok(())
        }
    }
}
