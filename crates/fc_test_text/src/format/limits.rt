// What comes of the longest messages, behind other bytes and other text.
use fc_base::Memory;
use fc_making::make_bytes;
use fc_msg::{MsgBody, decode, encode};
use fc_showing::{show, show_bytes};
use fc_text::read_text;
use std::alloc::Global;
use std::test::Fail;

// The type and the length of a TLV.
fn head(into: &mut Vec<u8>, kind: u16, length: u16) -> Result<(), Memory> {
    into.extend_from_slice(&kind.to_be_bytes())?;
    into.extend_from_slice(&length.to_be_bytes())?;
    Ok(())
}

// A message of a type, of so many words, from a control element to an element.
fn header(alloc: Global, kind: u8, words: u16) -> Result<Vec<u8>, Memory> {
    let mut bytes = Vec::from_slice(alloc, &[0x10, kind])?;
    bytes.extend_from_slice(&words.to_be_bytes())?;
    bytes.extend_from_slice(&[0x40, 0, 0, 1, 0, 0, 0, 2])?;
    bytes.extend_from_slice(&[0; 12])?;
    Ok(bytes)
}

// A select of a length with an operation.
fn select(into: &mut Vec<u8>, length: u16, oper: u16) -> Result<(), Memory> {
    head(into, 0x1000, length)?;
    into.extend_from_slice(&[0, 0, 0, 1, 0, 0, 0, 1])?;
    head(into, oper, length.wrapping_sub(12))
}

// A SET of one component to so many zeros that the select has this length.
fn set(into: &mut Vec<u8>, length: u16) -> Result<(), Memory> {
    select(into, length, 0x0001)?;
    head(into, 0x0110, length.wrapping_sub(16))?;
    into.extend_from_slice(&[0, 0, 0, 1, 0, 0, 0, 7])?;
    head(into, 0x0112, length.wrapping_sub(28))?;
    for _ in 32..length {
        into.push(0)?;
    }
    Ok(())
}

// A Config of 65,535 words, the most that the header can tell.
fn longest(alloc: Global) -> Result<Vec<u8>, Memory> {
    let mut bytes = header(alloc, 0x03, 65_535)?;
    set(&mut bytes, 65_532)?;
    set(&mut bytes, 65_532)?;
    set(&mut bytes, 65_532)?;
    set(&mut bytes, 65_520)?;
    Ok(bytes)
}

// A Query of as many paths as one select may hold: 5,459 of 12 bytes each.
fn widest(alloc: Global) -> Result<Vec<u8>, Memory> {
    let mut bytes = header(alloc, 0x04, 16_387)?;
    select(&mut bytes, 65_524, 0x0007)?;
    for ident in 0..5_459u32 {
        head(&mut bytes, 0x0110, 12)?;
        bytes.extend_from_slice(&[0, 0, 0, 1])?;
        bytes.extend_from_slice(&ident.to_be_bytes())?;
    }
    Ok(bytes)
}

// The same three times.
fn thrice(alloc: Global, part: &[u8]) -> Result<Vec<u8>, Memory> {
    let mut whole = Vec::from_slice(alloc, part)?;
    whole.extend_from_slice(part)?;
    whole.extend_from_slice(part)?;
    Ok(whole)
}

fn text_of(alloc: Global, bytes: &[u8]) -> Result<Vec<u8>, Fail> {
    let mut text = Vec::new(alloc);
    show_bytes(bytes, &mut text).ok().ok_or("a text")?;
    Ok(text)
}

// Whether a message is shown in both ways behind a text.
fn is_shown(alloc: Global, bytes: &[u8], text: &[u8]) -> Result<bool, Fail> {
    let message = decode(alloc, bytes).ok().ok_or("a message")?;
    let mut shown = Vec::from_slice(alloc, text)?;
    show(&message, &mut shown).ok().ok_or("memory")?;
    show_bytes(bytes, &mut shown).ok().ok_or("a text")?;
    Ok(shown.as_slice() == thrice(alloc, text)?.as_slice())
}

// Whether a message is made of its text, and encoded, behind other bytes.
fn is_made(alloc: Global, bytes: &[u8], text: &[u8]) -> Result<bool, Fail> {
    let message = decode(alloc, bytes).ok().ok_or("a message")?;
    let mut made = Vec::from_slice(alloc, bytes)?;
    make_bytes(alloc, text, &mut made).ok().ok_or("bytes")?;
    encode(&message, &mut made).ok().ok_or("memory")?;
    Ok(made.as_slice() == thrice(alloc, bytes)?.as_slice())
}

// Whether a text is read as one message, that of the bytes.
fn is_read(alloc: Global, bytes: &[u8], text: &[u8]) -> Result<bool, Fail> {
    let wanted = decode(alloc, bytes).ok().ok_or("a message")?;
    let messages = read_text(alloc, text).ok().ok_or("messages")?;
    match messages.as_slice() {
        [message] => Ok(*message == wanted),
        _ => Ok(false),
    }
}

// Whether a message of this text comes back in each way.
pub(crate) fn comes_back(alloc: Global, bytes: &[u8], text: &[u8]) -> Result<bool, Fail> {
    Ok(
        is_shown(alloc, bytes, text)?
            && is_made(alloc, bytes, text)?
            && is_read(alloc, bytes, text)?,
    )
}

#[test]
fn the_longest_message_comes_back(rt: HostRuntime) -> Result<(), Fail> {
    let alloc = rt.alloc();
    let bytes = longest(alloc)?;
    assert_eq!(rt; bytes.len(), 262_140);
    let text = text_of(alloc, bytes.as_slice())?;
    assert!(rt; text.len() > 523_000);
    assert!(rt; comes_back(alloc, bytes.as_slice(), text.as_slice())?);
    Ok(())
}

// How many paths the first select of a Query leads along.
fn leaves(alloc: Global, bytes: &[u8]) -> Result<usize, Fail> {
    let message = decode(alloc, bytes).ok().ok_or("a message")?;
    let MsgBody::Query(selects) = message.body else {
        return Err(Fail::from("no query"));
    };
    match selects.as_slice() {
        [select] => Ok(select.leaves()?.len()),
        _ => Err(Fail::from("no select")),
    }
}

#[test]
fn the_widest_select_comes_back(rt: HostRuntime) -> Result<(), Fail> {
    let alloc = rt.alloc();
    let bytes = widest(alloc)?;
    assert_eq!(rt; bytes.len(), 65_548);
    assert_eq!(rt; leaves(alloc, bytes.as_slice())?, 5_459);
    let text = text_of(alloc, bytes.as_slice())?;
    assert!(rt; comes_back(alloc, bytes.as_slice(), text.as_slice())?);
    Ok(())
}
