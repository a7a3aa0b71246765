// Text to messages.
ghost use Rattle.std.specs.Prelude.{◌≡◌, ◌≤◌, ◌<◌, ◌⊎◌, length, true, Ok, IfOk, OnOk, List as Listed};
ghost use Rattle.std.specs.List.{AllByRecursion};
ghost use Rattle.fc_msg.specs.Messages.{IsProper, message_fits};
ghost use Rattle.fc_msg.specs.declared.message.Message.{Message as Spelled};
ghost use Rattle.fc_text.specs.FirstMisfit.{FirstMisfit, FitsMessages, IsWithin, TooLongAt};
ghost use Rattle.fc_lines.specs.TextPlaces.{Gives, Reads, RefusedAt};
ghost use Rattle.fc_text.specs.TextGrammar.{SpellsText};
ghost use Rattle.fc_text.specs.TextReading.{content_at, message_at, many_at, text_in, whole_at};

use crate::read_select::{read_selects, read_some_selects};
use fc_base::{List, Memory, WriteFault};
use fc_lines::{Lines, TextFault, head_line, number_line};
use fc_msg::{HEARTBEAT, Message, MsgBody, SETUP, SETUP_RESPONSE, TEARDOWN, encode};
use fc_wire::Flags;
use std::alloc::Global;

/// The messages of a text in the layout of `show`, whose last line may lack its line feed, or the first line that does
/// not fit, with its first word that does not. Hexadecimal digits are taken in either case, and the free bits of flags
/// are dropped. A message that `encode` refuses does not fit at its first line.
pub fn read_text(alloc: Global, bytes: &[u8]) -> Result<List<Message>, TextFault>
    ensures exact { Gives result (text_in bytes.now) }
    ensures spelled { IfOk result (λ ms. SpellsText ms bytes.now) }
    ensures only { (ms : Listed Spelled) → SpellsText ms bytes.now → Gives result (Ok ms) }
    ensures proper { IfOk result (λ ms. AllByRecursion IsProper ms) }
    ensures fits { IfOk result (λ ms. AllByRecursion (λ m. message_fits m ≡ true) ms) }
    ensures misfit { RefusedAt (λ p. FirstMisfit FitsMessages p bytes.now ⊎ TooLongAt p bytes.now) result }
    ensures within { RefusedAt (λ p. IsWithin p bytes.now) result }
{
    read_all(alloc, bytes)
}

#[tactic(auto, unfolding(crate::specs::TextReading::text_in))]
fn read_all(alloc: Global, bytes: &[u8]) -> Result<List<Message>, TextFault>
    ensures { Gives result (text_in bytes.now) }
{
    let mut lines = Lines::over(bytes);
    let messages = read_messages(alloc, &mut lines)?;
    lines.closed()?;
    Ok(messages)
}

// The messages in front of lines.
fn read_messages(alloc: Global, lines: &mut Lines) -> Result<List<Message>, TextFault>
    ensures { Reads result (many_at 0 message_at lines.old) lines.new }
{
    let mut messages = List::new(alloc);
    'lines: while lines.stands_at(0) {
        let message = read_message(alloc, lines)?;
        messages.push(message)?;
    }
    Ok(messages)
}

// A message that can be encoded.
#[tactic(auto, unfolding(crate::specs::TextReading::message_at))]
fn read_message(alloc: Global, lines: &mut Lines) -> Result<Message, TextFault>
    ensures exact { Reads result (message_at lines.old) lines.new }
    ensures less { OnOk result (length lines.new.lines < length lines.old.lines) }
{
    let first = lines.misplaced();
    let message = read_whole(alloc, lines)?;
    if !can_encode(alloc, &message)? {
        return Err(first);
    }
    Ok(message)
}

/// A message, behind which another begins, or the text ends. Whether it can be encoded is not looked at.
#[tactic(auto, unfolding(crate::specs::TextReading::whole_at))]
pub fn read_whole(alloc: Global, lines: &mut Lines) -> Result<Message, TextFault>
    ensures exact { Reads result (whole_at lines.old) lines.new }
    ensures less { OnOk result (length lines.new.lines < length lines.old.lines) }
{
    let head = head_line(lines)?;
    let body = read_content(alloc, head.kind, lines)?;
    lines.shut()?;
    Ok(Message {
        source: head.source,
        dest: head.dest,
        corr: head.corr,
        flags: Flags::from_word(head.flags),
        body,
    })
}

// The body of a message of a type.
#[tactic(auto, unfolding(crate::specs::TextReading::content_at))]
fn read_content(alloc: Global, kind: u8, lines: &mut Lines) -> Result<MsgBody, TextFault>
    ensures exact { Reads result (content_at kind lines.old) lines.new }
    ensures less { OnOk result (length lines.new.lines ≤ length lines.old.lines) }
{
    match kind {
        HEARTBEAT => Ok(MsgBody::Heartbeat),
        SETUP_RESPONSE => {
            let result = number_line(b"result", lines)?;
            Ok(MsgBody::SetupResponse(result))
        }
        TEARDOWN => {
            let reason = number_line(b"reason", lines)?;
            Ok(MsgBody::Teardown(reason))
        }
        SETUP => {
            let selects = read_selects(alloc, kind, 1, lines)?;
            Ok(MsgBody::Setup(selects))
        }
        _ => {
            let selects = read_some_selects(alloc, kind, 1, lines)?;
            Ok(MsgBody::holding(kind, selects))
        }
    }
}

// Whether `encode` takes a message. It takes each that has no body.
fn can_encode(alloc: Global, message: &Message) -> Result<bool, Memory>
    ensures { IfOk result (λ fits. fits ≡ message_fits message.now) }
{
    match &message.body {
        MsgBody::Heartbeat => Ok(true),
        _ => encodes(alloc, message),
    }
}

// Whether `encode` takes a message, by encoding it.
fn encodes(alloc: Global, message: &Message) -> Result<bool, Memory>
    ensures { IfOk result (λ fits. fits ≡ message_fits message.now) }
{
    let mut bytes = Vec::new(alloc);
    match encode(message, &mut bytes) {
        Ok(()) => Ok(true),
        Err(WriteFault::TooLong) => Ok(false),
        Err(WriteFault::Memory) => Err(Memory),
    }
}
