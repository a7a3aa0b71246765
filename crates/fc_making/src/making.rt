// Text to bytes.
ghost use Rattle.std.specs.Prelude.{◌≡◌, ◌<◌, ◌⊎◌, ◌++◌, List, length, Ok, OnOk, OnErr, IfErr};
ghost use Rattle.std.specs.List.{flat_map};
ghost use Rattle.fc_msg.specs.Messages.{canonical};
ghost use Rattle.fc_msg.specs.declared.message.Message.{Message as Spelled};
ghost use Rattle.fc_text.specs.FirstMisfit.{FirstMisfit, FitsMessages, IsWithin, TooLongAt};
ghost use Rattle.fc_making.specs.Making.{Makes};
ghost use Rattle.fc_making.specs.Writes.{long_at};
ghost use Rattle.fc_text.specs.TextGrammar.{SpellsText};
ghost use Rattle.fc_lines.specs.TextPlaces.{Fails, RefusedAt};
ghost use Rattle.fc_text.specs.TextReading.{many_at, message_at, text_in};

use crate::unwritten::Unwritten;
use crate::write_message::write_message;
use fc_lines::{Lines, TextFault};
use fc_text::read_whole;
use fc_wire::TlvWriter;
use std::alloc::Global;

/// Appends the canonical bytes of the messages of a text in the layout of `show` (this profile's own), or refuses it as
/// `read_text` does, by line and column, both from 1. What a line says is written as soon as it is read, to a buffer for the body
/// of its message, which is then appended. Where a length passes its field, the message is read again whole, to tell at which line it
/// is refused. After an `Err` nothing has changed.
pub fn make_bytes(alloc: Global, text: &[u8], into: &mut Vec<u8>) -> Result<(), TextFault>
    ensures exact { Makes result (text_in text.now) into.old.items into.new.items }
    ensures spelled { OnOk result ((ms : List Spelled) × (text_in text.now ≡ Ok ms) × SpellsText ms text.now × (into.new.items ≡ into.old.items ++ flat_map canonical ms)) }
    ensures only { (ms : List Spelled) → SpellsText ms text.now → Makes result (Ok ms) into.old.items into.new.items }
    ensures misfit { RefusedAt (λ p. FirstMisfit FitsMessages p text.now ⊎ TooLongAt p text.now) result }
    ensures within { RefusedAt (λ p. IsWithin p text.now) result }
{
    make_whole(alloc, text, into)
}

fn make_whole(alloc: Global, text: &[u8], into: &mut Vec<u8>) -> Result<(), TextFault>
    ensures { Makes result (text_in text.now) into.old.items into.new.items }
{
    let start = into.len();
    match make_all(alloc, text, into) {
        Ok(()) => Ok(()),
        Err(fault) => {
            into.truncate(start);
            Err(fault)
        }
    }
}

// The same, but after an `Err` the bytes of the first messages may stand there.
#[tactic(auto, unfolding(fc_text::specs::TextReading::text_in))]
fn make_all(alloc: Global, text: &[u8], into: &mut Vec<u8>) -> Result<(), TextFault>
    ensures made { OnOk result ((ms : List Spelled) × (text_in text.now ≡ Ok ms) × (into.new.items ≡ into.old.items ++ flat_map canonical ms)) }
    ensures refused { IfErr result (λ fault. Fails fault (text_in text.now)) }
    ensures some { OnErr result ((ms : List Spelled) × (into.new.items ≡ into.old.items ++ flat_map canonical ms)) }
{
    let mut writer = TlvWriter::new(alloc);
    let mut lines = Lines::over(text);
    make_messages(alloc, &mut writer, &mut lines, into)?;
    lines.closed()
}

// Appends the bytes of the messages in front of lines. After an `Err` those of the first ones may stand there.
fn make_messages(
    alloc: Global,
    writer: &mut TlvWriter,
    lines: &mut Lines,
    into: &mut Vec<u8>,
) -> Result<(), TextFault>
    ensures made { OnOk result ((ms : List Spelled) × (many_at 0 message_at lines.old ≡ Ok (ms, lines.new)) × (into.new.items ≡ into.old.items ++ flat_map canonical ms)) }
    ensures refused { IfErr result (λ fault. Fails fault (many_at 0 message_at lines.old)) }
    ensures some { OnErr result ((ms : List Spelled) × (into.new.items ≡ into.old.items ++ flat_map canonical ms)) }
{
    'lines: while lines.stands_at(0) {
        make_message(alloc, writer, lines, into)?;
    }
    Ok(())
}

// Appends the bytes of the message in front of lines. After an `Err` nothing is appended.
fn make_message(
    alloc: Global,
    writer: &mut TlvWriter,
    lines: &mut Lines,
    into: &mut Vec<u8>,
) -> Result<(), TextFault>
    ensures made { OnOk result ((m : Spelled) × (message_at lines.old ≡ Ok (m, lines.new)) × (into.new.items ≡ into.old.items ++ canonical m)) }
    ensures refused { IfErr result (λ fault. Fails fault (message_at lines.old)) }
    ensures none { OnErr result (into.new.items ≡ into.old.items) }
    ensures less { OnOk result (length lines.new.lines < length lines.old.lines) }
{
    let start = lines.again();
    match write_message(writer, lines, into) {
        Ok(()) => Ok(()),
        Err(Unwritten::Fault(fault)) => Err(fault),
        Err(Unwritten::TooLong) => Err(fault_of_long(alloc, start)),
    }
}

// Where the message in front of lines is refused, which can't be encoded: at the first fault of its lines, or else at its first
// line.
fn fault_of_long(alloc: Global, mut lines: Lines) -> TextFault
    ensures { Fails result (long_at lines.entry) }
{
    let first = lines.misplaced();
    match read_whole(alloc, &mut lines) {
        Ok(_) => first,
        Err(fault) => fault,
    }
}
