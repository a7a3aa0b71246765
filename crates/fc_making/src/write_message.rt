// Writing a message while its lines are read.
ghost use Rattle.std.specs.Prelude.{◌≡◌, ◌≤◌, ◌<◌, ◌++◌, length, Ok, IfErr, OnOk, OnErr};
ghost use Rattle.fc_wire.specs.Bytes.{u32_bytes};
ghost use Rattle.fc_wire.specs.Writing.{writing};
ghost use Rattle.fc_path.specs.Canon.{plain, wrapped};
ghost use Rattle.fc_msg.specs.Messages.{body_written, canonical, message_fits};
ghost use Rattle.fc_msg.specs.declared.message.Message.{Message as Spelled};
ghost use Rattle.fc_lines.specs.LineReading.{number_at};
ghost use Rattle.fc_text.specs.TextReading.{content_at, message_at, whole_at};
ghost use Rattle.fc_making.specs.Writes.{Refuses, Writes, header_for};

use crate::unwritten::Unwritten;
use crate::write_select::{write_selects, write_some_selects};
use fc_lines::{Head, Lines, head_line, number_line};
use fc_msg::{
    AS_REASON, AS_RESULT, HEARTBEAT, MOST_BODY, SETUP, SETUP_RESPONSE, TEARDOWN, append_framed,
    write_number,
};
use fc_wire::{Flags, Header, TlvWriter};

// The line of a number behind a name, as the one TLV of a type.
fn write_number_line(
    to: &mut TlvWriter,
    name: &[u8],
    kind: u16,
    lines: &mut Lines,
) -> Result<(), Unwritten>
    ensures exact { Writes result (number_at name.now lines.old) lines.new (λ number. wrapped kind (plain (u32_bytes number))) to.old to.new }
    ensures less { OnOk result (length lines.new.lines < length lines.old.lines) }
{
    let number = number_line(name, lines)?;
    write_number(to, kind, number)?;
    Ok(())
}

// The body of a message of a type.
fn write_content(to: &mut TlvWriter, kind: u8, lines: &mut Lines) -> Result<(), Unwritten>
    ensures exact { Writes result (content_at kind lines.old) lines.new body_written to.old to.new }
    ensures less { OnOk result (length lines.new.lines ≤ length lines.old.lines) }
{
    if kind == HEARTBEAT {
        return Ok(());
    }
    if kind == SETUP_RESPONSE {
        return write_number_line(to, b"result", AS_RESULT, lines);
    }
    if kind == TEARDOWN {
        return write_number_line(to, b"reason", AS_REASON, lines);
    }
    if kind == SETUP {
        return write_selects(to, kind, 1, lines);
    }
    write_some_selects(to, kind, 1, lines)
}

// The header of a message whose line says this. Its length is that of one alone.
fn header_of(head: Head) -> Header
    ensures { result ≡ header_for head }
{
    Header {
        kind: head.kind,
        words: 6,
        source: head.source,
        dest: head.dest,
        corr: head.corr,
        flags: Flags::from_word(head.flags),
    }
}

/// Appends the bytes of the message in front of lines, or tells where it is refused, or that it does not fit, as a length passes its
/// field. After an `Err` nothing is appended. The writer is used for its room alone.
pub fn write_message(
    to: &mut TlvWriter,
    lines: &mut Lines,
    into: &mut Vec<u8>,
) -> Result<(), Unwritten>
    ensures made { OnOk result ((m : Spelled) × (message_at lines.old ≡ Ok (m, lines.new)) × (into.new.items ≡ into.old.items ++ canonical m)) }
    ensures not { IfErr result (λ error. Refuses error (whole_at lines.old) message_fits) }
    ensures none { OnErr result (into.new.items ≡ into.old.items) }
    ensures less { OnOk result (length lines.new.lines < length lines.old.lines) }
{
    let head = head_line(lines)?;
    to.clear();
    write_content(to, head.kind, lines)?;
    lines.shut()?;
    let body = to.as_slice();
    if body.len() > MOST_BODY {
        return Err(Unwritten::TooLong);
    }
    append_framed(header_of(head), body, into)?;
    Ok(())
}
