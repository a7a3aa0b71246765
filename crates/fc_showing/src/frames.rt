// Frames as text, without the messages that they spell.
ghost use Rattle.std.specs.Prelude.{◌≡◌, ◌++◌, ◌∷◌, [], length, true, Ok, Some, OnOk, OnErr, IfOk, IfErr};
ghost use Rattle.fc_msg.specs.Decoding.{IsWithin, Refuses};
ghost use Rattle.fc_msg.specs.Faults.{fault_of};
ghost use Rattle.fc_msg.specs.Heads.{with_selects};
ghost use Rattle.fc_msg.specs.Messages.{Spells, message_fits};
ghost use Rattle.fc_msg.specs.Reading.{message_in};
ghost use Rattle.fc_msg.specs.declared.message.Message.{Message as Spelled};
ghost use Rattle.fc_text.specs.Text.{content_text, fields_text, message_text};
ghost use Rattle.fc_showing.specs.Appending.{Keeps, Shows, ShowsMessage, bare, type_name};
ghost use Rattle.fc_text.specs.TextReading.{text_in};

use crate::append::extend;
use crate::message::{fields, push_number};
use crate::names::type_name_of;
use crate::showing::{show_selects, show_some_selects};
use fc_base::Memory;
use fc_msg::{BodyHead, FrameHead, Message, MsgBody, MsgFault, SETUP, first_broken_rule_is_told};
use fc_path::PathFault;
use fc_text::decoded_text_is_read;
use fc_wire::Header;

// The lines of a body of this head.
fn show_body(into: &mut Vec<u8>, head: BodyHead) -> Result<(), PathFault>
    ensures shown { Shows result (with_selects head.entry) content_text into.old.items into.new.items }
    ensures kept { Keeps into.old.items into.new.items }
{
    match head {
        BodyHead::Heartbeat => Ok(()),
        BodyHead::SetupResponse(result) => {
            push_number(into, b"  result ", result)?;
            Ok(())
        }
        BodyHead::Teardown(reason) => {
            push_number(into, b"  reason ", reason)?;
            Ok(())
        }
        BodyHead::Setup(selects) => show_selects(into, SETUP, selects),
        BodyHead::Selects { kind, selects, end } => show_some_selects(into, kind, selects, end),
    }
}

// The line of a header of a type, whose other fields are those of a message.
fn show_head(into: &mut Vec<u8>, kind: u8, head: &Message) -> Result<(), Memory>
    ensures text { OnOk result (into.new.items ≡ into.old.items ++ (type_name kind ++ fields_text head.now)) }
    ensures kept { Keeps into.old.items into.new.items }
{
    extend(into, type_name_of(kind).as_bytes())?;
    extend(into, &fields(head))
}

// A message with the fields of a header and no body.
fn head_of(header: &Header) -> Message
    ensures { result ≡ bare header.now }
{
    Message {
        source: header.source,
        dest: header.dest,
        corr: header.corr,
        flags: header.flags,
        body: MsgBody::Heartbeat,
    }
}

// Appends the text of the message in bytes. After an `Err` some of it may stand there.
fn show_into(bytes: &[u8], into: &mut Vec<u8>) -> Result<(), MsgFault>
    ensures shown { IfOk result (λ _. (m : Spelled) × (message_in bytes.now ≡ Some m) × (into.new.items ≡ into.old.items ++ message_text m)) }
    ensures refused { IfErr result (λ fault. Refuses (fault_of bytes.now) fault) }
    ensures kept { Keeps into.old.items into.new.items }
{
    let head = FrameHead::read(bytes)?;
    show_head(into, head.header.kind, &head_of(&head.header))?;
    show_body(into, head.body)?;
    Ok(())
}

// The same. After an `Err` what was appended is cut off again.
fn show_whole(bytes: &[u8], into: &mut Vec<u8>) -> Result<(), MsgFault>
    ensures { ShowsMessage result bytes.now into.old.items into.new.items }
{
    let start = into.len();
    match show_into(bytes, into) {
        Ok(()) => Ok(()),
        Err(fault) => {
            into.truncate(start);
            Err(fault)
        }
    }
}

/// Appends the text of the message that bytes spell, or tells the first rule that they break, with its place in bytes from
/// the start of them (RFC 5810, sections 6 and 7; the text, the rules' order and the places are this profile's own). Each part
/// is appended as soon as it is read, so that nothing of the message is held but its text. After an `Err` nothing has
/// changed: what was appended is cut off again. `read_text` reads the text as that message again, unless the message has
/// grown too long to be encoded: its canonical bytes may be longer than these by padding that lengths count.
pub fn show_bytes(bytes: &[u8], into: &mut Vec<u8>) -> Result<(), MsgFault>
    ensures shown { IfOk result (λ _. (m : Spelled) × Spells m bytes.now × (into.new.items ≡ into.old.items ++ message_text m)) }
    ensures refused { IfErr result (λ fault. Refuses (fault_of bytes.now) fault) }
    ensures within { IfErr result (λ fault. IsWithin (length bytes.now) fault) }
    ensures err { OnErr result (into.new.items ≡ into.old.items) }
    ensures again { (m : Spelled) → Spells m bytes.now → message_fits m ≡ true → text_in (message_text m) ≡ Ok (m ∷ []) }
{
    first_broken_rule_is_told();
    decoded_text_is_read();
    show_whole(bytes, into)
}
