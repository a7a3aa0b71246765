// Messages to bytes.
ghost use Rattle.std.specs.Prelude.{◌≡◌, ◌≤◌, ◌<◌, ◌++◌, [], length, Some, true, false, map, OnOk, OnErr};
ghost use Rattle.std.specs.Result.{IsErrOf};
ghost use Rattle.fc_base.specs.declared.faults.WriteFault.TheVariants.{TooLong};
ghost use Rattle.fc_wire.specs.Bytes.{u32_bytes};
ghost use Rattle.fc_wire.specs.Writing.{writing};
ghost use Rattle.fc_path.specs.Canon.{Pushed, plain, wrapped};
ghost use Rattle.fc_msg.specs.Messages.{IsProper, body_written, canonical, framed, message_fits, selects_written, with_body};
ghost use Rattle.fc_msg.specs.Reading.{message_in};

use crate::message::{AS_REASON, AS_RESULT, Message, MsgBody};
use fc_base::{Memory, WriteFault};
use fc_path::Select;
use fc_wire::{Header, TlvWriter};
use std::alloc::Global;
use std::marker::Model;

/// The most bytes of a body: 65,535 words less those of the header.
pub const MOST_BODY: usize = 262116;

/// Appends the canonical bytes of the message, whose reserved bits and padding are zero. `decode` gives a proper message
/// back from them. Refuses `TooLong` exactly where the length of a TLV passes 65,535 bytes or the message passes 65,535
/// words. After an `Err` nothing has changed.
pub fn encode(message: &Message, into: &mut Vec<u8>) -> Result<(), WriteFault>
    ensures ok { OnOk result ((message_fits message.now ≡ true) × (into.new.items ≡ into.old.items ++ canonical message.now)) }
    ensures again { IsProper message.now → OnOk result (message_in (canonical message.now) ≡ Some message.now) }
    ensures long { IsErrOf result TooLong → message_fits message.now ≡ false }
    ensures err { OnErr result (into.new.items ≡ into.old.items) }
{
    Encoder::new(*into.allocator()).encode(message, into)
}

/// Encodes messages one after the other. The room in which the body of one is written is kept for the next. Contracts see
/// what stands in that room.
#[derive(Debug, Drop)]
pub struct Encoder {
    writer: TlvWriter,
}

impl Model for Encoder {
    ghost use Rattle.fc_wire.specs.Writing.{Writing};

    ghost Value = { Writing };

    ghost view = { λ e. e.writer };
}

impl Encoder {
    /// An encoder that has no room yet, in which nothing is written.
    pub fn new(alloc: Global) -> Encoder
        ensures empty { result ≡ writing [] [] }
    {
        Encoder {
            writer: TlvWriter::new(alloc),
        }
    }

    /// Does what `encode` does, whatever was encoded before.
    pub fn encode(&mut self, message: &Message, into: &mut Vec<u8>) -> Result<(), WriteFault>
        ensures ok { OnOk result ((message_fits message.now ≡ true) × (into.new.items ≡ into.old.items ++ canonical message.now)) }
        ensures again { IsProper message.now → OnOk result (message_in (canonical message.now) ≡ Some message.now) }
        ensures long { IsErrOf result TooLong → message_fits message.now ≡ false }
        ensures err { OnErr result (into.new.items ≡ into.old.items) }
    {
        self.writer.clear();
        match write_body(&mut self.writer, &message.body) {
            Ok(()) => {}
            Err(fault) => return Err(fault),
        }
        let body = self.writer.as_slice();
        if body.len() > MOST_BODY {
            return Err(WriteFault::TooLong);
        }
        append(message, body, into)
    }
}

/// Writes a TLV with a number in it.
pub fn write_number(to: &mut TlvWriter, kind: u16, number: u32) -> Result<(), WriteFault>
    ensures { Pushed result to.old to.new (wrapped kind (plain (u32_bytes number))) }
{
    let begun = to.begin(kind)?;
    to.put(&number.to_be_bytes())?;
    to.end(begun)
}

fn write_selects(to: &mut TlvWriter, selects: &[Select]) -> Result<(), WriteFault>
    ensures { Pushed result to.old to.new (selects_written selects.now) }
{
    for select in selects {
        match select.write_in_place(to) {
            Ok(()) => {}
            Err(fault) => return Err(fault),
        }
    }
    Ok(())
}

// The canonical bytes of a body.
fn write_body(to: &mut TlvWriter, body: &MsgBody) -> Result<(), WriteFault>
    ensures { Pushed result to.old to.new (body_written body.now) }
{
    match body {
        MsgBody::Setup(selects) => write_selects(to, selects.as_slice()),
        MsgBody::SetupResponse(result) => write_number(to, AS_RESULT, *result),
        MsgBody::Teardown(reason) => write_number(to, AS_REASON, *reason),
        MsgBody::Config(selects) => write_selects(to, selects.as_slice()),
        MsgBody::ConfigResponse(selects) => write_selects(to, selects.as_slice()),
        MsgBody::Query(selects) => write_selects(to, selects.as_slice()),
        MsgBody::QueryResponse(selects) => write_selects(to, selects.as_slice()),
        MsgBody::Event(selects) => write_selects(to, selects.as_slice()),
        MsgBody::Heartbeat => Ok(()),
    }
}

// Appends the header of the message, and the body after it. After an `Err`, which is out of memory, nothing has changed.
fn append(message: &Message, body: &[u8], into: &mut Vec<u8>) -> Result<(), WriteFault>
    requires { length body.now ≤ 262116 }
    ensures ok { OnOk result (into.new.items ≡ into.old.items ++ with_body message.now body.now) }
    ensures memory { IsErrOf result TooLong → ⊥ }
    ensures err { OnErr result (into.new.items ≡ into.old.items) }
{
    let header = Header {
        kind: message.body.kind(),
        words: 6,
        source: message.source,
        dest: message.dest,
        corr: message.corr,
        flags: message.flags,
    };
    append_framed(header, body, into)?;
    Ok(())
}

/// Appends a header, with the length of a message that has this body, and the body. After an `Err` nothing has changed.
pub fn append_framed(header: Header, body: &[u8], into: &mut Vec<u8>) -> Result<(), Memory>
    requires { length body.now ≤ 262116 }
    ensures ok { OnOk result (into.new.items ≡ into.old.items ++ framed header body.now) }
    ensures err { OnErr result (into.new.items ≡ into.old.items) }
{
    let header = Header {
        kind: header.kind,
        words: 6 + (body.len() / 4) as u16,
        source: header.source,
        dest: header.dest,
        corr: header.corr,
        flags: header.flags,
    };
    let mut head = [0u8; 24];
    header.put(&mut head);
    let start = into.len();
    into.extend_from_slice(&head)?;
    match into.extend_from_slice(body) {
        Ok(()) => Ok(()),
        Err(_) => {
            into.truncate(start);
            Err(Memory)
        }
    }
}
