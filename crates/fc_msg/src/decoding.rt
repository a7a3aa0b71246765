// Bytes to messages.
ghost use Rattle.std.specs.Prelude.{◌≡◌, ◌*◌, ◌≤◌, length, take, slice_index, Ok, IfOk, IfErr, Some, None};
ghost use Rattle.fc_wire.specs.Bytes.{u16_at};
ghost use Rattle.fc_wire.specs.Header.{IsHeader};
ghost use Rattle.fc_wire.specs.declared.header.Header.{Header};
ghost use Rattle.fc_msg.specs.declared.message.Message.{Message};
ghost use Rattle.fc_msg.specs.Decoding.{Gives, IsWithin, Refuses};
ghost use Rattle.fc_msg.specs.Faults.{first_broken, first_of, header_rules, type_rules, head_fault, fault_of};
ghost use Rattle.fc_msg.specs.Messages.{IsProper, Spells};
ghost use Rattle.fc_msg.specs.Reading.{Tells, message_in};

use crate::body::read_body;
use crate::fault::{MsgFault, Reason, Refusal};
use crate::heads::FrameHead;
use crate::message::{
    CONFIG, CONFIG_RESPONSE, EVENT, HEARTBEAT, Message, QUERY, QUERY_RESPONSE, REDIRECT, SETUP,
    SETUP_RESPONSE, TEARDOWN,
};
use fc_wire::Header;
use std::alloc::Global;

/// The message that the bytes spell, or the first rule that they break, with its place.
pub fn decode(alloc: Global, bytes: &[u8]) -> Result<Message, MsgFault>
    ensures found { IfOk result (λ m. Spells m bytes.now) }
    ensures proper { IfOk result (λ m. IsProper m) }
    ensures only { (m : Message) → Spells m bytes.now → Gives result (Ok m) }
    ensures exact { Tells (message_in bytes.now) result }
    ensures accepted { IfOk result (λ _. fault_of bytes.now ≡ None) }
    ensures refused { IfErr result (λ fault. Refuses (fault_of bytes.now) fault) }
    ensures within { IfErr result (λ fault. IsWithin (length bytes.now) fault) }
{
    message_of(alloc, bytes)
}

// The message in bytes.
fn message_of(alloc: Global, bytes: &[u8]) -> Result<Message, MsgFault>
    ensures found { IfOk result (λ m. message_in bytes.now ≡ Some m) }
    ensures refused { IfErr result (λ fault. Refuses (fault_of bytes.now) fault) }
{
    let head = FrameHead::read(bytes)?;
    let body = match read_body(alloc, head.body) {
        Ok(body) => body,
        Err(fault) => return Err(MsgFault::from(fault)),
    };
    Ok(Message {
        source: head.header.source,
        dest: head.header.dest,
        corr: head.header.corr,
        flags: head.header.flags,
        body,
    })
}

/// The header of bytes that are as many as it says, of a type that is taken, or the first rule of these that they break.
pub fn headed(bytes: &[u8]) -> Result<Header, Refusal>
    ensures header { IfOk result (λ h. IsHeader h (take 24 bytes.now)) }
    ensures kind { IfOk result (λ h. h.kind ≡ slice_index bytes.now 1) }
    ensures size { IfOk result (λ h. length bytes.now ≡ 4 * h.words) }
    ensures some { IfOk result (λ h. 6 ≤ h.words) }
    ensures accepted { IfOk result (λ _. head_fault bytes.now ≡ None) }
    ensures refused { IfErr result (λ refusal. head_fault bytes.now ≡ Some refusal) }
    ensures told { IfErr result (λ refusal. fault_of bytes.now ≡ Some refusal) }
    ensures within { IfErr result (λ refusal. refusal.place ≤ length bytes.now) }
{
    let header = match framed(bytes) {
        Ok(header) => header,
        Err(refusal) => return Err(refusal),
    };
    match typed(header.kind) {
        Ok(()) => Ok(header),
        Err(refusal) => Err(refusal),
    }
}

// The header of bytes that are as many as it says.
fn framed(bytes: &[u8]) -> Result<Header, Refusal>
    ensures header { IfOk result (λ h. IsHeader h (take 24 bytes.now)) }
    ensures words { IfOk result (λ h. h.words ≡ u16_at bytes.now 2) }
    ensures kind { IfOk result (λ h. h.kind ≡ slice_index bytes.now 1) }
    ensures size { IfOk result (λ h. length bytes.now ≡ 4 * h.words) }
    ensures some { IfOk result (λ h. 6 ≤ h.words) }
    ensures accepted { IfOk result (λ _. first_broken (header_rules bytes.now) ≡ None) }
    ensures refused { IfErr result (λ refusal. first_broken (header_rules bytes.now) ≡ Some refusal) }
{
    if bytes.len() < 24 {
        return Err(Refusal::at(0, Reason::Truncated));
    }
    let header = match Header::read(bytes) {
        Ok(header) => header,
        Err(fault) => return Err(Refusal::of(fault)),
    };
    let size = 4 * usize::from(header.words);
    if bytes.len() < size {
        return Err(Refusal::at(0, Reason::Truncated));
    }
    if bytes.len() > size {
        return Err(Refusal::at(size, Reason::Trailing));
    }
    Ok(header)
}

// Whether messages of a type are taken.
fn typed(kind: u8) -> Result<(), Refusal>
    ensures accepted { IfOk result (λ _. first_broken (type_rules kind) ≡ None) }
    ensures refused { IfErr result (λ refusal. first_broken (type_rules kind) ≡ Some refusal) }
{
    match kind {
        SETUP
        | TEARDOWN
        | CONFIG
        | QUERY
        | EVENT
        | HEARTBEAT
        | SETUP_RESPONSE
        | CONFIG_RESPONSE
        | QUERY_RESPONSE => Ok(()),
        REDIRECT => Err(Refusal::at(1, Reason::NotBuilt)),
        _ => Err(Refusal::at(1, Reason::UnknownType)),
    }
}
