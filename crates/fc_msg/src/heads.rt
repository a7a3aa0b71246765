// Messages lent up to the LFBselects that they hold, without memory. Who wants these reads them on from there.
ghost use Rattle.std.specs.Prelude.{◌≡◌, IfErr, IfOk, take};
ghost use Rattle.std.specs.Result.{IsErrOf};
ghost use Rattle.fc_wire.specs.Header.{IsHeader};
ghost use Rattle.fc_path.specs.Reading.{single};
ghost use Rattle.fc_path.specs.Stray.{Gives};
ghost use Rattle.fc_path.specs.declared.fault.PathFault.TheVariants.{Memory};
ghost use Rattle.fc_msg.specs.Bodies.{number_at};
ghost use Rattle.fc_msg.specs.Decoding.{Refuses};
ghost use Rattle.fc_msg.specs.Faults.{fault_in, fault_of};
ghost use Rattle.fc_msg.specs.Heads.{body_head_at, message_held, with_selects};
ghost use Rattle.fc_msg.specs.Reading.{message_in};
ghost use Rattle.fc_msg.specs.declared.fault.MsgFault.TheVariants.{Memory as no_memory};

use crate::decoding::headed;
use crate::fault::MsgFault;
use crate::message::{AS_REASON, AS_RESULT, HEARTBEAT, SETUP, SETUP_RESPONSE, TEARDOWN};
use fc_path::{PathFault, misplaced, no_more};
use fc_wire::{Header, Tlv, Tlvs, read_u32};

/// The body of a message (RFC 5810, section 7) up to the LFBselects that it holds, which are lent from the bytes of the
/// message.
#[derive(Debug, Drop)]
pub enum BodyHead<'a> {
    /// Of a Heartbeat, which is all of it.
    Heartbeat,
    /// Of an AssociationSetupResponse: its result, which is all of it.
    SetupResponse(u32),
    /// Of an AssociationTeardown: its reason, which is all of it.
    Teardown(u32),
    /// Of an AssociationSetup: its TLVs, of which none is read yet. They are LFBselects, of which there may be none.
    Setup(Tlvs<'a>),
    /// Of a message of any other type.
    Selects {
        /// The type of the message.
        kind: u8,
        /// Its TLVs, of which none is read yet: the LFBselects, of which there is to be at least one.
        selects: Tlvs<'a>,
        /// Where the message ends: the place of an LFBselect that is missing.
        end: usize,
    },
}

/// A message (RFC 5810, sections 6.1 and 7) up to the LFBselects that it holds, which are lent from its bytes.
#[derive(Debug, Drop)]
pub struct FrameHead<'a> {
    /// The header.
    pub header: Header,
    /// The head of the body.
    pub body: BodyHead<'a>,
}

// The number of an ASResult or ASTreason.
fn read_number(tlv: &Tlv) -> Result<u32, PathFault>
    ensures exact { Gives result (number_at tlv.now) }
    ensures sure { IsErrOf result Memory → ⊥ }
{
    if tlv.body.len() != 4 {
        return Err(PathFault::WrongBody { place: tlv.place });
    }
    Ok(read_u32(tlv.body, 0))
}

// The number in the only TLV of a body, which has this type. What is missing has its place at the end.
fn read_only_number(kind: u16, mut tlvs: Tlvs, end: usize) -> Result<u32, PathFault>
    ensures exact { Gives result (single kind number_at end tlvs.entry.items tlvs.entry.fault) }
    ensures sure { IsErrOf result Memory → ⊥ }
{
    match tlvs.next() {
        None => Err(PathFault::WrongBody { place: end }),
        Some(Err(fault)) => Err(PathFault::Wire(fault)),
        Some(Ok(tlv)) => {
            if tlv.kind != kind {
                return Err(misplaced(&tlv));
            }
            let number = read_number(&tlv)?;
            no_more(tlvs)?;
            Ok(number)
        }
    }
}

impl<'a> BodyHead<'a> {
    /// The head of the body of a message of a type, whose TLVs go on to the end of the message. Else the first rule in
    /// reading order that a body without LFBselects breaks, with its place, as this profile orders them: of a Heartbeat that
    /// anything stands there, and of an AssociationSetupResponse or AssociationTeardown the faults of the one TLV with its
    /// number. It takes no memory, and so never wants any.
    #[inline(always)]
    pub fn read(kind: u8, tlvs: Tlvs<'a>, end: usize) -> Result<BodyHead<'a>, PathFault>
        ensures exact { Gives result (body_head_at kind end tlvs.entry.items tlvs.entry.fault) }
        ensures sure { IsErrOf result Memory → ⊥ }
    {
        match kind {
            HEARTBEAT => {
                no_more(tlvs)?;
                Ok(BodyHead::Heartbeat)
            }
            SETUP_RESPONSE => {
                let result = read_only_number(AS_RESULT, tlvs, end)?;
                Ok(BodyHead::SetupResponse(result))
            }
            TEARDOWN => {
                let reason = read_only_number(AS_REASON, tlvs, end)?;
                Ok(BodyHead::Teardown(reason))
            }
            SETUP => Ok(BodyHead::Setup(tlvs)),
            _ => Ok(BodyHead::Selects {
                kind,
                selects: tlvs,
                end,
            }),
        }
    }
}

impl<'a> FrameHead<'a> {
    /// The header of the message that bytes spell and the head of its body: with its LFBselects these are the message, and
    /// the first rule that the bytes break is then the first that these break. Else the first rule that the header, the
    /// number of bytes, the type, and a body without LFBselects break, with its place in bytes from the start of them, as
    /// `decode` tells it. It takes no memory, and so never wants any.
    pub fn read(bytes: &'a [u8]) -> Result<FrameHead<'a>, MsgFault>
        ensures header { IfOk result (λ head. IsHeader head.header (take 24 bytes.now)) }
        ensures message { IfOk result (λ head. message_in bytes.now ≡ message_held head) }
        ensures broken { IfOk result (λ head. fault_of bytes.now ≡ fault_in (with_selects head.body)) }
        ensures refused { IfErr result (λ fault. Refuses (fault_of bytes.now) fault) }
        ensures sure { IsErrOf result no_memory → ⊥ }
    {
        let header = match headed(bytes) {
            Ok(header) => header,
            Err(refusal) => return Err(MsgFault::At(refusal)),
        };
        let tlvs = Tlvs::over(&bytes[24..], 24);
        match BodyHead::read(header.kind, tlvs, bytes.len()) {
            Ok(body) => Ok(FrameHead { header, body }),
            Err(fault) => Err(MsgFault::from(fault)),
        }
    }
}
