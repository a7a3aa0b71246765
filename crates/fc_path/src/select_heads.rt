// LFBselects and operations lent up to what they hold, without memory. Who wants that reads it on from there.
ghost use Rattle.std.specs.Prelude.{◌≡◌, length, Ok, Err, if◌then◌else◌, ◌==◌};
ghost use Rattle.std.specs.Result.{IsErrOf};
ghost use Rattle.fc_path.specs.SelectHeads.{oper_head_at, operation_head_at, select_head_at};
ghost use Rattle.fc_path.specs.Stray.{Gives};
ghost use Rattle.fc_path.specs.declared.fault.PathFault.TheVariants.{Memory, WrongBody};

use crate::kinds::{Operation, holds_selects, operation_for};
use crate::outcomes::read_only_outcome;
use crate::stray::{is_known_in_select, misplaced};
use crate::{OperKind, PathFault};
use fc_base::Code;
use fc_wire::{SELECT, Tlv, Tlvs, WireFault, read_u32};

/// An LFBselect (RFC 5810, section 7.1.5) up to its operations, which are lent from the bytes of the message.
#[derive(Debug, Drop)]
pub struct SelectHead<'a> {
    /// The class of the LFB.
    pub class: u32,
    /// The instance of the class.
    pub instance: u32,
    /// The TLVs that stand behind the instance, of which none is read yet: the operations, of which there is to be at least
    /// one.
    pub opers: Tlvs<'a>,
    /// Where the LFBselect ends with its padding, as a place in the message: the place of an operation that is missing.
    pub end: usize,
}

/// An operation (RFC 5810, section 7.1.6) up to the PATH-DATA that it holds, which are lent from the bytes of the message.
#[derive(Debug, Drop)]
pub enum OperHead<'a> {
    /// An operation on the places of PATH-DATA.
    Paths {
        /// Which operation.
        kind: OperKind,
        /// The TLVs that it holds, of which none is read yet: the PATH-DATA, of which there is to be at least one.
        paths: Tlvs<'a>,
        /// Where it ends with its padding, as a place in the message: the place of a PATH-DATA that is missing.
        end: usize,
    },
    /// The end of a transaction's first phase.
    Commit,
    /// The end of a transaction.
    Trcomp,
    /// How the first phase ended.
    CommitResponse(Code),
}

impl<'a> SelectHead<'a> {
    /// The class and the instance of the LFBselect that a TLV of a message of a type is, with what is left for its
    /// operations. Else the first rule in reading order that type and length break, with its place, as this profile orders
    /// them: `WrongBody` or `UnknownTlv` where no LFBselect stands or the message holds none, and `TlvShort`. It takes no
    /// memory, and so never wants any.
    #[inline(always)]
    pub fn read(message: u8, tlv: &Tlv<'a>) -> Result<SelectHead<'a>, PathFault>
        ensures exact { Gives result (select_head_at message tlv.now) }
        ensures sure { IsErrOf result Memory → ⊥ }
    {
        if tlv.kind != SELECT || !holds_selects(message) {
            return Err(misplaced(tlv));
        }
        if tlv.body.len() < 8 {
            return Err(PathFault::Wire(WireFault::TlvShort { place: tlv.place }));
        }
        let padded = tlv.padded();
        let (_, inner) = padded.split_at(8);
        let place = tlv.place;
        Ok(SelectHead {
            class: read_u32(padded, 0),
            instance: read_u32(padded, 4),
            opers: Tlvs::over(inner, place + 12),
            end: place + 4 + padded.len(),
        })
    }
}

// That an operation holds nothing.
#[inline(always)]
fn holds_nothing(tlv: &Tlv) -> Result<(), PathFault>
    ensures exact { Gives result (if length tlv.now.body == 0 then Ok tt else Err (WrongBody tlv.now.place)) }
    ensures sure { IsErrOf result Memory → ⊥ }
{
    if tlv.body.is_empty() {
        Ok(())
    } else {
        Err(PathFault::WrongBody { place: tlv.place })
    }
}

// A TLV that is this operation.
#[inline(always)]
fn operation_head<'a>(operation: Operation, tlv: &Tlv<'a>) -> Result<OperHead<'a>, PathFault>
    ensures exact { Gives result (operation_head_at operation tlv.now) }
    ensures sure { IsErrOf result Memory → ⊥ }
{
    let padded = tlv.padded();
    let place = tlv.place + 4;
    let end = place + padded.len();
    let held = Tlvs::over(padded, place);
    match operation {
        Operation::Paths(kind) => Ok(OperHead::Paths {
            kind,
            paths: held,
            end,
        }),
        Operation::Commit => {
            holds_nothing(tlv)?;
            Ok(OperHead::Commit)
        }
        Operation::Trcomp => {
            holds_nothing(tlv)?;
            Ok(OperHead::Trcomp)
        }
        Operation::CommitResponse => {
            let code = read_only_outcome(held, end)?;
            Ok(OperHead::CommitResponse(code))
        }
    }
}

impl<'a> OperHead<'a> {
    /// Which operation a TLV inside an LFBselect of a message of a type is, with what is left for the PATH-DATA that it
    /// holds. Else the first rule in reading order that its type, and the value of one without PATH-DATA, break, with its
    /// place, as this profile orders them: `WrongBody` or `UnknownTlv` where no operation of such a message stands,
    /// `WrongBody` where a COMMIT or TRCOMP is not empty, and the faults of the one RESULT of a COMMIT-RESPONSE. It takes no
    /// memory, and so never wants any.
    #[inline(always)]
    pub fn read(message: u8, tlv: &Tlv<'a>) -> Result<OperHead<'a>, PathFault>
        ensures exact { Gives result (oper_head_at message tlv.now) }
        ensures sure { IsErrOf result Memory → ⊥ }
    {
        let place = tlv.place;
        match operation_for(message, tlv.kind) {
            Some(operation) => operation_head(operation, tlv),
            None => {
                if is_known_in_select(tlv.kind) {
                    Err(PathFault::WrongBody { place })
                } else {
                    Err(PathFault::UnknownTlv { place })
                }
            }
        }
    }
}
