// The bodies of PATH-DATA, lent without memory: a leaf, or the first of the PATH-DATA that they hold.
ghost use Rattle.std.specs.Prelude.{◌≡◌, Result};
ghost use Rattle.std.specs.Result.{IsErrOf};
ghost use Rattle.fc_wire.specs.Tlvs.{TlvItem};
ghost use Rattle.fc_path.specs.BodyHeads.{Holds, body_held, leaf_held};
ghost use Rattle.fc_path.specs.Reading.{body_in, leaf_at};
ghost use Rattle.fc_path.specs.declared.fault.PathFault.{PathFault as Fault};
ghost use Rattle.fc_path.specs.declared.fault.PathFault.TheVariants.{Memory};
ghost use Rattle.fc_path.specs.declared.path.PathData.{PathData};

use crate::outcomes::read_outcome;
use crate::stray::misplaced;
use crate::{OperKind, PathFault};
use fc_base::Code;
use fc_wire::{FULL_DATA, Ilvs, PATH_DATA, RESULT, SPARSE_DATA, Tlv, Tlvs};

/// The body of a PATH-DATA that holds no others (RFC 5810, section 7.1), lent from the bytes of the message. It is what the
/// [`Body`](crate::Body) of the same name owns.
#[derive(Debug, Drop)]
pub enum LeafRef<'a> {
    /// Nothing.
    Nothing,
    /// A whole value (FULLDATA), without padding.
    Full(&'a [u8]),
    /// Parts of a value (SPARSEDATA), of which none is read yet.
    Sparse(Ilvs<'a>),
    /// How an operation ended (RESULT).
    Outcome(Code),
}

/// The body of a PATH-DATA (RFC 5810, section 7.1), lent from the bytes of the message.
#[derive(Debug, Drop)]
pub enum BodyRef<'a> {
    /// A body that holds no PATH-DATA, and the TLVs behind it, of which there is to be none.
    Leaf(LeafRef<'a>, Tlvs<'a>),
    /// The first of the PATH-DATA that the body holds, and the TLVs behind it, each of which is to be one too.
    Nested(Tlv<'a>, Tlvs<'a>),
}

impl<'a> LeafRef<'a> {
    // The body that a TLV other than a PATH-DATA is, in an operation.
    #[inline(always)]
    fn read(kind: OperKind, tlv: &Tlv<'a>) -> Result<LeafRef<'a>, PathFault>
        ensures exact { Holds leaf_held result (leaf_at kind tlv.now) }
        ensures sure { IsErrOf result Memory → ⊥ }
    {
        if tlv.kind == FULL_DATA && kind.takes_full() {
            return Ok(LeafRef::Full(tlv.body));
        }
        if tlv.kind == SPARSE_DATA && kind.takes_sparse() {
            return Ok(LeafRef::Sparse(Ilvs::over(tlv.padded(), tlv.place + 4)));
        }
        if tlv.kind == RESULT && kind.takes_outcome() {
            let code = read_outcome(tlv)?;
            return Ok(LeafRef::Outcome(code));
        }
        Err(misplaced(tlv))
    }
}

impl<'a> BodyRef<'a> {
    /// The body of a PATH-DATA of an operation, which stands in TLVs with an end: those that
    /// [`PathHead`](crate::PathHead) lends. Else the first rule in reading order that the first of them breaks, with its
    /// place, as this profile orders them: `WrongBody` at the end where the operation wants a body and none stands there,
    /// `TlvShort` and `TlvPast`, `WrongBody` or `UnknownTlv` where the operation takes no such body, and `WrongBody` where a
    /// RESULT has another length than four. It takes no memory, and so never wants any.
    #[inline(always)]
    pub fn read(kind: OperKind, mut tlvs: Tlvs<'a>, end: usize) -> Result<BodyRef<'a>, PathFault>
        ensures exact { (one : TlvItem → Result PathData Fault) → Holds (body_held one) result (body_in kind one end tlvs.entry.items tlvs.entry.fault) }
        ensures sure { IsErrOf result Memory → ⊥ }
    {
        match tlvs.next() {
            None => {
                if kind.takes_nothing() {
                    Ok(BodyRef::Leaf(LeafRef::Nothing, tlvs))
                } else {
                    Err(PathFault::WrongBody { place: end })
                }
            }
            Some(Err(fault)) => Err(PathFault::Wire(fault)),
            Some(Ok(tlv)) => {
                if tlv.kind == PATH_DATA {
                    return Ok(BodyRef::Nested(tlv, tlvs));
                }
                let leaf = LeafRef::read(kind, &tlv)?;
                Ok(BodyRef::Leaf(leaf, tlvs))
            }
        }
    }
}
