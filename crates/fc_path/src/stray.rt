// TLVs that may not stand where they do.
ghost use Rattle.std.specs.Prelude.{◌≡◌};
ghost use Rattle.std.specs.Result.{IsErrOf};
ghost use Rattle.fc_path.specs.Kinds.{is_known as known, in_select};
ghost use Rattle.fc_path.specs.Stray.{Gives, a_path, misplaced as is_misplaced, beside as is_beside, trailing as is_trailing, shut};
ghost use Rattle.fc_path.specs.declared.fault.PathFault.TheVariants.{Memory};

use crate::PathFault;
use fc_wire::{PATH_DATA, SELECT, Tlv, Tlvs};

/// Whether a type is in a table, where no operation may stand.
#[inline(always)]
pub fn is_known(kind: u16) -> bool
    ensures { result ≡ known kind }
{
    kind == 0x0001
        || kind == 0x0010
        || kind == 0x0011
        || kind == SELECT
        || (0x0110 <= kind && kind <= 0x0116)
}

/// Whether a type is in a table, inside an LFBselect.
#[inline(always)]
pub fn is_known_in_select(kind: u16) -> bool
    ensures { result ≡ in_select kind }
{
    (1 <= kind && kind <= 0x000e) || is_known(kind)
}

/// What is wrong with a TLV that may not stand here.
pub fn misplaced(tlv: &Tlv) -> PathFault
    ensures { result ≡ is_misplaced tlv.now }
{
    let place = tlv.place;
    if is_known(tlv.kind) {
        PathFault::WrongBody { place }
    } else {
        PathFault::UnknownTlv { place }
    }
}

/// What is wrong with a TLV beside the body of a PATH-DATA.
pub fn beside(tlv: &Tlv) -> PathFault
    ensures { result ≡ is_beside tlv.now }
{
    let place = tlv.place;
    if is_known(tlv.kind) {
        PathFault::TwoBodies { place }
    } else {
        PathFault::UnknownTlv { place }
    }
}

/// What is wrong with a TLV behind the only one that may stand here.
pub fn trailing(tlv: &Tlv) -> PathFault
    ensures { result ≡ is_trailing tlv.now }
{
    let place = tlv.place;
    if is_known(tlv.kind) {
        PathFault::Trailing { place }
    } else {
        PathFault::UnknownTlv { place }
    }
}

/// That a TLV in an operation is a PATH-DATA. Else `WrongBody`, or `UnknownTlv` where its type is in no table, at its place.
#[inline(always)]
pub fn must_be_path(tlv: &Tlv) -> Result<(), PathFault>
    ensures exact { Gives result (a_path is_misplaced tlv.now) }
    ensures sure { IsErrOf result Memory → ⊥ }
{
    if tlv.kind == PATH_DATA {
        Ok(())
    } else {
        Err(misplaced(tlv))
    }
}

/// That a TLV behind a PATH-DATA in the body of another one is one too. Else `TwoBodies`, or `UnknownTlv` where its type is
/// in no table, at its place.
#[inline(always)]
pub fn must_be_nested(tlv: &Tlv) -> Result<(), PathFault>
    ensures exact { Gives result (a_path is_beside tlv.now) }
    ensures sure { IsErrOf result Memory → ⊥ }
{
    if tlv.kind == PATH_DATA {
        Ok(())
    } else {
        Err(beside(tlv))
    }
}

/// That nothing stands behind the body of a PATH-DATA that is no PATH-DATA. Else `TlvShort` or `TlvPast`, `TwoBodies`, or
/// `UnknownTlv` where the type of what stands there is in no table.
pub fn no_more_bodies(mut tlvs: Tlvs) -> Result<(), PathFault>
    ensures exact { Gives result (shut is_beside tlvs.entry.items tlvs.entry.fault) }
    ensures sure { IsErrOf result Memory → ⊥ }
{
    match tlvs.next() {
        None => Ok(()),
        Some(Err(fault)) => Err(PathFault::Wire(fault)),
        Some(Ok(tlv)) => Err(beside(&tlv)),
    }
}

/// That nothing stands behind the only TLV that may stand here.
pub fn no_more(mut tlvs: Tlvs) -> Result<(), PathFault>
    ensures exact { Gives result (shut is_trailing tlvs.entry.items tlvs.entry.fault) }
    ensures sure { IsErrOf result Memory → ⊥ }
{
    match tlvs.next() {
        None => Ok(()),
        Some(Err(fault)) => Err(PathFault::Wire(fault)),
        Some(Ok(tlv)) => Err(trailing(&tlv)),
    }
}
