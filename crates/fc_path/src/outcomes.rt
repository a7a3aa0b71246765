// The codes of RESULTs.
ghost use Rattle.std.specs.Prelude.{◌≡◌};
ghost use Rattle.std.specs.Result.{IsErrOf};
ghost use Rattle.fc_wire.specs.Types as types;
ghost use Rattle.fc_path.specs.Reading.{outcome_at, single};
ghost use Rattle.fc_path.specs.Stray.{Gives};
ghost use Rattle.fc_path.specs.declared.fault.PathFault.TheVariants.{Memory};

use crate::PathFault;
use crate::stray::{misplaced, no_more};
use fc_base::Code;
use fc_wire::{RESULT, Tlv, Tlvs};

/// The code of a RESULT, whose other three bytes are free.
#[inline(always)]
pub fn read_outcome(tlv: &Tlv) -> Result<Code, PathFault>
    ensures exact { Gives result (outcome_at tlv.now) }
    ensures sure { IsErrOf result Memory → ⊥ }
{
    if tlv.body.len() != 4 {
        return Err(PathFault::WrongBody { place: tlv.place });
    }
    Ok(Code(tlv.body[0]))
}

/// The only RESULT that a COMMIT-RESPONSE holds, whose end is the place of what is missing.
pub fn read_only_outcome(mut tlvs: Tlvs, end: usize) -> Result<Code, PathFault>
    ensures exact { Gives result (single types.outcome outcome_at end tlvs.entry.items tlvs.entry.fault) }
    ensures sure { IsErrOf result Memory → ⊥ }
{
    match tlvs.next() {
        None => Err(PathFault::WrongBody { place: end }),
        Some(Err(fault)) => Err(PathFault::Wire(fault)),
        Some(Ok(tlv)) => {
            if tlv.kind != RESULT {
                return Err(misplaced(&tlv));
            }
            let code = read_outcome(&tlv)?;
            no_more(tlvs)?;
            Ok(code)
        }
    }
}
