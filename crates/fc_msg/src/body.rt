// Reading the LFBselects of a message, with the first fault in reading order.
ghost use Rattle.std.specs.Prelude.{◌≡◌};
ghost use Rattle.fc_path.specs.Stray.{Gives};
ghost use Rattle.fc_path.specs.Reading.{each_in, select_at, some_in};
ghost use Rattle.fc_msg.specs.Heads.{with_selects};

use crate::heads::BodyHead;
use crate::message::{MsgBody, SETUP};
use fc_base::List;
use fc_path::{PathFault, Select};
use fc_wire::Tlvs;
use std::alloc::Global;

// The LFBselects of a body.
fn read_selects(alloc: Global, message: u8, mut tlvs: Tlvs) -> Result<List<Select>, PathFault>
    ensures { Gives result (each_in (select_at message) tlvs.entry.items tlvs.entry.fault) }
{
    let mut selects = List::new(alloc);
    'items: while let Some(next) = tlvs.next() {
        match next {
            Err(fault) => return Err(PathFault::Wire(fault)),
            Ok(tlv) => {
                let select = Select::read(alloc, &tlv, message)?;
                selects.push(select)?;
            }
        }
    }
    Ok(selects)
}

// The same, of which there is at least one before the end.
fn read_some_selects(
    alloc: Global,
    message: u8,
    mut tlvs: Tlvs,
    end: usize,
) -> Result<List<Select>, PathFault>
    ensures { Gives result (some_in (select_at message) end tlvs.entry.items tlvs.entry.fault) }
{
    let mut selects = List::new(alloc);
    'items: while let Some(next) = tlvs.next() {
        match next {
            Err(fault) => return Err(PathFault::Wire(fault)),
            Ok(tlv) => {
                let select = Select::read(alloc, &tlv, message)?;
                selects.push(select)?;
            }
        }
    }
    if selects.is_empty() {
        return Err(PathFault::WrongBody { place: end });
    }
    Ok(selects)
}

/// The body of this head, with LFBselects of its own, or the first rule that these break.
pub fn read_body(alloc: Global, head: BodyHead) -> Result<MsgBody, PathFault>
    ensures { Gives result (with_selects head.entry) }
{
    match head {
        BodyHead::Heartbeat => Ok(MsgBody::Heartbeat),
        BodyHead::SetupResponse(result) => Ok(MsgBody::SetupResponse(result)),
        BodyHead::Teardown(reason) => Ok(MsgBody::Teardown(reason)),
        BodyHead::Setup(selects) => {
            let selects = read_selects(alloc, SETUP, selects)?;
            Ok(MsgBody::Setup(selects))
        }
        BodyHead::Selects { kind, selects, end } => {
            let selects = read_some_selects(alloc, kind, selects, end)?;
            Ok(MsgBody::holding(kind, selects))
        }
    }
}
