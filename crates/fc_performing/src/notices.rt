// The notices that an element sends.
ghost use Rattle.std.specs.Prelude.{◌≡◌, ◌++◌, ◌<◌, IfOk, OnOk};
ghost use Rattle.std.specs.List.{AllByRecursion};
ghost use Rattle.fc_msg.specs.Messages.{IsProper, ProperSelects, message_fits};
ghost use Rattle.fc_performing.specs.Notices as spec;
ghost use Rattle.fc_performing.specs.Sending.{IsSaid, event_from};

use crate::{Out, Route};
use fc_base::{List, Memory};
use fc_events::Notice;
use fc_msg::{Message, MsgBody, fits};
use fc_path::Select;
use fc_types::Library;
use fc_wire::Flags;
use std::alloc::Global;

// A message to a control element that tells of events.
fn event_message(from: u32, to: u32, selects: List<Select>) -> Message
    requires { ProperSelects 5 selects }
    ensures exact { result ≡ event_from from to selects }
    ensures proper { IsProper result }
{
    Message {
        source: from,
        dest: to,
        corr: 0,
        flags: Flags {
            ack: 0,
            pri: 0,
            em: 0,
            at: false,
            tp: 0,
        },
        body: MsgBody::Event(selects),
    }
}

// The message that tells a notice.
fn notice_message(
    alloc: Global,
    library: &Library,
    route: Route,
    notice: &Notice,
) -> Result<Message, Memory>
    ensures exact { IfOk result (λ message. message ≡ spec.notice_message library.now route notice.now) }
    ensures proper { IfOk result (λ message. IsProper message) }
{
    let select = notice.select(alloc, library)?;
    let mut selects = List::new(alloc);
    selects.push(select)?;
    Ok(event_message(route.from, route.to, selects))
}

// Appends a notice, unless a length in it passes its field.
fn push_notice(
    outs: &mut List<Out>,
    library: &Library,
    route: Route,
    notice: &Notice,
) -> Result<(), Memory>
    ensures sent { OnOk result (outs.new ≡ outs.old ++ spec.notice_out library.now route notice.now) }
    ensures proper { OnOk result (AllByRecursion IsSaid outs.old → AllByRecursion IsSaid outs.new) }
{
    let message = notice_message(outs.alloc(), library, route, notice)?;
    if fits(&message) {
        outs.push(Out {
            peer: route.peer,
            message,
        })?;
    }
    Ok(())
}

/// Appends notices, in their order, but for those in which a length passes its field.
pub fn push_notices(
    outs: &mut List<Out>,
    library: &Library,
    route: Route,
    notices: &[Notice],
) -> Result<(), Memory>
    ensures sent { OnOk result (outs.new ≡ outs.old ++ spec.notice_outs library.now route notices.now) }
    ensures proper { OnOk result (AllByRecursion IsSaid outs.old → AllByRecursion IsSaid outs.new) }
{
    for notice in notices {
        push_notice(outs, library, route, notice)?;
    }
    Ok(())
}
