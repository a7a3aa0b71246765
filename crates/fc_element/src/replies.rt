// The messages that an element sends.
ghost use Rattle.std.specs.Prelude.{◌≡◌, ◌≤◌, ◌<◌, ◌-◌, ◌+◌, [], ◌∷◌, ◌++◌, slice_get, vec_len, vec_capacity, IfOk, IfSome};
ghost use Rattle.std.specs.List.{AllByRecursion};
ghost use Rattle.fc_msg.specs.Messages.{IsProper, ProperSelects};
ghost use Rattle.fc_msg.specs.declared.message.MsgBody.TheVariants.{QueryResponse};
ghost use Rattle.fc_element.specs.ElementMachine.{answer_to, answer_with, beats_of, heartbeat_of, setup_of};
ghost use Rattle.fc_performing.specs.Sending.{IsSaid, asking, out};

use fc_assoc::Associations;
use fc_base::{CeId, FeId, List, Memory};
use fc_msg::{Message, MsgBody};
use fc_path::Select;
use fc_performing::Out;
use fc_wire::Flags;
use std::alloc::Global;

/// The ID of all control elements (RFC 5810, section 6.1).
const ALL_CES: u32 = 0xffff_fffd;

/// Always acknowledge.
pub const ALWAYS: u8 = 3;

// Flags that ask for this acknowledgement and nothing else.
fn asking(ack: u8) -> Flags
    requires { ack < 4 }
    ensures { result ≡ asking ack }
{
    Flags {
        ack,
        pri: 0,
        em: 0,
        at: false,
        tp: 0,
    }
}

/// The element asks to be associated.
pub fn setup(alloc: Global, id: FeId) -> Message
    ensures exact { result ≡ setup_of id }
    ensures proper { IsProper result }
{
    Message {
        source: id.get(),
        dest: ALL_CES,
        corr: 0,
        flags: asking(ALWAYS),
        body: MsgBody::Setup(List::new(alloc)),
    }
}

/// The answer to a heartbeat.
pub fn answer(message: &Message) -> Message
    ensures exact { result ≡ answer_to message.now }
    ensures proper { IsProper result }
{
    let (from, to, corr) = (message.dest, message.source, message.corr);
    Message {
        source: from,
        dest: to,
        corr,
        flags: asking(0),
        body: MsgBody::Heartbeat,
    }
}

/// The answer to a query, with these selects.
pub fn query_answer(message: &Message, selects: List<Select>) -> Message
    requires proper { IsProper message.now }
    requires selects { ProperSelects 20 selects }
    ensures exact { result ≡ answer_with message.now (QueryResponse selects) }
    ensures proper { IsProper result }
{
    let (from, to, corr) = (message.dest, message.source, message.corr);
    Message {
        source: from,
        dest: to,
        corr,
        flags: asking(0),
        body: MsgBody::QueryResponse(selects),
    }
}

// A heartbeat to a control element.
fn heartbeat(id: FeId, ce: CeId) -> Message
    ensures exact { result ≡ heartbeat_of id ce }
    ensures proper { IsProper result }
{
    Message {
        source: id.get(),
        dest: ce.get(),
        corr: 0,
        flags: asking(0),
        body: MsgBody::Heartbeat,
    }
}

/// A list of one message to a peer.
pub fn one(alloc: Global, peer: u32, message: Message) -> Result<List<Out>, Memory>
    requires { IsProper message }
    ensures sent { IfOk result (λ outs. outs ≡ out peer message ∷ []) }
    ensures proper { IfOk result (λ outs. AllByRecursion IsSaid outs) }
{
    let mut outs = List::new(alloc);
    outs.push(Out { peer, message })?;
    Ok(outs)
}

// The heartbeat to the association at a place, if there is one.
fn beat_at(id: FeId, associations: &Associations, place: usize) -> Option<Out>
    ensures exact { result ≡ slice_get (beats_of id associations.now) place }
    ensures proper { IfSome result IsSaid }
{
    match associations.entry(place) {
        Some(seen) => Some(Out {
            peer: seen.1,
            message: heartbeat(id, seen.0),
        }),
        None => None,
    }
}

/// Appends a heartbeat to each association, by rising ID. The list has room for as many as there can be.
pub fn push_beats(id: FeId, associations: &Associations, outs: &mut Vec<Out>)
    requires { vec_len outs.old + 64 ≤ vec_capacity outs.old }
    ensures sent { outs.new.items ≡ outs.old.items ++ beats_of id associations.now }
    ensures proper { AllByRecursion IsSaid outs.old.items → AllByRecursion IsSaid outs.new.items }
{
    for place in 0..associations.len() {
        match beat_at(id, associations, place) {
            Some(out) => outs.push_reserved(out),
            None => return,
        }
    }
}
