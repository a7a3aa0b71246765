// Plain changes.
ghost use Rattle.std.specs.Prelude.{◌≡◌, ◌++◌, [], IfOk, OnOk, OnErr, false, true};
ghost use Rattle.std.specs.List.{AllByRecursion, list_all};
ghost use Rattle.fc_events.specs.Reports.{reports_but};
ghost use Rattle.fc_exec.specs.Operations.{executed};
ghost use Rattle.fc_msg.specs.Messages.{IsProper};
ghost use Rattle.fc_msg.specs.declared.message.MsgBody.TheVariants.{Config};
ghost use Rattle.fc_path.specs.Results.{results_fit};
ghost use Rattle.fc_reply.specs.Replies as replies;
ghost use Rattle.fc_store.specs.Stores.{IsWhole, mark_of, over_mark, with_mark};
ghost use Rattle.fc_performing.specs.Beside.{IsBeside};
ghost use Rattle.fc_performing.specs.Notices.{notice_outs};
ghost use Rattle.fc_performing.specs.Performing as spec;
ghost use Rattle.fc_performing.specs.Sending.{IsAnswer, IsSaid, responses as responses_of};

use crate::Route;
use crate::answering::{Answered, responses};
use crate::notices::push_notices;
use fc_base::{Code, Duplicate, Memory};
use fc_events::Subscriptions;
use fc_exec::exec;
use fc_modes::Mode;
use fc_msg::Message;
use fc_path::{Oper, OperKind, Select};
use fc_store::{Store, StoreMark};
use std::alloc::Global;

// The execution mode of a number other than 0.
fn mode_of(em: u8) -> Mode
    ensures { result ≡ spec.mode_of em }
{
    match em {
        1 => Mode::AllOrNone,
        2 => Mode::UntilFailure,
        _ => Mode::Continue,
    }
}

// The execution mode of a Config that has one.
fn mode_in(request: &Message) -> Mode
    ensures { result ≡ spec.mode_of request.now.flags.em }
{
    mode_of(request.flags.em)
}

fn is_set_prop(kind: OperKind) -> bool
    ensures { result ≡ spec.is_set_prop kind }
{
    match kind {
        OperKind::SetProp => true,
        _ => false,
    }
}

fn sets_props(oper: &Oper) -> bool
    ensures { result ≡ spec.sets_props oper.now }
{
    match oper {
        Oper::Paths(kind, _) => is_set_prop(*kind),
        Oper::Commit => false,
        Oper::Trcomp => false,
        Oper::CommitResponse(_) => false,
    }
}

// Whether all operations of a select are SET-PROP.
fn selects_props(select: &Select) -> bool
    ensures { result ≡ list_all spec.sets_props select.now.opers }
{
    select.opers.as_slice().iter().all(|oper| sets_props(oper))
}

/// Whether all operations of selects are SET-PROP.
pub fn are_props(selects: &[Select]) -> bool
    ensures { result ≡ spec.are_props selects.now }
{
    selects.iter().all(|select| selects_props(select))
}

/// Evaluates each event outside some instances, and gives the response to a Config whose operations have these codes, and then the notices.
/// After an `Err` what is registered may differ.
pub fn tell(
    alloc: Global,
    store: &Store,
    held: &[(u32, u32)],
    subscriptions: &mut Subscriptions,
    route: Route,
    request: &Message,
    selects: &[Select],
    codes: &[Code],
) -> Result<Answered, Memory>
    requires proper { IsProper request.now }
    requires body { request.now.body ≡ Config selects.now }
    requires fits { results_fit selects.now ≡ true }
    ensures outs { IfOk result (λ answered. answered.outs ≡ responses_of route.peer (replies.reply request.now selects.now codes.now) ++ notice_outs store.now.library route (reports_but held.now store.now subscriptions.old).1) }
    ensures said { IfOk result (λ answered. AllByRecursion IsSaid answered.outs) }
    ensures reply { IfOk result (λ answered. answered.reply ≡ replies.reply request.now selects.now codes.now) }
    ensures proper { IfOk result (λ answered. IsAnswer answered.reply) }
    ensures ok { OnOk result (subscriptions.new ≡ (reports_but held.now store.now subscriptions.old).0) }
{
    let notices = subscriptions.reports_but(store, held)?;
    let Answered { mut outs, reply } = responses(alloc, route.peer, request, selects, codes)?;
    push_notices(&mut outs, store.library(), route, notices.as_slice())?;
    Ok(Answered { outs, reply })
}

// Registers events, and gives the response and the notices. After an `Err` nothing has changed.
fn register(
    alloc: Global,
    store: &Store,
    held: &[(u32, u32)],
    subscriptions: &mut Subscriptions,
    route: Route,
    request: &Message,
    selects: &[Select],
) -> Result<Answered, Memory>
    requires proper { IsProper request.now }
    requires body { request.now.body ≡ Config selects.now }
    requires fits { results_fit selects.now ≡ true }
    requires props { spec.are_props selects.now ≡ true }
    ensures outs { IfOk result (λ answered. answered.outs ≡ spec.says held.now route request.now selects.now (spec.done_by request.now selects.now store.now subscriptions.old)) }
    ensures said { IfOk result (λ answered. AllByRecursion IsSaid answered.outs) }
    ensures reply { IfOk result (λ answered. answered.reply ≡ replies.reply request.now selects.now (spec.done_by request.now selects.now store.now subscriptions.old).codes) }
    ensures proper { IfOk result (λ answered. IsAnswer answered.reply) }
    ensures store { OnOk result (store.now ≡ (spec.done_by request.now selects.now store.now subscriptions.old).store) }
    ensures ok { OnOk result (subscriptions.new ≡ (spec.evaluated held.now (spec.done_by request.now selects.now store.now subscriptions.old)).0) }
    ensures err { OnErr result (subscriptions.new ≡ subscriptions.old) }
{
    let mut others = subscriptions.copy()?;
    let codes = others.exec_prop(store, selects, mode_in(request))?;
    let answered = tell(
        alloc,
        store,
        held,
        &mut others,
        route,
        request,
        selects,
        codes.as_slice(),
    )?;
    *subscriptions = others;
    Ok(answered)
}

// Executes operations on the store, and gives the response and the notices. After an `Err` what the instances hold now may differ.
fn changed(
    alloc: Global,
    store: &mut Store,
    held: &[(u32, u32)],
    subscriptions: &mut Subscriptions,
    route: Route,
    request: &Message,
    selects: &[Select],
) -> Result<Answered, Memory>
    requires proper { IsProper request.now }
    requires body { request.now.body ≡ Config selects.now }
    requires fits { results_fit selects.now ≡ true }
    ensures outs { IfOk result (λ answered. answered.outs ≡ responses_of route.peer (replies.reply request.now selects.now (executed (spec.mode_of request.now.flags.em) store.old selects.now).codes) ++ notice_outs store.new.library route (reports_but held.now store.new subscriptions.old).1) }
    ensures said { IfOk result (λ answered. AllByRecursion IsSaid answered.outs) }
    ensures reply { IfOk result (λ answered. answered.reply ≡ replies.reply request.now selects.now (executed (spec.mode_of request.now.flags.em) store.old selects.now).codes) }
    ensures proper { IfOk result (λ answered. IsAnswer answered.reply) }
    ensures store { OnOk result (store.new ≡ (executed (spec.mode_of request.now.flags.em) store.old selects.now).state) }
    ensures ok { OnOk result (subscriptions.new ≡ (reports_but held.now store.new subscriptions.old).0) }
    ensures err { OnErr result (IsBeside store.old store.new) }
{
    let codes = exec(alloc, store, selects, mode_in(request))?;
    tell(
        alloc,
        store,
        held,
        subscriptions,
        route,
        request,
        selects,
        codes.as_slice(),
    )
}

// Marks all instances.
fn mark_all(store: &mut Store) -> Result<StoreMark, Memory>
    ensures whole { IsWhole store.old }
    ensures ok { IfOk result (λ mark. mark ≡ mark_of [] store.old) }
    ensures marked { IfOk result (λ mark. store.new ≡ over_mark with_mark mark store.old) }
    ensures err { OnErr result (store.new ≡ store.old) }
{
    let _instances = store.instances();
    store.mark()
}

// The same, but that after an `Err` nothing has changed.
fn change(
    alloc: Global,
    store: &mut Store,
    held: &[(u32, u32)],
    subscriptions: &mut Subscriptions,
    route: Route,
    request: &Message,
    selects: &[Select],
) -> Result<Answered, Memory>
    requires proper { IsProper request.now }
    requires body { request.now.body ≡ Config selects.now }
    requires fits { results_fit selects.now ≡ true }
    requires props { spec.are_props selects.now ≡ false }
    ensures outs { IfOk result (λ answered. answered.outs ≡ spec.says held.now route request.now selects.now (spec.done_by request.now selects.now store.old subscriptions.old)) }
    ensures said { IfOk result (λ answered. AllByRecursion IsSaid answered.outs) }
    ensures reply { IfOk result (λ answered. answered.reply ≡ replies.reply request.now selects.now (spec.done_by request.now selects.now store.old subscriptions.old).codes) }
    ensures proper { IfOk result (λ answered. IsAnswer answered.reply) }
    ensures store { OnOk result (store.new ≡ (spec.done_by request.now selects.now store.old subscriptions.old).store) }
    ensures ok { OnOk result (subscriptions.new ≡ (spec.evaluated held.now (spec.done_by request.now selects.now store.old subscriptions.old)).0) }
    ensures stays { OnErr result (store.new ≡ store.old) }
    ensures err { OnErr result (subscriptions.new ≡ subscriptions.old) }
{
    let mut others = subscriptions.copy()?;
    let mark = mark_all(store)?;
    match changed(alloc, store, held, &mut others, route, request, selects) {
        Ok(answered) => {
            store.release(mark);
            *subscriptions = others;
            Ok(answered)
        }
        Err(fault) => {
            store.rollback(mark);
            Err(fault)
        }
    }
}

/// Performs the operations of a Config, evaluates each event outside the instances that are held, and gives the response and then the
/// notices. After an `Err` nothing has changed.
pub fn execute(
    alloc: Global,
    store: &mut Store,
    held: &[(u32, u32)],
    subscriptions: &mut Subscriptions,
    route: Route,
    request: &Message,
    selects: &[Select],
) -> Result<Answered, Memory>
    requires proper { IsProper request.now }
    requires body { request.now.body ≡ Config selects.now }
    requires fits { results_fit selects.now ≡ true }
    ensures outs { IfOk result (λ answered. answered.outs ≡ spec.says held.now route request.now selects.now (spec.done_by request.now selects.now store.old subscriptions.old)) }
    ensures said { IfOk result (λ answered. AllByRecursion IsSaid answered.outs) }
    ensures reply { IfOk result (λ answered. answered.reply ≡ replies.reply request.now selects.now (spec.done_by request.now selects.now store.old subscriptions.old).codes) }
    ensures proper { IfOk result (λ answered. IsAnswer answered.reply) }
    ensures store { OnOk result (store.new ≡ (spec.done_by request.now selects.now store.old subscriptions.old).store) }
    ensures ok { OnOk result (subscriptions.new ≡ (spec.evaluated held.now (spec.done_by request.now selects.now store.old subscriptions.old)).0) }
    ensures stays { OnErr result (store.new ≡ store.old) }
    ensures err { OnErr result (subscriptions.new ≡ subscriptions.old) }
{
    if are_props(selects) {
        register(alloc, store, held, subscriptions, route, request, selects)
    } else {
        change(alloc, store, held, subscriptions, route, request, selects)
    }
}
