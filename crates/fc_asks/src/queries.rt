// Answers to Queries.
ghost use Rattle.std.specs.Prelude.{◌≡◌, ◌++◌, ◌==◌, Some, None, IfOk, OnOk, option_map, if◌then◌else◌};
ghost use Rattle.std.specs.List.{flat_map};
ghost use Rattle.std.specs.Option.{option_copied};
ghost use Rattle.fc_path.specs.Leaves.{select_leaves};
ghost use Rattle.fc_protocol.specs.Codes.{not_found};
ghost use Rattle.fc_protocol.specs.Messages.{Ask, Ask_record, Stamp};
ghost use Rattle.fc_protocol.specs.declared.states.Seen.TheVariants.{Absent};
ghost use Rattle.fc_asks.specs.Queries as spec;

use crate::holdings::{read_entry, read_held_list, seen_in};
use fc_base::{Code, List, Memory, TxnId};
use fc_lfbs::mastership_types;
use fc_path::{Body, Leaf, OperKind, Select, Step};
use fc_plans::{EPOCH, HELD, TRANSACTION_KEY, TRANSACTIONS};
use fc_protocol::{Seen, TxnEntry};
use fc_types::{MASTERSHIP, Ty};
use fc_wire::read_u32;
use std::alloc::Global;

/// What the answer to a Query for the transactions that an element holds says.
#[derive(Debug, Drop)]
pub enum HeldAnswer {
    /// The element's epoch, and the transactions that it holds, in its order.
    Held(u32, List<TxnEntry>),
    /// Nothing that reads, but the element's epoch where that does.
    Unread(Option<u32>),
}

/// What the answer to a Query for one record says.
#[derive(Clone, Copy, Debug)]
pub enum RecordAnswer {
    /// The element's epoch, and the state of the record, or that there is none.
    Record(u32, Seen),
    /// Nothing that reads, but the element's epoch where that does.
    Unread(Option<u32>),
}

fn is_answer(kind: OperKind) -> bool
    ensures { result ≡ spec.is_answer kind }
{
    match kind {
        OperKind::GetResponse => true,
        OperKind::Set
        | OperKind::SetProp
        | OperKind::Del
        | OperKind::SetResponse
        | OperKind::SetPropResponse
        | OperKind::DelResponse
        | OperKind::Get
        | OperKind::GetProp
        | OperKind::GetPropResponse
        | OperKind::Report => false,
    }
}

fn is_id(step: &Step, id: u32) -> bool
    ensures { result ≡ spec.is_id id step.now }
{
    match step {
        Step::Id(other) => *other == id,
        Step::Key(_, _) => false,
    }
}

fn at_id(steps: &[Step], id: u32) -> bool
    ensures { result ≡ spec.at_id id steps.now }
{
    match steps {
        [step] => is_id(step, id),
        _ => false,
    }
}

// The answer to a GET in the instance 1 of Mastership.
fn is_of_mastership(leaf: &Leaf) -> bool
    ensures { result ≡ spec.is_of_mastership leaf.now }
{
    is_answer(leaf.kind) && leaf.spot.class == MASTERSHIP && leaf.spot.instance == 1
}

// The answer to a GET of a component of Mastership.
fn mirrors(leaf: &Leaf, id: u32) -> bool
    ensures { result ≡ spec.mirrors id leaf.now }
{
    is_of_mastership(leaf) && at_id(leaf.spot.steps.as_slice(), id)
}

// Whether a key's value names the transaction.
fn names(value: &[u8], txn: TxnId) -> bool
    ensures { result ≡ spec.names txn value.now }
{
    if value.len() != 8 {
        return false;
    }
    read_u32(value, 0) == txn.epoch.get() && read_u32(value, 4) == txn.number
}

fn is_key(step: &Step, txn: TxnId) -> bool
    ensures { result ≡ spec.is_key txn step.now }
{
    match step {
        Step::Id(_) => false,
        Step::Key(ident, value) => *ident == TRANSACTION_KEY && names(value.as_slice(), txn),
    }
}

fn at_record(steps: &[Step], txn: TxnId) -> bool
    ensures { result ≡ spec.at_record txn steps.now }
{
    match steps {
        [first, second] => is_id(first, TRANSACTIONS) && is_key(second, txn),
        _ => false,
    }
}

// The answer to a GET of the record of a transaction.
fn mirrors_record(leaf: &Leaf, txn: TxnId) -> bool
    ensures { result ≡ spec.mirrors_record txn leaf.now }
{
    is_of_mastership(leaf) && at_record(leaf.spot.steps.as_slice(), txn)
}

fn full_of(body: &Body) -> Option<&[u8]>
    ensures { option_map (λ b. b.now) result ≡ spec.full_of body.now }
{
    match body {
        Body::Full(value) => Some(value.as_slice()),
        Body::Nothing => None,
        Body::Sparse(_) => None,
        Body::Outcome(_) => None,
        Body::Nested(_) => None,
    }
}

fn epoch_in(bytes: Option<&[u8]>) -> Option<u32>
    ensures { result ≡ spec.epoch_in (option_map (λ b. b.now) bytes.entry) }
{
    match bytes {
        None => None,
        Some(bytes) => {
            if bytes.len() == 4 {
                Some(read_u32(bytes, 0))
            } else {
                None
            }
        }
    }
}

fn held_bodies(
    alloc: Global,
    ty: &Ty,
    epoch: Option<u32>,
    bytes: Option<&[u8]>,
) -> Result<HeldAnswer, Memory>
    ensures { IfOk result (λ t. (s : Stamp) → spec.held_told s t ≡ spec.held_bodies ty.now s epoch (option_map (λ b. b.now) bytes.entry)) }
{
    let epoch = match epoch {
        None => return Ok(HeldAnswer::Unread(None)),
        Some(epoch) => epoch,
    };
    let bytes = match bytes {
        None => return Ok(HeldAnswer::Unread(Some(epoch))),
        Some(bytes) => bytes,
    };
    match read_held_list(alloc, ty, bytes)? {
        None => Ok(HeldAnswer::Unread(Some(epoch))),
        Some(held) => Ok(HeldAnswer::Held(epoch, held)),
    }
}

// What the answer to the ask for held transactions says, by the type of their list.
fn read_held_answer(alloc: Global, ty: &Ty, leaves: &[Leaf]) -> Result<HeldAnswer, Memory>
    ensures { IfOk result (λ t. (s : Stamp) → spec.held_told s t ≡ spec.held_meaning ty.now s leaves.now) }
{
    match leaves {
        [first, second] => {
            if mirrors(first, EPOCH) && mirrors(second, HELD) {
                held_bodies(
                    alloc,
                    ty,
                    epoch_in(full_of(&first.body)),
                    full_of(&second.body),
                )
            } else {
                Ok(HeldAnswer::Unread(None))
            }
        }
        _ => Ok(HeldAnswer::Unread(None)),
    }
}

// That there is no record, where the code says so.
fn absence(code: Code) -> Option<Seen>
    ensures { result ≡ (if code == not_found then Some Absent else None) }
{
    if code == Code::NOT_FOUND {
        Some(Seen::Absent)
    } else {
        None
    }
}

// What the body of a leaf says of a record.
fn record_in(alloc: Global, ty: &Ty, body: &Body) -> Result<Option<Seen>, Memory>
    ensures { IfOk result (λ t. t ≡ spec.record_in ty.now body.now) }
{
    match body {
        Body::Full(value) => Ok(seen_in(read_entry(alloc, ty, value.as_slice())?)),
        Body::Outcome(code) => Ok(absence(*code)),
        Body::Nothing => Ok(None),
        Body::Sparse(_) => Ok(None),
        Body::Nested(_) => Ok(None),
    }
}

fn record_bodies(
    alloc: Global,
    ty: &Ty,
    txn: TxnId,
    epoch: Option<u32>,
    body: &Body,
) -> Result<RecordAnswer, Memory>
    ensures { IfOk result (λ t. (s : Stamp) → spec.record_told s txn t ≡ spec.record_bodies ty.now s txn epoch body.now) }
{
    let epoch = match epoch {
        None => return Ok(RecordAnswer::Unread(None)),
        Some(epoch) => epoch,
    };
    match record_in(alloc, ty, body)? {
        None => Ok(RecordAnswer::Unread(Some(epoch))),
        Some(seen) => Ok(RecordAnswer::Record(epoch, seen)),
    }
}

// What the answer to a record ask says, by the type of a record.
fn read_record_answer(
    alloc: Global,
    ty: &Ty,
    txn: TxnId,
    leaves: &[Leaf],
) -> Result<RecordAnswer, Memory>
    ensures { IfOk result (λ t. (s : Stamp) → spec.record_told s txn t ≡ spec.record_meaning ty.now txn s leaves.now) }
{
    match leaves {
        [first, second] => {
            if mirrors(first, EPOCH) && mirrors_record(second, txn) {
                record_bodies(alloc, ty, txn, epoch_in(full_of(&first.body)), &second.body)
            } else {
                Ok(RecordAnswer::Unread(None))
            }
        }
        _ => Ok(RecordAnswer::Unread(None)),
    }
}

// Appends leaves.
fn push_leaves(leaves: &mut List<Leaf>, more: List<Leaf>) -> Result<(), Memory>
    ensures { OnOk result (leaves.new ≡ leaves.old ++ more) }
{
    for leaf in more.into_vec() {
        leaves.push(leaf)?;
    }
    Ok(())
}

fn leaves_of(alloc: Global, selects: &[Select]) -> Result<List<Leaf>, Memory>
    ensures { IfOk result (λ leaves. leaves ≡ flat_map select_leaves selects.now) }
{
    let mut leaves = List::new(alloc);
    for select in selects {
        push_leaves(&mut leaves, select.leaves()?)?;
    }
    Ok(leaves)
}

/// What the answer to a Query for the held transactions says (RFC 5810, section 7.7.2). It reads where it mirrors the two leaves that
/// were asked, in their order and with none besides, each a GET-RESPONSE with a whole value: the epoch, which may be any number, and
/// the list, by its type. Each entry names a transaction, is started or prepared, and its participants are IDs of elements that rise.
/// Refused only for want of memory.
pub fn read_held(alloc: Global, selects: &[Select]) -> Result<HeldAnswer, Memory>
    ensures { IfOk result (λ t. (s : Stamp) → spec.held_told s t ≡ spec.query_meaning Ask s selects.now) }
{
    let types = mastership_types(alloc)?;
    let leaves = leaves_of(alloc, selects)?;
    read_held_answer(alloc, &types.held, leaves.as_slice())
}

/// What the answer to a Query for the record of a transaction says (RFC 5810, section 7.7.2). It reads where it mirrors the two leaves
/// that were asked, in their order and with none besides, the key among their steps, each a GET-RESPONSE: the epoch, which may be any
/// number, as a whole value, and the record as one of its type, or the code that it was not found. Of which transaction the record
/// itself says it is does not count. Refused only for want of memory.
pub fn read_record(alloc: Global, txn: TxnId, selects: &[Select]) -> Result<RecordAnswer, Memory>
    ensures { IfOk result (λ t. (s : Stamp) → spec.record_told s txn t ≡ spec.query_meaning (Ask_record txn) s selects.now) }
{
    let types = mastership_types(alloc)?;
    let leaves = leaves_of(alloc, selects)?;
    read_record_answer(alloc, &types.listed, txn, leaves.as_slice())
}
