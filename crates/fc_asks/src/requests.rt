// The messages that a control element sends.
ghost use Rattle.std.specs.Prelude.{false, ◌≡◌, ◌<◌, ◌+◌, ◌*◌, ◌^◌, ◌/◌, ◌%◌, [], ◌∷◌, ◌++◌, Some, None, IfOk, OnOk, OnErr};
ghost use Rattle.std.specs.Option.{option_copied};
ghost use Rattle.fc_wire.specs.Bytes.{u32_bytes};
ghost use Rattle.fc_protocol.specs.Messages.{correlator};
ghost use Rattle.fc_path.specs.declared.path.Body.TheVariants.{Nothing};
ghost use Rattle.fc_plans.specs.Components as components;
ghost use Rattle.fc_plans.specs.Mastership as places;
ghost use Rattle.fc_plans.specs.Mastership.{of_transaction};
ghost use Rattle.fc_asks.specs.Requests as spec;
ghost use Rattle.fc_asks.specs.Bodies.{body_of};
ghost use Rattle.fc_asks.specs.Plans.{selects_of, change_at};
ghost use Rattle.fc_asks.specs.Tables.{found};

use crate::asks::Asks;
use crate::life::Life;
use fc_base::{CeId, Duplicate, FeId, List, Memory, Octets, Shared, TxnId};
use fc_msg::{Message, MsgBody};
use fc_path::{Body, Key, Oper, OperKind, PathData, Select};
use fc_plans::{
    Change, EPOCH, FLOOR, HELD, OPENING, SUBJECT, TRANSACTION_KEY, TRANSACTIONS, on_mastership,
    one, path, push_selects, put_number, put_subject, set, set_selects, subject, with_subject,
};
use fc_wire::Flags;
use std::alloc::Global;

// The execution modes (RFC 5810, section 6.1): a Query has none.
const RESERVED: u8 = 0;

const ALL_OR_NONE: u8 = 1;

// The phases of a transaction (RFC 5810, section 6.1).
const START: u8 = 0;

const MIDDLE: u8 = 1;

const END: u8 = 2;

const ABORT: u8 = 3;

// The flags of a request: an answer is always wanted.
fn flags(em: u8, at: bool, tp: u8) -> Flags
    requires { (em < 4) × (tp < 4) }
    ensures { result ≡ spec.flags em at tp }
{
    Flags {
        ack: 3,
        pri: 0,
        em,
        at,
        tp,
    }
}

// Appends the head of a FULLDATA (type 0112) whose value has so many bytes. The length is two bytes: participants are at most 64 and
// instances at most 4,096, so that it never passes them.
fn put_head(bytes: &mut Vec<u8>, len: usize) -> Result<(), Memory>
    requires { len + 4 < 2 ^ 64 }
    ensures { OnOk result (bytes.new.items ≡ bytes.old.items ++ 1 ∷ 18 ∷ (len + 4) / 256 % 256 ∷ (len + 4) % 256 ∷ []) }
{
    let size = len + 4;
    bytes.extend_from_slice(&[0x01, 0x12, (size / 256 % 256) as u8, (size % 256) as u8])?;
    Ok(())
}

// Appends the entries of an array of these numbers.
fn put_numbers(bytes: &mut Vec<u8>, ids: &[FeId]) -> Result<(), Memory>
    ensures { OnOk result (bytes.new.items ≡ bytes.old.items ++ spec.numbers_from 1 ids.now) }
{
    for at in 0..ids.len() {
        put_number(bytes, ((at + 1) % 4_294_967_296) as u32)?;
        put_number(bytes, ids[at].get())?;
    }
    Ok(())
}

// Appends the entries of an array of these instances.
fn put_instances(bytes: &mut Vec<u8>, scope: &[(u32, u32)]) -> Result<(), Memory>
    ensures { OnOk result (bytes.new.items ≡ bytes.old.items ++ spec.instances_from 1 scope.now) }
{
    for at in 0..scope.len() {
        put_number(bytes, ((at + 1) % 4_294_967_296) as u32)?;
        put_number(bytes, scope[at].0)?;
        put_number(bytes, scope[at].1)?;
    }
    Ok(())
}

// Appends an array in a FULLDATA of its own.
fn put_array(bytes: &mut Vec<u8>, entries: &Vec<u8>) -> Result<(), Memory>
    ensures { OnOk result (bytes.new.items ≡ bytes.old.items ++ spec.held_array entries.now.items) }
{
    put_head(bytes, entries.len())?;
    bytes.extend_from_slice(entries)?;
    Ok(())
}

fn opening(
    alloc: Global,
    txn: TxnId,
    participants: &[FeId],
    scope: &[(u32, u32)],
) -> Result<Octets, Memory>
    ensures { IfOk result (λ o. o ≡ spec.opening_bytes txn participants.now scope.now) }
{
    let mut ids = Vec::new(alloc);
    put_numbers(&mut ids, participants)?;
    let mut instances = Vec::new(alloc);
    put_instances(&mut instances, scope)?;
    let mut bytes = Vec::new(alloc);
    put_subject(&mut bytes, txn)?;
    put_array(&mut bytes, &ids)?;
    put_array(&mut bytes, &instances)?;
    Ok(Octets::from_vec(bytes))
}

// A message of the life to an element, with the count that its correlator ends with.
fn message(life: &Life, element: FeId, count: u32, flags: Flags, body: MsgBody) -> Message
    ensures { result ≡ record { source = life.now.ce; dest = element; corr = correlator (record { life = life.now.epoch; count = count }); flags = flags; body = body } }
{
    let corr = u64::from(life.epoch.get()) * 4_294_967_296 + u64::from(count);
    Message {
        source: life.ce.get(),
        dest: element.get(),
        corr,
        flags,
        body,
    }
}

// A Query of these paths of Mastership.
fn query(life: &Life, element: FeId, count: u32, paths: List<PathData>) -> Result<Message, Memory>
    ensures { IfOk result (λ m. m ≡ spec.query life.now.ce element (correlator (record { life = life.now.epoch; count = count })) paths) }
{
    let opers = one(life.alloc, Oper::Paths(OperKind::Get, Shared::of(paths)?))?;
    let selects = one(life.alloc, on_mastership(opers))?;
    Ok(message(
        life,
        element,
        count,
        flags(RESERVED, false, START),
        MsgBody::Query(selects),
    ))
}

fn ask(life: &Life, element: FeId, count: u32) -> Result<Message, Memory>
    ensures { IfOk result (λ m. m ≡ spec.query life.now.ce element (correlator (record { life = life.now.epoch; count = count })) spec.asks_held) }
{
    let mut paths = one(life.alloc, path(life.alloc, EPOCH, None, Body::Nothing)?)?;
    paths.push(path(life.alloc, HELD, None, Body::Nothing)?)?;
    query(life, element, count, paths)
}

fn record_ask(life: &Life, element: FeId, count: u32, txn: TxnId) -> Result<Message, Memory>
    ensures { IfOk result (λ m. m ≡ spec.query life.now.ce element (correlator (record { life = life.now.epoch; count = count })) (spec.asks_record txn)) }
{
    let key = Key {
        ident: TRANSACTION_KEY,
        value: subject(life.alloc, txn)?,
    };
    let mut paths = one(life.alloc, path(life.alloc, EPOCH, None, Body::Nothing)?)?;
    paths.push(path(life.alloc, TRANSACTIONS, Some(key), Body::Nothing)?)?;
    query(life, element, count, paths)
}

// A Config of one operation of Mastership, with what stands behind it there and after it.
fn config(life: &Life, element: FeId, count: u32, flags: Flags, selects: List<Select>) -> Message
    ensures { result ≡ spec.config life.now.ce element (correlator (record { life = life.now.epoch; count = count })) flags selects }
{
    message(life, element, count, flags, MsgBody::Config(selects))
}

// The one select of Mastership with the subject and one operation behind it.
fn ended_selects(alloc: Global, txn: TxnId, last: Oper) -> Result<List<Select>, Memory>
    ensures { IfOk result (λ ss. ss ≡ places.on_mastership (places.sets components.subject (places.subject_bytes txn) ∷ last ∷ []) ∷ []) }
{
    let mut opers = one(alloc, set(alloc, SUBJECT, subject(alloc, txn)?)?)?;
    opers.push(last)?;
    one(alloc, on_mastership(opers))
}

// The selects of a change; none where there is no change.
fn selects_in(change: Option<&Change>) -> &[Select]
    ensures { result.now ≡ selects_of (option_copied change.entry) }
{
    match change {
        Some(change) => change.selects(),
        None => &[],
    }
}

fn change_selects(
    life: &Life,
    txn: TxnId,
    element: FeId,
    number: u32,
) -> Result<List<Select>, Memory>
    ensures { IfOk result (λ ss. ss ≡ of_transaction txn (change_at life.now.plans txn element number)) }
{
    with_subject(
        life.alloc,
        txn,
        selects_in(life.change(txn, element, number)),
    )
}

fn plain_selects(life: &Life, element: FeId) -> Result<List<Select>, Memory>
    ensures { IfOk result (λ ss. ss ≡ selects_of (found element life.now.plains)) }
{
    let mut selects = List::new(life.alloc);
    push_selects(&mut selects, selects_in(life.plain(element)))?;
    Ok(selects)
}

// The selects of a claim: the epoch of the life.
fn claim_selects(life: &Life) -> Result<List<Select>, Memory>
    ensures { IfOk result (λ selects. selects ≡ places.on_mastership (places.sets components.epoch (u32_bytes life.now.epoch) ∷ []) ∷ []) }
{
    let mut bytes = Vec::new(life.alloc);
    put_number(&mut bytes, life.epoch.get())?;
    set_selects(life.alloc, EPOCH, Octets::from_vec(bytes))
}

/// The message of a life to an element that does this plain change, outside of any transaction: its correlator is the epoch in the high
/// 32 bits and this count in the low ones, and an answer is always wanted. Refused only for want of memory.
pub fn plain_request(
    life: &Life,
    element: FeId,
    count: u32,
    change: &Change,
) -> Result<Message, Memory>
    ensures { IfOk result (λ m. m ≡ spec.config life.now.ce element (correlator (record { life = life.now.epoch; count = count })) (spec.flags spec.all_or_none false spec.start) change.now) }
{
    let mut selects = List::new(life.alloc);
    push_selects(&mut selects, change.selects())?;
    let flags = flags(ALL_OR_NONE, false, START);
    Ok(config(life, element, count, flags, selects))
}

/// The message of a life to an element that asks for this (RFC 5810, sections 7.6.1, 7.7.1 and 4.3.1.2.2): its correlator is the epoch
/// in the high 32 bits and this count in the low ones, and an answer is always wanted. A change that the life does not have is sent as
/// none. Refused only for want of memory.
pub fn request(life: &Life, element: FeId, count: u32, asks: &Asks) -> Result<Message, Memory>
    ensures { IfOk result (λ m. m ≡ spec.request_of life.now element (correlator (record { life = life.now.epoch; count = count })) (body_of life.now.epoch asks.now)) }
{
    match asks {
        Asks::Claim => {
            let flags = flags(ALL_OR_NONE, false, START);
            let selects = claim_selects(life)?;
            Ok(config(life, element, count, flags, selects))
        }
        Asks::Ask => ask(life, element, count),
        Asks::Record(txn) => record_ask(life, element, count, *txn),
        Asks::Sot(txn, participants, scope) => {
            let bytes = opening(life.alloc, *txn, participants.as_slice(), scope.as_slice())?;
            let flags = flags(ALL_OR_NONE, true, START);
            let selects = set_selects(life.alloc, OPENING, bytes)?;
            Ok(config(life, element, count, flags, selects))
        }
        Asks::Mot(txn, number) => {
            let flags = flags(ALL_OR_NONE, true, MIDDLE);
            let selects = change_selects(life, *txn, element, *number)?;
            Ok(config(life, element, count, flags, selects))
        }
        Asks::Eot(txn) => {
            let flags = flags(ALL_OR_NONE, true, END);
            let selects = ended_selects(life.alloc, *txn, Oper::Commit)?;
            Ok(config(life, element, count, flags, selects))
        }
        Asks::Trcomp(txn) => {
            let flags = flags(ALL_OR_NONE, true, END);
            let selects = ended_selects(life.alloc, *txn, Oper::Trcomp)?;
            Ok(config(life, element, count, flags, selects))
        }
        Asks::Abt(txn) => {
            let flags = flags(ALL_OR_NONE, true, ABORT);
            let selects = set_selects(life.alloc, SUBJECT, subject(life.alloc, *txn)?)?;
            Ok(config(life, element, count, flags, selects))
        }
        Asks::Floor(floor) => {
            let flags = flags(ALL_OR_NONE, false, START);
            let selects = set_selects(life.alloc, FLOOR, subject(life.alloc, *floor)?)?;
            Ok(config(life, element, count, flags, selects))
        }
        Asks::Plain => {
            let flags = flags(ALL_OR_NONE, false, START);
            let selects = plain_selects(life, element)?;
            Ok(config(life, element, count, flags, selects))
        }
    }
}
