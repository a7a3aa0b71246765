// The values of the live components.
ghost use Rattle.std.specs.Prelude.{◌≡◌, ◌≤◌, length, map, IfOk};
ghost use Rattle.std.specs.List.{filter};
ghost use Rattle.fc_lfbs.specs.LiveValues as spec;
ghost use Rattle.fc_lfbs.specs.LiveValues.{table};

use fc_base::{FeId, List, Memory, Text};
use fc_types::{FE_OBJECT, FE_PROTOCOL, is_live};
use fc_value::{Live, Value};
use std::alloc::Global;
use std::marker::Model;

/// A transaction as an element tells it: its epoch and number, its state from 1 to 4 (started, prepared, completed, aborted), and its
/// participants by their IDs.
#[derive(Debug, Drop)]
pub struct LiveTxn {
    pub epoch: u32,
    pub number: u32,
    pub state: u32,
    pub participants: List<u32>,
}

/// What an element tells in the components that stand in no configuration. The instances rise and are at most 65,536; there are at most
/// 4,096 transactions, no two of one epoch and number, and each has at most 64 participants.
#[derive(Debug, Drop)]
pub struct LiveState {
    /// The element.
    pub id: FeId,
    /// All its instances, each its class and its ID.
    pub instances: List<(u32, u32)>,
    /// The control element with which it is associated, or 0.
    pub ce: u32,
    /// The control element before that one, or 0.
    pub last_ce: u32,
    /// The epoch of its master, 0 where it has had none.
    pub epoch: u32,
    /// The number of its master, 0 at epoch 0.
    pub master: u32,
    /// The transactions in the order in which they were entered.
    pub transactions: List<LiveTxn>,
}

impl Model for LiveTxn {
    ghost use Rattle.std.specs.Prelude.{◌≤◌, length};
    ghost use Rattle.fc_lfbs.specs.LiveValues.{Txn};

    ghost Value = { Txn };

    ghost view = { λ s. record { epoch = s.epoch; number = s.number; state = s.state; participants = s.participants } };

    ghost invariant = { λ s. length s.participants ≤ 64 };
}

impl Model for LiveState {
    ghost use Rattle.fc_lfbs.specs.LiveValues.{IsTold, Told};

    ghost Value = { Told };

    ghost view = { λ s. record { id = s.id; instances = s.instances; ce = s.ce; last_ce = s.last_ce; epoch = s.epoch; master = s.master; transactions = s.transactions } };

    ghost invariant = { λ s. IsTold (record { id = s.id; instances = s.instances; ce = s.ce; last_ce = s.last_ce; epoch = s.epoch; master = s.master; transactions = s.transactions }) };
}

// A number of 32 bits.
fn word(number: u32) -> Value
    ensures { result ≡ spec.word number }
{
    Value::Number(i128::from(number))
}

// The array of these values, with subscripts that rise from 1.
fn table_of(alloc: Global, values: List<Value>) -> Result<Value, Memory>
    requires { length values ≤ 65536 }
    ensures { IfOk result (λ v. v ≡ table values) }
{
    let mut entries = List::new(alloc);
    let mut subscript: u32 = 1;
    for value in values.into_vec() {
        entries.push((subscript, value))?;
        subscript += 1;
    }
    Ok(Value::Table(entries))
}

// An instance: its class and its ID.
fn selector(alloc: Global, class: u32, instance: u32) -> Result<Value, Memory>
    ensures { IfOk result (λ v. v ≡ spec.selector (class, instance)) }
{
    let mut values = List::new(alloc);
    values.push(word(class))?;
    values.push(word(instance))?;
    Ok(Value::Group(values))
}

fn selectors(alloc: Global, instances: &List<(u32, u32)>) -> Result<List<Value>, Memory>
    ensures { IfOk result (λ vs. vs ≡ map spec.selector instances.now) }
{
    let mut values = List::new(alloc);
    for (class, instance) in instances.as_slice() {
        values.push(selector(alloc, *class, *instance)?)?;
    }
    Ok(values)
}

fn words(alloc: Global, numbers: &List<u32>) -> Result<List<Value>, Memory>
    ensures { IfOk result (λ vs. vs ≡ map spec.word numbers.now) }
{
    let mut values = List::new(alloc);
    for number in numbers.as_slice() {
        values.push(word(*number))?;
    }
    Ok(values)
}

fn transaction(alloc: Global, txn: &LiveTxn) -> Result<Value, Memory>
    ensures { IfOk result (λ v. v ≡ spec.transaction txn.now) }
{
    let participants = table_of(alloc, words(alloc, &txn.participants)?)?;
    let mut values = List::new(alloc);
    values.push(word(txn.epoch))?;
    values.push(word(txn.number))?;
    values.push(word(txn.state))?;
    values.push(participants)?;
    Ok(Value::Group(values))
}

// Whether a transaction is started or prepared.
fn is_held(txn: &LiveTxn) -> bool
    ensures { result ≡ spec.is_held txn.now }
{
    txn.state == 1 || txn.state == 2
}

fn transactions(alloc: Global, txns: &List<LiveTxn>) -> Result<List<Value>, Memory>
    ensures { IfOk result (λ vs. vs ≡ map spec.transaction txns.now) }
{
    let mut values = List::new(alloc);
    for txn in txns.as_slice() {
        values.push(transaction(alloc, txn)?)?;
    }
    Ok(values)
}

fn held(alloc: Global, txns: &List<LiveTxn>) -> Result<List<Value>, Memory>
    ensures { IfOk result (λ vs. vs ≡ map spec.transaction (filter spec.is_held txns.now)) }
{
    let mut values = List::new(alloc);
    for txn in txns.as_slice() {
        if is_held(txn) {
            values.push(transaction(alloc, txn)?)?;
        }
    }
    Ok(values)
}

impl LiveState {
    fn fe_object(&self, alloc: Global, ident: u32) -> Result<Value, Memory>
        ensures { IfOk result (λ v. v ≡ spec.fe_object_value self.now ident) }
    {
        match ident {
            2 => table_of(alloc, selectors(alloc, &self.instances)?),
            4 => Ok(word(self.id.get())),
            5 => Ok(Value::Text(Text::from_str(alloc, "")?)),
            6 => Ok(Value::Text(Text::from_str(alloc, "fc")?)),
            _ => Ok(Value::Table(List::new(alloc))),
        }
    }

    fn fe_protocol(&self, alloc: Global, ident: u32) -> Result<Value, Memory>
        ensures { IfOk result (λ v. v ≡ spec.fe_protocol_value self.now ident) }
    {
        match ident {
            1 => Ok(word(1)),
            2 => Ok(word(self.id.get())),
            8 => Ok(word(self.ce)),
            13 => Ok(word(self.last_ce)),
            _ => Ok(Value::Table(List::new(alloc))),
        }
    }

    fn mastership(&self, alloc: Global, ident: u32) -> Result<Value, Memory>
        ensures { IfOk result (λ v. v ≡ spec.mastership_value self.now ident) }
    {
        match ident {
            1 => Ok(word(self.epoch)),
            2 => Ok(word(self.master)),
            3 => table_of(alloc, transactions(alloc, &self.transactions)?),
            _ => table_of(alloc, held(alloc, &self.transactions)?),
        }
    }

    fn value(&self, alloc: Global, class: u32, ident: u32) -> Result<Value, Memory>
        ensures { IfOk result (λ v. v ≡ spec.live_value self.now class ident) }
    {
        match class {
            FE_OBJECT => self.fe_object(alloc, ident),
            FE_PROTOCOL => self.fe_protocol(alloc, ident),
            _ => self.mastership(alloc, ident),
        }
    }
}

impl Live for LiveState {
    ghost told = { spec.told_value };

    fn component(&self, class: u32, instance: u32, ident: u32) -> Result<Option<Value>, Memory> {
        if instance != 1 || !is_live(class, ident) {
            return Ok(None);
        }
        Ok(Some(self.value(self.instances.alloc(), class, ident)?))
    }
}
