// The values that name a transaction.
ghost use Rattle.std.specs.Prelude.{◌≡◌, IfOk, option_map};
ghost use Rattle.fc_phases.specs.Values as spec;
ghost use Rattle.fc_phases.specs.Values.{each_of, ok_of, subject_in, opening_in};
ghost use Rattle.fc_value.specs.Reading.{full_in};

use fc_base::{List, Memory, OpFault};
use fc_types::Ty;
use fc_value::{Value, read_full};
use std::alloc::Global;

/// A transaction that a Config names, whether there can be one or not.
#[derive(Clone, Copy, Debug, PartialEq, Eq)]
pub struct Subject {
    pub epoch: u32,
    pub number: u32,
}

/// What a Config opens.
#[derive(Debug, Drop)]
pub struct Opening {
    pub epoch: u32,
    pub number: u32,
    /// The elements that are to take part.
    pub participants: List<u32>,
    /// The instances that may be changed, each one its class and its ID; none stands for all.
    pub instances: List<(u32, u32)>,
}

fn word_of(value: &Value) -> Option<u32>
    ensures { result ≡ spec.word_of value.now }
{
    match value {
        Value::Number(number) => int_word(*number),
        Value::Truth(_) => None,
        Value::Text(_) => None,
        Value::Raw(_) => None,
        Value::Group(_) => None,
        Value::Table(_) => None,
    }
}

fn int_word(number: i128) -> Option<u32>
    ensures { result ≡ spec.int_word number }
{
    if number < 0 || number >= 4_294_967_296 {
        None
    } else {
        Some(number as u32)
    }
}

fn group_of(value: &Value) -> &[Value]
    ensures { result.now ≡ spec.group_of value.now }
{
    match value {
        Value::Group(values) => values.as_slice(),
        Value::Number(_) => &[],
        Value::Truth(_) => &[],
        Value::Text(_) => &[],
        Value::Raw(_) => &[],
        Value::Table(_) => &[],
    }
}

fn table_of(value: &Value) -> &[(u32, Value)]
    ensures { result.now ≡ spec.table_of value.now }
{
    match value {
        Value::Table(entries) => entries.as_slice(),
        Value::Number(_) => &[],
        Value::Truth(_) => &[],
        Value::Text(_) => &[],
        Value::Raw(_) => &[],
        Value::Group(_) => &[],
    }
}

fn two_words(values: &[Value]) -> Option<(u32, u32)>
    ensures { result ≡ spec.two_words values.now }
{
    match values {
        [one, two] => match word_of(one) {
            Some(one) => match word_of(two) {
                Some(two) => Some((one, two)),
                None => None,
            },
            None => None,
        },
        _ => None,
    }
}

fn pair_of(value: &Value) -> Option<(u32, u32)>
    ensures { result ≡ spec.pair_of value.now }
{
    two_words(group_of(value))
}

fn words_of(alloc: Global, entries: &[(u32, Value)]) -> Result<Option<List<u32>>, Memory>
    ensures { IfOk result (λ words. words ≡ each_of spec.word_of entries.now) }
{
    let mut words = List::new(alloc);
    for (_, value) in entries {
        match word_of(value) {
            Some(word) => words.push(word)?,
            None => return Ok(None),
        }
    }
    Ok(Some(words))
}

fn pairs_of(alloc: Global, entries: &[(u32, Value)]) -> Result<Option<List<(u32, u32)>>, Memory>
    ensures { IfOk result (λ pairs. pairs ≡ each_of spec.pair_of entries.now) }
{
    let mut pairs = List::new(alloc);
    for (_, value) in entries {
        match pair_of(value) {
            Some(pair) => pairs.push(pair)?,
            None => return Ok(None),
        }
    }
    Ok(Some(pairs))
}

fn subject_of(value: &Value) -> Option<Subject>
    ensures { result ≡ spec.subject_of value.now }
{
    match pair_of(value) {
        Some((epoch, number)) => Some(Subject { epoch, number }),
        None => None,
    }
}

fn opening_parts(
    alloc: Global,
    epoch: &Value,
    number: &Value,
    participants: &Value,
    instances: &Value,
) -> Result<Option<Opening>, Memory>
    ensures { IfOk result (λ o. o ≡ spec.opening_parts epoch.now number.now participants.now instances.now) }
{
    let epoch = match word_of(epoch) {
        Some(epoch) => epoch,
        None => return Ok(None),
    };
    let number = match word_of(number) {
        Some(number) => number,
        None => return Ok(None),
    };
    let participants = match words_of(alloc, table_of(participants))? {
        Some(participants) => participants,
        None => return Ok(None),
    };
    let instances = match pairs_of(alloc, table_of(instances))? {
        Some(instances) => instances,
        None => return Ok(None),
    };
    Ok(Some(Opening {
        epoch,
        number,
        participants,
        instances,
    }))
}

fn opening_of(alloc: Global, value: &Value) -> Result<Option<Opening>, Memory>
    ensures { IfOk result (λ o. o ≡ spec.opening_of value.now) }
{
    match group_of(value) {
        [epoch, number, participants, instances] => {
            opening_parts(alloc, epoch, number, participants, instances)
        }
        _ => Ok(None),
    }
}

// The value as which the bytes read, if they do.
fn read(alloc: Global, ty: &Ty, bytes: &[u8]) -> Result<Option<Value>, Memory>
    ensures { IfOk result (λ v. v ≡ ok_of (full_in ty.now bytes.now)) }
{
    let fault = match read_full(alloc, ty, bytes) {
        Ok(value) => return Ok(Some(value)),
        Err(fault) => fault,
    };
    match fault {
        OpFault::Refused(_) => Ok(None),
        OpFault::Memory => Err(Memory),
    }
}

/// The subject as which the bytes read by its type, if they do.
pub fn read_subject(alloc: Global, ty: &Ty, bytes: &[u8]) -> Result<Option<Subject>, Memory>
    ensures { IfOk result (λ x. x ≡ subject_in ty.now bytes.now) }
{
    match read(alloc, ty, bytes)? {
        Some(value) => Ok(subject_of(&value)),
        None => Ok(None),
    }
}

/// The opening as which the bytes read by its type, if they do.
pub fn read_opening(alloc: Global, ty: &Ty, bytes: &[u8]) -> Result<Option<Opening>, Memory>
    ensures { IfOk result (λ o. o ≡ opening_in ty.now bytes.now) }
{
    match read(alloc, ty, bytes)? {
        Some(value) => opening_of(alloc, &value),
        None => Ok(None),
    }
}
