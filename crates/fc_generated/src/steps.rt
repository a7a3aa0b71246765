// The steps of a large run.
ghost use Rattle.std.specs.Prelude.{◌≡◌, ◌≤◌, ◌<◌, ◌+◌, ◌-◌, ◌^◌, ◌++◌, map, IfOk, OnOk};
ghost use Rattle.std.specs.List.{flat_map};
ghost use Rattle.fc_scripts.specs.Steps.{delivery, numbers_from};
ghost use Rattle.fc_generated.specs.Generated as spec;
ghost use Rattle.fc_generated.specs.Transactions.{ids};

use crate::transactions::{decimal, fe_id};
use fc_base::{Epoch, List, Memory, TxnId};
use fc_steps::Step;
use std::alloc::Global;

// How many messages are sent until all elements are claimed and asked, how many for a transaction, and how many for one that is given up.
const FIRST: usize = 48;

const WHOLE: usize = 64;

const HALF: usize = 24;

// Appends the delivery of the messages from one number to another.
fn put_deliveries(
    steps: &mut Vec<(usize, Step)>,
    place: usize,
    first: usize,
    behind: usize,
) -> Result<(), Memory>
    ensures { OnOk result (steps.new.items ≡ steps.old.items ++ map (delivery place) (numbers_from first (behind - first))) }
{
    for message in first..behind {
        steps.push((place, Step::Deliver(message)))?;
    }
    Ok(())
}

// Appends that of the next messages behind those that were delivered, so many of them.
fn put_next(
    steps: &mut Vec<(usize, Step)>,
    place: usize,
    behind: usize,
    more: usize,
) -> Result<(), Memory>
    requires { behind + more + 1 < 2 ^ 64 }
    ensures { OnOk result (steps.new.items ≡ steps.old.items ++ spec.delivers place behind more) }
{
    put_deliveries(steps, place, behind + 1, behind + more + 1)
}

// The step in which an element opens its connection, with the place of its text.
fn connect(element: u32) -> (usize, Step)
    requires some { 0 < element }
    requires few { element ≤ 8 }
    ensures { result ≡ spec.connect element }
{
    (element as usize + 1, Step::Open(fe_id(element), 1))
}

// Appends those of all elements.
fn put_connections(steps: &mut Vec<(usize, Step)>) -> Result<(), Memory>
    ensures { OnOk result (steps.new.items ≡ steps.old.items ++ map spec.connect ids) }
{
    for element in 1..9u32 {
        steps.push(connect(element))?;
    }
    Ok(())
}

// The steps until all elements are claimed and asked.
fn first_steps(alloc: Global) -> Result<Vec<(usize, Step)>, Memory>
    ensures { IfOk result (λ steps. steps.items ≡ spec.first_steps) }
{
    let mut steps = Vec::new(alloc);
    steps.push((1, Step::Start(1, 1)))?;
    put_connections(&mut steps)?;
    put_next(&mut steps, 10, 0, FIRST)?;
    Ok(steps)
}

// How many messages are delivered before the transaction of this number.
fn delivered_before(number: usize) -> usize
    requires some { 1 ≤ number }
    requires few { number ≤ 1000 }
    ensures exact { result ≡ spec.delivered_before number }
    ensures few { result ≤ 70000 }
{
    FIRST + WHOLE * (number - 1) - 16 * ((number - 1) / 4)
}

// How many texts stand before those of the transaction.
fn texts_before(number: usize) -> usize
    requires some { 1 ≤ number }
    requires few { number ≤ 1000 }
    ensures exact { result ≡ spec.texts_before number }
    ensures few { result ≤ 3000 }
{
    10 + 2 * (number - 1) + 2 * ((number - 1) / 4)
}

// The name of the transaction in the one life of the control element.
fn name(number: u32) -> TxnId
    requires { 0 < number }
    ensures { result ≡ spec.name number }
{
    match Epoch::from_word(257) {
        Some(epoch) => TxnId { epoch, number },
        None => unreachable!(),
    }
}

// Appends the steps of a transaction that completes.
fn put_whole(
    steps: &mut Vec<(usize, Step)>,
    texts: usize,
    behind: usize,
    number: u32,
) -> Result<(), Memory>
    requires texts { texts ≤ 3000 }
    requires behind { behind ≤ 70000 }
    ensures { OnOk result (steps.new.items ≡ steps.old.items ++ spec.whole texts behind number) }
{
    let begun = decimal(*steps.allocator(), number)?;
    steps.push((texts + 1, Step::Begin(1, begun)))?;
    put_next(steps, texts + 2, behind, WHOLE)
}

// Appends those of one that is given up.
fn put_given_up(
    steps: &mut Vec<(usize, Step)>,
    texts: usize,
    behind: usize,
    number: u32,
) -> Result<(), Memory>
    requires some { 0 < number }
    requires texts { texts ≤ 3000 }
    requires behind { behind ≤ 70000 }
    ensures { OnOk result (steps.new.items ≡ steps.old.items ++ spec.given_up texts behind number) }
{
    let begun = decimal(*steps.allocator(), number)?;
    steps.push((texts + 1, Step::Begin(1, begun)))?;
    put_next(steps, texts + 2, behind, HALF)?;
    steps.push((texts + 3, Step::GiveUp(1, name(number))))?;
    put_next(steps, texts + 4, behind + HALF, HALF)
}

// Appends the steps of a transaction.
fn put_transaction(steps: &mut Vec<(usize, Step)>, number: u32) -> Result<(), Memory>
    requires some { 1 ≤ number }
    requires few { number ≤ 1000 }
    ensures { OnOk result (steps.new.items ≡ steps.old.items ++ spec.steps_of number) }
{
    let texts = texts_before(number as usize);
    let behind = delivered_before(number as usize);
    if number % 4 == 0 {
        put_given_up(steps, texts, behind, number)
    } else {
        put_whole(steps, texts, behind, number)
    }
}

// Appends the steps of the transactions from the first to the one before this number.
fn put_transactions(steps: &mut Vec<(usize, Step)>, behind: u32) -> Result<(), Memory>
    requires { behind ≤ 1001 }
    ensures { OnOk result (steps.new.items ≡ steps.old.items ++ flat_map spec.steps_of (numbers_from 1 (behind - 1))) }
{
    for number in 1..behind {
        put_transaction(steps, number)?;
    }
    Ok(())
}

/// The steps until all elements are claimed and asked, and those of the transactions from the first to the one before this number.
pub(crate) fn steps(alloc: Global, behind: u32) -> Result<List<(usize, Step)>, Memory>
    requires { behind ≤ 1001 }
    ensures { IfOk result (λ steps. steps ≡ spec.first_steps ++ flat_map spec.steps_of (numbers_from 1 (behind - 1))) }
{
    let mut steps = first_steps(alloc)?;
    put_transactions(&mut steps, behind)?;
    Ok(List::from_vec(steps))
}
