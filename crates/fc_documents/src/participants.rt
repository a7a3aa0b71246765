// The elements that changes are of.
ghost use Rattle.std.specs.Prelude.{◌≡◌, ◌≤◌, nat_lt, length, IfOk, IfSome, IfNone, OnOk};
ghost use Rattle.std.specs.List.{insert, list_all};
ghost use Rattle.fc_documents.specs.Rules as spec;

use crate::tables::ChangeTable;
use fc_base::{FeId, List, Memory};
use fc_plans::MOST_CHANGES;
use std::alloc::Global;

fn stands_before(first: FeId, second: FeId) -> bool
    ensures { result ≡ nat_lt first second }
{
    first < second
}

// Where an element is to stand among others that rise; none where it stands there already.
fn room_for(element: FeId, others: &[FeId]) -> Option<usize>
    ensures room { IfSome result (λ at. (at ≤ length others.now) × (insert others.now at element ≡ spec.entered element others.now)) }
    ensures there { IfNone result (others.now ≡ spec.entered element others.now) }
{
    for at in 0..others.len() {
        if stands_before(element, others[at]) {
            return Some(at);
        }
        if !stands_before(others[at], element) {
            return None;
        }
    }
    Some(others.len())
}

// Enters an element among others that rise.
fn enter(elements: &mut Vec<FeId>, element: FeId) -> Result<(), Memory>
    ensures { OnOk result (elements.new.items ≡ spec.entered element elements.old.items) }
{
    match room_for(element, elements.as_slice()) {
        None => Ok(()),
        Some(at) => {
            elements.insert(at, element)?;
            Ok(())
        }
    }
}

/// The elements that changes are of, which rise.
pub(crate) fn participants_of(alloc: Global, changes: &[ChangeTable]) -> Result<List<FeId>, Memory>
    ensures { IfOk result (λ elements. elements ≡ spec.participants changes.now) }
{
    let mut elements = Vec::new(alloc);
    for change in changes {
        enter(&mut elements, change.element)?;
    }
    Ok(List::from_vec(elements))
}

// How many changes an element has.
fn count_of(element: FeId, changes: &[ChangeTable]) -> usize
    ensures { result ≡ length (spec.bodies_at element changes.now) }
{
    let mut count = 0;
    for change in changes {
        if element != change.element {
            continue;
        }
        count += 1;
    }
    count
}

// Whether an element has not too many changes.
fn has_few(element: FeId, changes: &[ChangeTable]) -> bool
    ensures { result ≡ spec.is_few changes.now element }
{
    count_of(element, changes) <= MOST_CHANGES
}

// Whether none of the elements has too many changes.
fn all_have_few(elements: &[FeId], changes: &[ChangeTable]) -> bool
    ensures { result ≡ list_all (spec.is_few changes.now) elements.now }
{
    for element in elements {
        if !has_few(*element, changes) {
            return false;
        }
    }
    true
}

/// Whether no element has too many changes.
pub(crate) fn are_few(alloc: Global, changes: &[ChangeTable]) -> Result<bool, Memory>
    ensures { IfOk result (λ few. few ≡ spec.are_few changes.now) }
{
    let elements = participants_of(alloc, changes)?;
    Ok(all_have_few(elements.as_slice(), changes))
}
