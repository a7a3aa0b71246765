// The transactions, elements and instances that a Config names.
ghost use Rattle.std.specs.Prelude.{◌≡◌, ◌==◌, not, true, false, Some, None, IfOk, IfSome, IfNone, if◌then◌else◌};
ghost use Rattle.std.specs.List.{list_all};
ghost use Rattle.fc_protocol.specs.Collections.{among};
ghost use Rattle.fc_protocol.specs.ElementMachine.{takes_part};
ghost use Rattle.fc_protocol.specs.Messages.{is_name};
ghost use Rattle.fc_protocol.specs.Scopes as spec;
ghost use Rattle.fc_holding.specs.Held.{has_all};
ghost use Rattle.fc_holding.specs.Naming as naming;

use fc_base::{Epoch, FeId, List, Memory, TxnId};
use fc_types::MASTERSHIP;
use std::alloc::Global;

/// The transaction of these two numbers, where they name one.
pub fn name(epoch: u32, number: u32) -> Option<TxnId>
    ensures exact { result ≡ (if is_name (record { epoch = epoch; number = number }) then Some (record { epoch = epoch; number = number }) else None) }
    ensures same { IfSome result (λ x. x ≡ record { epoch = epoch; number = number }) }
    ensures named { IfSome result (λ x. is_name x ≡ true) }
    ensures none { IfNone result (is_name (record { epoch = epoch; number = number }) ≡ false) }
{
    match Epoch::from_word(epoch) {
        None => None,
        Some(epoch) => TxnId::of(epoch, number),
    }
}

// An element's ID above a number.
fn next_id(last: u32, word: u32) -> Option<FeId>
    ensures { result ≡ naming.next_id last word }
{
    if last < word { FeId::of(word) } else { None }
}

// The IDs of elements that are these numbers, each above the one before.
fn ids_from(alloc: Global, words: &[u32]) -> Result<Option<List<FeId>>, Memory>
    ensures { IfOk result (λ ids. ids ≡ naming.ids_from 0 words.now) }
{
    let mut last = 0;
    let mut ids = List::new(alloc);
    for word in words {
        match next_id(last, *word) {
            None => return Ok(None),
            Some(id) => {
                last = id.get();
                ids.push(id)?;
            }
        }
    }
    Ok(Some(ids))
}

fn is_among(id: FeId, words: &[u32]) -> bool
    ensures { result ≡ among id words.now }
{
    for word in words {
        if id.get() == *word {
            return true;
        }
    }
    false
}

/// The participants of a transaction, where these are 1 to 64 rising IDs of elements with that of this element.
pub fn participants_of(alloc: Global, id: FeId, words: &[u32]) -> Result<Option<List<FeId>>, Memory>
    ensures { IfOk result (λ ids. ids ≡ (if takes_part id words.now then Some words.now else None)) }
{
    if !is_among(id, words) {
        return Ok(None);
    }
    if words.len() > 64 {
        return Ok(None);
    }
    ids_from(alloc, words)
}

fn stands_before(one: (u32, u32), two: (u32, u32)) -> bool
    ensures { result ≡ spec.stands_before one two }
{
    one.0 < two.0 || (one.0 == two.0 && one.1 < two.1)
}

// Whether a scope behind an instance rises.
fn rises_after(first: (u32, u32), rest: &[(u32, u32)]) -> bool
    ensures { result ≡ spec.rises_after first rest.now }
{
    let mut last = first;
    for place in rest {
        if !stands_before(last, *place) {
            return false;
        }
        last = *place;
    }
    true
}

fn is_rising(scope: &[(u32, u32)]) -> bool
    ensures { result ≡ spec.is_rising scope.now }
{
    match scope {
        [] => true,
        [first, rest @ ..] => rises_after(*first, rest),
    }
}

// Whether no instance is of the class Mastership.
fn leaves_control(scope: &[(u32, u32)]) -> bool
    ensures { result ≡ list_all (λ i. not (i.0 == spec.control_class)) scope.now }
{
    scope.iter().all(|place| place.0 != MASTERSHIP)
}

/// Whether it is a scope that a transaction may have: it rises, and has no instance of the class Mastership.
pub fn is_scope(scope: &[(u32, u32)]) -> bool
    ensures { result ≡ spec.is_scope scope.now }
{
    is_rising(scope) && leaves_control(scope)
}

/// Whether an instance stands in a list.
pub fn lists(all: &[(u32, u32)], place: (u32, u32)) -> bool
    ensures { result ≡ spec.lists all.now place }
{
    all.iter()
        .any(|other| place.0 == other.0 && place.1 == other.1)
}

/// Whether each instance of a scope stands in a list.
pub fn has_all(all: &[(u32, u32)], scope: &[(u32, u32)]) -> bool
    ensures { result ≡ has_all all.now scope.now }
{
    scope.iter().all(|place| lists(all, *place))
}
