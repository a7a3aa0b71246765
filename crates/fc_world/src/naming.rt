// Transactions of the script, by their names.
ghost use Rattle.std.specs.Prelude.{◌≡◌, IfOk, option_map, slice_get};
ghost use Rattle.std.specs.Option.{option_copied};
ghost use Rattle.fc_world.specs.Lookups as spec;

use fc_base::{FeId, List, Memory, Octets};
use fc_documents::PlanTxn;
use fc_keys::KeyIndex;
use fc_master::Change;
use std::alloc::Global;

/// The index of transactions by their names.
pub fn index_of(alloc: Global, transactions: &[PlanTxn]) -> Result<KeyIndex, Memory>
    ensures { IfOk result (λ names. spec.IsIndex names.0 transactions.now) }
{
    let mut names = KeyIndex::new(alloc);
    for (place, transaction) in transactions.iter().enumerate() {
        let Ok(place) = u32::try_from(place) else {
            return Err(Memory);
        };
        let name = Octets::from_slice(alloc, transaction.name.as_str().as_bytes())?;
        names.insert(name, place)?;
    }
    Ok(names)
}

// The transaction at a place.
fn transaction_at(place: u32, transactions: &[PlanTxn]) -> Option<&PlanTxn>
    ensures { option_copied result ≡ slice_get transactions.now place }
{
    transactions.get(place as usize)
}

/// The transaction of this name, found by the index of all names.
pub fn transaction_in<'a>(
    name: &str,
    names: &KeyIndex,
    transactions: &'a [PlanTxn],
) -> Option<&'a PlanTxn>
    requires { spec.IsIndex names.now.0 transactions.now }
    ensures { option_copied result ≡ spec.transaction_in name.now transactions.now }
{
    let place = names.find(name.as_bytes())?;
    transaction_at(place, transactions)
}

// The change of an element that has exactly one.
fn lone_change(element: FeId, changes: &[Change]) -> Option<(FeId, &Change)>
    ensures { option_map (λ p. (p.0, p.1.now)) result ≡ spec.lone_change element changes.now }
{
    match changes {
        [change] => Some((element, change)),
        _ => None,
    }
}

// The change of parts that have exactly one in all.
fn lone_part(parts: &[(FeId, List<Change>)]) -> Option<(FeId, &Change)>
    ensures { option_map (λ p. (p.0, p.1.now)) result ≡ spec.lone_part parts.now }
{
    match parts {
        [part] => lone_change(part.0, part.1.as_slice()),
        _ => None,
    }
}

/// The one change, with its element, of the transaction of this name that has exactly one change in all.
pub fn plain_in<'a>(
    name: &str,
    names: &KeyIndex,
    transactions: &'a [PlanTxn],
) -> Option<(FeId, &'a Change)>
    requires { spec.IsIndex names.now.0 transactions.now }
    ensures { option_map (λ p. (p.0, p.1.now)) result ≡ spec.plain_in name.now transactions.now }
{
    let transaction = transaction_in(name, names, transactions)?;
    lone_part(transaction.parts.as_slice())
}
