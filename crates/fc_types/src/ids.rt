// IDs that tell the members of a list apart.
ghost use Rattle.std.specs.Prelude.{◌≡◌, ◌==◌, ℕ, nat_eq, map, find, IfOk};
ghost use Rattle.std.specs.List.{list_any};
ghost use Rattle.std.specs.Option.{option_copied};
ghost use Rattle.std.specs.Ordering.{nat_cmp};
ghost use Rattle.fc_types.specs.Ids.{is_distinct, is_below, is_rising};

use fc_base::{List, Memory};

/// The IDs of at most so many items are compared with each other, and those of more are sorted.
const FEW: usize = 32;

/// What is told apart from others in a list by a number of 32 bits.
pub trait Identified {
    ghost id_of: { Self → ℕ };

    /// The number.
    fn id(&self) -> u32
        ensures { result ≡ id_of self.now };
}

impl Identified for u32 {
    ghost id_of = { λ id. id };

    fn id(&self) -> u32 {
        *self
    }
}

/// Whether no two items have one ID. It compares each item with those after it, which suits a short list;
/// [`are_apart`] is for a list of any length.
pub fn are_distinct<T: Identified>(items: &[T]) -> bool
    ensures { result ≡ is_distinct nat_eq (map T.id_of items.now) }
{
    let mut rest = items;
    while let [first, others @ ..] = rest {
        if has_id(others, first.id()) {
            return false;
        }
        rest = others;
    }
    true
}

/// Whether no two items of a list of any length have one ID. The IDs of more than 32 are sorted; where there is no memory
/// for that, each item is compared with those after it.
pub fn are_apart<T: Identified>(items: &List<T>) -> bool
    ensures { result ≡ is_distinct nat_eq (map T.id_of items.now) }
{
    if items.len() <= FEW {
        return are_distinct(items.as_slice());
    }
    match ids_of(items) {
        Ok(ids) => differ(ids),
        Err(_) => are_distinct(items.as_slice()),
    }
}

// The IDs of the items.
fn ids_of<T: Identified>(items: &List<T>) -> Result<Vec<u32>, Memory>
    ensures { IfOk result (λ ids. ids.items ≡ map T.id_of items.now) }
{
    let mut ids = Vec::with_capacity(items.alloc(), items.len())?;
    for item in items.as_slice() {
        ids.push(item.id())?;
    }
    Ok(ids)
}

// Whether no two IDs are the same.
fn differ(ids: Vec<u32>) -> bool
    ensures { result ≡ is_distinct nat_eq ids.items }
{
    let mut ids = ids;
    ids.sort_unstable();
    are_rising(&ids)
}

// Whether each ID is below the next one.
fn are_rising(ids: &[u32]) -> bool
    ensures { result ≡ is_rising nat_cmp ids.now }
{
    let mut rest = ids;
    while let [first, others @ ..] = rest {
        if !begin_above(others, *first) {
            return false;
        }
        rest = others;
    }
    true
}

// Whether the first of the IDs, if any, is above this one.
fn begin_above(ids: &[u32], id: u32) -> bool
    ensures { result ≡ is_below nat_cmp id ids.now }
{
    match ids {
        [] => true,
        [first, ..] => id < *first,
    }
}

/// Whether an item has the ID.
pub fn has_id<T: Identified>(items: &[T], id: u32) -> bool
    ensures { result ≡ list_any (λ x. id == x) (map T.id_of items.now) }
{
    for item in items {
        if item.id() == id {
            return true;
        }
    }
    false
}

/// The first item with the ID.
pub fn with_id<T: Identified>(items: &[T], id: u32) -> Option<&T>
    ensures { option_copied result ≡ find (λ x. T.id_of x == id) items.now }
{
    for item in items {
        if item.id() == id {
            return Some(item);
        }
    }
    None
}
