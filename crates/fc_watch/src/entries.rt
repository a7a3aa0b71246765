// The entries that came or went.
ghost use Rattle.std.specs.Prelude.{◌≡◌, ◌==◌, true, map, IfOk};
ghost use Rattle.std.specs.List.{list_any};
ghost use Rattle.fc_types.specs.Ids.{is_below, is_rising};
ghost use Rattle.std.specs.Ordering.{nat_cmp};
ghost use Rattle.fc_watch.specs.Watching as spec;
ghost use Rattle.fc_watch.specs.Merging.{begins_with, from_one_on};
ghost use Rattle.fc_watch.specs.declared.watch.Told.TheVariants.{Entry};

use crate::Told;
use fc_base::{List, Memory};
use std::alloc::Global;

// Whether the first of the subscripts, if any, is above this one.
fn begin_above(subscripts: &[u32], subscript: u32) -> bool
    ensures { result ≡ is_below nat_cmp subscript subscripts.now }
{
    match subscripts {
        [] => true,
        [first, ..] => subscript < *first,
    }
}

// Whether each subscript is below the next one.
fn do_rise(subscripts: &[u32]) -> bool
    ensures { result ≡ is_rising nat_cmp subscripts.now }
{
    let mut rest = subscripts;
    while let [first, others @ ..] = rest {
        if !begin_above(others, *first) {
            return false;
        }
        rest = others;
    }
    true
}

// The subscripts without those in front that are below one.
fn from_on(subscripts: &[u32], subscript: u32) -> &[u32]
    ensures { result.now ≡ from_one_on subscript subscripts.now }
{
    let mut rest = subscripts;
    while let [first, others @ ..] = rest {
        if *first >= subscript {
            return rest;
        }
        rest = others;
    }
    rest
}

fn begin_with(subscripts: &[u32], subscript: u32) -> bool
    ensures { result ≡ begins_with subscript subscripts.now }
{
    match subscripts {
        [] => false,
        [first, ..] => *first == subscript,
    }
}

// The first ones that are not among the second ones, where both rise.
fn without_rising(alloc: Global, these: &[u32], those: &[u32]) -> Result<List<Told>, Memory>
    requires these { is_rising nat_cmp these.now ≡ true }
    requires those { is_rising nat_cmp those.now ≡ true }
    ensures { IfOk result (λ hits. hits ≡ map Entry (spec.without these.now those.now)) }
{
    let mut hits = List::new(alloc);
    let mut rest = those;
    for subscript in these {
        rest = from_on(rest, *subscript);
        if !begin_with(rest, *subscript) {
            hits.push(Told::Entry(*subscript))?;
        }
    }
    Ok(hits)
}

fn has(subscripts: &[u32], subscript: u32) -> bool
    ensures { result ≡ list_any (λ y. y == subscript) subscripts.now }
{
    subscripts.iter().any(|other| *other == subscript)
}

// The first ones that are not among the second ones.
fn without_any(alloc: Global, these: &[u32], those: &[u32]) -> Result<List<Told>, Memory>
    ensures { IfOk result (λ hits. hits ≡ map Entry (spec.without these.now those.now)) }
{
    let mut hits = List::new(alloc);
    for subscript in these {
        if !has(those, *subscript) {
            hits.push(Told::Entry(*subscript))?;
        }
    }
    Ok(hits)
}

// The first ones that are not among the second ones. Where both rise, as the subscripts of an array do, it looks at each of them once.
pub fn entries_without(alloc: Global, these: &[u32], those: &[u32]) -> Result<List<Told>, Memory>
    ensures { IfOk result (λ hits. hits ≡ map Entry (spec.without these.now those.now)) }
{
    if do_rise(these) && do_rise(those) {
        return without_rising(alloc, these, those);
    }
    without_any(alloc, these, those)
}
