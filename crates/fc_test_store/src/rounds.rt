// A full table: marks that are set and go back a hundred thousand times. A test has 60 seconds, which a configuration that copies its table at each
// mark does not keep.
use crate::full::{pair, rising};
use crate::library::opened;
use crate::trial::bytes_at;
use crate::words::spot;
use fc_base::{List, Memory};
use fc_path::{Spot, Step};
use fc_store::{Purpose, Store};
use std::alloc::Global;
use std::test::Fail;

const MANY: u32 = 65_536;

const ROUNDS: u32 = 100_000;

// What one step leads to in the table.
fn within(alloc: Global, step: Step) -> Result<Spot, Memory> {
    let mut steps = List::new(alloc);
    steps.push(Step::Id(2))?;
    steps.push(step)?;
    Ok(Spot {
        class: 4099,
        instance: 1,
        steps,
    })
}

// A mark, another pair in place of an entry, and back. Whether it was put.
fn round(alloc: Global, store: &mut Store, turn: u32) -> Result<bool, Memory> {
    let place = within(alloc, Step::Id(turn % MANY))?;
    let mark = store.mark()?;
    let done = store.put(&place, &pair(turn.wrapping_add(MANY))).is_ok();
    store.rollback(mark);
    Ok(done)
}

// How many of so many rounds put a pair.
fn rounds(alloc: Global, store: &mut Store) -> Result<u32, Memory> {
    let mut done = 0u32;
    for turn in 0..ROUNDS {
        if round(alloc, store, turn)? {
            done = done.wrapping_add(1);
        }
    }
    Ok(done)
}

#[test]
fn a_full_table_goes_back_a_hundred_thousand_times(rt: HostRuntime) -> Result<(), Fail> {
    let alloc = rt.alloc();
    let table = spot(alloc, "4099/1/2")?;
    let full = rising(alloc, MANY)?;
    let mut store = opened(alloc, 0)?;
    store.put(&table, &full)?;
    assert_eq!(rt; rounds(alloc, &mut store)?, ROUNDS);
    assert!(rt; bytes_at(alloc, &store, Purpose::Read, &table)? == full);
    Ok(())
}
