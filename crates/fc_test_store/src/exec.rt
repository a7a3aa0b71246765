// Configs that are executed on a configuration: lists at their limits, and a mark around them.
use crate::library::opened;
use crate::trial::bytes_at;
use crate::words::spot;
use fc_base::{List, Memory, Octets, Shared};
use fc_exec::exec;
use fc_modes::Mode;
use fc_path::{Body, Key, Oper, OperKind, PathData, Select};
use fc_store::{Purpose, Store};
use std::alloc::Global;
use std::test::Fail;

// The class and the instance of an array of 65,536 numbers, which is its component 7, and of a port.
const TABLE: (u32, u32) = (4099, 1);

const PORT: (u32, u32) = (4097, 1);

// A path of IDs.
fn path(alloc: Global, ids: &[u32], body: Body) -> Result<PathData, Memory> {
    Ok(PathData {
        ids: List::from_slice(alloc, ids)?,
        key: None,
        body,
    })
}

fn select(
    alloc: Global,
    (class, instance): (u32, u32),
    kind: OperKind,
    paths: List<PathData>,
) -> Result<Select, Memory> {
    let mut opers = List::new(alloc);
    opers.push(Oper::Paths(kind, Shared::of(paths)?))?;
    Ok(Select {
        class,
        instance,
        opers,
    })
}

// A select of one SET.
fn set(alloc: Global, place: (u32, u32), ids: &[u32], bytes: &[u8]) -> Result<Select, Memory> {
    let mut paths = List::new(alloc);
    let value = Octets::from_slice(alloc, bytes)?;
    paths.push(path(alloc, ids, Body::Full(value))?)?;
    select(alloc, place, OperKind::Set, paths)
}

// SETs of so many entries of the table, the first with subscript 0.
fn sets(alloc: Global, count: u32) -> Result<Select, Memory> {
    let mut paths = List::new(alloc);
    for subscript in 0..count {
        let value = Octets::from_slice(alloc, &subscript.to_be_bytes())?;
        paths.push(path(alloc, &[7, subscript], Body::Full(value))?)?;
    }
    select(alloc, TABLE, OperKind::Set, paths)
}

// DELs of all entries of a full table, the last one first, and of one more.
fn dels(alloc: Global) -> Result<Select, Memory> {
    let mut paths = List::new(alloc);
    for place in 1..=65_536u32 {
        paths.push(path(alloc, &[7, 65_536 - place], Body::Nothing)?)?;
    }
    paths.push(path(alloc, &[7, 65_536], Body::Nothing)?)?;
    select(alloc, TABLE, OperKind::Del, paths)
}

// The codes of selects in a mode.
fn codes(
    alloc: Global,
    store: &mut Store,
    selects: &[Select],
    mode: Mode,
) -> Result<Vec<u8>, Memory> {
    let mut numbers = Vec::new(alloc);
    for code in exec(alloc, store, selects, mode)?.as_slice() {
        numbers.push(code.0)?;
    }
    Ok(numbers)
}

// So many times one code, another one, and so many times a third.
fn around(
    alloc: Global,
    before: (usize, u8),
    at: u8,
    after: (usize, u8),
) -> Result<Vec<u8>, Memory> {
    let mut codes = Vec::new(alloc);
    codes.resize(before.0, before.1)?;
    codes.push(at)?;
    for _ in 0..after.0 {
        codes.push(after.1)?;
    }
    Ok(codes)
}

// How many entries the table has.
fn entries(alloc: Global, store: &Store) -> Result<usize, Fail> {
    let (_, node) = store.look(&spot(alloc, "4099/1/7")?)?;
    Ok(node.entries().len())
}

// Whether in a mode selects have these codes on a new configuration, and so many entries stand in the table then.
fn leave(
    alloc: Global,
    selects: &[Select],
    mode: Mode,
    wanted: &[u8],
    left: usize,
) -> Result<bool, Fail> {
    let mut store = opened(alloc, 0)?;
    let codes = codes(alloc, &mut store, selects, mode)?;
    Ok(codes.as_slice() == wanted && entries(alloc, &store)? == left)
}

#[test]
fn a_table_is_filled_as_far_as_its_mode_goes(rt: HostRuntime) -> Result<(), Fail> {
    let alloc = rt.alloc();
    for (mode, before, after, left) in [
        (Mode::Continue, 0x00, 0x0D, 65_536),
        (Mode::UntilFailure, 0x00, 0xFF, 65_536),
        (Mode::AllOrNone, 0xFF, 0xFF, 0),
    ] {
        let wanted = around(alloc, (65_536, before), 0x0D, (1, after))?;
        assert!(rt; leave(alloc, &[sets(alloc, 65_538)?], mode, &wanted, left)?);
    }
    Ok(())
}

// Whether the entries of a full table come back, all of them, where one that is not there can't be deleted.
fn come_back(alloc: Global) -> Result<bool, Fail> {
    let mut store = opened(alloc, 0)?;
    let filled = codes(alloc, &mut store, &[sets(alloc, 65_536)?], Mode::AllOrNone)?;
    let emptied = codes(alloc, &mut store, &[dels(alloc)?], Mode::AllOrNone)?;
    let all = around(alloc, (65_535, 0x00), 0x00, (0, 0x00))?;
    let wanted = around(alloc, (65_536, 0xFF), 0x0B, (0, 0xFF))?;
    Ok(filled == all && emptied == wanted && entries(alloc, &store)? == 65_536)
}

#[test]
fn a_full_table_comes_back(rt: HostRuntime) -> Result<(), Fail> {
    assert!(rt; come_back(rt.alloc())?);
    Ok(())
}

// 1,001 selects of one SET each, of which the one in the middle names an instance that is not there.
fn selects(alloc: Global) -> Result<Vec<Select>, Memory> {
    let mut selects = Vec::new(alloc);
    for subscript in 0..1001u32 {
        let instance = if subscript == 500 { 9 } else { 1 };
        let number = subscript.to_be_bytes();
        selects.push(set(alloc, (4099, instance), &[7, subscript], &number)?)?;
    }
    Ok(selects)
}

#[test]
fn one_of_many_selects_fails(rt: HostRuntime) -> Result<(), Fail> {
    let alloc = rt.alloc();
    let selects = selects(alloc)?;
    for (mode, before, after, left) in [
        (Mode::AllOrNone, 0xFF, 0xFF, 0),
        (Mode::UntilFailure, 0x00, 0xFF, 500),
        (Mode::Continue, 0x00, 0x00, 1000),
    ] {
        let wanted = around(alloc, (500, before), 0x07, (500, after))?;
        assert!(rt; leave(alloc, &selects, mode, &wanted, left)?);
    }
    Ok(())
}

// 1,000 SETs of a field of an entry.
fn rates(alloc: Global) -> Result<List<PathData>, Memory> {
    let mut rates = List::new(alloc);
    for _ in 0..1000u32 {
        let value = Octets::from_slice(alloc, &[0, 0, 0, 7])?;
        rates.push(path(alloc, &[2], Body::Full(value))?)?;
    }
    Ok(rates)
}

// The same behind a key of 60,000 bytes, which names the entry of a port.
fn behind_a_long_key(alloc: Global) -> Result<Select, Memory> {
    let key = Key {
        ident: 1,
        value: Octets::from_vec(Vec::from_elem(alloc, 0x61, 60_000)?),
    };
    let mut paths = List::new(alloc);
    paths.push(PathData {
        ids: List::from_slice(alloc, &[4])?,
        key: Some(key),
        body: Body::Nested(rates(alloc)?),
    })?;
    select(alloc, PORT, OperKind::Set, paths)
}

#[test]
fn a_long_key_stands_in_front_of_many_leaves(rt: HostRuntime) -> Result<(), Fail> {
    let alloc = rt.alloc();
    let wanted = around(alloc, (999, 0x0E), 0x0E, (0, 0x00))?;
    assert!(rt;
        leave(
            alloc,
            &[behind_a_long_key(alloc)?],
            Mode::Continue,
            &wanted,
            0
        )?
    );
    Ok(())
}

// The codes of SETs of the speed of both ports, each a number.
fn speeds(alloc: Global, store: &mut Store, first: u8, second: u8) -> Result<Vec<u8>, Memory> {
    let selects = [
        set(alloc, PORT, &[1], &[0, 0, 0, first])?,
        set(alloc, (4097, 2), &[1], &[0, 0, 0, second])?,
    ];
    codes(alloc, store, &selects, Mode::AllOrNone)
}

// The speeds of both ports where they were set while a mark on the first one stood, which then went back; and the codes in front of them.
fn marked(alloc: Global) -> Result<Vec<u8>, Fail> {
    let mut store = opened(alloc, 0)?;
    let mut seen = speeds(alloc, &mut store, 5, 5)?;
    let mark = store.mark_for(&[PORT])?;
    seen.extend_from_slice(&speeds(alloc, &mut store, 6, 7)?)?;
    store.rollback(mark);
    for word in ["4097/1/1", "4097/2/1"] {
        let bytes = bytes_at(alloc, &store, Purpose::Read, &spot(alloc, word)?)?;
        seen.extend_from_slice(&bytes)?;
    }
    Ok(seen)
}

#[test]
fn a_mark_around_them_stands(rt: HostRuntime) -> Result<(), Fail> {
    let seen = marked(rt.alloc())?;
    assert_eq!(rt;
        seen.as_slice(),
        [0, 0, 0, 0, 0, 0, 0, 5, 0, 0, 0, 7].as_slice()
    );
    Ok(())
}
