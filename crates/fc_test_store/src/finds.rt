// Four million look-ups by key in a full table. A test has 60 seconds, which a configuration that goes over all entries for a key does not keep.
use fc_base::{List, Memory, Octets};
use fc_library::library_from_slice;
use fc_path::{Spot, Step};
use fc_store::Store;
use fc_value::Value;
use std::alloc::Global;
use std::test::Fail;

const MANY: u32 = 65_536;

const FINDS: u32 = 4_000_000;

// A table of 65,536 entries, each a name, which is a key, and a rate.
const DOCUMENT: &str = r#"
[[class]]
id = 8193
name = "Table"
component = [{ id = 1, name = "rows", type = "array", entries = 65536, keys = [{ id = 1, fields = [1] }], entry = { type = "struct", fields = [
  { id = 1, name = "name", type = "u32" },
  { id = 2, name = "rate", type = "u32" } ] } }]

[[instance]]
class = 8193
id = 1
"#;

// The name of an entry, which rises with its subscript.
fn name(subscript: u32) -> u32 {
    subscript.wrapping_mul(16)
}

// What one step leads to in the table.
fn within(alloc: Global, step: Step) -> Result<Spot, Memory> {
    let mut steps = List::new(alloc);
    steps.push(Step::Id(1))?;
    steps.push(step)?;
    Ok(Spot {
        class: 8193,
        instance: 1,
        steps,
    })
}

// The table, filled entry by entry; the rate of each is its subscript.
fn filled(alloc: Global) -> Result<Store, Fail> {
    let read = library_from_slice(alloc, DOCUMENT.as_bytes());
    let (library, instances) = read.ok().ok_or("a library")?;
    let mut store = Store::new(alloc, &library, &instances)?;
    for subscript in 1..=MANY {
        let place = within(alloc, Step::Id(subscript))?;
        let entry = u64::from(name(subscript)) * 0x1_0000_0000 + u64::from(subscript);
        store.put(&place, &entry.to_be_bytes())?;
    }
    Ok(store)
}

// Whether a value is the entry with a subscript.
fn is_entry(value: Option<&Value>, subscript: u32) -> bool {
    match value {
        Some(Value::Group(fields)) => match fields.as_slice() {
            [Value::Number(first), Value::Number(second)] => {
                *first == i128::from(name(subscript)) && *second == i128::from(subscript)
            }
            _ => false,
        },
        _ => false,
    }
}

// Whether the key of an entry leads to it.
fn leads(alloc: Global, store: &Store, subscript: u32) -> Result<bool, Memory> {
    let key = Octets::from_slice(alloc, &name(subscript).to_be_bytes())?;
    let place = within(alloc, Step::Key(1, key))?;
    match store.at(&place) {
        Ok((_, node)) => Ok(is_entry(node.value(), subscript)),
        Err(_) => Ok(false),
    }
}

// How many of so many look-ups lead to their entries.
fn found(alloc: Global, store: &Store) -> Result<u32, Memory> {
    let mut count = 0u32;
    for turn in 0..FINDS {
        if leads(alloc, store, 1 + turn % MANY)? {
            count = count.wrapping_add(1);
        }
    }
    Ok(count)
}

#[test]
fn four_million_keys_lead_to_their_entries(rt: HostRuntime) -> Result<(), Fail> {
    let alloc = rt.alloc();
    let store = filled(alloc)?;
    assert_eq!(rt; found(alloc, &store)?, FINDS);
    Ok(())
}
