// The nodes of a value, and values that are live.
ghost use Rattle.std.specs.Prelude.{◌==◌, ◌&&◌, pos, Some, None, if◌then◌else◌};
ghost use Rattle.fc_types.specs.BuiltIn.{is_live};
ghost use Rattle.fc_value.specs.declared.value.Value.TheVariants.{Number};

use fc_base::{List, Memory, Octets, Text};
use fc_types::is_live;
use fc_value::{Live, Value, node, replace_node};
use std::alloc::Global;
use std::test::Fail;

// Two values, one behind the other.
fn pair(alloc: Global, first: Value, second: Value) -> Result<Value, Memory> {
    let mut values = List::new(alloc);
    values.push(first)?;
    values.push(second)?;
    Ok(Value::Group(values))
}

// An entry of a number and a text.
fn entry(alloc: Global, number: i128, word: &str) -> Result<Value, Memory> {
    let word = Value::Text(Text::from_str(alloc, word)?);
    pair(alloc, Value::Number(number), word)
}

// A table of two such entries, and no bytes.
fn holder(alloc: Global) -> Result<Value, Memory> {
    let mut entries = List::new(alloc);
    entries.push((1, entry(alloc, 5, "")?))?;
    entries.push((0xFFFF_FFFF, entry(alloc, 6, "abcd")?))?;
    let none = Value::Raw(Octets::from_slice(alloc, &[])?);
    pair(alloc, Value::Table(entries), none)
}

// Whether nothing stands at a place, nor is anything put there.
fn is_absent(value: &mut Value, places: &[usize]) -> bool {
    node(value, places).is_none()
        && replace_node(value, places, Value::Truth(true)).err() == Some(Value::Truth(true))
}

// Whether a number stands at a place.
fn is_number(value: &Value, places: &[usize], number: i128) -> bool {
    node(value, places) == Some(&Value::Number(number))
}

// Whether the two entries hold these numbers.
fn are_numbers(value: &Value, first: i128, second: i128) -> bool {
    is_number(value, &[0, 0, 0], first) && is_number(value, &[0, 1, 0], second)
}

#[test]
fn other_places_have_no_nodes(rt: HostRuntime) -> Result<(), Fail> {
    let mut value = holder(rt.alloc())?;
    let absent: [&[usize]; 4] = [&[2], &[0, 2], &[0, 0, 0, 0], &[1, 0]];
    for places in absent {
        assert!(rt; is_absent(&mut value, places));
    }
    assert!(rt; are_numbers(&value, 5, 6));
    Ok(())
}

#[test]
fn nodes_of_values(rt: HostRuntime) -> Result<(), Fail> {
    let mut value = holder(rt.alloc())?;
    let before = replace_node(&mut value, &[0, 1, 0], Value::Number(7)).ok();
    assert!(rt; before == Some(Value::Number(6)));
    assert!(rt; are_numbers(&value, 5, 7));
    Ok(())
}

// Tells zero of each live component.
#[derive(Drop)]
struct Zeros;

impl Live for Zeros {
    ghost told = { λ zeros class instance ident. if is_live class ident && (instance == 1) then Some (Number (pos 0)) else None };

    fn component(&self, class: u32, instance: u32, ident: u32) -> Result<Option<Value>, Memory> {
        if is_live(class, ident) && instance == 1 {
            return Ok(Some(Value::Number(0)));
        }
        Ok(None)
    }
}

#[test]
fn live_values(rt: HostRuntime) -> Result<(), Fail> {
    assert!(rt; Zeros.component(1, 1, 5)? == Some(Value::Number(0)));
    for (class, instance, ident) in [(1, 1, 3), (1, 2, 5), (3, 1, 5)] {
        assert!(rt; Zeros.component(class, instance, ident)?.is_none());
    }
    Ok(())
}
