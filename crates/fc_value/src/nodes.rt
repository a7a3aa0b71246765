// Nodes within values.
ghost use Rattle.std.specs.Prelude.{◌≡◌, ◌∷◌, option_map};
ghost use Rattle.std.specs.Option.{ok_or};
ghost use Rattle.fc_value.specs.Nodes as spec;
ghost use Rattle.fc_value.specs.Nodes.{node_at, put_at};
ghost use Rattle.fc_value.specs.declared.value.Value.TheVariants.{Group, Table};

use crate::Value;
use fc_base::List;
use std::mem;

// The value at a place of a struct or of an array.
fn child(value: &Value, at: usize) -> Option<&Value>
    ensures { option_map (λ v. v.now) result ≡ spec.child at value.now }
{
    match value {
        Value::Group(values) => values.get(at),
        Value::Table(entries) => match entries.get(at) {
            Some((_, entry)) => Some(entry),
            None => None,
        },
        _ => None,
    }
}

/// The node to which places lead, each one counted from 0 within a struct or an array; none exactly where a place is not
/// there.
pub fn node<'a>(value: &'a Value, places: &[usize]) -> Option<&'a Value>
    ensures { option_map (λ v. v.now) result ≡ node_at places.now value.now }
{
    match places {
        [] => Some(value),
        [first, rest @ ..] => node(child(value, *first)?, rest),
    }
}

/// Puts another value in the place of the node to which places lead, and gives that node; all other places stay as they
/// are. Where a place is not there nothing changes, and the other value is given back as the error.
#[cycle(replace)]
pub fn replace_node(value: &mut Value, places: &[usize], other: Value) -> Result<Value, Value>
    ensures after { value.new ≡ put_at value.old places.now other }
    ensures given { result ≡ ok_or (node_at places.now value.old) other }
{
    match places {
        [] => Ok(mem::replace(value, other)),
        [first, rest @ ..] => match value {
            Value::Group(values) => replace_in_group(values, *first, rest, other),
            Value::Table(entries) => replace_in_table(entries, *first, rest, other),
            _ => Err(other),
        },
    }
}

// Replaces a node of the value at a place of a struct.
#[cycle(replace)]
fn replace_in_group(
    values: &mut List<Value>,
    first: usize,
    rest: &[usize],
    other: Value,
) -> Result<Value, Value>
    ensures after { Group values.new ≡ put_at (Group values.old) (first ∷ rest.now) other }
    ensures given { result ≡ ok_or (node_at (first ∷ rest.now) (Group values.old)) other }
{
    match values.get_mut(first) {
        Some(value) => replace_node(value, rest, other),
        None => Err(other),
    }
}

// Replaces a node of the entry at a place of an array.
#[cycle(replace)]
fn replace_in_table(
    entries: &mut List<(u32, Value)>,
    first: usize,
    rest: &[usize],
    other: Value,
) -> Result<Value, Value>
    ensures after { Table entries.new ≡ put_at (Table entries.old) (first ∷ rest.now) other }
    ensures given { result ≡ ok_or (node_at (first ∷ rest.now) (Table entries.old)) other }
{
    match entries.get_mut(first) {
        Some(entry) => replace_node(&mut entry.1, rest, other),
        None => Err(other),
    }
}
