// The properties of a component or of a node within it.
ghost use Rattle.std.specs.Prelude.{◌≡◌, ◌++◌, length, map, IfOk, OnOk};
ghost use Rattle.fc_tree.specs.Finding.{entries_of};
ghost use Rattle.fc_value.specs.Writing.{bare_bytes};
ghost use Rattle.fc_types.specs.declared.ty.Ty.TheViews.{out-Ty};
ghost use Rattle.fc_events.specs.Properties as spec;

use fc_base::{List, Memory};
use fc_instance::Node;
use fc_types::Ty;
use fc_value::Value;
use fc_watch::push_prop;
use fc_wire::Ilv;
use std::alloc::Global;

const ACCESS: u32 = 1;

const ENTRY_COUNT: u32 = 2;

const HIGHEST: u32 = 3;

const FIRST_UNUSED: u32 = 4;

const LENGTH: u32 = 2;

const LONGEST: u32 = 3;

// The last 32 bits of a number, which are all of a number of entries or bytes.
fn word(number: usize) -> u32
    ensures { result ≡ spec.word number }
{
    (number % 0x1_0000_0000) as u32
}

// The subscript of the last entry, and 0 without one.
fn highest(entries: &[(u32, Value)]) -> u32
    ensures { result ≡ spec.highest 0 (map (λ e. e.0) entries.now) }
{
    let mut last = 0;
    for entry in entries {
        last = entry.0;
    }
    last
}

// The least subscript that none of the entries has, where these rise.
fn first_unused(entries: &[(u32, Value)]) -> usize
    ensures { result ≡ spec.first_unused 0 (map (λ e. e.0) entries.now) }
{
    for (at, entry) in entries.iter().enumerate() {
        if entry.0 as usize != at {
            return at;
        }
    }
    entries.len()
}

// Appends the properties of an array.
fn push_array(props: &mut List<Ilv>, entries: &[(u32, Value)]) -> Result<(), Memory>
    ensures { OnOk result (props.new ≡ props.old ++ spec.array_props (map (λ e. e.0) entries.now)) }
{
    push_prop(props, ENTRY_COUNT, word(entries.len()))?;
    push_prop(props, HIGHEST, highest(entries))?;
    push_prop(props, FIRST_UNUSED, word(first_unused(entries)))
}

// Appends the properties of a text, or of octets, that may be so long.
fn push_lengths(props: &mut List<Ilv>, longest: u32, bytes: &[u8]) -> Result<(), Memory>
    ensures { OnOk result (props.new ≡ props.old ++ spec.length_props longest bytes.now) }
{
    push_prop(props, LENGTH, word(bytes.len()))?;
    push_prop(props, LONGEST, longest)
}

// The bytes of a text or of octets.
fn bytes_of(value: &Value) -> &[u8]
    ensures { result.now ≡ bare_bytes value.now }
{
    match value {
        Value::Text(text) => text.as_str().as_bytes(),
        Value::Raw(bytes) => bytes.as_slice(),
        _ => &[],
    }
}

// The entries of an array, and none of another value.
fn entries_in(value: &Value) -> &[(u32, Value)]
    ensures { result.now ≡ entries_of value.now }
{
    match value {
        Value::Table(entries) => entries.as_slice(),
        _ => &[],
    }
}

// Appends the properties that only some types have.
fn push_shape(props: &mut List<Ilv>, ty: &Ty, value: &Value) -> Result<(), Memory>
    ensures { OnOk result (props.new ≡ props.old ++ spec.shape_props value.now (out-Ty ty.now)) }
{
    match ty {
        Ty::Array { .. } => push_array(props, entries_in(value)),
        Ty::String { length } => push_lengths(props, *length, bytes_of(value)),
        Ty::Octets { length } => push_lengths(props, *length, bytes_of(value)),
        _ => Ok(()),
    }
}

/// The properties of a node in a component with these rights, by rising identifier.
pub fn value_props(alloc: Global, access: u8, ty: &Ty, value: &Value) -> Result<List<Ilv>, Memory>
    ensures { IfOk result (λ props. props ≡ spec.node_props access (ty.now, value.now)) }
{
    let mut props = List::new(alloc);
    push_prop(&mut props, ACCESS, u32::from(access))?;
    push_shape(&mut props, ty, value)?;
    Ok(props)
}

// Appends the properties that only some types have, of a node of a configuration.
fn push_node(props: &mut List<Ilv>, ty: &Ty, node: &Node<'_>) -> Result<(), Memory>
    ensures { OnOk result (props.new ≡ props.old ++ spec.shape_props node.now (out-Ty ty.now)) }
{
    match ty {
        Ty::Array { .. } => push_array(props, node.entries()),
        _ => {
            let value = node.copy(props.alloc())?;
            push_shape(props, ty, &value)
        }
    }
}

/// The same of a node of a configuration.
pub fn node_props(alloc: Global, access: u8, ty: &Ty, node: &Node<'_>) -> Result<List<Ilv>, Memory>
    ensures { IfOk result (λ props. props ≡ spec.node_props access (ty.now, node.now)) }
{
    let mut props = List::new(alloc);
    push_prop(&mut props, ACCESS, u32::from(access))?;
    push_node(&mut props, ty, node)?;
    Ok(props)
}
