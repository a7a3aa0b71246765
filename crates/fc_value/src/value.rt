// Values of the declared types.
ghost use Rattle.std.specs.Prelude.{◌≡◌, IfOk};

use fc_base::{Duplicate, List, Memory, Octets, Text};

/// A value of a component, of a field or of an entry (RFC 5812, section 4.5).
#[derive(Debug, PartialEq, Eq, Drop)]
pub enum Value {
    /// A truth value.
    Truth(bool),
    /// A number.
    Number(i128),
    /// A text.
    Text(Text),
    /// Octets, or bytes of a fixed number.
    Raw(Octets),
    /// One value of each field of a struct, in the order of the fields.
    Group(List<Value>),
    /// The entries of an array by rising subscript, each with its subscript.
    Table(List<(u32, Value)>),
}

#[cycle(copy)]
fn copy_value(value: &Value) -> Result<Value, Memory>
    ensures { IfOk result (λ other. other ≡ value.now) }
{
    match value {
        Value::Truth(truth) => Ok(Value::Truth(*truth)),
        Value::Number(number) => Ok(Value::Number(*number)),
        Value::Text(text) => Ok(Value::Text(text.copy()?)),
        Value::Raw(bytes) => Ok(Value::Raw(bytes.copy()?)),
        Value::Group(values) => Ok(Value::Group(copy_values(values)?)),
        Value::Table(entries) => Ok(Value::Table(copy_entries(entries)?)),
    }
}

#[cycle(copy)]
fn copy_values(values: &List<Value>) -> Result<List<Value>, Memory>
    ensures { IfOk result (λ others. others ≡ values.now) }
{
    let mut others = List::new(values.alloc());
    for value in values.as_slice() {
        others.push(copy_value(value)?)?;
    }
    Ok(others)
}

#[cycle(copy)]
fn copy_entries(entries: &List<(u32, Value)>) -> Result<List<(u32, Value)>, Memory>
    ensures { IfOk result (λ others. others ≡ entries.now) }
{
    let mut others = List::new(entries.alloc());
    for (subscript, value) in entries.as_slice() {
        others.push((*subscript, copy_value(value)?))?;
    }
    Ok(others)
}

impl Duplicate for Value {
    fn copy(&self) -> Result<Self, Memory> {
        copy_value(self)
    }
}
