// The type that a table declares, with the tables inside it.
ghost use Rattle.std.specs.Prelude.{◌≡◌, ◌∷◌, ◌++◌, map, codes};
ghost use Rattle.toml.specs.View.{table_view, items_view};
ghost use Rattle.fc_library.specs.Gives.{Gives};
ghost use Rattle.fc_library.specs.Types as spec;

use crate::fault::LibFault;
use crate::keys::{
    integer_or, number_at, numbers_at, only, table_at, tables_at, tables_or_none, text_at,
};
use crate::names::{NumberName, TypeName, named, type_at, type_keys};
use fc_base::{Boxed, List};
use fc_types::{Field, KeyDecl, Ty};
use std::alloc::Global;
use toml::{Table, Value};

/// The type of this name, by the keys of its table and the tables inside it.
#[cycle(types)]
pub(crate) fn type_of(alloc: Global, name: TypeName, table: &Table) -> Result<Ty, LibFault>
    ensures { Gives result (spec.type_of name (table_view table.now)) }
{
    match name {
        TypeName::Bool => Ok(Ty::Bool),
        TypeName::Number(number) => number_type(alloc, number, table),
        TypeName::String => string_type(alloc, table),
        TypeName::Octets => octets_type(alloc, table),
        TypeName::Bytes => bytes_type(alloc, table),
        TypeName::Struct => struct_type(alloc, table),
        TypeName::Array => array_type(alloc, table),
    }
}

fn number_type(alloc: Global, name: NumberName, table: &Table) -> Result<Ty, LibFault>
    ensures { Gives result (spec.number_type name (table_view table.now)) }
{
    let min = integer_or(alloc, table, "min", name.least())?;
    let max = integer_or(alloc, table, "max", name.greatest())?;
    Ok(Ty::Number {
        bytes: name.width(),
        signed: name.is_signed(),
        min,
        max,
    })
}

fn string_type(alloc: Global, table: &Table) -> Result<Ty, LibFault>
    ensures { Gives result (spec.string_type (table_view table.now)) }
{
    let length = number_at(alloc, table, "length", 0, u32::MAX)?;
    Ok(Ty::String { length })
}

fn octets_type(alloc: Global, table: &Table) -> Result<Ty, LibFault>
    ensures { Gives result (spec.octets_type (table_view table.now)) }
{
    let length = number_at(alloc, table, "length", 0, u32::MAX)?;
    Ok(Ty::Octets { length })
}

fn bytes_type(alloc: Global, table: &Table) -> Result<Ty, LibFault>
    ensures { Gives result (spec.bytes_type (table_view table.now)) }
{
    let length = number_at(alloc, table, "length", 0, u32::MAX)?;
    Ok(Ty::Bytes { length })
}

#[cycle(types)]
fn struct_type(alloc: Global, table: &Table) -> Result<Ty, LibFault>
    ensures { Gives result (spec.struct_in spec.type_of (table_view table.now)) }
{
    let tables = tables_at(alloc, table, "fields")?;
    let fields = fields(alloc, tables)?;
    Ok(Ty::Struct { fields })
}

#[cycle(types)]
fn fields(alloc: Global, values: &[Value]) -> Result<List<Field>, LibFault>
    ensures { Gives result (spec.each (spec.field_in spec.type_of) (items_view values.now)) }
{
    let mut fields = List::new(alloc);
    'values: for value in values {
        let Value::Table(table) = value else {
            continue;
        };
        fields.push(field(alloc, table)?)?;
    }
    Ok(fields)
}

#[cycle(types)]
fn field(alloc: Global, table: &Table) -> Result<Field, LibFault>
    ensures { Gives result (spec.field_in spec.type_of (table_view table.now)) }
{
    only(
        alloc,
        table,
        &["id", "name", "type"],
        type_keys(named(table)),
    )?;
    let id = number_at(alloc, table, "id", 0, u32::MAX)?;
    let name = text_at(alloc, table, "name")?;
    let word = type_at(alloc, table)?;
    let ty = type_of(alloc, word, table)?;
    Ok(Field { id, name, ty })
}

#[cycle(types)]
fn array_type(alloc: Global, table: &Table) -> Result<Ty, LibFault>
    ensures { Gives result (spec.array_in spec.type_of (table_view table.now)) }
{
    let inside = table_at(alloc, table, "entry")?;
    let entries = number_at(alloc, table, "entries", 0, u32::MAX)?;
    let key_tables = tables_or_none(alloc, table, "keys")?;
    let entry = Boxed::new(alloc, entry_type(alloc, inside)?)?;
    let keys = keys(alloc, key_tables)?;
    Ok(Ty::Array {
        entry,
        entries,
        keys,
    })
}

#[cycle(types)]
fn entry_type(alloc: Global, table: &Table) -> Result<Ty, LibFault>
    ensures { Gives result (spec.entry_in spec.type_of (table_view table.now)) }
{
    only(alloc, table, &["type"], type_keys(named(table)))?;
    let word = type_at(alloc, table)?;
    type_of(alloc, word, table)
}

fn keys(alloc: Global, values: &[Value]) -> Result<List<KeyDecl>, LibFault>
    ensures { Gives result (spec.each spec.key (items_view values.now)) }
{
    let mut keys = List::new(alloc);
    'values: for value in values {
        let Value::Table(table) = value else {
            continue;
        };
        keys.push(key(alloc, table)?)?;
    }
    Ok(keys)
}

fn key(alloc: Global, table: &Table) -> Result<KeyDecl, LibFault>
    ensures { Gives result (spec.key (table_view table.now)) }
{
    only(alloc, table, &["id", "fields"], &[])?;
    let id = number_at(alloc, table, "id", 0, u32::MAX)?;
    let fields = numbers_at(alloc, table, "fields")?;
    Ok(KeyDecl { id, fields })
}
