// The classes and instances that the tables of a document declare.
ghost use Rattle.std.specs.Prelude.{◌≡◌};
ghost use Rattle.toml.specs.View.{table_view, items_view};
ghost use Rattle.fc_library.specs.Gives.{Gives};
ghost use Rattle.fc_library.specs.Declarations as spec;
ghost use Rattle.fc_library.specs.Types.{each};

use crate::fault::LibFault;
use crate::keys::{number_at, number_or, numbers_at, only, tables_or_none, text_at, truth_or};
use crate::names::{named, type_at, type_keys, when_at};
use crate::types::type_of;
use fc_base::List;
use fc_types::{Class, Component, EventDecl};
use std::alloc::Global;
use toml::{Table, Value};

/// The classes and the instances that a document's table declares.
pub(crate) fn declaration(
    alloc: Global,
    table: &Table,
) -> Result<(List<Class>, List<(u32, u32)>), LibFault>
    ensures { Gives result (spec.declaration (table_view table.now)) }
{
    only(alloc, table, &["class", "instance"], &[])?;
    let class_tables = tables_or_none(alloc, table, "class")?;
    let instance_tables = tables_or_none(alloc, table, "instance")?;
    let classes = classes(alloc, class_tables)?;
    let instances = instances(alloc, instance_tables)?;
    Ok((classes, instances))
}

/// The classes that tables declare, in their order.
pub fn classes(alloc: Global, values: &[Value]) -> Result<List<Class>, LibFault>
    ensures { Gives result (each spec.class (items_view values.now)) }
{
    let mut classes = List::new(alloc);
    'values: for value in values {
        let Value::Table(table) = value else {
            continue;
        };
        classes.push(class(alloc, table)?)?;
    }
    Ok(classes)
}

fn class(alloc: Global, table: &Table) -> Result<Class, LibFault>
    ensures { Gives result (spec.class (table_view table.now)) }
{
    only(
        alloc,
        table,
        &["id", "name", "component", "event_base", "event"],
        &[],
    )?;
    let id = number_at(alloc, table, "id", 0, u32::MAX)?;
    let name = text_at(alloc, table, "name")?;
    let component_tables = tables_or_none(alloc, table, "component")?;
    let event_base = number_or(alloc, table, "event_base", 0, u32::MAX)?;
    let event_tables = tables_or_none(alloc, table, "event")?;
    let components = components(alloc, component_tables)?;
    let events = events(alloc, event_tables)?;
    Ok(Class {
        id,
        name,
        components,
        event_base,
        events,
    })
}

fn components(alloc: Global, values: &[Value]) -> Result<List<Component>, LibFault>
    ensures { Gives result (each spec.component (items_view values.now)) }
{
    let mut components = List::new(alloc);
    'values: for value in values {
        let Value::Table(table) = value else {
            continue;
        };
        components.push(component(alloc, table)?)?;
    }
    Ok(components)
}

fn component(alloc: Global, table: &Table) -> Result<Component, LibFault>
    ensures { Gives result (spec.component (table_view table.now)) }
{
    only(
        alloc,
        table,
        &["id", "name", "type", "access", "optional"],
        type_keys(named(table)),
    )?;
    let id = number_at(alloc, table, "id", 1, u32::MAX)?;
    let name = text_at(alloc, table, "name")?;
    let word = type_at(alloc, table)?;
    let access = number_or(alloc, table, "access", 3, 3)? as u8;
    let optional = truth_or(alloc, table, "optional", false)?;
    let ty = type_of(alloc, word, table)?;
    Ok(Component {
        id,
        name,
        ty,
        access,
        optional,
    })
}

fn events(alloc: Global, values: &[Value]) -> Result<List<EventDecl>, LibFault>
    ensures { Gives result (each spec.event (items_view values.now)) }
{
    let mut events = List::new(alloc);
    'values: for value in values {
        let Value::Table(table) = value else {
            continue;
        };
        events.push(event(alloc, table)?)?;
    }
    Ok(events)
}

fn event(alloc: Global, table: &Table) -> Result<EventDecl, LibFault>
    ensures { Gives result (spec.event (table_view table.now)) }
{
    only(alloc, table, &["id", "name", "when", "target"], &[])?;
    let id = number_at(alloc, table, "id", 0, u32::MAX)?;
    let name = text_at(alloc, table, "name")?;
    let when = when_at(alloc, table)?;
    let target = numbers_at(alloc, table, "target")?;
    Ok(EventDecl {
        id,
        name,
        when,
        target,
    })
}

/// The instances that tables declare, in their order.
pub fn instances(alloc: Global, values: &[Value]) -> Result<List<(u32, u32)>, LibFault>
    ensures { Gives result (each spec.instance (items_view values.now)) }
{
    let mut instances = List::new(alloc);
    'values: for value in values {
        let Value::Table(table) = value else {
            continue;
        };
        instances.push(instance(alloc, table)?)?;
    }
    Ok(instances)
}

fn instance(alloc: Global, table: &Table) -> Result<(u32, u32), LibFault>
    ensures { Gives result (spec.instance (table_view table.now)) }
{
    only(alloc, table, &["class", "id"], &[])?;
    let class = number_at(alloc, table, "class", 0, u32::MAX)?;
    let id = number_at(alloc, table, "id", 0, u32::MAX)?;
    Ok((class, id))
}
