// What each element of a large run has beside its own classes.
ghost use Rattle.std.specs.Prelude.{◌≡◌, ◌∷◌, [], true, IfOk, OnOk};
ghost use Rattle.std.specs.List.{list_all};
ghost use Rattle.fc_types.specs.Libraries.{AreKnown, is_own};
ghost use Rattle.fc_generated.specs.Tables as spec;

use fc_base::{Boxed, List, Memory, Text};
use fc_types::{Class, Component, Field, Instances, KeyDecl, Library, Ty};
use std::alloc::Global;

/// The class of the table, of which there is one instance.
pub const TABLE: u32 = 0x2001;

// A list of one item.
fn one<T: Drop>(alloc: Global, item: T) -> Result<List<T>, Memory>
    ensures { IfOk result (λ items. items ≡ item ∷ []) }
{
    let mut items = List::new(alloc);
    items.push(item)?;
    Ok(items)
}

// A field that is a number of 32 bits.
fn field(alloc: Global, id: u32, name: &str) -> Result<Field, Memory>
    ensures { IfOk result (λ field. field ≡ spec.field id name.now) }
{
    Ok(Field {
        id,
        name: Text::from_str(alloc, name)?,
        ty: Ty::Number {
            bytes: 4,
            signed: false,
            min: 0,
            max: 0xFFFF_FFFF,
        },
    })
}

// A row: a name and a rate.
fn row(alloc: Global) -> Result<Ty, Memory>
    ensures { IfOk result (λ ty. ty ≡ spec.row) }
{
    let mut fields = List::new(alloc);
    fields.push(field(alloc, 1, "name")?)?;
    fields.push(field(alloc, 2, "rate")?)?;
    Ok(Ty::Struct { fields })
}

// The key of a row: its name.
fn by_name(alloc: Global) -> Result<KeyDecl, Memory>
    ensures { IfOk result (λ key. key ≡ spec.by_name) }
{
    let fields = one(alloc, 1)?;
    Ok(KeyDecl { id: 1, fields })
}

fn rows(alloc: Global) -> Result<Ty, Memory>
    ensures { IfOk result (λ ty. ty ≡ spec.rows) }
{
    Ok(Ty::Array {
        entry: Boxed::new(alloc, row(alloc)?)?,
        entries: 65_536,
        keys: one(alloc, by_name(alloc)?)?,
    })
}

fn rates(alloc: Global) -> Result<Component, Memory>
    ensures { IfOk result (λ component. component ≡ spec.rates) }
{
    Ok(Component {
        id: 1,
        name: Text::from_str(alloc, "rates")?,
        ty: rows(alloc)?,
        access: 3,
        optional: false,
    })
}

fn table(alloc: Global) -> Result<Class, Memory>
    ensures { IfOk result (λ class. class ≡ spec.table) }
{
    Ok(Class {
        id: TABLE,
        name: Text::from_str(alloc, "Rates")?,
        components: one(alloc, rates(alloc)?)?,
        event_base: 0,
        events: List::new(alloc),
    })
}

/// The library of the one class, and its one instance.
pub(crate) fn declared(alloc: Global) -> Result<(Library, Instances), Memory>
    ensures classes { IfOk result (λ r. r.0 ≡ spec.table ∷ []) }
    ensures instances { IfOk result (λ r. r.1 ≡ spec.instance ∷ []) }
    ensures known { IfOk result (λ r. AreKnown r.0 r.1) }
    ensures own { IfOk result (λ r. list_all is_own r.0 ≡ true) }
{
    let classes = one(alloc, table(alloc)?)?;
    let instances = one(alloc, (TABLE, 1))?;
    match Library::check(classes.into_vec(), instances.into_vec()) {
        Ok(declared) => Ok(declared),
        Err(_) => Err(Memory),
    }
}
