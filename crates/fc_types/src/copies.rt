// Copies of what a maker declares.
ghost use Rattle.std.specs.Prelude.{◌≡◌, IfOk};

use crate::{Class, Component, EventDecl, Field, KeyDecl, Ty};
use fc_base::{Boxed, Duplicate, List, Memory};

impl Duplicate for KeyDecl {
    fn copy(&self) -> Result<Self, Memory> {
        Ok(KeyDecl {
            id: self.id,
            fields: self.fields.copy()?,
        })
    }
}

impl Duplicate for Ty {
    fn copy(&self) -> Result<Self, Memory> {
        copy_ty(self)
    }
}

impl Duplicate for Field {
    fn copy(&self) -> Result<Self, Memory> {
        copy_field(self)
    }
}

// An equal type of its own memory.
#[cycle(copy)]
fn copy_ty(ty: &Ty) -> Result<Ty, Memory>
    ensures { IfOk result (λ other. other ≡ ty.now) }
{
    match ty {
        Ty::Bool => Ok(Ty::Bool),
        Ty::Number {
            bytes,
            signed,
            min,
            max,
        } => Ok(Ty::Number {
            bytes: *bytes,
            signed: *signed,
            min: *min,
            max: *max,
        }),
        Ty::String { length } => Ok(Ty::String { length: *length }),
        Ty::Octets { length } => Ok(Ty::Octets { length: *length }),
        Ty::Bytes { length } => Ok(Ty::Bytes { length: *length }),
        Ty::Struct { fields } => Ok(Ty::Struct {
            fields: copy_fields(fields)?,
        }),
        Ty::Array {
            entry,
            entries,
            keys,
        } => {
            let keys = keys.copy()?;
            let entry = Boxed::new(keys.alloc(), copy_ty(entry.get())?)?;
            Ok(Ty::Array {
                entry,
                entries: *entries,
                keys,
            })
        }
    }
}

// An equal field of its own memory.
#[cycle(copy)]
fn copy_field(field: &Field) -> Result<Field, Memory>
    ensures { IfOk result (λ other. other ≡ field.now) }
{
    Ok(Field {
        id: field.id,
        name: field.name.copy()?,
        ty: copy_ty(&field.ty)?,
    })
}

// Equal fields, in their order.
#[cycle(copy)]
fn copy_fields(fields: &List<Field>) -> Result<List<Field>, Memory>
    ensures { IfOk result (λ others. others ≡ fields.now) }
{
    let mut others = List::new(fields.alloc());
    for field in fields.as_slice() {
        others.push(copy_field(field)?)?;
    }
    Ok(others)
}

impl Duplicate for Component {
    fn copy(&self) -> Result<Self, Memory> {
        Ok(Component {
            id: self.id,
            name: self.name.copy()?,
            ty: self.ty.copy()?,
            access: self.access,
            optional: self.optional,
        })
    }
}

impl Duplicate for EventDecl {
    fn copy(&self) -> Result<Self, Memory> {
        Ok(EventDecl {
            id: self.id,
            name: self.name.copy()?,
            when: self.when,
            target: self.target.copy()?,
        })
    }
}

impl Duplicate for Class {
    fn copy(&self) -> Result<Self, Memory> {
        Ok(Class {
            id: self.id,
            name: self.name.copy()?,
            components: self.components.copy()?,
            event_base: self.event_base,
            events: self.events.copy()?,
        })
    }
}
