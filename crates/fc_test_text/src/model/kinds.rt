// Types, put together of others.
use fc_base::{Boxed, List, Memory, Text};
use fc_types::{Field, KeyDecl, Ty};
use std::alloc::Global;

pub(crate) fn number(bytes: u8, signed: bool, min: i128, max: i128) -> Ty {
    Ty::Number {
        bytes,
        signed,
        min,
        max,
    }
}

pub(crate) fn field(alloc: Global, id: u32, ty: Ty) -> Result<Field, Memory> {
    let name = Text::from_str(alloc, "field")?;
    Ok(Field { id, name, ty })
}

pub(crate) fn one(alloc: Global, ty: Ty) -> Result<List<Field>, Memory> {
    let mut fields = List::new(alloc);
    fields.push(field(alloc, 1, ty)?)?;
    Ok(fields)
}

pub(crate) fn two(alloc: Global, first: Ty, second: Ty) -> Result<List<Field>, Memory> {
    let mut fields = one(alloc, first)?;
    fields.push(field(alloc, 2, second)?)?;
    Ok(fields)
}

pub(crate) fn array(
    alloc: Global,
    entries: u32,
    entry: Ty,
    keys: List<KeyDecl>,
) -> Result<Ty, Memory> {
    Ok(Ty::Array {
        entry: Boxed::new(alloc, entry)?,
        entries,
        keys,
    })
}

pub(crate) fn key(alloc: Global, id: u32, fields: &[u32]) -> Result<KeyDecl, Memory> {
    let fields = List::from_slice(alloc, fields)?;
    Ok(KeyDecl { id, fields })
}
